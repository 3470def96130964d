//! `use`, `unuse` and `is-loaded`, and the working directory from which relative paths are taken.
ghost use Rattle.std.specs.Prelude.{◌≡◌, map, string_bytes, codes, true, IfErr, IfOk};
ghost use Rattle.std.specs.Option.{option_map};
ghost use Rattle.envvars.specs.Texts.{texts_in};
ghost use Rattle.module_subcommands.specs.Edits as spec;
ghost use Rattle.module_words.specs.function.Asked.{command_view};

use crate::asking::Asking;
use crate::refusal::Refusal;
use crate::reply::Reply;
use crate::site::working_directory;
use envvars::Vars;
use message::RefusalKind;
use module_words::function::{AskedCommand, function_output};
use module_words::subcommands::Subcommand;
use std::alloc::{AllocError, Global};

/// The working directory from which relative paths are taken.
pub(crate) fn directory_of(alloc: Global, asking: &Asking) -> Result<Option<&str>, AllocError>
    ensures { IfOk result (λ found. option_map (λ path. path.now) found ≡ spec.directory_of asking.entry.now) }
{
    working_directory(alloc, asking.env.get("PWD"), &asking.site)
}

/// Refuses a MODULEPATH that isn't UTF-8 (37), which would be taken for one that isn't set.
pub(crate) fn judge_modulepath(asking: &Asking) -> Result<(), Refusal<'static>>
    ensures text { IfOk result (λ u. asking.now.site.has_text_modulepath ≡ true) }
    ensures refused { IfErr result (spec.RefusesText asking.now.site.has_text_modulepath) }
{
    if asking.site.has_text_modulepath {
        Ok(())
    } else {
        Err(Refusal::Numbered(RefusalKind::BadValue.naming("MODULEPATH")))
    }
}

/// `use` and `unuse` with directories.
pub fn edit<'a>(
    alloc: Global,
    asking: &Asking,
    command: &'a AskedCommand,
) -> Result<Reply, Refusal<'a>>
    ensures edits { IfOk result (spec.Edits asking.now (command_view command.entry.now)) }
    ensures refused { IfErr result (spec.RefusesEdit asking.now (command_view command.entry.now)) }
{
    judge_modulepath(asking)?;
    let working = directory_of(alloc, asking)?;
    let output = function_output(
        alloc,
        asking.shell,
        command.subcommand,
        command.words.as_slice(),
        &asking.env,
        working,
    )?;
    Ok(Reply::Searched {
        added: output.added,
        text: output.text,
    })
}

/// `is-loaded`.
pub fn is_loaded<'a>(
    alloc: Global,
    asking: &Asking,
    words: &'a [String],
) -> Result<Reply, Refusal<'a>>
    ensures tests { IfOk result (spec.TestsLoaded asking.now (map string_bytes words.entry.now)) }
    ensures refused { IfErr result (spec.RefusesTest asking.now (map string_bytes words.entry.now)) }
{
    let (subcommand, env) = (Subcommand::IsLoaded, &asking.env);
    let output = function_output(alloc, asking.shell, subcommand, words, env, None)?;
    Ok(Reply::Truth(output.status == 0))
}
