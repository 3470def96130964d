//! The program that a site has behind commands.
ghost use Rattle.std.specs.Prelude.{◌≡◌, map, string_bytes, IfOk};
ghost use Rattle.std.specs.Option.{option_map};
ghost use Rattle.envvars.specs.Changes.{new_value_of};
ghost use Rattle.envvars.specs.Texts.{texts_in};
ghost use Rattle.module_words.specs.function.Asked.{command_view};
ghost use Rattle.module_subcommands.specs.Afters as spec;

use crate::asking::Asking;
use crate::reply::After;
use crate::site::site_path;
use envvars::Change;
use module_words::function::AskedCommand;
use module_words::protocol::{Asker, after_line, changes_list};
use shelltext::Shell;
use std::alloc::{AllocError, Global};

/// Whether no function asks.
fn is_script(asker: Asker) -> bool
    ensures { result ≡ spec.is_script asker }
{
    match asker {
        Asker::Script => true,
        Asker::Handing(_) | Asker::Unhanding => false,
    }
}

/// Where the program lies that starts behind these changes: nowhere for scripts, and where the list of loaded modules
/// stays.
fn program_behind(
    alloc: Global,
    asking: &Asking,
    changes: &[Change],
) -> Result<Option<String>, AllocError>
    ensures { IfOk result (λ found. option_map string_bytes found ≡ spec.program_behind asking.now.asker
        (option_map string_bytes asking.now.site.called_as) (map new_value_of changes.now)) }
{
    if is_script(asking.asker) || !changes_list(changes) {
        return Ok(None);
    }
    site_path(alloc, asking.site.called_as.as_deref(), "etc/after")
}

/// The line that starts the program behind a command; nothing without a program.
fn line_of(
    alloc: Global,
    shell: Shell,
    program: Option<&str>,
    command: &AskedCommand,
) -> Result<String, AllocError>
    ensures { IfOk result (λ line. string_bytes line ≡ spec.line_of shell
        (option_map (λ path. path.now) program.entry) command.now.subcommand (texts_in command.now.words)) }
{
    match program {
        Some(path) => after_line(
            alloc,
            shell,
            path,
            command.subcommand,
            command.words.as_slice(),
        ),
        None => Ok(String::new(alloc)),
    }
}

/// What starts the site's program behind a command that makes these changes.
///
/// Errors: memory runs out.
pub fn after_one(
    alloc: Global,
    asking: &Asking,
    changes: &[Change],
    command: &AskedCommand,
) -> Result<After, AllocError>
    ensures { IfOk result (λ after. spec.after_view after ≡ spec.after_one asking.now
        (map new_value_of changes.now) (command_view command.now)) }
{
    let program = program_behind(alloc, asking, changes)?;
    let lines = line_of(alloc, asking.shell, program.as_deref(), command)?;
    Ok(After { program, lines })
}

/// What starts the site's program behind two commands that make these changes.
pub(crate) fn after_both(
    alloc: Global,
    asking: &Asking,
    changes: &[Change],
    first: &AskedCommand,
    second: &AskedCommand,
) -> Result<After, AllocError>
    ensures { IfOk result (λ after. spec.after_view after ≡ spec.after_both asking.now
        (map new_value_of changes.now) (command_view first.now) (command_view second.now)) }
{
    let program = program_behind(alloc, asking, changes)?;
    let mut lines = line_of(alloc, asking.shell, program.as_deref(), first)?;
    let others = line_of(alloc, asking.shell, program.as_deref(), second)?;
    lines.push_str(others.as_str())?;
    Ok(After { program, lines })
}
