//! The command that forgets modules, and when it is named behind a refusal.
ghost use Rattle.std.specs.Prelude.{◌≡◌, ◌<◌, string_bytes, IfErr, IfOk};
ghost use Rattle.filetree.specs.Agreement.{ReadsOn};
ghost use Rattle.module_words.specs.function.Asked.{command_view};
ghost use Rattle.module_commands.specs.Explanations.{explained_view};
ghost use Rattle.module_commands.specs.Forgettings as spec;
ghost use Rattle.module_commands.specs.Forgettings.{ForgetsModules, IsWayOutOf, RefusesForget, is_by_gone};

use crate::explaining::{Explained, is_unwanted};
use filetree::Tree;
use module_auto::RequestFault;
use module_restore::KeepFault;
use module_restore::forgetting::{
    ForgetFault, Forgotten, forget, forgotten_line, way_out, way_out_line,
};
use module_subcommands::after::after_one;
use module_subcommands::changing::Accepted;
use module_subcommands::moving::changed;
use module_subcommands::reply::{Reply, own_line};
use module_subcommands::{Asking, Refusal};
use module_words::function::{AskedCommand, forgotten_names};
use modules::Refusal as RequestRefusal;
use std::alloc::{AllocError, Global};

/// What is answered where modules were forgotten.
fn reply_of(
    alloc: Global,
    asking: &Asking,
    command: &AskedCommand,
    forgotten: Forgotten,
) -> Result<Reply, AllocError>
    ensures { IfOk result (spec.IsForgottenReply asking.now (command_view command.now) forgotten) }
{
    let Forgotten {
        names,
        text,
        changes,
    } = forgotten;
    let said = forgotten_line(alloc, names.as_slice())?;
    let after = after_one(alloc, asking, changes.as_slice(), command)?;
    let accepted = Accepted {
        said,
        messages: Vec::new(alloc),
        text,
        changes,
    };
    Ok(Reply::Changed(changed(accepted, after, String::new(alloc))))
}

/// Forgets modules.
pub(crate) fn forget_modules<'a, T: Tree>(
    alloc: Global,
    asking: &Asking,
    command: &'a AskedCommand,
    tree: &mut T,
) -> Result<Reply, Refusal<'a>>
    ensures reads { ReadsOn T.agrees T.failures tree.old tree.new }
    ensures forgets { IfOk result (
        ForgetsModules (T.agrees tree.new) asking.now (command_view command.entry.now)) }
    ensures refused { IfErr result (RefusesForget (T.agrees tree.new) (T.failures tree.old < T.failures tree.new)
        asking.now (command_view command.entry.now)) }
{
    let asked = forgotten_names(command.words.as_slice())?;
    let (shell, env) = (asking.shell, &asking.env);
    let forgotten = forget(alloc, shell, asked.settings_stay, asked.names, env, tree)?;
    Ok(reply_of(alloc, asking, command, forgotten)?)
}

/// Whether a request is refused since the file of a loaded module is gone.
fn is_of_gone(refusal: &RequestRefusal) -> bool
    ensures { result ≡ spec.is_of_gone refusal.now }
{
    match refusal {
        RequestRefusal::FileGone(_) => true,
        _ => false,
    }
}

/// Whether a command is refused since the file of a loaded module is gone.
fn is_by_gone(refusal: &Refusal<'_>) -> bool
    ensures { result ≡ spec.is_by_gone refusal.now }
{
    match refusal {
        Refusal::Requested(RequestFault::Refused(refusal))
        | Refusal::Restore(RequestFault::Refused(refusal))
        | Refusal::Keep(KeepFault::Refused(refusal)) => is_of_gone(refusal),
        _ => false,
    }
}

/// The line that says how to forget the modules whose files are gone, behind a refusal for that reason; nothing behind
/// others.
///
/// It fails where they wouldn't be forgotten.
fn way_out_of<T: Tree>(
    alloc: Global,
    asking: &Asking,
    refusal: &Refusal<'_>,
    tree: &mut T,
) -> Result<String, ForgetFault>
    ensures reads { ReadsOn T.agrees T.failures tree.old tree.new }
    ensures said { IfOk result (λ lines.
        IsWayOutOf (T.agrees tree.new) asking.now (is_by_gone refusal.now) (string_bytes lines)) }
{
    if !is_by_gone(refusal) {
        return Ok(String::new(alloc));
    }
    match way_out(alloc, asking.shell, &asking.env, tree)? {
        Some(names) => {
            let line = way_out_line(alloc, names.as_slice())?;
            Ok(own_line(alloc, asking.site.streams.error, line)?)
        }
        None => Ok(String::new(alloc)),
    }
}

/// What explains a refusal, with the way out behind it, where the user wants that and one is found.
pub(crate) fn with_way_out<T: Tree>(
    alloc: Global,
    asking: &Asking,
    refusal: &Refusal<'_>,
    explained: Explained,
    tree: &mut T,
) -> Result<Explained, AllocError>
    ensures reads { ReadsOn T.agrees T.failures tree.old tree.new }
    ensures behind { IfOk result (λ more. spec.IsWithWayOut (T.agrees tree.new) asking.now refusal.now
        (explained_view explained) (explained_view more)) }
{
    if is_unwanted(&asking.env) {
        return Ok(explained);
    }
    let Ok(line) = way_out_of(alloc, asking, refusal, tree) else {
        return Ok(explained);
    };
    let mut more = explained;
    more.lines.push_str(line.as_str())?;
    Ok(more)
}
