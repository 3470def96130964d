//! The commands that load, unload, switch and purge.
ghost use Rattle.std.specs.Prelude.{◌≡◌, ◌<◌, map, string_bytes, IfErr, IfOk};
ghost use Rattle.envvars.specs.Changes.{new_values_in};
ghost use Rattle.envvars.specs.Texts.{texts_in};
ghost use Rattle.filetree.specs.Agreement.{ReadsOn};
ghost use Rattle.module_words.specs.function.Asked.{command_view};
ghost use Rattle.module_words.specs.function.Moved.{moved_view};
ghost use Rattle.module_subcommands.specs.Afters.{after_view};
ghost use Rattle.module_subcommands.specs.Moves as spec;
ghost use Rattle.module_subcommands.specs.Moves.{AcceptsMove, IsRefusedMove, MovesModules};

use crate::after::after_one;
use crate::asking::Asking;
use crate::changing::{Accepted, by_automated_load, by_automated_unload, by_request};
use crate::refusal::Refusal;
use crate::reply::{After, ChangedModules, Reply};
use envstate::loaded_list::loaded_if_consistent;
use envvars::Env;
use filetree::Tree;
use module_reports::listings::unload_hints;
use module_words::function::{AskedCommand, MovedNames, moved_names};
use module_words::subcommands::Subcommand;
use std::alloc::{AllocError, Global};

/// What is said of names that were to be unloaded: which loaded modules have longer ones.
///
/// Errors: memory runs out.
pub fn hints_on(alloc: Global, env: &Env, names: &[String]) -> Result<String, AllocError>
    ensures { IfOk result (λ lines. string_bytes lines ≡ spec.hints_on env.now (map string_bytes names.now)) }
{
    match loaded_if_consistent(alloc, env)? {
        Some(entries) => unload_hints(alloc, entries.as_slice(), names),
        None => Ok(String::new(alloc)),
    }
}

/// What is said of names behind an unload that found nothing; nothing behind other commands.
fn hints_behind(
    alloc: Global,
    asking: &Asking,
    subcommand: Subcommand,
    names: &[String],
    text: &str,
) -> Result<String, AllocError>
    ensures { IfOk result (λ lines. string_bytes lines
        ≡ spec.hints_behind asking.now.env subcommand (map string_bytes names.now) text.now) }
{
    if subcommand != Subcommand::Unload || !text.is_empty() {
        return Ok(String::new(alloc));
    }
    hints_on(alloc, &asking.env, names)
}

/// Whether the subcommand is a load.
fn is_load(subcommand: Subcommand) -> bool
    ensures { result ≡ spec.is_load subcommand }
{
    match subcommand {
        Subcommand::Load => true,
        _ => false,
    }
}

/// What an automated load or unload of these names does.
fn accepted_automated<T: Tree>(
    alloc: Global,
    asking: &Asking,
    subcommand: Subcommand,
    names: &[String],
    tree: &mut T,
) -> Result<Accepted, Refusal<'static>>
    ensures reads { ReadsOn T.agrees T.failures tree.old tree.new }
    ensures accepted { IfOk result (spec.AcceptsAutomated (T.agrees tree.new) asking.now.shell asking.now.env
        (spec.is_load subcommand) (map string_bytes names.now)) }
    ensures refused { IfErr result (spec.RefusesAutomated (T.agrees tree.new)
        (T.failures tree.old < T.failures tree.new) asking.now.shell asking.now.env (spec.is_load subcommand)
        (map string_bytes names.now)) }
{
    if is_load(subcommand) {
        let load = by_automated_load(alloc, asking.shell, &asking.env, names, tree)?;
        return Ok(load.accepted);
    }
    let unload = by_automated_unload(alloc, asking.shell, &asking.env, names, tree)?;
    Ok(unload.accepted)
}

/// What the command does with these names: as `modulecmd` does it, or automated.
fn accepted_move<T: Tree>(
    alloc: Global,
    asking: &Asking,
    command: &AskedCommand,
    moved: MovedNames<'_>,
    tree: &mut T,
) -> Result<Accepted, Refusal<'static>>
    ensures reads { ReadsOn T.agrees T.failures tree.old tree.new }
    ensures accepted { IfOk result (AcceptsMove (T.agrees tree.new) asking.now.shell asking.now.env
        (command_view command.now) (moved_view moved.entry)) }
    ensures refused { IfErr result (IsRefusedMove (T.agrees tree.new) (T.failures tree.old < T.failures tree.new)
        asking.now.shell asking.now.env (command_view command.now) (moved_view moved.entry)) }
{
    if moved.is_automatic {
        return accepted_automated(alloc, asking, command.subcommand, moved.names, tree);
    }
    by_request(alloc, asking, command, tree)
}

/// Whether it is a load of nothing.
fn is_empty_load(subcommand: Subcommand, names: &[String]) -> bool
    ensures { result ≡ spec.is_empty_load subcommand (map string_bytes names.now) }
{
    is_load(subcommand) && names.is_empty()
}

/// What is answered of what is accepted.
pub fn changed(accepted: Accepted, after: After, hints: String) -> ChangedModules
    ensures { spec.changed_view result ≡ spec.answer_with accepted (after_view after) (string_bytes hints) }
{
    ChangedModules {
        said: accepted.said,
        messages: accepted.messages,
        text: accepted.text,
        after,
        hints,
    }
}

/// What is answered of a command that did this with these names.
fn reply_of(
    alloc: Global,
    asking: &Asking,
    command: &AskedCommand,
    names: &[String],
    accepted: Accepted,
) -> Result<Reply, AllocError>
    ensures { IfOk result (spec.IsReplyTo asking.now (command_view command.now) (map string_bytes names.now) accepted) }
{
    let text = accepted.text.as_str();
    let hints = hints_behind(alloc, asking, command.subcommand, names, text)?;
    let after = after_one(alloc, asking, accepted.changes.as_slice(), command)?;
    Ok(Reply::Changed(changed(accepted, after, hints)))
}

/// Loads, unloads, switches or purges. A load of nothing answers nothing.
pub fn move_modules<'a, T: Tree>(
    alloc: Global,
    asking: &Asking,
    command: &'a AskedCommand,
    tree: &mut T,
) -> Result<Reply, Refusal<'a>>
    ensures reads { ReadsOn T.agrees T.failures tree.old tree.new }
    ensures moved { IfOk result (
        MovesModules (T.agrees tree.new) asking.now (command_view command.entry.now)) }
    ensures refused { IfErr result (spec.RefusesMove (T.agrees tree.new) (T.failures tree.old < T.failures tree.new)
        asking.now (command_view command.entry.now)) }
{
    let words = command.words.as_slice();
    let moved = moved_names(command.subcommand, &asking.env, words)?;
    if is_empty_load(command.subcommand, moved.names) {
        return Ok(Reply::Nothing);
    }
    let accepted = accepted_move(alloc, asking, command, moved, tree)?;
    Ok(reply_of(alloc, asking, command, moved.names, accepted)?)
}
