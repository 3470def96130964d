//! The command of a subcommand: which call answers it.
ghost use Rattle.std.specs.Prelude.{IfOk};
ghost use Rattle.envvars.specs.Texts.{texts_in};
ghost use Rattle.module_words.specs.function.Asked.{command_view};
ghost use Rattle.module_commands.specs.Commands as spec;

use crate::forgetting::forget_modules;
use filetree::Tree;
use filetree::hiding::HidingTree;
use module_collections::files::Storage;
use module_subcommands::collections::{
    list_saved, reload_modules, remove_saved, restore_saved, save_modules, show_saved,
};
use module_subcommands::describing::{
    describe_all, describe_sought, help_on, report_modules, say_usage, say_version,
};
use module_subcommands::editing::{edit, is_loaded};
use module_subcommands::listing::{
    is_one_available, report_available, report_directories, report_loaded,
};
use module_subcommands::moving::move_modules;
use module_subcommands::reply::Reply;
use module_subcommands::reporting::{Destination, destination_of};
use module_subcommands::{Asking, Refusal};
use module_words::function::AskedCommand;
use module_words::protocol::Place;
use module_words::subcommands::{Subcommand, USAGE, VERSION};
use std::alloc::Global;

/// What `whatis` answers: without words it describes all modules.
fn answer_whatis<T: Tree + Drop>(
    alloc: Global,
    asking: &Asking,
    place: Place,
    command: &AskedCommand,
    tree: &mut T,
    readable: &mut HidingTree<T>,
) -> Result<Reply, Refusal<'static>>
    ensures { IfOk result (spec.AnswersWhatis (T.agrees tree.new) (T.agrees readable.new.tree)
        (T.failed readable.new.tree) (T.failures readable.new.tree) asking.now place
        (texts_in command.now.words) (command_view command.now)) }
{
    match command.words.as_slice() {
        [] => describe_all(alloc, asking, place, None, readable),
        _ => report_modules(alloc, asking, place, command, tree),
    }
}

/// What `use` answers: without words it lists the directories.
fn answer_use<'a>(
    alloc: Global,
    asking: &Asking,
    place: Place,
    command: &'a AskedCommand,
) -> Result<Reply, Refusal<'a>>
    ensures { IfOk result (spec.AnswersUse asking.now place (texts_in command.entry.now.words)
        (command_view command.entry.now)) }
{
    match command.words.as_slice() {
        [] => Ok(report_directories(alloc, asking, place)?),
        _ => edit(alloc, asking, command),
    }
}

/// What `help` answers: without words it says how the functions are called.
fn answer_help<T: Tree>(
    alloc: Global,
    asking: &Asking,
    place: Place,
    command: &AskedCommand,
    tree: &mut T,
) -> Result<Reply, Refusal<'static>>
    ensures { IfOk result (spec.AnswersHelp (T.agrees tree.new) USAGE.now asking.now place
        (texts_in command.now.words)) }
{
    match command.words.as_slice() {
        [] => Ok(say_usage(alloc, asking, place)?),
        words => help_on(alloc, asking, place, words, tree),
    }
}

/// What a command answers whose report goes there.
fn answer_at<'a, T: Tree + Drop, S: Storage>(
    alloc: Global,
    asking: &Asking,
    to: Destination,
    command: &'a AskedCommand,
    tree: &mut T,
    readable: &mut HidingTree<T>,
    storage: &mut S,
) -> Result<Reply, Refusal<'a>>
    ensures { IfOk result (spec.AnswersAt (T.agrees tree.new) (T.agrees readable.new.tree)
        (T.failed readable.new.tree) (T.failures readable.old.tree) (T.failures readable.new.tree)
        (S.agrees storage.old) (S.agrees storage.new) USAGE.now VERSION.now asking.now to
        (command_view command.entry.now)) }
{
    let words = command.words.as_slice();
    match command.subcommand {
        Subcommand::Load | Subcommand::Unload | Subcommand::Switch | Subcommand::Purge => {
            move_modules(alloc, asking, command, tree)
        }
        Subcommand::Reload => reload_modules(alloc, asking, command, tree),
        Subcommand::Forget => forget_modules(alloc, asking, command, tree),
        Subcommand::List => report_loaded(alloc, asking, to, words),
        Subcommand::Avail => report_available(alloc, asking, to, words, readable),
        Subcommand::Show => report_modules(alloc, asking, to.place, command, tree),
        Subcommand::Whatis => answer_whatis(alloc, asking, to.place, command, tree, readable),
        Subcommand::Keyword => describe_sought(alloc, asking, to.place, words, readable),
        Subcommand::IsAvail => is_one_available(alloc, asking, words, readable),
        Subcommand::IsLoaded => is_loaded(alloc, asking, words),
        Subcommand::Use => answer_use(alloc, asking, to.place, command),
        Subcommand::Unuse => edit(alloc, asking, command),
        Subcommand::Save => save_modules(alloc, asking, words, tree, storage),
        Subcommand::Restore => restore_saved(alloc, asking, command, tree, storage),
        Subcommand::SaveList => list_saved(alloc, asking, to.place, words, storage),
        Subcommand::SaveShow => show_saved(alloc, asking, to.place, words, storage),
        Subcommand::SaveRemove => remove_saved(alloc, asking, words, storage),
        Subcommand::Help => answer_help(alloc, asking, to.place, command, tree),
        Subcommand::Version => Ok(say_version(alloc, to.place)?),
    }
}

/// What a command answers. A report that the program can't bring to its place is left to the function before anything is
/// read.
pub(crate) fn answer_of<'a, T: Tree + Drop, S: Storage>(
    alloc: Global,
    asking: &Asking,
    command: &'a AskedCommand,
    tree: &mut T,
    readable: &mut HidingTree<T>,
    storage: &mut S,
) -> Result<Reply, Refusal<'a>>
    ensures { IfOk result (spec.AnswersCommand (T.agrees tree.new) (T.agrees readable.new.tree)
        (T.failed readable.new.tree) (T.failures readable.old.tree) (T.failures readable.new.tree)
        (S.agrees storage.old) (S.agrees storage.new) USAGE.now VERSION.now asking.now
        (command_view command.entry.now)) }
{
    let to = destination_of(asking, command.subcommand, command.words.as_slice());
    if to.place == Place::Elsewhere {
        return Ok(Reply::Paged(String::new(alloc)));
    }
    answer_at(alloc, asking, to, command, tree, readable, storage)
}
