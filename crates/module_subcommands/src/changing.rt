//! What a load or an unload answers: as `modulecmd` does it, or with what the names need, or what needs them.
ghost use Rattle.std.specs.Prelude.{◌≡◌, ◌<◌, ◌∷◌, [], map, string_bytes, IfErr, IfOk};
ghost use Rattle.envvars.specs.Changes.{new_values_in};
ghost use Rattle.envvars.specs.Texts.{texts_in};
ghost use Rattle.filetree.specs.Agreement.{ReadsOn};
ghost use Rattle.module_words.specs.subcommands.Subcommands.{name_of};
ghost use Rattle.module_subcommands.specs.Automated.{LoadStep, LoadsAutomatically, UnloadStep, UnloadsAutomatically, automated_of};
ghost use Rattle.module_subcommands.specs.Changes.{IsAccepted, IsRefusedChange, RequestedStep};

use crate::asking::Asking;
use crate::refusal::Refusal;
use crate::requesting::{Requested, request_done, request_words};
use envstate::loaded_list::loaded;
use envvars::{Change, Env};
use filetree::Tree;
use module_auto::{
    AutomaticAnswer, load_automatically, loading_line, unload_automatically, unloading_line,
};
use module_words::function::AskedCommand;
use modules::{RequestChanges, STANDARD_LIMITS};
use shelltext::Shell;
use std::alloc::Global;

/// What is accepted.
#[derive(Drop)]
pub struct Accepted {
    /// What is said of modules that were put in.
    pub said: String,
    /// The messages of modulefiles.
    pub messages: Vec<String>,
    /// The text for the shell.
    pub text: String,
    /// The changes that the text says.
    pub changes: Vec<Change>,
}

/// What an automated load or unload did.
#[derive(Drop)]
pub(crate) struct Automated {
    /// What is accepted.
    pub(crate) accepted: Accepted,
    /// The names of the whole.
    pub(crate) names: Vec<String>,
}

/// A request that is accepted, of which nothing is said.
fn as_accepted(alloc: Global, requested: Requested) -> Accepted
    ensures said { string_bytes result.said ≡ [] }
    ensures messages { texts_in result.messages ≡ texts_in requested.changed.done.messages }
    ensures text { string_bytes result.text ≡ string_bytes requested.text }
    ensures changes { new_values_in result.changes ≡ new_values_in requested.changed.changes }
{
    let Requested { changed, text } = requested;
    let RequestChanges { changes, done } = changed;
    Accepted {
        said: String::new(alloc),
        messages: done.messages,
        text,
        changes,
    }
}

/// What the command does as `modulecmd` does it.
pub(crate) fn by_request<T: Tree>(
    alloc: Global,
    asking: &Asking,
    command: &AskedCommand,
    tree: &mut T,
) -> Result<Accepted, Refusal<'static>>
    ensures reads { ReadsOn T.agrees T.failures tree.old tree.new }
    ensures accepted { IfOk result (IsAccepted (T.agrees tree.new) asking.now.shell asking.now.env
        (RequestedStep asking.now.shell asking.now.env
        (name_of command.now.subcommand ∷ texts_in command.now.words))) }
    ensures silent { IfOk result (λ a. string_bytes a.said ≡ []) }
    ensures refused { IfErr result (IsRefusedChange (T.agrees tree.new) (T.failures tree.old < T.failures tree.new)
        asking.now.shell asking.now.env (RequestedStep asking.now.shell asking.now.env
        (name_of command.now.subcommand ∷ texts_in command.now.words))) }
{
    let names = command.words.as_slice();
    let words = request_words(alloc, command.subcommand, names)?;
    let all = words.as_slice();
    let requested = request_done(alloc, asking, all, tree)?;
    Ok(as_accepted(alloc, requested))
}

/// An automated answer, with what is said of it.
fn with_line(said: String, answer: AutomaticAnswer) -> Automated
    ensures { result ≡ automated_of said answer }
{
    Automated {
        accepted: Accepted {
            said,
            messages: answer.messages,
            text: answer.text,
            changes: answer.changes,
        },
        names: answer.names,
    }
}

/// What the load of these names does with what they need.
pub(crate) fn by_automated_load<T: Tree>(
    alloc: Global,
    shell: Shell,
    env: &Env,
    names: &[String],
    tree: &mut T,
) -> Result<Automated, Refusal<'static>>
    ensures reads { ReadsOn T.agrees T.failures tree.old tree.new }
    ensures loads { IfOk result (LoadsAutomatically (T.agrees tree.new) shell env.now (map string_bytes names.now)) }
    ensures refused { IfErr result (IsRefusedChange (T.agrees tree.new) (T.failures tree.old < T.failures tree.new)
        shell env.now (LoadStep shell env.now (map string_bytes names.now))) }
{
    let answer = load_automatically(alloc, shell, names, env, tree, STANDARD_LIMITS)?;
    let said = loading_line(alloc, names, &answer)?;
    Ok(with_line(said, answer))
}

/// What the unload of these names does with what needs them.
pub(crate) fn by_automated_unload<T: Tree>(
    alloc: Global,
    shell: Shell,
    env: &Env,
    names: &[String],
    tree: &mut T,
) -> Result<Automated, Refusal<'static>>
    ensures reads { ReadsOn T.agrees T.failures tree.old tree.new }
    ensures unloads { IfOk result (
        UnloadsAutomatically (T.agrees tree.new) shell env.now (map string_bytes names.now)) }
    ensures refused { IfErr result (IsRefusedChange (T.agrees tree.new) (T.failures tree.old < T.failures tree.new)
        shell env.now (UnloadStep shell env.now (map string_bytes names.now))) }
{
    let entries = loaded(alloc, env)?;
    let answer = unload_automatically(alloc, shell, names, env, tree, STANDARD_LIMITS)?;
    let said = unloading_line(alloc, entries.as_slice(), names, &answer)?;
    Ok(with_line(said, answer))
}
