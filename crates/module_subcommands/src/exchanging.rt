//! An unload and a load by `ml`, all or nothing.
ghost use Rattle.std.specs.Prelude.{◌≡◌, ◌<◌, ◌++◌, [], map, string_bytes, IfErr, IfOk};
ghost use Rattle.envvars.specs.Texts.{texts_in};
ghost use Rattle.filetree.specs.Agreement.{InEachPair, ReadsOn};
ghost use Rattle.module_words.specs.function.Asked.{command_view};
ghost use Rattle.module_words.specs.function.Moved.{moved_view};
ghost use Rattle.module_subcommands.specs.Changes.{IsAccepted, IsRefusedChange};
ghost use Rattle.module_subcommands.specs.Exchanges as spec;
ghost use Rattle.module_subcommands.specs.Moves.{hints_on};
ghost use Rattle.module_subcommands.specs.Exchanges.{Exchanges, IsBehind, IsWholeLoad, IsWholeUnload};

use crate::after::after_both;
use crate::asking::Asking;
use crate::changing::{Accepted, Automated, by_automated_load, by_automated_unload};
use crate::moving::{changed, hints_on};
use crate::refusal::Refusal;
use crate::reply::Reply;
use envvars::Env;
use filetree::Tree;
use message::texts::copies;
use module_restore::{Restored, exchange};
use module_words::function::{AskedCommand, MovedNames, function_output, moved_names};
use module_words::subcommands::Subcommand;
use modules::{Action, Request, STANDARD_LIMITS, run};
use shelltext::Shell;
use std::alloc::{AllocError, Global};

/// All names of an unload or a load, and what is said of those that were put in.
#[derive(Drop)]
pub struct Whole {
    /// The names.
    pub names: Vec<String>,
    /// What is said.
    pub said: String,
}

/// The names as they were asked for.
fn as_asked(alloc: Global, names: &[String]) -> Result<Whole, AllocError>
    ensures names { IfOk result (λ w. texts_in w.names ≡ map string_bytes names.now) }
    ensures said { IfOk result (λ w. string_bytes w.said ≡ []) }
{
    Ok(Whole {
        names: copies(alloc, names)?,
        said: String::new(alloc),
    })
}

/// The names of an automated unload or load.
fn with_others(automated: Automated) -> Whole
    ensures { result ≡ spec.whole_of automated }
{
    Whole {
        names: automated.names,
        said: automated.accepted.said,
    }
}

/// The names that an unload comes to.
pub fn whole_unload<T: Tree>(
    alloc: Global,
    asking: &Asking,
    moved: MovedNames<'_>,
    tree: &mut T,
) -> Result<Whole, Refusal<'static>>
    ensures reads { ReadsOn T.agrees T.failures tree.old tree.new }
    ensures whole { IfOk result (IsWholeUnload (T.agrees tree.new) asking.now.shell asking.now.env
        (moved_view moved.entry)) }
    ensures refused { IfErr result (IsRefusedChange (T.agrees tree.new) (T.failures tree.old < T.failures tree.new)
        asking.now.shell asking.now.env
        (spec.UnloadNamesStep asking.now.shell asking.now.env (moved_view moved.entry))) }
{
    if !moved.is_automatic {
        return Ok(as_asked(alloc, moved.names)?);
    }
    let automated = by_automated_unload(alloc, asking.shell, &asking.env, moved.names, tree)?;
    Ok(with_others(automated))
}

/// The names that a load comes to in an environment.
fn whole_load<T: Tree>(
    alloc: Global,
    shell: Shell,
    env: &Env,
    moved: MovedNames<'_>,
    tree: &mut T,
) -> Result<Whole, Refusal<'static>>
    ensures reads { ReadsOn T.agrees T.failures tree.old tree.new }
    ensures whole { IfOk result (IsWholeLoad (T.agrees tree.new) shell env.now (moved_view moved.entry)) }
    ensures refused { IfErr result (IsRefusedChange (T.agrees tree.new) (T.failures tree.old < T.failures tree.new)
        shell env.now (spec.LoadNamesStep shell env.now (moved_view moved.entry))) }
{
    if !moved.is_automatic || moved.names.is_empty() {
        return Ok(as_asked(alloc, moved.names)?);
    }
    let automated = by_automated_load(alloc, shell, env, moved.names, tree)?;
    Ok(with_others(automated))
}

/// The environment behind an unload of these names.
pub fn env_behind<T: Tree>(
    alloc: Global,
    asking: &Asking,
    names: &[String],
    tree: &mut T,
) -> Result<Env, Refusal<'static>>
    ensures reads { ReadsOn T.agrees T.failures tree.old tree.new }
    ensures behind { IfOk result (λ env. InEachPair (T.agrees tree.new) (λ files listings.
        IsBehind asking.now.shell asking.now.env (map string_bytes names.now) files listings env)) }
    ensures refused { IfErr result (IsRefusedChange (T.agrees tree.new) (T.failures tree.old < T.failures tree.new)
        asking.now.shell asking.now.env
        (spec.PlainUnloadStep asking.now.shell asking.now.env (map string_bytes names.now))) }
{
    let unload = Request {
        shell: asking.shell,
        action: Action::Unload(copies(alloc, names)?),
    };
    Ok(run(alloc, &unload, &asking.env, tree, STANDARD_LIMITS)?.env)
}

/// The names that a load comes to behind an unload of others.
fn whole_load_behind<T: Tree>(
    alloc: Global,
    asking: &Asking,
    unloaded: &[String],
    moved: MovedNames<'_>,
    tree: &mut T,
) -> Result<Whole, Refusal<'static>>
    ensures reads { ReadsOn T.agrees T.failures tree.old tree.new }
    ensures whole { IfOk result (spec.IsWholeLoadBehind (T.agrees tree.new) asking.now.shell asking.now.env
        (map string_bytes unloaded.now) (moved_view moved.entry)) }
    ensures refused { IfErr result (spec.RefusesLoadBehind (T.agrees tree.new)
        (T.failures tree.old < T.failures tree.new) asking.now.shell asking.now.env
        (map string_bytes unloaded.now) (moved_view moved.entry)) }
{
    if !moved.is_automatic {
        return Ok(as_asked(alloc, moved.names)?);
    }
    let behind = env_behind(alloc, asking, unloaded, tree)?;
    whole_load(alloc, asking.shell, &behind, moved, tree)
}

/// Unloads all these names, and loads all these.
fn exchanged<T: Tree>(
    alloc: Global,
    asking: &Asking,
    unloaded: Whole,
    loaded: Whole,
    tree: &mut T,
) -> Result<Accepted, Refusal<'static>>
    ensures reads { ReadsOn T.agrees T.failures tree.old tree.new }
    ensures accepted { IfOk result (IsAccepted (T.agrees tree.new) asking.now.shell asking.now.env
        (spec.WholeStep asking.now.shell asking.now.env (texts_in unloaded.names) (texts_in loaded.names))) }
    ensures said { IfOk result (λ a. string_bytes a.said ≡ string_bytes unloaded.said ++ string_bytes loaded.said) }
    ensures refused { IfErr result (IsRefusedChange (T.agrees tree.new) (T.failures tree.old < T.failures tree.new)
        asking.now.shell asking.now.env
        (spec.WholeStep asking.now.shell asking.now.env (texts_in unloaded.names) (texts_in loaded.names))) }
{
    let mut said = unloaded.said;
    said.push_str(loaded.said.as_str())?;
    let (unloads, loads) = (unloaded.names.as_slice(), loaded.names.as_slice());
    let Restored {
        text,
        changes,
        messages,
    } = exchange(
        alloc,
        asking.shell,
        unloads,
        loads,
        &asking.env,
        tree,
        STANDARD_LIMITS,
    )?;
    Ok(Accepted {
        said,
        messages,
        text,
        changes,
    })
}

/// Unloads all names that the first come to, and loads all that the second come to.
fn exchanged_names<T: Tree>(
    alloc: Global,
    asking: &Asking,
    first: MovedNames<'_>,
    second: MovedNames<'_>,
    tree: &mut T,
) -> Result<Accepted, Refusal<'static>>
    ensures reads { ReadsOn T.agrees T.failures tree.old tree.new }
    ensures exchanged { IfOk result (spec.ExchangesNames (T.agrees tree.new) asking.now.shell asking.now.env
        (moved_view first.entry) (moved_view second.entry)) }
{
    let unloaded = whole_unload(alloc, asking, first, tree)?;
    let names = unloaded.names.as_slice();
    let loaded = whole_load_behind(alloc, asking, names, second, tree)?;
    exchanged(alloc, asking, unloaded, loaded, tree)
}

/// What is said of names, by the status of whether one of them is loaded.
fn hints_by(alloc: Global, env: &Env, status: u8, names: &[String]) -> Result<String, AllocError>
    ensures { IfOk result (λ lines. string_bytes lines
        ≡ spec.hints_if status (hints_on env.now (map string_bytes names.now))) }
{
    if status == 0 {
        return Ok(String::new(alloc));
    }
    hints_on(alloc, env, names)
}

/// What is said behind an exchange of names of which none is loaded.
fn hints_behind<'a>(
    alloc: Global,
    asking: &Asking,
    names: &'a [String],
) -> Result<String, Refusal<'a>>
    ensures { IfOk result (λ lines. spec.AreHints asking.now.shell asking.now.env
        (map string_bytes names.entry.now) (string_bytes lines)) }
{
    let env = &asking.env;
    let known = function_output(alloc, asking.shell, Subcommand::IsLoaded, names, env, None)?;
    Ok(hints_by(alloc, env, known.status, names)?)
}

/// Unloads modules and loads others, all or nothing.
pub fn exchange_modules<'a, T: Tree>(
    alloc: Global,
    asking: &Asking,
    unloads: &'a AskedCommand,
    loads: &'a AskedCommand,
    tree: &mut T,
) -> Result<Reply, Refusal<'a>>
    ensures reads { ReadsOn T.agrees T.failures tree.old tree.new }
    ensures exchanged { IfOk result (Exchanges (T.agrees tree.new) asking.now
        (command_view unloads.entry.now) (command_view loads.entry.now)) }
{
    let env = &asking.env;
    let first = moved_names(Subcommand::Unload, env, unloads.words.as_slice())?;
    let second = moved_names(Subcommand::Load, env, loads.words.as_slice())?;
    let accepted = exchanged_names(alloc, asking, first, second, tree)?;
    let hints = hints_behind(alloc, asking, first.names)?;
    let changes = accepted.changes.as_slice();
    let after = after_both(alloc, asking, changes, unloads, loads)?;
    Ok(Reply::Changed(changed(accepted, after, hints)))
}
