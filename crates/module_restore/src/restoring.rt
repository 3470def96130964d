//! `restore` and `reload`: the text for the shell, with the messages of modulefiles.
ghost use Rattle.std.specs.Prelude.{◌≡◌, ◌<◌, ◌++◌, [], IfErr, IfOk, string_bytes};
ghost use Rattle.envvars.specs.Texts.{texts_in};
ghost use Rattle.filetree.specs.Agreement.{FailsOnlyAt, ReadsOn};
ghost use Rattle.requests.specs.Steps.{request_context_in};
ghost use Rattle.envvars.specs.Changes.{new_values_in};
ghost use Rattle.shelltext.specs.Reading.{SaysDifference, TextSays};
ghost use Rattle.module_auto.specs.Answers.{IsRequestFault};
ghost use Rattle.module_auto.specs.Views.{IsUnsaid};
ghost use Rattle.module_restore.specs.Answers.{IsRestored};
ghost use Rattle.module_restore.specs.Restores.{ReloadLooksAt, ReloadStep, RestoreLooksAt, RestoreStep};
ghost use Rattle.module_restore.specs.Restores.{ExchangeLooksAt, ExchangeStep};
ghost use Rattle.std.specs.Prelude.{map};
ghost use Rattle.envvars.specs.Environment.{Environment};
ghost use Rattle.module_restore.specs.Views.{loading_view, run_view};

use crate::loaded::loaded_names;
use crate::running::{RestoreRun, run_restore};
use envvars::{Change, Env, changes};
use filetree::Tree;
use message::texts::copies;
use module_auto::RequestFault;
use module_collections::texts::Collection;
use modules::{Action, Request, RequestResults};
use shelltext::{Shell, print_changes};
use std::alloc::{AllocError, Global};
use tclrules::Limits;

/// What a restore or a reload answers.
#[derive(Debug, Drop)]
pub struct Restored {
    /// The text for the shell.
    pub text: String,
    /// The changes that the text says.
    pub changes: Vec<Change>,
    /// The messages of the modulefiles, in order: of those that were unloaded, and then of those that were loaded.
    pub messages: Vec<String>,
}

/// The text for the shell of what the run has changed in the environment, and the changes.
fn text_of(
    alloc: Global,
    shell: Shell,
    env: &Env,
    new: &Env,
) -> Result<(String, Vec<Change>), RequestFault>
    ensures said { IfOk result (λ p. SaysDifference shell (string_bytes p.0) env.now new.now) }
    ensures changes { IfOk result (λ p. TextSays shell (string_bytes p.0) (new_values_in p.1)) }
    ensures fault { IfErr result (IsUnsaid shell env.now new.now) }
{
    let difference = changes(alloc, env, new)?;
    let text = print_changes(alloc, shell, difference.as_slice())?;
    Ok((text, difference))
}

/// All messages of a run.
fn messages_of(
    unloads: RequestResults,
    loads: Option<RequestResults>,
) -> Result<Vec<String>, AllocError>
    ensures { IfOk result (λ messages. (env : Environment) → texts_in messages
        ≡ texts_in unloads.messages ++ (loading_view env loads).messages) }
{
    let mut messages = unloads.messages;
    if let Some(loads) = loads {
        let mut others = loads.messages;
        messages.append(&mut others)?;
    }
    Ok(messages)
}

/// What is answered for a run.
fn answer_of(
    alloc: Global,
    shell: Shell,
    env: &Env,
    run: RestoreRun,
) -> Result<Restored, RequestFault>
    ensures said { IfOk result (λ a. SaysDifference shell (string_bytes a.text) env.now (run_view run).env) }
    ensures changes { IfOk result (λ a. TextSays shell (string_bytes a.text) (new_values_in a.changes)) }
    ensures messages { IfOk result (λ a. texts_in a.messages ≡ (run_view run).messages) }
    ensures fault { IfErr result (IsUnsaid shell env.now (run_view run).env) }
{
    let RestoreRun {
        env: new,
        unloads,
        loads,
    } = run;
    let (text, changes) = text_of(alloc, shell, env, &new)?;
    let messages = messages_of(unloads, loads)?;
    Ok(Restored {
        text,
        changes,
        messages,
    })
}

/// Does what `restore` does with a collection: a purge, then MODULEPATH becomes the collection's directories (it stays
/// where there are none), and then its modules are loaded, in order. The environment doesn't change.
///
/// The text says exactly, as the shell reads it, what this makes of the environment. It is all or nothing: where one of
/// the requests is refused, so is the whole, for that reason. The device failed only at paths that one of them looks
/// at.
///
/// Errors: `Refused`, the purge or the load is refused, by 43 where the device failed in this call, or for want of
/// memory; `Unprinted`, the changes have no text for the shell (62), or want of memory (61).
pub fn restore<T: Tree>(
    alloc: Global,
    shell: Shell,
    collection: &Collection,
    env: &Env,
    tree: &mut T,
    limits: Limits,
) -> Result<Restored, RequestFault>
    ensures reads { ReadsOn T.agrees T.failures tree.old tree.new }
    ensures restored { IfOk result (λ a.
        IsRestored (T.agrees tree.new) shell env.now
        (λ files listings. RestoreStep (request_context_in limits shell files listings) env.now
        (texts_in collection.now.directories) (texts_in collection.now.modules))
        (string_bytes a.text) (texts_in a.messages)) }
    ensures changes { IfOk result (λ a. TextSays shell (string_bytes a.text) (new_values_in a.changes)) }
    ensures refused { IfErr result (
        IsRequestFault (T.agrees tree.new) (T.failures tree.old < T.failures tree.new) shell env.now
        (λ files listings. RestoreStep (request_context_in limits shell files listings) env.now
        (texts_in collection.now.directories) (texts_in collection.now.modules))) }
    ensures failed { FailsOnlyAt T.agrees T.failed tree.old tree.new (λ files listings.
        RestoreLooksAt (request_context_in limits shell files listings) env.now
        (texts_in collection.now.directories) (texts_in collection.now.modules)) }
{
    let directories = collection.directories.as_slice();
    let modules = collection.modules.as_slice();
    let purge = Request {
        shell,
        action: Action::Purge,
    };
    let run = run_restore(alloc, &purge, directories, modules, env, tree, limits)?;
    answer_of(alloc, shell, env, run)
}

/// Does what `reload` does: unloads all modules, and loads them again, in load order. MODULEPATH is only what these
/// make of it. All else is as with `restore`; where the loaded lists don't fit together it is refused by 35.
pub fn reload<T: Tree>(
    alloc: Global,
    shell: Shell,
    env: &Env,
    tree: &mut T,
    limits: Limits,
) -> Result<Restored, RequestFault>
    ensures reads { ReadsOn T.agrees T.failures tree.old tree.new }
    ensures restored { IfOk result (λ a.
        IsRestored (T.agrees tree.new) shell env.now
        (λ files listings. ReloadStep (request_context_in limits shell files listings) env.now)
        (string_bytes a.text) (texts_in a.messages)) }
    ensures changes { IfOk result (λ a. TextSays shell (string_bytes a.text) (new_values_in a.changes)) }
    ensures refused { IfErr result (
        IsRequestFault (T.agrees tree.new) (T.failures tree.old < T.failures tree.new) shell env.now
        (λ files listings. ReloadStep (request_context_in limits shell files listings) env.now)) }
    ensures failed { FailsOnlyAt T.agrees T.failed tree.old tree.new (λ files listings.
        ReloadLooksAt (request_context_in limits shell files listings) env.now) }
{
    let modules = loaded_names(alloc, env)?;
    let loaded = Collection {
        directories: Vec::new(alloc),
        modules,
    };
    restore(alloc, shell, &loaded, env, tree, limits)
}

/// Unloads the modules that names mean, and then loads others, as a request each. All is as with `restore`, of which the
/// first request is an unload in the place of a purge, and MODULEPATH is only what these make of it.
pub fn exchange<T: Tree>(
    alloc: Global,
    shell: Shell,
    unloads: &[String],
    loads: &[String],
    env: &Env,
    tree: &mut T,
    limits: Limits,
) -> Result<Restored, RequestFault>
    ensures reads { ReadsOn T.agrees T.failures tree.old tree.new }
    ensures exchanged { IfOk result (λ a.
        IsRestored (T.agrees tree.new) shell env.now
        (λ files listings. ExchangeStep (request_context_in limits shell files listings) env.now
        (map string_bytes unloads.now) (map string_bytes loads.now))
        (string_bytes a.text) (texts_in a.messages)) }
    ensures changes { IfOk result (λ a. TextSays shell (string_bytes a.text) (new_values_in a.changes)) }
    ensures refused { IfErr result (
        IsRequestFault (T.agrees tree.new) (T.failures tree.old < T.failures tree.new) shell env.now
        (λ files listings. ExchangeStep (request_context_in limits shell files listings) env.now
        (map string_bytes unloads.now) (map string_bytes loads.now))) }
    ensures failed { FailsOnlyAt T.agrees T.failed tree.old tree.new (λ files listings.
        ExchangeLooksAt (request_context_in limits shell files listings) env.now
        (map string_bytes unloads.now) (map string_bytes loads.now)) }
{
    let unload = Request {
        shell,
        action: Action::Unload(copies(alloc, unloads)?),
    };
    let run = run_restore(alloc, &unload, &[], loads, env, tree, limits)?;
    answer_of(alloc, shell, env, run)
}
