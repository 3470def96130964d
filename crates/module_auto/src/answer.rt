//! The answer: the names, and the text for the shell of what their request changes.
ghost use Rattle.std.specs.Prelude.{◌≡◌, IfErr, IfOk, string_bytes};
ghost use Rattle.envvars.specs.Changes.{AreChanges, new_values_in};
ghost use Rattle.envvars.specs.Texts.{texts_in};
ghost use Rattle.modulefile.specs.Moves.{loaded_names};
ghost use Rattle.modules.specs.MoveViews.{moves_of};
ghost use Rattle.modules.specs.Replies.{changed_env};
ghost use Rattle.shelltext.specs.Reading.{SaysDifference, TextSays};
ghost use Rattle.module_auto.specs.Views.{IsUnsaid};

use crate::fault::RequestFault;
use envvars::{Change, Env};
use modules::RequestChanges;
use shelltext::{Shell, print_changes};
use std::alloc::Global;

/// What was loaded or unloaded by a request with more names than were asked for.
#[derive(Debug, Drop)]
pub struct AutomaticAnswer {
    /// The names of the request, in order: those asked for, and those that were put in.
    pub names: Vec<String>,
    /// The names that were put in, in the order in which they were.
    pub added: Vec<String>,
    /// The text for the shell.
    pub text: String,
    /// The changes that the text says.
    pub changes: Vec<Change>,
    /// The messages of the modulefiles, in order.
    pub messages: Vec<String>,
    /// The full names of the modules that were loaded, in order.
    pub loaded: Vec<String>,
}

/// The answer for the request of these names, of which some were put in.
pub(crate) fn answer_of(
    alloc: Global,
    shell: Shell,
    env: &Env,
    names: Vec<String>,
    added: Vec<String>,
    changed: RequestChanges,
) -> Result<AutomaticAnswer, RequestFault>
    requires { AreChanges env.now (changed_env env.now changed) (new_values_in changed.changes) }
    ensures said { IfOk result (λ a. SaysDifference shell (string_bytes a.text) env.now (changed_env env.now changed)) }
    ensures changes { IfOk result (λ a. TextSays shell (string_bytes a.text) (new_values_in a.changes)) }
    ensures done { IfOk result (λ a. (texts_in a.messages ≡ texts_in changed.done.messages)
        × (texts_in a.loaded ≡ loaded_names (moves_of changed.done.moves))) }
    ensures names { IfOk result (λ a. (a.names ≡ names) × (a.added ≡ added)) }
    ensures fault { IfErr result (IsUnsaid shell env.now (changed_env env.now changed)) }
{
    let RequestChanges { changes, done } = changed;
    let text = print_changes(alloc, shell, changes.as_slice())?;
    Ok(AutomaticAnswer {
        names,
        added,
        text,
        changes,
        messages: done.messages,
        loaded: done.loaded,
    })
}
