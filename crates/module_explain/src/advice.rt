//! What to do about a refusal: a request that would be accepted, or what is known.
ghost use Rattle.std.specs.Prelude.{◌≡◌, ◌∷◌, [], Some, None, true, false, IfNone, IfOk, IfSome, map, string_bytes};
ghost use Rattle.std.specs.Prelude.{◌<◌, IfErr};
ghost use Rattle.envvars.specs.Changes.{new_value_of};
ghost use Rattle.filetree.specs.Agreement.{ReadsOn};
ghost use Rattle.search.specs.Answers.{cause_of as find_cause};
ghost use Rattle.modulefile_run.specs.Running.{eval_stop, stop_of};
ghost use Rattle.modules.specs.Answers.{cause_of};
ghost use Rattle.requests.specs.RequestViews.{action_view};
ghost use Rattle.requests.specs.Requests as actions;
ghost use Rattle.module_explain.specs.Advised as spec;
ghost use Rattle.module_explain.specs.Advised.{IsNotAccepted};
ghost use Rattle.module_explain.specs.Explained.{IsSound};
ghost use Rattle.module_explain.specs.Views.{IfBecause, IsNotSaid, IsSaid, IsSwitchOrNone, IsTried, is_known};
ghost use Rattle.module_explain.specs.FailedPaths.{IsDeviceOnlyIf};

use crate::automatic::{for_need, for_needed};
use crate::known::known;
use crate::refused::RefusedRequest;
use crate::replacements::instead_of;
use crate::unknown::{for_bad_name, for_unknown};
use envstate::loaded_list::{is_loaded, loaded};
use envvars::Change;
use filetree::Tree;
use modules::transient_failures::unless_transient;
use modules::{Action, EvalFault, FindFault, Refusal, Request, RunStop, run_changes};
use shelltext::{PrintFault, Shell, print_changes};
use std::alloc::{AllocError, Global};

/// What to do about a refusal.
#[derive(Debug, Drop)]
pub enum Advice {
    /// This would be accepted.
    Try(Action),
    /// What was asked for would be accepted with the option `--auto`, and do this.
    TryAutomated {
        /// The names that were asked for.
        asked: Vec<String>,
        /// What it would do.
        action: Action,
    },
    /// What is known: one line.
    Known(String),
}

/// Whether a text of the shell says these changes.
fn has_text(alloc: Global, shell: Shell, changes: &[Change]) -> Result<bool, AllocError>
    ensures said { IfOk result (λ is. is ≡ true → IsSaid shell (map new_value_of changes.now)) }
    ensures unsaid { IfOk result (λ is. is ≡ false → IsNotSaid shell (map new_value_of changes.now)) }
{
    match print_changes(alloc, shell, changes) {
        Ok(_) => Ok(true),
        Err(PrintFault::NotSayable(_)) => Ok(false),
        Err(PrintFault::OutOfMemory) => Err(AllocError),
    }
}

/// Advises this action where it would be accepted in the environment of the request, and its changes have a text.
///
/// It fails where memory ran out, or the device failed.
fn if_accepted<T: Tree>(
    refused: RefusedRequest<'_>,
    tree: &mut T,
    action: Action,
) -> Result<Option<Advice>, Refusal>
    ensures reads { ReadsOn T.agrees T.failures tree.old tree.new }
    ensures gave_up { IfErr result (λ refusal.
        IsDeviceOnlyIf (cause_of refusal) (T.failures tree.old < T.failures tree.new)) }
    ensures advised { IfOk result (λ o. IfSome o (IsSound (T.agrees tree.new) refused.entry.limits
        refused.entry.request.now.shell refused.entry.env.now)) }
    ensures tried { IfOk result (λ o. IfSome o (IsTried action)) }
    ensures none { IfOk result (λ o. IfNone o (IsNotAccepted (T.agrees tree.new) refused.entry.limits
        refused.entry.request.now.shell refused.entry.env.now (action_view action))) }
{
    let request = Request {
        shell: refused.request.shell,
        action,
    };
    let outcome = run_changes(refused.alloc, &request, refused.env, tree, refused.limits);
    match unless_transient(outcome)? {
        Ok(changed) => {
            if has_text(refused.alloc, request.shell, changed.changes.as_slice())? {
                Ok(Some(Advice::Try(request.action)))
            } else {
                Ok(None)
            }
        }
        Err(_) => Ok(None),
    }
}

/// The switch from one module to another.
fn switch_to(alloc: Global, old: &str, new: &str) -> Result<Action, AllocError>
    ensures { IfOk result (λ action. action_view action ≡ actions.switch (Some old.now) new.now) }
{
    let old = String::from_str(alloc, old)?;
    Ok(Action::Switch(Some(old), String::from_str(alloc, new)?))
}

/// The unload of one module.
fn unload_of(alloc: Global, name: &str) -> Result<Action, AllocError>
    ensures { IfOk result (λ action. action_view action ≡ actions.unload (name.now ∷ [])) }
{
    Ok(Action::Unload(vec![in alloc; String::from_str(alloc, name)?]?))
}

/// Advises a switch from the loaded module to the first of these names for which one would be accepted.
fn switch_to_one<T: Tree>(
    refused: RefusedRequest<'_>,
    tree: &mut T,
    other: &str,
    names: &[String],
) -> Result<Option<Advice>, Refusal>
    ensures reads { ReadsOn T.agrees T.failures tree.old tree.new }
    ensures gave_up { IfErr result (λ refusal.
        IsDeviceOnlyIf (cause_of refusal) (T.failures tree.old < T.failures tree.new)) }
    ensures advised { IfOk result (λ o. IfSome o (IsSound (T.agrees tree.new) refused.entry.limits
        refused.entry.request.now.shell refused.entry.env.now)) }
    ensures switches { IfOk result (IsSwitchOrNone (T.agrees tree.new) refused.entry.limits
        refused.entry.request.now.shell refused.entry.env.now other.now (map string_bytes names.now)) }
{
    for name in names {
        let switch = switch_to(refused.alloc, other, name.as_str())?;
        if let Some(advice) = if_accepted(refused, tree, switch)? {
            return Ok(Some(advice));
        }
    }
    Ok(None)
}

/// The names of a load; none of another action.
fn names_to_load(action: &Action) -> &[String]
    ensures { map string_bytes result.now ≡ spec.names_or_none (spec.names_to_load (action_view action.entry.now)) }
{
    match action {
        Action::Load(names) => names.as_slice(),
        _ => &[],
    }
}

/// In the place of a load that the loaded module forbids: a switch from that one, or else its unload.
fn instead<T: Tree>(
    refused: RefusedRequest<'_>,
    tree: &mut T,
    other: &str,
    names: &[String],
) -> Result<Option<Advice>, Refusal>
    ensures reads { ReadsOn T.agrees T.failures tree.old tree.new }
    ensures gave_up { IfErr result (λ refusal.
        IsDeviceOnlyIf (cause_of refusal) (T.failures tree.old < T.failures tree.new)) }
    ensures advised { IfOk result (λ o. IfSome o (IsSound (T.agrees tree.new) refused.entry.limits
        refused.entry.request.now.shell refused.entry.env.now)) }
    ensures fits { IfOk result (spec.Instead (T.agrees tree.new) refused.entry.limits
        refused.entry.request.now.shell refused.entry.env.now other.now (map string_bytes names.now)) }
{
    if let Some(advice) = switch_to_one(refused, tree, other, names)? {
        return Ok(Some(advice));
    }
    let unload = unload_of(refused.alloc, other)?;
    if_accepted(refused, tree, unload)
}

/// For a conflict with a loaded module: a switch from it to what was to be loaded, or else its unload.
fn for_conflict<T: Tree>(
    refused: RefusedRequest<'_>,
    tree: &mut T,
    other: &str,
) -> Result<Option<Advice>, Refusal>
    ensures reads { ReadsOn T.agrees T.failures tree.old tree.new }
    ensures gave_up { IfErr result (λ refusal.
        IsDeviceOnlyIf (cause_of refusal) (T.failures tree.old < T.failures tree.new)) }
    ensures advised { IfOk result (λ o. IfSome o (IsSound (T.agrees tree.new) refused.entry.limits
        refused.entry.request.now.shell refused.entry.env.now)) }
    ensures fits { IfOk result (spec.ForConflict (T.agrees tree.new) refused.entry.limits
        refused.entry.request.now.shell refused.entry.env.now other.now
        (spec.names_or_none (spec.names_to_load (action_view refused.entry.request.now.action)))) }
{
    let entries = loaded(refused.alloc, refused.env)?;
    if !is_loaded(entries.as_slice(), other) {
        return Ok(None);
    }
    let names = names_to_load(&refused.request.action);
    instead(refused, tree, other, names)
}

/// For a text that is halted: what stands in the place of a command that is left out.
fn for_halt(alloc: Global, fault: &EvalFault) -> Result<Option<Advice>, AllocError>
    ensures known { IfOk result (λ o. IfSome o (λ advice. is_known advice ≡ true)) }
    ensures fits { IfOk result (λ o. IfSome (eval_stop fault.now None) (λ stop. spec.ForStop stop o)) }
{
    match fault {
        EvalFault::LeftOut(name) => known(alloc, instead_of(name.as_str())),
        EvalFault::OutOfMemory
        | EvalFault::Text(_)
        | EvalFault::TclError(_, _)
        | EvalFault::TooManyCommands
        | EvalFault::TooDeep
        | EvalFault::ValueTooLong
        | EvalFault::NumberTooLarge
        | EvalFault::FractionOperand
        | EvalFault::Stopped
        | EvalFault::Host(_) => Ok(None),
    }
}

/// For a modulefile that is refused.
fn for_fault(alloc: Global, fault: &RunStop) -> Result<Option<Advice>, AllocError>
    ensures known { IfOk result (λ o. IfSome o (λ advice. is_known advice ≡ true)) }
    ensures fits { IfOk result (λ o. IfSome (stop_of fault.now) (λ stop. spec.ForStop stop o)) }
{
    match fault {
        RunStop::Eval(fault) => for_halt(alloc, fault),
        RunStop::OutOfMemory | RunStop::BadArguments | RunStop::BadRecord(_) => Ok(None),
    }
}

/// What a file that names defaults may say.
const DEFAULT_FILE: &str =
    "It names a default: \"module-version NAME/VERSION default\" in .modulerc, \"set ModulesVersion VERSION\" in .version.";

/// For a search that fails: where no module is found, that nothing is searched, or names that are like it; for an
/// ill-spelled name, what it may stand for; for a file that names defaults, what that may say.
fn for_missed<T: Tree>(
    refused: RefusedRequest<'_>,
    tree: &mut T,
    fault: &FindFault,
) -> Result<Option<Advice>, Refusal>
    ensures reads { ReadsOn T.agrees T.failures tree.old tree.new }
    ensures gave_up { IfErr result (λ refusal.
        IsDeviceOnlyIf (cause_of refusal) (T.failures tree.old < T.failures tree.new)) }
    ensures known { IfOk result (λ o. IfSome o (λ advice. is_known advice ≡ true)) }
    ensures fits { IfOk result (λ o. IfBecause (find_cause fault.now) (λ reason.
        spec.ForMissed (T.agrees tree.new) refused.entry.limits refused.entry.request.now.shell refused.entry.env.now
        reason o)) }
{
    match fault {
        FindFault::NotFound(name) => for_unknown(refused, tree, name.as_str()),
        FindFault::BadName(name) => for_bad_name(refused, tree, name.as_str()),
        FindFault::BadDefaultFile(_) => Ok(known(refused.alloc, Some(DEFAULT_FILE))?),
        FindFault::OutOfMemory | FindFault::Device | FindFault::NotUtf8(_) => Ok(None),
    }
}

/// What to do about this refusal of the request, if something is known.
///
/// It fails where memory ran out, or the device failed.
pub(crate) fn advice_for<T: Tree>(
    refused: RefusedRequest<'_>,
    tree: &mut T,
    refusal: &Refusal,
) -> Result<Option<Advice>, Refusal>
    ensures reads { ReadsOn T.agrees T.failures tree.old tree.new }
    ensures gave_up { IfErr result (λ refusal.
        IsDeviceOnlyIf (cause_of refusal) (T.failures tree.old < T.failures tree.new)) }
    ensures advised { IfOk result (λ o. IfSome o (IsSound (T.agrees tree.new) refused.entry.limits
        refused.entry.request.now.shell refused.entry.env.now)) }
    ensures fits { IfOk result (λ o. IfBecause (cause_of refusal.now) (λ reason.
        spec.IsAdvised (T.agrees tree.new) refused.entry.limits refused.entry.request.now.shell refused.entry.env.now
        (action_view refused.entry.request.now.action) reason o)) }
{
    match refusal {
        Refusal::ConflictWith(other) => for_conflict(refused, tree, other.as_str()),
        Refusal::PrereqMissing(missing) => for_need(refused, tree, missing),
        Refusal::StillNeededBy(_) => for_needed(refused, tree),
        Refusal::Find(fault) => for_missed(refused, tree, fault),
        Refusal::Run(file) => Ok(for_fault(refused.alloc, &file.stop)?),
        Refusal::OutOfMemory
        | Refusal::Env(_)
        | Refusal::BadArguments
        | Refusal::UnknownSubcommand(_)
        | Refusal::FileGone(_)
        | Refusal::NotAModulefile(_) => Ok(None),
    }
}
