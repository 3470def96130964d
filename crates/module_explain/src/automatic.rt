//! What to do by automated module handling: a load with what is needed first, an unload with what needs it.
ghost use Rattle.std.specs.Prelude.{◌≡◌, Ok, Err, Some, IfNone, IfOk, IfSome, map, string_bytes};
ghost use Rattle.std.specs.Prelude.{◌<◌, ◌⊎◌, IfErr};
ghost use Rattle.envvars.specs.Texts.{texts_in};
ghost use Rattle.modules.specs.Answers.{cause_of};
ghost use Rattle.filetree.specs.Causes.{memory};
ghost use Rattle.filetree.specs.Agreement.{ReadsOn};
ghost use Rattle.requests.specs.RequestViews.{action_view};
ghost use Rattle.module_auto.specs.declared.answer.AutomaticAnswer.{AutomaticAnswer};
ghost use Rattle.module_auto.specs.declared.fault.RequestFault.{RequestFault};
ghost use Rattle.module_explain.specs.Advised as spec;
ghost use Rattle.module_explain.specs.Explained.{IsSound};
ghost use Rattle.module_explain.specs.Advised.{HasReason};
ghost use Rattle.module_explain.specs.Views.{IsAutomated};
ghost use Rattle.module_explain.specs.FailedPaths.{IsDeviceOnlyIf};

use crate::advice::Advice;
use crate::known::known;
use crate::refused::RefusedRequest;
use filetree::Tree;
use message::texts::copies;
use module_auto::{
    AutomaticAnswer, RequestFault, first_found, load_automatically, unload_automatically,
};
use modules::transient_failures::is_transient;
use modules::{Action, MissingNames, Refusal};
use shelltext::PrintFault;
use std::alloc::{AllocError, Global};

/// The names of what is done automatically; nothing where it isn't done, for a reason.
///
/// It fails where memory ran out, or the device failed.
fn names_if_done(
    answer: Result<AutomaticAnswer, RequestFault>,
) -> Result<Option<Vec<String>>, Refusal>
    ensures done { IfOk result (λ o. IfSome o (λ names.
        (a : AutomaticAnswer) × (answer ≡ Ok a) × (names ≡ a.names))) }
    ensures undone { IfOk result (λ o. IfNone o (
        (fault : RequestFault) × (answer ≡ Err fault) × HasReason fault)) }
    ensures kept { IfErr result (λ refusal. (cause_of refusal ≡ memory)
        ⊎ (answer ≡ Err (RequestFault.Refused refusal))) }
{
    match answer {
        Ok(answer) => Ok(Some(answer.names)),
        Err(RequestFault::Unprinted(PrintFault::NotSayable(_))) => Ok(None),
        Err(RequestFault::Unprinted(PrintFault::OutOfMemory)) => Err(Refusal::OutOfMemory),
        Err(RequestFault::Refused(refusal)) => {
            if is_transient(&refusal) {
                Err(refusal)
            } else {
                Ok(None)
            }
        }
    }
}

/// Advises what was asked for with the option `--auto`, which does this.
fn automated(alloc: Global, asked: &[String], action: Action) -> Result<Advice, AllocError>
    ensures { IfOk result (IsAutomated (map string_bytes asked.now) action) }
{
    Ok(Advice::TryAutomated {
        asked: copies(alloc, asked)?,
        action,
    })
}

/// That none of the alternatives is found.
fn not_found(alloc: Global, missing: &MissingNames) -> Result<Option<Advice>, AllocError>
    ensures { IfOk result (spec.IsKnown (Some (spec.none_is_found (texts_in missing.now.names)))) }
{
    let mut line = String::from_str(alloc, "Not found either: ")?;
    line.push_str(missing.text())?;
    known(alloc, Some(line.as_str()))
}

/// The load of these names with what they need; or else that none of the alternatives is found.
fn load_with_needed<T: Tree>(
    refused: RefusedRequest<'_>,
    tree: &mut T,
    asked: &[String],
    missing: &MissingNames,
) -> Result<Option<Advice>, Refusal>
    ensures reads { ReadsOn T.agrees T.failures tree.old tree.new }
    ensures gave_up { IfErr result (λ refusal.
        IsDeviceOnlyIf (cause_of refusal) (T.failures tree.old < T.failures tree.new)) }
    ensures advised { IfOk result (λ o. IfSome o (IsSound (T.agrees tree.new) refused.entry.limits
        refused.entry.request.now.shell refused.entry.env.now)) }
    ensures fits { IfOk result (spec.ForNeed (T.agrees tree.new) refused.entry.limits
        refused.entry.request.now.shell refused.entry.env.now (texts_in missing.now.names)
        (map string_bytes asked.now)) }
{
    let alloc = refused.alloc;
    let shell = refused.request.shell;
    let answer = load_automatically(alloc, shell, asked, refused.env, tree, refused.limits);
    if let Some(names) = names_if_done(answer)? {
        return Ok(Some(automated(alloc, asked, Action::Load(names))?));
    }
    let alternatives = missing.names.as_slice();
    let found = first_found(alloc, alternatives, refused.env, tree, refused.limits)?;
    if found.is_some() {
        return Ok(None);
    }
    Ok(not_found(alloc, missing)?)
}

/// For a need: the load with what is needed first, or else that none of the alternatives is found.
///
/// It fails where memory ran out, or the device failed.
pub(crate) fn for_need<T: Tree>(
    refused: RefusedRequest<'_>,
    tree: &mut T,
    missing: &MissingNames,
) -> Result<Option<Advice>, Refusal>
    ensures reads { ReadsOn T.agrees T.failures tree.old tree.new }
    ensures gave_up { IfErr result (λ refusal.
        IsDeviceOnlyIf (cause_of refusal) (T.failures tree.old < T.failures tree.new)) }
    ensures advised { IfOk result (λ o. IfSome o (IsSound (T.agrees tree.new) refused.entry.limits
        refused.entry.request.now.shell refused.entry.env.now)) }
    ensures fits { IfOk result (spec.ForNames (spec.ForNeed (T.agrees tree.new) refused.entry.limits
        refused.entry.request.now.shell refused.entry.env.now (texts_in missing.now.names))
        (spec.names_to_load (action_view refused.entry.request.now.action))) }
{
    match &refused.request.action {
        Action::Load(asked) => load_with_needed(refused, tree, asked.as_slice(), missing),
        Action::Unload(_)
        | Action::Switch(_, _)
        | Action::Purge
        | Action::List
        | Action::Avail(_)
        | Action::Show(_)
        | Action::Whatis(_) => Ok(None),
    }
}

/// The unload of these names with what needs them.
fn unload_with_needing<T: Tree>(
    refused: RefusedRequest<'_>,
    tree: &mut T,
    asked: &[String],
) -> Result<Option<Advice>, Refusal>
    ensures reads { ReadsOn T.agrees T.failures tree.old tree.new }
    ensures gave_up { IfErr result (λ refusal.
        IsDeviceOnlyIf (cause_of refusal) (T.failures tree.old < T.failures tree.new)) }
    ensures advised { IfOk result (λ o. IfSome o (IsSound (T.agrees tree.new) refused.entry.limits
        refused.entry.request.now.shell refused.entry.env.now)) }
    ensures fits { IfOk result (spec.ForNeeded (T.agrees tree.new) refused.entry.limits
        refused.entry.request.now.shell refused.entry.env.now (map string_bytes asked.now)) }
{
    let alloc = refused.alloc;
    let shell = refused.request.shell;
    let answer = unload_automatically(alloc, shell, asked, refused.env, tree, refused.limits);
    match names_if_done(answer)? {
        Some(names) => Ok(Some(automated(alloc, asked, Action::Unload(names))?)),
        None => Ok(None),
    }
}

/// For an unload of what others need: the unload with these.
///
/// It fails where memory ran out, or the device failed.
pub(crate) fn for_needed<T: Tree>(
    refused: RefusedRequest<'_>,
    tree: &mut T,
) -> Result<Option<Advice>, Refusal>
    ensures reads { ReadsOn T.agrees T.failures tree.old tree.new }
    ensures gave_up { IfErr result (λ refusal.
        IsDeviceOnlyIf (cause_of refusal) (T.failures tree.old < T.failures tree.new)) }
    ensures advised { IfOk result (λ o. IfSome o (IsSound (T.agrees tree.new) refused.entry.limits
        refused.entry.request.now.shell refused.entry.env.now)) }
    ensures fits { IfOk result (spec.ForNames (spec.ForNeeded (T.agrees tree.new) refused.entry.limits
        refused.entry.request.now.shell refused.entry.env.now)
        (spec.names_to_unload (action_view refused.entry.request.now.action))) }
{
    match &refused.request.action {
        Action::Unload(asked) => unload_with_needing(refused, tree, asked.as_slice()),
        Action::Load(_)
        | Action::Switch(_, _)
        | Action::Purge
        | Action::List
        | Action::Avail(_)
        | Action::Show(_)
        | Action::Whatis(_) => Ok(None),
    }
}
