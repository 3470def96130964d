//! What is said of a refused request: where a modulefile failed, and what to do.
ghost use Rattle.std.specs.Prelude.{◌≡◌, ◌∷◌, [], true, Ok, IfErr, IfOk, IfSome, map, string_bytes};
ghost use Rattle.std.specs.Prelude.{◌<◌, ◌⊎◌, Err};
ghost use Rattle.filetree.specs.Causes.{memory};
ghost use Rattle.filetree.specs.Agreement.{ReadsOn};
ghost use Rattle.modules.specs.transient_failures.Causes.{is_transient};
ghost use Rattle.modules.specs.Answers.{cause_of};
ghost use Rattle.requests.specs.RequestViews.{action_view};
ghost use Rattle.requests.specs.Requests.{RequestedAction, list, request_of};
ghost use Rattle.module_explain.specs.Advised.{IsAdvised};
ghost use Rattle.module_explain.specs.Explained.{IsExplained, IsOfCause, IsOfOutcome, IsOfUsage, IsSound, IsUnexplained, IsWhy};
ghost use Rattle.module_explain.specs.Views.{IfBecause, IsFileOf, is_known};
ghost use Rattle.module_explain.specs.FailedPaths.{IsDeviceOnlyIf};

use crate::advice::{Advice, advice_for};
use crate::known::known;
use crate::location::{FileExplanation, explain_file};
use crate::refused::RefusedRequest;
use crate::replacements::usage_of;
use envvars::Env;
use filetree::Tree;
use modules::transient_failures::unless_transient;
use modules::{Action, Refusal, Request, request, run_changes};
use shelltext::Shell;
use std::alloc::{AllocError, Global};
use tclrules::Limits;

/// What is said of a refused request.
#[derive(Debug, Drop)]
pub struct Explanation {
    /// Where a modulefile failed, if one is shown to have.
    pub file: Option<FileExplanation>,
    /// What to do, if something is known.
    pub advice: Option<Advice>,
}

/// What is said where words don't fit this subcommand: how it is used.
///
/// It fails for want of memory alone.
pub fn explain_usage(alloc: Global, subcommand: &str) -> Result<Explanation, AllocError>
    ensures { IfOk result (IsOfUsage (subcommand.now ∷ [])) }
{
    Ok(Explanation {
        file: None,
        advice: known(alloc, usage_of(subcommand))?,
    })
}

/// What is said where these words make no request: how the subcommand is used.
fn of_usage(alloc: Global, words: &[String]) -> Result<Explanation, AllocError>
    ensures known { IfOk result (λ x. IfSome x.advice (λ advice. is_known advice ≡ true)) }
    ensures said { IfOk result (IsOfUsage (map string_bytes words.now)) }
{
    let line = match words {
        [word, ..] => usage_of(word.as_str()),
        [] => None,
    };
    Ok(Explanation {
        file: None,
        advice: known(alloc, line)?,
    })
}

/// Where the modulefile failed that the request is refused for, if it is refused for one.
fn file_of<T: Tree>(
    refused: RefusedRequest<'_>,
    tree: &mut T,
    refusal: &Refusal,
) -> Result<Option<FileExplanation>, Refusal>
    ensures reads { ReadsOn T.agrees T.failures tree.old tree.new }
    ensures gave_up { IfErr result (λ refusal.
        IsDeviceOnlyIf (cause_of refusal) (T.failures tree.old < T.failures tree.new)) }
    ensures file { IfOk result (IsFileOf (T.agrees tree.new) refusal.now) }
{
    match refusal {
        Refusal::Run(fault) => explain_file(refused, fault, tree),
        Refusal::OutOfMemory
        | Refusal::Find(_)
        | Refusal::Env(_)
        | Refusal::BadArguments
        | Refusal::UnknownSubcommand(_)
        | Refusal::ConflictWith(_)
        | Refusal::PrereqMissing(_)
        | Refusal::StillNeededBy(_)
        | Refusal::FileGone(_)
        | Refusal::NotAModulefile(_) => Ok(None),
    }
}

/// What is said of a request that is refused so.
///
/// It fails where memory ran out, or the device failed.
fn of_refusal<T: Tree>(
    refused: RefusedRequest<'_>,
    tree: &mut T,
    refusal: &Refusal,
) -> Result<Explanation, Refusal>
    ensures reads { ReadsOn T.agrees T.failures tree.old tree.new }
    ensures gave_up { IfErr result (λ refusal.
        IsDeviceOnlyIf (cause_of refusal) (T.failures tree.old < T.failures tree.new)) }
    ensures file { IfOk result (λ x. IsFileOf (T.agrees tree.new) refusal.now x.file) }
    ensures advised { IfOk result (λ x. IfSome x.advice (IsSound (T.agrees tree.new) refused.entry.limits
        refused.entry.request.now.shell refused.entry.env.now)) }
    ensures fits { IfOk result (λ x. IfBecause (cause_of refusal.now) (λ reason.
        IsAdvised (T.agrees tree.new) refused.entry.limits refused.entry.request.now.shell refused.entry.env.now
        (action_view refused.entry.request.now.action) reason x.advice)) }
{
    let file = file_of(refused, tree, refusal)?;
    let advice = advice_for(refused, tree, refusal)?;
    Ok(Explanation { file, advice })
}

/// Explains a refusal that no request has brought, as that of a report: where a modulefile failed, and what to do. It is
/// as of a request that neither loads nor unloads.
///
/// It fails where memory ran out, or the device failed.
pub fn explain_refusal<T: Tree>(
    alloc: Global,
    shell: Shell,
    refusal: &Refusal,
    env: &Env,
    tree: &mut T,
    limits: Limits,
) -> Result<Explanation, Refusal>
    ensures reads { ReadsOn T.agrees T.failures tree.old tree.new }
    ensures advised { IfOk result (λ x. IfSome x.advice (IsSound (T.agrees tree.new) limits shell env.now)) }
    ensures said { IfOk result (IsOfCause (T.agrees tree.new) limits shell env.now list (cause_of refusal.now)) }
{
    let wanted = Request {
        shell,
        action: Action::List,
    };
    let refused = RefusedRequest {
        alloc,
        request: &wanted,
        env,
        limits,
    };
    of_refusal(refused, tree, refusal)
}

/// What is said of a request that is run: nothing where it is accepted.
///
/// It fails where memory ran out, or the device failed.
fn of_request<T: Tree>(refused: RefusedRequest<'_>, tree: &mut T) -> Result<Explanation, Refusal>
    ensures reads { ReadsOn T.agrees T.failures tree.old tree.new }
    ensures gave_up { IfErr result (λ refusal.
        IsDeviceOnlyIf (cause_of refusal) (T.failures tree.old < T.failures tree.new)) }
    ensures why { IfOk result (λ x. IfSome x.file (IsWhy (T.agrees tree.new) refused.entry.limits
        refused.entry.request.now.shell refused.entry.env.now (action_view refused.entry.request.now.action))) }
    ensures advised { IfOk result (λ x. IfSome x.advice (IsSound (T.agrees tree.new) refused.entry.limits
        refused.entry.request.now.shell refused.entry.env.now)) }
    ensures said { IfOk result (IsOfOutcome (T.agrees tree.new) refused.entry.limits
        refused.entry.request.now.shell refused.entry.env.now (action_view refused.entry.request.now.action)) }
{
    let outcome = run_changes(
        refused.alloc,
        refused.request,
        refused.env,
        tree,
        refused.limits,
    );
    match unless_transient(outcome)? {
        Ok(_) => Ok(Explanation {
            file: None,
            advice: None,
        }),
        Err(refusal) => of_refusal(refused, tree, &refusal),
    }
}

/// What is said of a request that is run.
///
/// It fails where memory ran out, or the device failed.
fn unless_refused(said: Result<Explanation, Refusal>) -> Result<Explanation, Refusal>
    ensures same { IfOk result (λ x. said ≡ Ok x) }
    ensures given_up { IfErr result (λ refusal. is_transient (cause_of refusal) ≡ true) }
    ensures kept { IfErr result (λ refusal. (cause_of refusal ≡ memory) ⊎ (said ≡ Err refusal)) }
{
    match unless_transient(said)? {
        Ok(explanation) => Ok(explanation),
        // Only loaded lists that don't fit together are a reason, and with these no modulefile is refused.
        Err(_) => Err(Refusal::OutOfMemory),
    }
}

/// Explains why the request of these words, of which the first is the subcommand, is refused; nothing where it is
/// accepted. The environment doesn't change. A file is named only where the request is refused because of that one, with
/// the command at which its evaluation ended; what is advised would be accepted, and is what the reason of the refusal
/// asks for. Where the words don't fit the subcommand it says how that is used.
///
/// Errors: no subcommand has this name; want of memory; or 43 where the device failed.
#[tactic(auto, using(crate::proofs::ExplainedLemmas::known_if))]
pub fn explain<T: Tree>(
    alloc: Global,
    shell: Shell,
    words: &[String],
    env: &Env,
    tree: &mut T,
    limits: Limits,
) -> Result<Explanation, Refusal>
    ensures reads { ReadsOn T.agrees T.failures tree.old tree.new }
    ensures why { IfOk result (λ x. IfSome x.file (λ file. (action : RequestedAction)
        × (request_of (map string_bytes words.now) ≡ Ok action)
        × IsWhy (T.agrees tree.new) limits shell env.now action file)) }
    ensures advised { IfOk result (λ x. IfSome x.advice (IsSound (T.agrees tree.new) limits shell env.now)) }
    ensures said { IfOk result (IsExplained (T.agrees tree.new) limits shell env.now (map string_bytes words.now)) }
    ensures refused { IfErr result (λ refusal. IsUnexplained (T.failures tree.old < T.failures tree.new)
        (map string_bytes words.now) (cause_of refusal)) }
{
    let wanted = match request(alloc, shell, words) {
        Ok(wanted) => wanted,
        Err(Refusal::BadArguments) => return Ok(of_usage(alloc, words)?),
        Err(refusal) => return Err(refusal),
    };
    let refused = RefusedRequest {
        alloc,
        request: &wanted,
        env,
        limits,
    };
    unless_refused(of_request(refused, tree))
}
