//! The requests of a dry run: the load of a name and its unload, for sh.
ghost use Rattle.std.specs.Prelude.{◌≡◌, ◌≤◌, ◌+◌, [], ◌∷◌, Err, IfOk, IfErr, false};
ghost use Rattle.filetree.specs.Agreement.{FailsIf, InEachPair, ReadsOn};
ghost use Rattle.filetree.specs.Causes.{memory};
ghost use Rattle.envvars.specs.Texts.{texts_in};
ghost use Rattle.requests.specs.Looked.{RequestLooksAt};
ghost use Rattle.requests.specs.Requests.{load, unload};
ghost use Rattle.requests.specs.RequestViews.{action_view};
ghost use Rattle.requests.specs.Steps.{RequestStep};
ghost use Rattle.modules.specs.Answers.{cause_of, is_failure};
ghost use Rattle.modules.specs.Verdicts.{in_sh};
ghost use Rattle.audit_dry_runs.specs.Parts.{IsOutcome, count_outcome, is_failed_outcome, is_of_memory};

use envvars::Env;
use filetree::Tree;
use modules::transient_failures::is_transient;
use modules::{Action, FindFault, Refusal, Request, RequestResults, Shell, make_changes};
use std::alloc::{AllocError, Global};
use tclrules::Limits;

/// The list of one name.
fn one_name(alloc: Global, name: &str) -> Result<Vec<String>, AllocError>
    ensures { IfOk result (λ names. texts_in names ≡ name.now ∷ []) }
{
    let mut names = Vec::new(alloc);
    names.push(String::from_str(alloc, name)?)?;
    Ok(names)
}

/// The load of a name.
pub(crate) fn load_of(alloc: Global, name: &str) -> Result<Action, AllocError>
    ensures { IfOk result (λ action. action_view action ≡ load (name.now ∷ [])) }
{
    Ok(Action::Load(one_name(alloc, name)?))
}

/// The unload of a name.
pub(crate) fn unload_of(alloc: Global, name: &str) -> Result<Action, AllocError>
    ensures { IfOk result (λ action. action_view action ≡ unload (name.now ∷ [])) }
{
    Ok(Action::Unload(one_name(alloc, name)?))
}

/// Whether the refusal is a failed device.
fn is_of_device(refusal: &Refusal) -> bool
    ensures { result ≡ is_failure refusal.now }
{
    matches!(refusal, Refusal::Find(FindFault::Device))
}

/// Whether the refusal is want of memory.
fn is_of_memory(refusal: &Refusal) -> bool
    ensures { result ≡ is_of_memory (cause_of refusal.now) }
{
    is_transient(refusal) && !is_of_device(refusal)
}

/// The outcome of a request: what it did, or its refusal.
///
/// Errors: want of memory.
fn unless_out_of_memory(
    outcome: Result<RequestResults, Refusal>,
) -> Result<Result<RequestResults, Refusal>, Refusal>
    ensures same { IfOk result (λ kept. kept ≡ outcome) }
    ensures kept { IfOk result (λ kept. IfErr kept (λ refusal. is_of_memory (cause_of refusal) ≡ false)) }
    ensures wanting { IfErr result (λ refusal. (outcome ≡ Err refusal) × (cause_of refusal ≡ memory)) }
{
    match outcome {
        Ok(done) => Ok(Ok(done)),
        Err(refusal) => {
            if is_of_memory(&refusal) {
                Err(refusal)
            } else {
                Ok(Err(refusal))
            }
        }
    }
}

/// Does what is asked for, for sh, over an environment and a tree: all of it, or nothing where it is refused. The answer
/// is what was done, or the refusal of the step; by 43 only where the device failed in this call.
///
/// Errors: want of memory.
pub(crate) fn do_in_sh<T: Tree>(
    alloc: Global,
    action: Action,
    env: &mut Env,
    tree: &mut T,
    limits: Limits,
) -> Result<Result<RequestResults, Refusal>, Refusal>
    ensures reads { ReadsOn T.agrees T.failures tree.old tree.new }
    ensures answered { IfOk result (λ outcome. InEachPair (T.agrees tree.new) (λ files listings.
        IsOutcome (RequestStep (in_sh limits files listings) env.old (action_view action)) env.new outcome)) }
    ensures failures { IfOk result (λ outcome.
        T.failures tree.old + count_outcome outcome ≤ T.failures tree.new) }
    ensures cause { IfErr result (λ refusal. cause_of refusal ≡ memory) }
    ensures failed { FailsIf (is_failed_outcome result) (T.failed tree.old) (T.failed tree.new) (λ at.
        InEachPair (T.agrees tree.new) (λ files listings.
        RequestLooksAt (in_sh limits files listings) env.old (action_view action) at)) }
{
    let request = Request {
        shell: Shell::Sh,
        action,
    };
    unless_out_of_memory(make_changes(alloc, &request, env, tree, limits))
}
