//! The requests that load or unload several names.
ghost use Rattle.std.specs.Prelude.{◌≡◌, ◌<◌, map, string_bytes, Err, IfErr, IfOk};
ghost use Rattle.envvars.specs.Changes.{AreChanges, new_values_in};
ghost use Rattle.filetree.specs.Agreement.{FailsAt, InEachPair, ReadsOn};
ghost use Rattle.filetree.specs.Causes.{Applies};
ghost use Rattle.modules.specs.Answers.{StepAnswersOverTree, cause_of, is_failure};
ghost use Rattle.modules.specs.Replies.{changed_env, changed_view};
ghost use Rattle.requests.specs.Looked.{RequestLooksAt};
ghost use Rattle.requests.specs.RequestViews.{request_view};
ghost use Rattle.requests.specs.Requests as actions;
ghost use Rattle.requests.specs.Steps.{RequestStep, request_context_in};
ghost use Rattle.module_auto.specs.Views.{Loads};

use envvars::Env;
use filetree::Tree;
use message::texts::copies;
use modules::{Action, Refusal, Request, RequestChanges, run, run_changes};
use shelltext::Shell;
use std::alloc::{AllocError, Global};
use tclrules::Limits;

/// The request that loads these names.
fn load_request(alloc: Global, shell: Shell, names: &[String]) -> Result<Request, AllocError>
    ensures { IfOk result (λ request. request_view request ≡ (shell, actions.load (map string_bytes names.now))) }
{
    Ok(Request {
        shell,
        action: Action::Load(copies(alloc, names)?),
    })
}

/// What the load of these names changes.
pub(crate) fn load<T: Tree>(
    alloc: Global,
    shell: Shell,
    names: &[String],
    env: &Env,
    tree: &mut T,
    limits: Limits,
) -> Result<RequestChanges, Refusal>
    ensures reads { ReadsOn T.agrees T.failures tree.old tree.new }
    ensures over_tree { StepAnswersOverTree (T.agrees tree.new) (T.failures tree.old < T.failures tree.new)
        (changed_view env.now) result
        (λ files listings. RequestStep (request_context_in limits shell files listings) env.now
        (actions.load (map string_bytes names.now))) }
    ensures exact { IfOk result (λ changed.
        AreChanges env.now (changed_env env.now changed) (new_values_in changed.changes)) }
    ensures failed { FailsAt is_failure (T.failed tree.old) (T.failed tree.new) result (λ at.
        InEachPair (T.agrees tree.new) (λ files listings.
        RequestLooksAt (request_context_in limits shell files listings) env.now
        (actions.load (map string_bytes names.now)) at)) }
{
    let request = load_request(alloc, shell, names)?;
    run_changes(alloc, &request, env, tree, limits)
}

/// The environment that the load of these names makes.
pub(crate) fn loaded<T: Tree>(
    alloc: Global,
    shell: Shell,
    names: &[String],
    env: &Env,
    tree: &mut T,
    limits: Limits,
) -> Result<Env, Refusal>
    ensures reads { ReadsOn T.agrees T.failures tree.old tree.new }
    ensures loaded { IfOk result (λ after. InEachPair (T.agrees tree.new) (λ files listings.
        Loads (request_context_in limits shell files listings) env.now (map string_bytes names.now) after)) }
    ensures refused { IfErr result (λ refusal.
        Applies (cause_of refusal) (T.failures tree.old < T.failures tree.new) (λ reason.
        InEachPair (T.agrees tree.new) (λ files listings.
        RequestStep (request_context_in limits shell files listings) env.now
        (actions.load (map string_bytes names.now)) (Err reason)))) }
    ensures failed { FailsAt is_failure (T.failed tree.old) (T.failed tree.new) result (λ at.
        InEachPair (T.agrees tree.new) (λ files listings.
        RequestLooksAt (request_context_in limits shell files listings) env.now
        (actions.load (map string_bytes names.now)) at)) }
{
    let request = load_request(alloc, shell, names)?;
    Ok(run(alloc, &request, env, tree, limits)?.env)
}

/// What the unload of these names changes.
pub(crate) fn unload<T: Tree>(
    alloc: Global,
    shell: Shell,
    names: &[String],
    env: &Env,
    tree: &mut T,
    limits: Limits,
) -> Result<RequestChanges, Refusal>
    ensures reads { ReadsOn T.agrees T.failures tree.old tree.new }
    ensures over_tree { StepAnswersOverTree (T.agrees tree.new) (T.failures tree.old < T.failures tree.new)
        (changed_view env.now) result
        (λ files listings. RequestStep (request_context_in limits shell files listings) env.now
        (actions.unload (map string_bytes names.now))) }
    ensures exact { IfOk result (λ changed.
        AreChanges env.now (changed_env env.now changed) (new_values_in changed.changes)) }
    ensures failed { FailsAt is_failure (T.failed tree.old) (T.failed tree.new) result (λ at.
        InEachPair (T.agrees tree.new) (λ files listings.
        RequestLooksAt (request_context_in limits shell files listings) env.now
        (actions.unload (map string_bytes names.now)) at)) }
{
    let request = Request {
        shell,
        action: Action::Unload(copies(alloc, names)?),
    };
    run_changes(alloc, &request, env, tree, limits)
}
