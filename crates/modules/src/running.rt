//! Runs one request over an environment that doesn't change.
ghost use Rattle.std.specs.Prelude.{◌<◌, IfOk, IfErr};
ghost use Rattle.envvars.specs.Changes.{AreChanges, new_values_in};
ghost use Rattle.filetree.specs.Agreement.{FailsAt, InEachPair, ReadsOn};
ghost use Rattle.requests.specs.RequestViews.{action_view};
ghost use Rattle.requests.specs.Steps.{RequestStep, request_context_in};
ghost use Rattle.requests.specs.Looked.{RequestLooksAt};
ghost use Rattle.modules.specs.Answers.{StepAnswersOverTree, is_failure};
ghost use Rattle.modules.specs.Messages.{memory_numbers, MemoryNumberAmong};
ghost use Rattle.modules.specs.Replies.{changed_env, changed_view, reply_view};

use crate::refusal::Refusal;
use crate::reply::{Reply, RequestChanges};
use crate::step::step;
use envvars::{Env, Vars, Working};
use filetree::Tree;
use requests::Request;
use std::alloc::Global;
use tclrules::Limits;

/// Runs a request over an environment, which doesn't change, and a tree of modulefiles, and answers what the request
/// changes. Its cost grows with what the request touches, whatever else is set.
///
/// It is refused as the request's step over the tree is; or by 43 where the device failed in this call, at a path that
/// the request looks at; or for want of memory: 31, 41 where files are searched for or read, 11 where they are
/// evaluated. Then there is no change.
pub fn run_changes<T: Tree>(
    alloc: Global,
    request: &Request,
    env: &Env,
    tree: &mut T,
    limits: Limits,
) -> Result<RequestChanges, Refusal>
    ensures reads { ReadsOn T.agrees T.failures tree.old tree.new }
    ensures over_tree { StepAnswersOverTree (T.agrees tree.new) (T.failures tree.old < T.failures tree.new)
        (changed_view env.now) result
        (λ files listings. RequestStep (request_context_in limits request.now.shell files listings) env.now
        (action_view request.now.action)) }
    ensures out_of_memory { IfErr result (MemoryNumberAmong (memory_numbers (action_view request.now.action))) }
    ensures exact { IfOk result (λ changed.
        AreChanges env.now (changed_env env.now changed) (new_values_in changed.changes)) }
    ensures failed { FailsAt is_failure (T.failed tree.old) (T.failed tree.new) result (λ at.
        InEachPair (T.agrees tree.new) (λ files listings.
        RequestLooksAt (request_context_in limits request.now.shell files listings) env.now
        (action_view request.now.action) at)) }
{
    envvars::laws::changes();
    let mut working = Working::over(env);
    let done = step(alloc, request, &mut working, tree, limits)?;
    let changes = working.into_changes()?;
    Ok(RequestChanges { changes, done })
}

/// Runs a request as `run_changes` does, and answers the environment that results. It costs a copy of the environment
/// besides.
pub fn run<T: Tree>(
    alloc: Global,
    request: &Request,
    env: &Env,
    tree: &mut T,
    limits: Limits,
) -> Result<Reply, Refusal>
    ensures reads { ReadsOn T.agrees T.failures tree.old tree.new }
    ensures over_tree { StepAnswersOverTree (T.agrees tree.new)
        (T.failures tree.old < T.failures tree.new) reply_view result
        (λ files listings. RequestStep (request_context_in limits request.now.shell files listings) env.now
        (action_view request.now.action)) }
    ensures out_of_memory { IfErr result (MemoryNumberAmong (memory_numbers (action_view request.now.action))) }
    ensures failed { FailsAt is_failure (T.failed tree.old) (T.failed tree.new) result (λ at.
        InEachPair (T.agrees tree.new) (λ files listings.
        RequestLooksAt (request_context_in limits request.now.shell files listings) env.now
        (action_view request.now.action) at)) }
{
    let RequestChanges { changes, done } = run_changes(alloc, request, env, tree, limits)?;
    let mut after = env.copy()?;
    after.apply(changes)?;
    Ok(Reply {
        env: after,
        loaded: done.loaded,
        messages: done.messages,
        report: done.report,
        moves: done.moves,
    })
}
