//! Runs requests one after another, each with its outcome; a refused one changes nothing.
ghost use Rattle.std.specs.Prelude.{◌≡◌, ◌<◌, ◌≤◌, ◌+◌, [], ◌∷◌, map, IfOk, IfErr, OnErr};
ghost use Rattle.filetree.specs.Agreement.{FailsAt, FailsIf, FailsOnlyAt, InEachPair, Narrows, ReadsOn};
ghost use Rattle.shelltext.specs.declared.shell.Shell.{Shell};
ghost use Rattle.requests.specs.RequestViews.{action_view, request_view};
ghost use Rattle.requests.specs.Sessions.{Session, IsResponse, env_after, end_environment};
ghost use Rattle.requests.specs.Steps.{RequestStep, request_context_in};
ghost use Rattle.requests.specs.Looked.{RequestLooksAt, SessionLooksAt};
ghost use Rattle.modules.specs.Answers.{StepAnswersOverTree, is_failure};
ghost use Rattle.modules.specs.Views.{done_view};
ghost use Rattle.modules.specs.declared.refusal.Refusal.TheVariants as refusals;
ghost use Rattle.modules.specs.Responses.{response_of, responses, has_failed, count_failed, Returns};

use crate::done::RequestResults;
use crate::refusal::Refusal;
use crate::reply::RequestChanges;
use crate::running::run_changes;
use envvars::{Env, Vars};
use filetree::Tree;
use requests::Request;
use std::alloc::Global;
use tclrules::Limits;

/// The outcome of a request.
#[derive(Drop)]
pub enum Outcome {
    /// It was accepted, and its changes were made: the names that it loaded, its messages and its report.
    Accepted(RequestResults),
    /// It was refused, and nothing was changed.
    Refused(Refusal),
}

/// Runs a request and makes its changes: all of them, or none where it is refused. It answers what was done besides.
///
/// Errors: as `run_changes`. It is refused by 43 only where the device failed in this call, at a path that the request
/// looks at.
pub fn make_changes<T: Tree>(
    alloc: Global,
    request: &Request,
    env: &mut Env,
    tree: &mut T,
    limits: Limits,
) -> Result<RequestResults, Refusal>
    ensures reads { ReadsOn T.agrees T.failures tree.old tree.new }
    ensures over_tree { StepAnswersOverTree (T.agrees tree.new) (T.failures tree.old < T.failures tree.new)
        (λ done. done_view done env.new) result
        (λ files listings. RequestStep (request_context_in limits request.now.shell files listings) env.old
        (action_view request.now.action)) }
    ensures unchanged { OnErr result (env.new ≡ env.old) }
    ensures failed { FailsAt is_failure (T.failed tree.old) (T.failed tree.new) result (λ at.
        InEachPair (T.agrees tree.new) (λ files listings.
        RequestLooksAt (request_context_in limits request.now.shell files listings) env.old
        (action_view request.now.action) at)) }
{
    let RequestChanges { changes, done } = run_changes(alloc, request, env, tree, limits)?;
    env.apply(changes)?;
    Ok(done)
}

/// Runs a request and answers its outcome. Where it is accepted its changes are made; where it is refused the
/// environment doesn't change.
///
/// In each pair of maps that agrees with the tree the outcome is a response to the request in the environment as it
/// was. It is refused by 43 only where the device failed in this call, at a path that the request looks at.
pub fn respond<T: Tree>(
    alloc: Global,
    request: &Request,
    env: &mut Env,
    tree: &mut T,
    limits: Limits,
) -> Outcome
    ensures narrows { Narrows (T.agrees tree.old) (T.agrees tree.new) }
    ensures failures { T.failures tree.old + count_failed (result ∷ []) ≤ T.failures tree.new }
    ensures answer { InEachPair (T.agrees tree.new) (λ files listings.
        IsResponse (request_context_in limits request.now.shell files listings) env.old (action_view request.now.action)
        (response_of env.old result)) }
    ensures end { InEachPair (T.agrees tree.new) (λ files listings.
        env.new ≡ env_after env.old (response_of env.old result)) }
    ensures failed { FailsIf (has_failed result) (T.failed tree.old) (T.failed tree.new) (λ at.
        InEachPair (T.agrees tree.new) (λ files listings.
        RequestLooksAt (request_context_in limits request.now.shell files listings) env.old
        (action_view request.now.action) at)) }
{
    requests::outcomes();
    match make_changes(alloc, request, env, tree, limits) {
        Ok(done) => Outcome::Accepted(done),
        Err(refusal) => Outcome::Refused(refusal),
    }
}

/// Runs requests one after another over an environment and a tree of modulefiles, and answers the environment that
/// results, with one outcome for each request. A refused request changes nothing, and the next is run.
///
/// For every pair of maps that agrees with the tree, the outcomes are those of a session. No more of them are refused
/// by 43 than the device failed, and it failed only at paths that a request of the session looks at.
///
/// The session returns to its start where the environment is in order, no module is unloaded that was loaded in it, the
/// modules that are loaded are reversible and apart, and the records of each unload undo what those of its load
/// undo. Then each environment of the session is in order and is the first one with the live modules layered on it, and
/// with none live it is the first one again. The tree is one: relative paths mean the same throughout.
///
/// Errors: want of memory for the list of outcomes (31).
pub fn session<T: Tree>(
    alloc: Global,
    requests: &[Request],
    env: Env,
    tree: &mut T,
    limits: Limits,
) -> Result<(Env, Vec<Outcome>), Refusal>
    ensures narrows { Narrows (T.agrees tree.old) (T.agrees tree.new) }
    ensures failures { IfOk result (λ p. T.failures tree.old + count_failed p.1.items ≤ T.failures tree.new) }
    ensures ran { IfOk result (λ p. InEachPair (T.agrees tree.new) (λ files listings. (shell : Shell)
        → Session (request_context_in limits shell files listings) env (map request_view requests.now)
        (responses env p.1.items))) }
    ensures end { IfOk result (λ p. InEachPair (T.agrees tree.new) (λ files listings.
        p.0 ≡ end_environment env (responses env p.1.items))) }
    ensures returns { IfOk result (λ p. InEachPair (T.agrees tree.new) (λ files listings.
        Returns env (responses env p.1.items))) }
    ensures only { IfErr result (λ refusal. refusal ≡ refusals.OutOfMemory) }
    ensures failed { FailsOnlyAt T.agrees T.failed tree.old tree.new (λ files listings at. (shell : Shell)
        → SessionLooksAt (request_context_in limits shell files listings) env (map request_view requests.now) at) }
{
    requests::session_returns();
    let mut after = env;
    let mut outcomes = Vec::new(alloc);
    for request in requests {
        let outcome = respond(alloc, request, &mut after, tree, limits);
        outcomes.push(outcome)?;
    }
    Ok((after, outcomes))
}
