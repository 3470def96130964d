//! Rehearses requests: runs them one after another, and collects the text that each prints.
ghost use Rattle.std.specs.Prelude.{◌≡◌, map, IfOk, IfErr};
ghost use Rattle.filetree.specs.Agreement.{FailsOnlyAt, InEachPair, Narrows};
ghost use Rattle.shelltext.specs.declared.shell.Shell.{Shell};
ghost use Rattle.requests.specs.Looked.{OwnLooksAt, SessionLooksAt};
ghost use Rattle.requests.specs.RequestViews.{request_view};
ghost use Rattle.modules.specs.declared.refusal.Refusal.TheVariants as refusals;
ghost use Rattle.requests.specs.Steps.{request_context_in};
ghost use Rattle.modules.specs.rehearsals.Rehearsals.{Rehearsal, MakesSession, TextsReturnToStart};
ghost use Rattle.modules.specs.rehearsals.RehearsalParts.{PrintsFor, print_view, prints};

use crate::rehearsals::laws::{texts_make_session, texts_return_to_start};
use crate::{Refusal, run_changes};
use envvars::{Env, Vars};
use filetree::Tree;
use requests::Request;
use shelltext::print_changes;
use std::alloc::Global;
use tclrules::Limits;

/// Makes the changes of a request, and answers the text that it prints; none, and no change, where it is refused or the
/// shell has no text for its changes.
fn print_request<T: Tree>(
    alloc: Global,
    request: &Request,
    env: &mut Env,
    tree: &mut T,
    limits: Limits,
) -> Option<String>
    ensures narrows { Narrows (T.agrees tree.old) (T.agrees tree.new) }
    ensures prints_for { PrintsFor (T.agrees tree.new) limits (request_view request.now) env.old env.new
        (print_view result)
        (T.failures tree.old) (T.failures tree.new) }
    ensures failed { FailsOnlyAt T.agrees T.failed tree.old tree.new (λ files listings at. (shell : Shell)
        → OwnLooksAt (request_context_in limits shell files listings) env.old (request_view request.now) at) }
{
    let Ok(changed) = run_changes(alloc, request, env, tree, limits) else {
        return None;
    };
    let Ok(text) = print_changes(alloc, request.shell, changed.changes.as_slice()) else {
        return None;
    };
    match env.apply(changed.changes) {
        Ok(()) => Some(text),
        Err(_) => None,
    }
}

/// Runs requests one after another over an environment and a tree of modulefiles, as a session, and answers what they
/// result in: the environment at the end, with the text that each accepted request prints for its shell. A refused one
/// has no text and changes nothing; so has one whose changes have no text in its shell (62).
///
/// For every pair of maps that agrees with the tree it is a rehearsal. No more requests are without a text because the
/// device failed than it failed, and it failed only at paths that a request looks at. So shells that ran the texts so
/// far hold the environment that the session has there.
///
/// They hold the first environment again at the end where it is in order, no module is unloaded that was loaded in it,
/// the modules that are loaded are reversible and apart, the records of each unload undo what those of its load
/// undo, and none of them is loaded at the end.
///
/// Errors: want of memory for the list of texts (31).
pub fn rehearse<T: Tree>(
    alloc: Global,
    requests: &[Request],
    env: Env,
    tree: &mut T,
    limits: Limits,
) -> Result<(Env, Vec<Option<String>>), Refusal>
    ensures narrows { Narrows (T.agrees tree.old) (T.agrees tree.new) }
    ensures rehearsed { IfOk result (λ p. InEachPair (T.agrees tree.new) (λ files listings. (shell : Shell)
        → Rehearsal (request_context_in limits shell files listings) env (map request_view requests.now) (prints p.1.items) p.0
        (T.failures tree.old) (T.failures tree.new))) }
    ensures makes { IfOk result (λ p. InEachPair (T.agrees tree.new) (λ files listings. (shell : Shell)
        → MakesSession (request_context_in limits shell files listings) env (map request_view requests.now)
        (prints p.1.items) p.0)) }
    ensures returns_to_start { IfOk result (λ p. InEachPair (T.agrees tree.new) (λ files listings. (shell : Shell)
        → TextsReturnToStart (request_context_in limits shell files listings) env (map request_view requests.now)
        (prints p.1.items) p.0)) }
    ensures only { IfErr result (λ refusal. refusal ≡ refusals.OutOfMemory) }
    ensures failed { FailsOnlyAt T.agrees T.failed tree.old tree.new (λ files listings at. (shell : Shell)
        → SessionLooksAt (request_context_in limits shell files listings) env (map request_view requests.now) at) }
{
    texts_make_session();
    texts_return_to_start();
    let mut after = env;
    let mut texts = Vec::new(alloc);
    for request in requests {
        let text = print_request(alloc, request, &mut after, tree, limits);
        texts.push(text)?;
    }
    Ok((after, texts))
}
