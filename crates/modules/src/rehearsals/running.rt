//! Runs lines one after another, each by the request that its words make.
ghost use Rattle.std.specs.Prelude.{◌≡◌, ◌≤◌, ◌+◌, [], ◌∷◌, map, IfOk, IfErr, string_bytes};
ghost use Rattle.envvars.specs.Texts.{texts_in};
ghost use Rattle.filetree.specs.Agreement.{FailsOnlyAt, Narrows, InEachPair, ReadsOn};
ghost use Rattle.modules.specs.declared.refusal.Refusal.TheVariants as refusals;
ghost use Rattle.requests.specs.Steps.{request_context_in};
ghost use Rattle.modules.specs.Responses.{response_of, responses, count_failed};
ghost use Rattle.requests.specs.Sessions.{env_after, end_environment};
ghost use Rattle.modules.specs.rehearsals.Sessions.{IsLineResponse, LineLooksAt, LineSession, LinesLookAt};

use crate::{Outcome, Refusal, request, respond};
use envvars::Env;
use filetree::Tree;
use shelltext::Shell;
use std::alloc::Global;
use tclrules::Limits;

/// Runs the request of a line's words and answers its outcome. Where they make no request it is refused so.
fn respond_to<T: Tree>(
    alloc: Global,
    shell: Shell,
    words: &[String],
    env: &mut Env,
    tree: &mut T,
    limits: Limits,
) -> Outcome
    ensures narrows { Narrows (T.agrees tree.old) (T.agrees tree.new) }
    ensures failures { T.failures tree.old + count_failed (result ∷ []) ≤ T.failures tree.new }
    ensures answer { InEachPair (T.agrees tree.new) (λ files listings.
        IsLineResponse (request_context_in limits shell files listings) env.old (map string_bytes words.now)
        (response_of env.old result)) }
    ensures end { InEachPair (T.agrees tree.new) (λ files listings.
        env.new ≡ env_after env.old (response_of env.old result)) }
    ensures failed { FailsOnlyAt T.agrees T.failed tree.old tree.new (λ files listings at.
        LineLooksAt (request_context_in limits shell files listings) env.old (map string_bytes words.now) at) }
{
    match request(alloc, shell, words) {
        Ok(request) => respond(alloc, &request, env, tree, limits),
        Err(refusal) => Outcome::Refused(refusal),
    }
}

/// Runs lines one after another, each by its words, and answers the outcome of each.
pub(crate) fn run_lines<T: Tree>(
    alloc: Global,
    shell: Shell,
    lines: &[Vec<String>],
    env: &mut Env,
    tree: &mut T,
    limits: Limits,
) -> Result<Vec<Outcome>, Refusal>
    ensures reads { ReadsOn T.agrees T.failures tree.old tree.new }
    ensures failures { IfOk result (λ outcomes.
        T.failures tree.old + count_failed outcomes.items ≤ T.failures tree.new) }
    ensures ran { IfOk result (λ outcomes. InEachPair (T.agrees tree.new) (λ files listings.
        LineSession (request_context_in limits shell files listings) env.old (map texts_in lines.now)
        (responses env.old outcomes.items))) }
    ensures end { IfOk result (λ outcomes. InEachPair (T.agrees tree.new) (λ files listings.
        env.new ≡ end_environment env.old (responses env.old outcomes.items))) }
    ensures only { IfErr result (λ refusal. refusal ≡ refusals.OutOfMemory) }
    ensures failed { FailsOnlyAt T.agrees T.failed tree.old tree.new (λ files listings at.
        LinesLookAt (request_context_in limits shell files listings) env.old (map texts_in lines.now) at) }
{
    let mut outcomes = Vec::new(alloc);
    for words in lines {
        let outcome = respond_to(alloc, shell, words.as_slice(), env, tree, limits);
        outcomes.push(outcome)?;
    }
    Ok(outcomes)
}
