//! Calls over an environment, and over a working one beside it, which have to answer alike.

use crate::edits::edit;
use crate::queries::answer_query;
use crate::shown::{listed, shown, starved};
use crate::texts::words;
use envstate::{Env, EnvFault, Vars, Working, changes};
use std::alloc::Global;
use std::io;

/// The answer where the two environments have two.
const TWO_ANSWERS: &str = "the two differ";

/// Sets the variable of a word.
pub(crate) fn set_one(env: &mut Env, word: &str) -> Result<(), EnvFault> {
    let (name, value) = word.split_once('=').unwrap_or((word, ""));
    env.set(name, value)
}

/// Sets the variables of the words.
fn set_all(env: &mut Env, words: &str) -> Result<(), EnvFault> {
    for word in words.split(' ') {
        set_one(env, word)?;
    }
    Ok(())
}

/// The variables of a line `from NAME=VALUE...`.
fn start(alloc: Global, calls: &[String]) -> Result<Env, EnvFault> {
    let mut env = Env::new(alloc);
    if let Some(first) = calls.first() {
        if let Some(words) = first.strip_prefix("from ") {
            set_all(&mut env, words)?;
        }
    }
    Ok(env)
}

/// No answer, where an edit was made.
fn edited<V: Vars>(
    alloc: Global,
    vars: &mut V,
    words: &[String],
) -> Result<Option<String>, EnvFault> {
    edit(alloc, vars, words)?;
    Ok(None)
}

/// The answer to a query; None for an edit that was made.
fn answered<V: Vars>(
    alloc: Global,
    vars: &mut V,
    words: &[String],
) -> Result<Option<String>, EnvFault> {
    match answer_query(alloc, vars, words) {
        Some(answer) => answer.map(Some),
        None => edited(alloc, vars, words),
    }
}

/// The number of a refusal after `!`. Memory alone is a fault.
fn refusal(alloc: Global, fault: EnvFault) -> Result<Option<String>, EnvFault> {
    if let EnvFault::OutOfMemory = fault {
        return Err(fault);
    }
    let number = fault.number();
    Ok(Some(format!(in alloc; "!{number}")?))
}

/// The answer for words, with `!NUMBER` for a refusal. Memory alone is a fault.
fn made<V: Vars>(
    alloc: Global,
    vars: &mut V,
    words: &[String],
) -> Result<Option<String>, EnvFault> {
    match answered(alloc, vars, words) {
        Ok(answer) => Ok(answer),
        Err(fault) => refusal(alloc, fault),
    }
}

/// The answer of a call that is no edit, unless it has changed the variables.
fn unless_lost(
    alloc: Global,
    are_lost: bool,
    made: Result<Option<String>, EnvFault>,
) -> Result<String, EnvFault> {
    match made {
        _ if are_lost => Ok(String::from_str(alloc, "the variables are lost")?),
        Ok(Some(answer)) => Ok(answer),
        Ok(None) => Ok(String::new(alloc)),
        Err(fault) => Err(fault),
    }
}

/// Whether a call was an edit that was made, and its answer: of an edit the variables after it. Any other answer
/// changes none.
fn judged(
    alloc: Global,
    before: &str,
    made: Result<Option<String>, EnvFault>,
    after: String,
) -> Result<(bool, String), EnvFault> {
    match made {
        Ok(None) => Ok((true, after)),
        made => Ok((false, unless_lost(alloc, after.as_str() != before, made)?)),
    }
}

/// Makes a call over these variables; whether it was an edit that was made, and its answer.
fn called(
    alloc: Global,
    env: &mut Env,
    words: &[String],
    before: String,
) -> Result<(bool, String), EnvFault> {
    let made = made(alloc, env, words);
    judged(alloc, &before, made, shown(alloc, env)?)
}

/// Makes a call that may change the variables; whether it was an edit that was made, and its answer.
fn changed(alloc: Global, env: &mut Env, words: &[String]) -> Result<(bool, String), EnvFault> {
    let before = shown(alloc, env)?;
    called(alloc, env, words, before)
}

/// An environment, and a working one over the same start.
#[derive(Drop)]
struct BothVariables<'a> {
    env: Env,
    working: Working<'a>,
}

/// The answer where both environments say the same.
fn agreed(alloc: Global, answer: String, is_same: bool) -> Result<String, EnvFault> {
    if is_same {
        Ok(answer)
    } else {
        Ok(String::from_str(alloc, TWO_ANSWERS)?)
    }
}

/// Whether the working environment answers to a call as the other one did.
fn is_same(
    alloc: Global,
    working: &mut Working<'_>,
    words: &[String],
    is_edit: bool,
    answer: &str,
) -> Result<bool, EnvFault> {
    Ok(match made(alloc, working, words)? {
        None => is_edit,
        Some(other) => !is_edit && other.as_str() == answer,
    })
}

/// The answer of both environments to a call.
fn answer_to(alloc: Global, both: &mut BothVariables<'_>, call: &str) -> Result<String, EnvFault> {
    let words = words(alloc, b'^', call)?;
    let (is_edit, answer) = changed(alloc, &mut both.env, &words)?;
    let is_same = is_same(alloc, &mut both.working, &words, is_edit, &answer)?;
    agreed(alloc, answer, is_same)
}

fn changes_between(alloc: Global, old: &Env, env: &Env) -> Result<String, EnvFault> {
    Ok(listed(alloc, &changes(alloc, old, env)?)?)
}

fn changes_in(alloc: Global, working: Working<'_>) -> Result<String, EnvFault> {
    Ok(listed(alloc, &working.into_changes()?)?)
}

/// What has changed, where a working environment says the same.
fn agreed_changes(alloc: Global, found: String, working: Working<'_>) -> Result<String, EnvFault> {
    let is_same = changes_in(alloc, working)? == found;
    agreed(alloc, found, is_same)
}

/// What has changed, where both environments say the same.
fn differences(alloc: Global, old: &Env, both: BothVariables<'_>) -> Result<String, EnvFault> {
    let BothVariables { env, working } = both;
    agreed_changes(alloc, changes_between(alloc, old, &env)?, working)
}

fn print(rt: &HostRuntime, call: &str, answer: &str) -> io::Result<()> {
    if answer.is_empty() {
        println!(rt; "{call} =>")
    } else {
        println!(rt; "{call} => {answer}")
    }
}

/// Answers calls, each by a line.
fn print_answers(
    rt: &HostRuntime,
    both: &mut BothVariables<'_>,
    calls: &[String],
) -> io::Result<()> {
    for call in calls {
        print(rt, call, &starved(answer_to(rt.alloc(), both, call))?)?;
    }
    Ok(())
}

/// Answers calls over a start, and prints what they have changed.
fn answer_over(rt: &HostRuntime, old: &Env, calls: &[String]) -> io::Result<()> {
    let mut both = BothVariables {
        env: starved(old.copy())?,
        working: Working::over(old),
    };
    print_answers(rt, &mut both, calls)?;
    print(rt, "changes", &starved(differences(rt.alloc(), old, both))?)
}

/// Answers calls, and prints what they have changed.
pub(crate) fn answer(rt: &HostRuntime, calls: &[String]) -> io::Result<()> {
    let old = starved(start(rt.alloc(), calls))?;
    answer_over(rt, &old, calls)
}
