//! Commands that the host answers: puts(n), and those that are no part of Tcl.
ghost use Rattle.std.specs.Prelude.{◌≡◌, ◌∷◌, IfOk, map, string_bytes};
ghost use Rattle.tclrules.specs.Derivation.{Consults};
ghost use Rattle.tclrules.specs.Simulates.{point};
ghost use Rattle.tclrules.specs.Forms.{Put};
ghost use Rattle.tclrules.specs.Rules.{form, replied};
ghost use Rattle.tclcommands.specs.Continuations.{ContinuesWithAnswer, ContinuesWithResult, command_name};

use crate::value::Value;
use message::texts::with_copies;
use std::alloc::{AllocError, Global};
use tclforms::no_command;
use tclforms::substitution::Stop;
use tclforms::variables::Variables;
use tclrules::{EvalFault, Host, HostAnswer};

/// The result of the command of this name and these words, by the host. A name that the host doesn't know is an error
/// of Tcl, which catch(n) sees; all other refusals halt.
#[tactic(none)]
fn ask_host<H: Host>(
    alloc: Global,
    variables: &Variables,
    host: &mut H,
    name: &str,
    words: &[String],
) -> Result<String, Stop>
    ensures { ContinuesWithAnswer (λ k. Consults (map string_bytes words.now)
        (replied name.now variables.now k)) result variables.now
        (point (H.oracle host.old) (H.trace host.old)) (point (H.oracle host.new) (H.trace host.new)) }
{
    match host.command(words) {
        HostAnswer::Done(text) => Ok(text),
        HostAnswer::Unknown => Err(Stop::from(no_command(alloc, name))),
        HostAnswer::LeftOut(name) => Err(Stop::Fault(EvalFault::LeftOut(name))),
        HostAnswer::Refused(number) => Err(Stop::Fault(EvalFault::Host(number))),
        HostAnswer::OutOfMemory => Err(Stop::Fault(EvalFault::OutOfMemory)),
    }
}

/// The first word, which is the command's name; empty where there is none.
fn command_name(words: &[String]) -> &str
    ensures { result.now ≡ command_name (map string_bytes words.entry.now) }
{
    match words {
        [name, ..] => name.as_str(),
        [] => "",
    }
}

/// A command that is neither a core command nor a procedure, by all its words, of which the first is its name. The host
/// does it and answers the result.
///
/// Errors: that no command has this name, which catch(n) sees; a halt where the host refuses the command, says that it
/// is unsupported, or runs out of memory.
#[tactic(none)]
pub fn consult<'a, H: Host>(
    alloc: Global,
    variables: &Variables,
    host: &mut H,
    words: &'a [String],
) -> Result<Value<'a>, Stop>
    ensures { ContinuesWithResult (λ b k. Consults (map string_bytes words.now)
        (replied (command_name (map string_bytes words.now)) variables.now k)) result variables.now
        (point (H.oracle host.old) (H.trace host.old)) (point (H.oracle host.new) (H.trace host.new)) }
{
    Ok(Value::Text(ask_host(alloc, variables, host, command_name(words), words)?))
}

/// A name, and copies of words after it.
fn name_and_words(alloc: Global, name: &str, words: &[String]) -> Result<Vec<String>, AllocError>
    ensures { IfOk result (λ v. map string_bytes v.items ≡ name.now ∷ map string_bytes words.now) }
{
    let name = String::from_str(alloc, name)?;
    with_copies(alloc, vec![in alloc; name]?, words)
}

/// puts(n). The words after the name were judged already; the host writes the text or drops it.
///
/// Errors: as of `consult`.
#[tactic(none)]
pub fn put<'a, H: Host>(
    alloc: Global,
    variables: &Variables,
    host: &mut H,
    words: &'a [String],
) -> Result<Value<'a>, Stop>
    ensures { ContinuesWithResult
        (λ b k. form b (Put (map string_bytes words.now)) variables.now k) result variables.now
        (point (H.oracle host.old) (H.trace host.old)) (point (H.oracle host.new) (H.trace host.new)) }
{
    let words = name_and_words(alloc, "puts", words)?;
    Ok(Value::Text(ask_host(alloc, variables, host, "puts", &words)?))
}
