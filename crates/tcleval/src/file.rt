//! A text evaluated as a file, and the fault of a file with its line and its place.
ghost use Rattle.std.specs.Prelude.{◌≡◌, List, min, IfOk};
ghost use Rattle.tclrules.specs.Derivation.{OpenScript};
ghost use Rattle.tclrules.specs.Variables.{State};
ghost use Rattle.tclrules.specs.Rules.{file_ended};
ghost use Rattle.tclrules.specs.Meaning.{outermost};
ghost use Rattle.tclrules.specs.Promise.{Evaluates, EvaluatesPlaced, texts_of};
ghost use Rattle.tcleval.specs.cache.Kept.{BeginWith};
ghost use Rattle.tclcommands.specs.Completions.{completed};
ghost use Rattle.tcleval.specs.Files.{after_file, ReportsFailure, IsPlaced, AnswersFile};

use crate::bounds::Bounds;
use crate::cache::Kept;
use crate::evaluator::Evaluator;
use crate::open_scripts::OpenScripts;
use crate::places::line_at;
use std::alloc::{AllocError, Global};
use std::mem;
use tclcommands::{ResultUse, initial_variables};
use tclforms::substitution::Stop;
use tclforms::variables::Variables;
use tclrules::{Ending, EvalFault, Host, Limits, PlacedFault};

/// The result of a file, by the completion of its commands: `return` and `continue` end it, `break` halts it.
fn file_completion(alloc: Global, outcome: Result<String, Stop>) -> Result<String, EvalFault>
    ensures { (s : State) → completed outcome file_ended s ≡ after_file result s }
{
    match outcome {
        Ok(result) => Ok(result),
        Err(Stop::Returned(result)) => Ok(result),
        Err(Stop::Continued) => Ok(String::new(alloc)),
        Err(Stop::Broken) => Err(EvalFault::Stopped),
        Err(Stop::Fault(fault)) => Err(fault),
    }
}

/// The fault of a file that failed in its own command at this byte offset: an error gets the line.
fn with_line(script: &str, offset: usize, fault: EvalFault) -> EvalFault
    ensures { (scripts : List OpenScript) → outermost scripts ≡ offset
        → ReportsFailure script.now scripts fault result }
{
    match fault {
        EvalFault::TclError(message, _) => EvalFault::TclError(message, line_at(script, offset)),
        fault => fault,
    }
}

/// The depth that scripts may have: the limit, or 200 where that is less.
fn depth_limit(limits: Limits) -> u32
    ensures { result ≡ min limits.depth 200 }
{
    limits.depth.min(200)
}

/// The answer for a file: its result with the global variables after it, or its fault.
fn file_answer(
    alloc: Global,
    variables: Variables,
    used_commands: u64,
    scripts: &OpenScripts,
    script: &str,
    outcome: Result<String, EvalFault>,
) -> Result<Ending, PlacedFault>
    ensures { AnswersFile script.now variables used_commands scripts.now outcome result }
{
    match outcome {
        Ok(result) => {
            let globals = variables.into_globals(alloc)?;
            Ok(Ending {
                result,
                globals,
                used_commands,
            })
        }
        Err(fault) => {
            let fault = placed(alloc, scripts, script, fault)?;
            Err(fault)
        }
    }
}

/// The fault of a file with its place, and an error with its line.
fn placed(
    alloc: Global,
    scripts: &OpenScripts,
    script: &str,
    fault: EvalFault,
) -> Result<PlacedFault, AllocError>
    ensures { IfOk result (IsPlaced script.now scripts.now fault) }
{
    let place = scripts.place_in(alloc, script)?;
    let fault = with_line(script, scripts.outermost_offset(), fault);
    Ok(PlacedFault { fault, place })
}

/// Evaluates a script (Tcl(n)) as a file, for a host, from these global variables and within these limits. Scripts and
/// expressions that are parsed go into the cache while it has room, and those in it aren't parsed again; it only gains
/// texts, after a fault too. The outcome is the same whatever the cache has.
///
/// Errors, each with the place where it ended the evaluation: 11 `OutOfMemory`, here or in the host; 12 `Text` where the
/// script, a body or an expression can't be parsed; 13 `TclError` for an error that nothing caught, with its message and
/// the line of the file's own current command; 14 `TooManyCommands`, 15 `TooDeep` and 16 `ValueTooLong` where a limit is
/// met; 17 `NumberTooLarge` and 18 `FractionOperand` for numbers that aren't computed; 19 `LeftOut` for what is
/// unsupported on purpose, with its name; 20 `Stopped` where the script stops itself (`exit`, or `break` outside of
/// loops); 21 `Host` where the host refuses a command, with the host's number.
#[tactic(none)]
pub fn evaluate_placed<H: Host>(
    alloc: Global,
    cache: &mut Kept,
    script: &str,
    globals: Vec<(String, String)>,
    host: &mut H,
    limits: Limits,
) -> Result<Ending, PlacedFault>
    ensures evaluates { EvaluatesPlaced limits script.now (texts_of globals.items) (H.oracle host.old)
        (H.trace host.old) result (H.trace host.new) }
    ensures same { H.oracle host.new ≡ H.oracle host.old }
    ensures begins { BeginWith cache.old cache.new }
{
    let variables = initial_variables(alloc, host.reserved(), globals)?;
    let scripts = OpenScripts::new(alloc);
    let mut evaluator = Evaluator {
        alloc,
        cache: mem::replace(cache, Kept::new(alloc)),
        variables,
        scripts,
        used: 0,
    };
    let bounds = Bounds {
        limits,
        remaining: depth_limit(limits),
    };
    let outcome = evaluator.script(host, bounds, script, ResultUse::Needed);
    let Evaluator {
        alloc: _,
        cache: trees,
        variables,
        scripts,
        used,
    } = evaluator;
    *cache = trees;
    file_answer(
        alloc,
        variables,
        used,
        &scripts,
        script,
        file_completion(alloc, outcome),
    )
}

/// Evaluates a script as `evaluate_placed` does, and answers a fault without its place.
///
/// Errors: as of `evaluate_placed`.
#[tactic(none)]
pub fn evaluate_with<H: Host>(
    alloc: Global,
    cache: &mut Kept,
    script: &str,
    globals: Vec<(String, String)>,
    host: &mut H,
    limits: Limits,
) -> Result<Ending, EvalFault>
    ensures evaluates { Evaluates limits script.now (texts_of globals.items) (H.oracle host.old) (H.trace host.old)
        result (H.trace host.new) }
    ensures same { H.oracle host.new ≡ H.oracle host.old }
    ensures begins { BeginWith cache.old cache.new }
{
    match evaluate_placed(alloc, cache, script, globals, host, limits) {
        Ok(ending) => Ok(ending),
        Err(PlacedFault { fault, .. }) => Err(fault),
    }
}

/// Evaluates a script as `evaluate_with` does, with a cache of its own that is empty at first.
///
/// Errors: as of `evaluate_with`.
#[tactic(none)]
pub fn evaluate<H: Host>(
    alloc: Global,
    script: &str,
    globals: Vec<(String, String)>,
    host: &mut H,
    limits: Limits,
) -> Result<Ending, EvalFault>
    ensures evaluates { Evaluates limits script.now (texts_of globals.items) (H.oracle host.old) (H.trace host.old)
        result (H.trace host.new) }
    ensures same { H.oracle host.new ≡ H.oracle host.old }
{
    let mut cache = Kept::new(alloc);
    evaluate_with(alloc, &mut cache, script, globals, host, limits)
}
