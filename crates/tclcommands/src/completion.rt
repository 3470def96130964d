//! The completion of a script (ok, error, return, break, continue; catch(n)), as loops, catch(n) and calls of
//! procedures continue after it.
ghost use Rattle.std.specs.Prelude.{◌≡◌, ℕ, Option, option_map, string_bytes};
ghost use Rattle.tclrules.specs.Simulates.{Simulates, Point};
ghost use Rattle.tclforms.specs.substitution.Machine.{bounds};
ghost use Rattle.tclrules.specs.Variables.{State, Frame, in_frame};
ghost use Rattle.tclrules.specs.Plans as plans;
ghost use Rattle.tclrules.specs.Plans.{Bounds, Job, Next, left};
ghost use Rattle.tclrules.specs.Rules.{after_turn, after_next, after_call, caught, catch_into};
ghost use Rattle.tcltext.specs.chars.Runs.{Text};
ghost use Rattle.tclforms.specs.substitution.Stops.{after};
ghost use Rattle.tclcommands.specs.Completions.{completed, loop_continuation};

use crate::writing::write;
use std::alloc::Global;
use tclforms::outside_loop;
use tclforms::substitution::Stop;
use tclforms::variables::Variables;
use tclrules::{EvalFault, Limits};

/// Whether a loop continues after the completion of its body: `break` ends it, `continue` doesn't.
///
/// Errors: any other completion, which ends the command of the loop too.
pub fn after_turn(outcome: Result<String, Stop>) -> Result<bool, Stop>
    ensures { (b : Bounds) (again : State → plans.Step) (s : State)
        → completed outcome (after_turn b again) s
        ≡ after result (λ more s'. left b (loop_continuation again more s')) s }
{
    match outcome {
        Ok(_) | Err(Stop::Continued) => Ok(true),
        Err(Stop::Broken) => Ok(false),
        Err(stop) => Err(stop),
    }
}

/// Whether for(n) continues after the completion of the script between its turns: `break` ends it.
///
/// Errors: any other completion, `continue` too, which ends the command of the loop.
pub fn after_next(outcome: Result<String, Stop>) -> Result<bool, Stop>
    ensures { (b : Bounds) (again : State → plans.Step) (s : State)
        → completed outcome (after_next b again) s
        ≡ after result (λ more s'. left b (loop_continuation again more s')) s }
{
    match outcome {
        Ok(_) => Ok(true),
        Err(Stop::Broken) => Ok(false),
        Err(stop) => Err(stop),
    }
}

/// What catch(n) makes of a completion.
#[derive(Drop)]
pub struct CaughtCompletion {
    /// The completion code, from `0` to `4`, which is the result of catch(n).
    pub code: &'static str,
    /// The result or the message, for the variable.
    pub value: String,
}

/// The completion of a script as catch(n) has it.
///
/// Errors: a halt, which isn't caught.
pub fn catch_outcome(alloc: Global, outcome: Result<String, Stop>) -> Result<CaughtCompletion, Stop>
    ensures { (b : Bounds) (v : Option Text) (k : Next) (s : State)
        → completed outcome (caught b v k) s
        ≡ after result (λ c s'. left b (catch_into b v c.code.now (string_bytes c.value) s' k)) s }
{
    let (code, value) = match outcome {
        Ok(value) => ("0", value),
        Err(Stop::Returned(value)) => ("2", value),
        Err(Stop::Broken) => ("3", String::new(alloc)),
        Err(Stop::Continued) => ("4", String::new(alloc)),
        Err(Stop::Fault(fault)) => match fault {
            EvalFault::TclError(message, _) => ("1", message),
            fault => return Err(Stop::Fault(fault)),
        },
    };
    Ok(CaughtCompletion { code, value })
}

/// The result of catch(n), which is the completion code, after the completion of its script. The variable `name` gets
/// the result or the message.
///
/// Errors: a halt where the variable can't be written, or memory runs out.
pub fn store_caught(
    alloc: Global,
    variables: &mut Variables,
    limits: Limits,
    name: Option<&str>,
    caught: CaughtCompletion,
) -> Result<String, Stop>
    ensures { (most remaining : ℕ) (r : Job → plans.Step) (k : Next) (x : Point) → Simulates most r
        (catch_into (bounds limits.value_bytes remaining) (option_map (λ v. v.now) name.entry) caught.code.now
        (string_bytes caught.value) variables.old k) x
        (after result (λ t s. k (string_bytes t) s) variables.new) x }
{
    let CaughtCompletion { code, value } = caught;
    match name {
        None => Ok(String::from_str(alloc, code)?),
        Some(name) => {
            write(alloc, variables, limits.value_bytes, name, value)?;
            Ok(String::from_str(alloc, code)?)
        }
    }
}

/// The result of a call of a procedure after the completion of its body: `return` gives its result, and `break` and
/// `continue` are errors, since they don't leave a procedure.
pub fn after_call(alloc: Global, outcome: Result<String, Stop>) -> Result<String, Stop>
    ensures { (most : ℕ) (r : Job → plans.Step) (b : Bounds) (caller : Option Frame) (k : Next) (s : State) (x : Point)
        → Simulates most r (completed outcome (after_call b caller k) s) x
        (after result (λ t s'. left b (k (string_bytes t) s')) (in_frame s caller)) x }
{
    match outcome {
        Ok(value) => Ok(value),
        Err(Stop::Returned(value)) => Ok(value),
        Err(Stop::Broken) => Err(Stop::from(outside_loop(alloc, "break"))),
        Err(Stop::Continued) => Err(Stop::from(outside_loop(alloc, "continue"))),
        Err(stop) => Err(stop),
    }
}
