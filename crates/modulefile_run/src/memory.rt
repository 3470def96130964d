//! Whether a file was refused for want of memory, which says nothing of the file.
ghost use Rattle.std.specs.Prelude.{◌≡◌, None, is_none};
ghost use Rattle.modulefile_run.specs.Running.{eval_stop, stop_of, file_reason_of};

use crate::run_fault::RunFault;
use crate::run_stop::RunStop;
use tclrules::EvalFault;

/// Whether the evaluation of a text ran out of memory.
fn is_evaluation_out_of_memory(fault: &EvalFault) -> bool
    ensures { result ≡ is_none (eval_stop fault.now None) }
{
    match fault {
        EvalFault::OutOfMemory => true,
        EvalFault::Text(_)
        | EvalFault::TclError(_, _)
        | EvalFault::TooManyCommands
        | EvalFault::TooDeep
        | EvalFault::ValueTooLong
        | EvalFault::NumberTooLarge
        | EvalFault::FractionOperand
        | EvalFault::LeftOut(_)
        | EvalFault::Stopped
        | EvalFault::Host(_) => false,
    }
}

/// Whether a fault is that memory ran out.
fn is_out_of_memory(fault: &RunStop) -> bool
    ensures { result ≡ is_none (stop_of fault.now) }
{
    match fault {
        RunStop::OutOfMemory => true,
        RunStop::Eval(fault) => is_evaluation_out_of_memory(fault),
        RunStop::BadArguments => false,
        RunStop::BadRecord(fault) => fault.is_out_of_memory(),
    }
}

/// Whether the run of a file ran out of memory, which is no reason against the file.
pub fn wants_memory(refused: &RunFault) -> bool
    ensures { result ≡ is_none (file_reason_of refused.now) }
{
    is_out_of_memory(&refused.stop)
}
