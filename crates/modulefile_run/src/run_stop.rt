//! Why a modulefile is refused.
ghost use Rattle.std.specs.Prelude.{◌≡◌, IfSome, Some};
ghost use Rattle.message.specs.Refusals.{numbered_text};
ghost use Rattle.modulefile_run.specs.Messages as texts;

use envvars::EnvFault;
use message::{NumberedMessage, RefusalKind};
use modulefile::RecordFault;
use std::alloc::AllocError;
use std::error::Error;
use std::fmt;
use std::fmt::Display;
use tclrules::EvalFault;

/// Why a modulefile is refused. The environment is then as it was. Its `Display` is what follows `ERROR: `.
#[derive(Debug, Drop)]
pub enum RunStop {
    /// Memory ran out.
    OutOfMemory,
    /// The evaluation of its text ended early.
    Eval(EvalFault),
    /// The words of a command don't fit it.
    BadArguments,
    /// A command names what it may not, or what it would leave on record has no effect.
    BadRecord(RecordFault),
}

/// A fault of the evaluation. The number of a text's fault is that one's own, and that of a refused command the
/// command's.
fn evaluation_numbered(fault: &EvalFault) -> NumberedMessage<'_>
    ensures { numbered_text result ≡ texts.evaluation_refusal fault.now }
{
    match fault {
        EvalFault::Text(fault) => fault.numbered(),
        EvalFault::Host(number) => NumberedMessage {
            number: *number,
            message: fault.numbered().message,
        },
        EvalFault::OutOfMemory
        | EvalFault::TclError(_, _)
        | EvalFault::TooManyCommands
        | EvalFault::TooDeep
        | EvalFault::ValueTooLong
        | EvalFault::NumberTooLarge
        | EvalFault::FractionOperand
        | EvalFault::LeftOut(_)
        | EvalFault::Stopped => fault.numbered(),
    }
}

impl RunStop {
    ghost use Rattle.modulefile.specs.Files.{stop_number};
    ghost use Rattle.modulefile_run.specs.Running.{stop_of};

    /// The number of the fault and its text: those of the reason, or 11 or 31 where memory ran out.
    pub fn numbered(&self) -> NumberedMessage<'_>
        ensures exact { numbered_text result ≡ texts.refusal_of self.now }
        ensures by_stop { IfSome (stop_of self.now) (λ stop. result.number ≡ stop_number stop) }
    {
        match self {
            RunStop::OutOfMemory => RefusalKind::MemoryForRequest.plain(),
            RunStop::Eval(fault) => evaluation_numbered(fault),
            RunStop::BadArguments => RefusalKind::BadArguments.plain(),
            RunStop::BadRecord(fault) => fault.numbered(),
        }
    }

    /// The number of the fault: that of the reason, or 11 or 31 where memory ran out.
    pub fn number(&self) -> u16
        ensures exact { result ≡ (texts.refusal_of self.now).number }
        ensures by_stop { IfSome (stop_of self.now) (λ stop. result ≡ stop_number stop) }
    {
        self.numbered().number
    }
}

impl fmt::Display for RunStop {
    ghost output = { λ fault. Some (texts.refusal_of fault).text };

    fn fmt<W: fmt::Write>(&self, f: &mut fmt::Formatter<W>) -> fmt::Result {
        self.numbered().message.fmt(f)
    }
}

impl Error for RunStop {}

impl From<AllocError> for RunStop {
    ghost use Rattle.std.specs.Prelude.{◌≡◌};
    ghost use Rattle.modulefile_run.specs.declared.run_stop.RunStop.TheVariants.{OutOfMemory};

    ghost from_gives = { λ _ e. e ≡ OutOfMemory };

    fn from(_refused: AllocError) -> RunStop {
        RunStop::OutOfMemory
    }
}

impl From<EnvFault> for RunStop {
    ghost use Rattle.std.specs.Prelude.{◌≡◌};
    ghost use Rattle.modulefile_run.specs.Refusals.{fault_of_edit};

    ghost from_gives = { λ fault e. e ≡ fault_of_edit fault };

    fn from(fault: EnvFault) -> RunStop {
        match fault {
            EnvFault::OutOfMemory => RunStop::OutOfMemory,
            EnvFault::BadVariable(_)
            | EnvFault::Protected(_)
            | EnvFault::CounterFull(_)
            | EnvFault::Inconsistent
            | EnvFault::BadStack(_)
            | EnvFault::BadValue(_) => RunStop::BadRecord(RecordFault::Env(fault)),
        }
    }
}
