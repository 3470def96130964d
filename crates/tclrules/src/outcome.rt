//! How an evaluation by the program ends: with a result, or with a fault.
ghost use Rattle.std.specs.Prelude.{◌≡◌, Some};
ghost use Rattle.message.specs.Refusals.{numbered_text};
ghost use Rattle.tclrules.specs.declared.outcome.EvalFault.TheVariants as faults;
ghost use Rattle.tclrules.specs.Faults.{refusal_of, fault_of_text, fault_of_value};

use message::{Message, NumberedMessage, RefusalKind};
use std::alloc::{AllocError, AllocFailed};
use std::error::Error;
use std::fmt;
use std::fmt::Display;
use tcltext::chars::TextFault;
use tclvalue::operators::ValueFault;

/// How a script ended that was evaluated to its end.
#[derive(Drop)]
pub struct Ending {
    /// The result of its last command, or of `return`.
    pub result: String,
    /// The global variables with their values, in the order of their making.
    pub globals: Vec<(String, String)>,
    /// How many commands and turns of loops were counted.
    pub used_commands: u64,
}

/// Why an evaluation ended early. Its `Display` is what an error line has after `ERROR: `, but for a host's refusal,
/// whose own text the host has.
#[derive(Debug, Drop)]
pub enum EvalFault {
    /// 11: memory ran out.
    OutOfMemory,
    /// 12: the script, a body or an expression can't be parsed.
    Text(TextFault),
    /// 13: an error that no catch(n) caught, with its message and the line, from 1, of the file's command. The line is 0
    /// until the evaluation of the file sets it.
    TclError(String, usize),
    /// 14: more commands and turns than the limit.
    TooManyCommands,
    /// 15: more scripts are nested than the limit.
    TooDeep,
    /// 16: a value has more bytes than the limit.
    ValueTooLong,
    /// 17: a whole number lies outside 64 bits.
    NumberTooLarge,
    /// 18: a number is spelled with a fraction or an exponent.
    FractionOperand,
    /// 19: this command, option or kind of variable is unsupported on purpose.
    LeftOut(String),
    /// 20: the script stopped itself, by exit(n) or by `break` outside of a loop.
    Stopped,
    /// 21: the host refused a command by this number.
    Host(u16),
}

/// Where an evaluation of a file stood when a fault ended it. Offsets are in bytes, from the beginning of the file.
#[derive(Debug, Clone, Copy)]
pub struct FaultPlace {
    /// The offset of the file's own current command.
    pub outermost: usize,
    /// The offset of the innermost current command whose text was found in the file: in a body, in a procedure, or the
    /// file's own command.
    pub innermost: usize,
    /// The line, from 1, in which that command begins.
    pub line: usize,
}

/// A fault of the evaluation of a file, with the place where it ended the evaluation.
#[derive(Debug, Drop)]
pub struct PlacedFault {
    /// The fault.
    pub fault: EvalFault,
    /// The place; None where no command had begun, or memory ran out.
    pub place: Option<FaultPlace>,
}

impl EvalFault {
    /// The number of the fault and its text; of a host's refusal 21, and the host's number in the text.
    pub fn numbered(&self) -> NumberedMessage<'_>
        ensures { numbered_text result ≡ refusal_of self.now }
    {
        match self {
            EvalFault::OutOfMemory => RefusalKind::MemoryForEvaluation.plain(),
            EvalFault::Text(fault) => RefusalKind::BadText.saying(fault.numbered().message),
            EvalFault::TclError(message, line) => {
                RefusalKind::TclError.saying(Message::at_line(message.as_str(), *line))
            }
            EvalFault::TooManyCommands => RefusalKind::TooManyCommands.plain(),
            EvalFault::TooDeep => RefusalKind::EvaluationTooDeep.plain(),
            EvalFault::ValueTooLong => RefusalKind::ValueTooLong.plain(),
            EvalFault::NumberTooLarge => RefusalKind::NumberTooLarge.plain(),
            EvalFault::FractionOperand => RefusalKind::FractionOperand.plain(),
            EvalFault::LeftOut(name) => RefusalKind::LeftOut.naming(name.as_str()),
            EvalFault::Stopped => RefusalKind::Stopped.plain(),
            EvalFault::Host(number) => RefusalKind::Host.numbering(usize::from(*number)),
        }
    }

    /// The number of the fault; of a host's refusal 21, whatever number the host refused by.
    pub fn number(&self) -> u16
        ensures { result ≡ (refusal_of self.now).number }
    {
        self.numbered().number
    }
}

impl fmt::Display for EvalFault {
    ghost output = { λ fault. Some (refusal_of fault).text };

    fn fmt<W: fmt::Write>(&self, f: &mut fmt::Formatter<W>) -> fmt::Result {
        self.numbered().message.fmt(f)
    }
}

impl Error for EvalFault {}

impl From<AllocError> for PlacedFault {
    ghost from_gives = { λ _ e. e.fault ≡ faults.OutOfMemory };

    fn from(_e: AllocError) -> PlacedFault {
        PlacedFault {
            fault: EvalFault::OutOfMemory,
            place: None,
        }
    }
}

impl From<AllocError> for EvalFault {
    ghost from_gives = { λ _ e. e ≡ faults.OutOfMemory };

    fn from(_e: AllocError) -> EvalFault {
        EvalFault::OutOfMemory
    }
}

impl<T: Drop> From<AllocFailed<T>> for EvalFault {
    ghost from_gives = { λ _ e. e ≡ faults.OutOfMemory };

    fn from(_e: AllocFailed<T>) -> EvalFault {
        EvalFault::OutOfMemory
    }
}

impl From<TextFault> for EvalFault {
    ghost from_gives = { λ fault e. e ≡ fault_of_text fault };

    fn from(fault: TextFault) -> EvalFault {
        match fault {
            TextFault::OutOfMemory => EvalFault::OutOfMemory,
            fault => EvalFault::Text(fault),
        }
    }
}

impl From<ValueFault> for EvalFault {
    ghost from_gives = { λ fault e. e ≡ fault_of_value fault };

    fn from(fault: ValueFault) -> EvalFault {
        match fault {
            ValueFault::OutOfMemory => EvalFault::OutOfMemory,
            ValueFault::Text(fault) => EvalFault::Text(fault),
            ValueFault::TclError(message) => EvalFault::TclError(message, 0),
            ValueFault::ValueTooLong => EvalFault::ValueTooLong,
            ValueFault::NumberTooLarge => EvalFault::NumberTooLarge,
            ValueFault::FractionOperand => EvalFault::FractionOperand,
            ValueFault::LeftOut(name) => EvalFault::LeftOut(name),
        }
    }
}
