//! The fault that stands where a command or an operator of values has no value.
ghost use Rattle.std.specs.Prelude.{◌≡◌, Some};
ghost use Rattle.message.specs.Refusals.{numbered_text};
ghost use Rattle.tclvalue.specs.declared.operators.fault.ValueFault.TheVariants as faults;
ghost use Rattle.tclvalue.specs.operators.Faults.{refusal_of};

use message::{Message, NumberedMessage, RefusalKind};
use std::alloc::{AllocError, AllocFailed};
use std::error::Error;
use std::fmt;
use std::fmt::Display;
use tcltext::chars::TextFault;

/// Why there is no value. Its `Display` is what an error line has after `ERROR: `, but for the line number that an
/// error of Tcl has there.
#[derive(Debug, Drop)]
pub enum ValueFault {
    /// Memory ran out (11).
    OutOfMemory,
    /// A text is longer than the parser of lists takes (12).
    Text(TextFault),
    /// An error of Tcl, which catch(n) catches, with its message (13).
    TclError(String),
    /// A value has more bytes than the limit (16).
    ValueTooLong,
    /// A whole number lies outside 64 bits (17).
    NumberTooLarge,
    /// A number is spelled with a fraction or an exponent (18).
    FractionOperand,
    /// This command or option is unsupported on purpose (19).
    LeftOut(String),
}

impl ValueFault {
    /// The number of the fault and its text, but for the line number that an error of Tcl has there.
    pub fn numbered(&self) -> NumberedMessage<'_>
        ensures { numbered_text result ≡ refusal_of self.now }
    {
        match self {
            ValueFault::OutOfMemory => RefusalKind::MemoryForEvaluation.plain(),
            ValueFault::Text(fault) => RefusalKind::BadText.saying(fault.numbered().message),
            ValueFault::TclError(message) => {
                RefusalKind::TclError.saying(Message::of_text(message.as_str()))
            }
            ValueFault::ValueTooLong => RefusalKind::ValueTooLong.plain(),
            ValueFault::NumberTooLarge => RefusalKind::NumberTooLarge.plain(),
            ValueFault::FractionOperand => RefusalKind::FractionOperand.plain(),
            ValueFault::LeftOut(name) => RefusalKind::LeftOut.naming(name.as_str()),
        }
    }

    /// The number of the fault, as the table of refusals has it.
    pub fn number(&self) -> u16
        ensures { result ≡ (refusal_of self.now).number }
    {
        self.numbered().number
    }
}

impl fmt::Display for ValueFault {
    ghost output = { λ fault. Some (refusal_of fault).text };

    fn fmt<W: fmt::Write>(&self, f: &mut fmt::Formatter<W>) -> fmt::Result {
        self.numbered().message.fmt(f)
    }
}

impl Error for ValueFault {}

impl From<AllocError> for ValueFault {
    ghost from_gives = { λ _ e. e ≡ faults.OutOfMemory };

    fn from(_e: AllocError) -> ValueFault {
        ValueFault::OutOfMemory
    }
}

impl<T: Drop> From<AllocFailed<T>> for ValueFault {
    ghost from_gives = { λ _ e. e ≡ faults.OutOfMemory };

    fn from(_e: AllocFailed<T>) -> ValueFault {
        ValueFault::OutOfMemory
    }
}
