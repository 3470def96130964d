//! Why a command that makes requests isn't answered, with the texts.
ghost use Rattle.std.specs.Prelude.{◌≡◌, Some};
ghost use Rattle.message.specs.Refusals.{numbered_text};
ghost use Rattle.modules.specs.declared.refusal.Refusal.TheVariants as refusals;
ghost use Rattle.module_auto.specs.Answers.{refusal_of};
ghost use Rattle.module_auto.specs.declared.fault.RequestFault.TheVariants as faults;

use envvars::EnvFault;
use message::NumberedMessage;
use modules::Refusal;
use shelltext::PrintFault;
use std::alloc::{AllocError, AllocFailed};
use std::error::Error;
use std::fmt;
use std::fmt::Display;

/// Why requests of a command aren't answered with a text. Its `Display` is what follows `ERROR: `.
#[derive(Debug, Drop)]
pub enum RequestFault {
    /// 2 to 56: one of its requests is refused, or memory ran out (31).
    Refused(Refusal),
    /// 61 and 62: the changes have no text for the shell.
    Unprinted(PrintFault),
}

impl RequestFault {
    /// The number of the fault and its text.
    pub fn numbered(&self) -> NumberedMessage<'_>
        ensures { numbered_text result ≡ refusal_of self.now }
    {
        match self {
            RequestFault::Refused(refusal) => refusal.numbered(),
            RequestFault::Unprinted(fault) => fault.numbered(),
        }
    }
}

impl fmt::Display for RequestFault {
    ghost output = { λ fault. Some (refusal_of fault).text };

    fn fmt<W: fmt::Write>(&self, f: &mut fmt::Formatter<W>) -> fmt::Result {
        self.numbered().message.fmt(f)
    }
}

impl Error for RequestFault {}

impl From<Refusal> for RequestFault {
    ghost from_gives = { λ refusal e. e ≡ faults.Refused refusal };

    fn from(refusal: Refusal) -> RequestFault {
        RequestFault::Refused(refusal)
    }
}

impl From<PrintFault> for RequestFault {
    ghost from_gives = { λ fault e. e ≡ faults.Unprinted fault };

    fn from(fault: PrintFault) -> RequestFault {
        RequestFault::Unprinted(fault)
    }
}

impl From<EnvFault> for RequestFault {
    ghost from_gives = { λ fault e. e ≡ faults.Refused (refusals.Env fault) };

    fn from(fault: EnvFault) -> RequestFault {
        RequestFault::Refused(Refusal::Env(fault))
    }
}

impl From<AllocError> for RequestFault {
    ghost from_gives = { λ _ e. e ≡ faults.Refused refusals.OutOfMemory };

    fn from(_e: AllocError) -> RequestFault {
        RequestFault::Refused(Refusal::OutOfMemory)
    }
}
