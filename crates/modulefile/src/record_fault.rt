//! Why a record of a modulefile has no effect.
ghost use Rattle.std.specs.Prelude.{◌≡◌, Some, IfSome, is_none};
ghost use Rattle.message.specs.Refusals.{numbered_text};
ghost use Rattle.modulefile.specs.Answers.{record_number};
ghost use Rattle.modulefile.specs.RecordFaults.{refusal_of};
ghost use Rattle.modulefile.specs.RecordViews.{fault_reason};
ghost use Rattle.modulefile.specs.declared.record_fault.RecordFault.TheVariants.{Env};
ghost use Rattle.envvars.specs.declared.fault.EnvFault.TheVariants.{OutOfMemory};

use envvars::EnvFault;
use message::{NumberedMessage, RefusalKind};
use std::alloc::AllocError;
use std::error::Error;
use std::fmt;
use std::fmt::Display;

/// Why a record has no effect. Its `Display` is what follows `ERROR: `.
#[derive(Debug, Drop)]
pub enum RecordFault {
    /// The variable can't be edited so, or memory ran out (31).
    Env(EnvFault),
    /// This name of a module is ill spelled.
    BadModuleName(String),
}

impl RecordFault {
    /// The number of the fault and its text: those of the variable's fault, or 44.
    pub fn numbered(&self) -> NumberedMessage<'_>
        ensures { numbered_text result ≡ refusal_of self.now }
    {
        match self {
            RecordFault::Env(fault) => fault.numbered(),
            RecordFault::BadModuleName(name) => RefusalKind::BadName.naming(name.as_str()),
        }
    }

    /// The number of the fault: that of the variable's fault, or 44.
    pub fn number(&self) -> u16
        ensures exact { result ≡ (refusal_of self.now).number }
        ensures by_reason { IfSome (fault_reason self.now) (λ reason. result ≡ record_number reason) }
    {
        self.numbered().number
    }

    /// Whether memory ran out, which is no reason against the record.
    pub fn is_out_of_memory(&self) -> bool
        ensures { result ≡ is_none (fault_reason self.now) }
    {
        match self {
            RecordFault::Env(EnvFault::OutOfMemory) => true,
            RecordFault::Env(_) | RecordFault::BadModuleName(_) => false,
        }
    }
}

impl fmt::Display for RecordFault {
    ghost output = { λ fault. Some (refusal_of fault).text };

    fn fmt<W: fmt::Write>(&self, f: &mut fmt::Formatter<W>) -> fmt::Result {
        self.numbered().message.fmt(f)
    }
}

impl Error for RecordFault {}

impl From<EnvFault> for RecordFault {
    ghost from_gives = { λ fault e. e ≡ Env fault };

    fn from(fault: EnvFault) -> RecordFault {
        RecordFault::Env(fault)
    }
}

impl From<AllocError> for RecordFault {
    ghost from_gives = { λ _ e. e ≡ Env OutOfMemory };

    fn from(_refused: AllocError) -> RecordFault {
        RecordFault::Env(EnvFault::OutOfMemory)
    }
}
