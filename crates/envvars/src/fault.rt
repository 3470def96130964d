//! The errors of edits of the environment, with their numbers and messages.
use message::{NumberedMessage, RefusalKind};
use std::alloc::{AllocError, AllocFailed, Global};
use std::error::Error;
use std::fmt;
use std::fmt::Display;

/// Why an edit of the environment was refused. The environment is then unchanged.
#[derive(Debug, Drop)]
pub enum EnvFault {
    /// An allocation was refused.
    OutOfMemory,
    /// This isn't spelled as the name of a variable.
    BadVariable(String),
    /// This variable holds the tool's own state, which no modulefile may edit.
    Protected(String),
    /// A counter of this path variable would pass 4294967295.
    CounterFull(String),
    /// The variables of the loaded modules contradict one another, or an entry to be added can't be written in them.
    Inconsistent,
    /// The text of this variable's stack can't be read as a stack.
    BadStack(String),
    /// A value, an element, a delimiter or a module's name isn't allowed for this variable.
    BadValue(String),
}

impl EnvFault {
    ghost use Rattle.std.specs.Prelude.{◌≡◌};
    ghost use Rattle.message.specs.Refusals.{numbered_text};
    ghost use Rattle.envvars.specs.Reasons.{refusal_of, bad_variable, bad_value, HasReason};

    /// The error of a name that isn't spelled as a variable's.
    pub fn bad_variable(alloc: Global, name: &str) -> EnvFault
        ensures { HasReason (bad_variable name.now) result }
    {
        match String::from_str(alloc, name) {
            Ok(name) => EnvFault::BadVariable(name),
            Err(_) => EnvFault::OutOfMemory,
        }
    }

    /// The error of a variable of this name for which a value isn't allowed.
    pub fn bad_value(alloc: Global, name: &str) -> EnvFault
        ensures { HasReason (bad_value name.now) result }
    {
        match String::from_str(alloc, name) {
            Ok(name) => EnvFault::BadValue(name),
            Err(_) => EnvFault::OutOfMemory,
        }
    }

    /// The number of the error, from 31 to 37, and its text.
    pub fn numbered(&self) -> NumberedMessage<'_>
        ensures { numbered_text result ≡ refusal_of self.now }
    {
        match self {
            EnvFault::OutOfMemory => RefusalKind::MemoryForRequest.plain(),
            EnvFault::BadVariable(name) => RefusalKind::BadVariable.naming(name.as_str()),
            EnvFault::Protected(name) => RefusalKind::Protected.naming(name.as_str()),
            EnvFault::CounterFull(name) => RefusalKind::CounterFull.naming(name.as_str()),
            EnvFault::Inconsistent => RefusalKind::Inconsistent.plain(),
            EnvFault::BadStack(name) => RefusalKind::BadStack.naming(name.as_str()),
            EnvFault::BadValue(name) => RefusalKind::BadValue.naming(name.as_str()),
        }
    }

    /// The number of the error, from 31 to 37.
    pub fn number(&self) -> u16
        ensures { result ≡ (refusal_of self.now).number }
    {
        self.numbered().number
    }
}

impl fmt::Display for EnvFault {
    ghost use Rattle.std.specs.Prelude.{Some};
    ghost use Rattle.envvars.specs.Reasons.{refusal_of};

    ghost output = { λ fault. Some (refusal_of fault).text };

    fn fmt<W: fmt::Write>(&self, f: &mut fmt::Formatter<W>) -> fmt::Result {
        self.numbered().message.fmt(f)
    }
}

impl Error for EnvFault {}

impl From<AllocError> for EnvFault {
    ghost use Rattle.std.specs.Prelude.{◌≡◌};
    ghost use Rattle.envvars.specs.declared.fault.EnvFault.TheVariants.{OutOfMemory};

    ghost from_gives = { λ _ e. e ≡ OutOfMemory };

    fn from(_refused: AllocError) -> EnvFault {
        EnvFault::OutOfMemory
    }
}

impl<T: Drop> From<AllocFailed<T>> for EnvFault {
    ghost use Rattle.std.specs.Prelude.{◌≡◌};
    ghost use Rattle.envvars.specs.declared.fault.EnvFault.TheVariants.{OutOfMemory};

    ghost from_gives = { λ _ e. e ≡ OutOfMemory };

    fn from(_refused: AllocFailed<T>) -> EnvFault {
        EnvFault::OutOfMemory
    }
}
