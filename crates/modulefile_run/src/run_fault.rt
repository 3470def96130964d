//! Why a modulefile is refused, with the place where its evaluation ended and what it had said.
ghost use Rattle.std.specs.Prelude.{◌≡◌, IfSome, Some};
ghost use Rattle.message.specs.Refusals.{numbered_text};
ghost use Rattle.modulefile.specs.Files.{file_reason_number};
ghost use Rattle.modulefile_run.specs.Messages as texts;
ghost use Rattle.modulefile_run.specs.Running.{file_reason_of};

use crate::run_stop::RunStop;
use envvars::EnvFault;
use message::NumberedMessage;
use std::alloc::AllocError;
use std::error::Error;
use std::fmt;
use std::fmt::Display;
use tclrules::FaultPlace;

/// A modulefile that is refused.
#[derive(Debug, Drop)]
pub struct RefusedFile {
    /// The full name of its module.
    pub name: String,
    /// Its path.
    pub path: String,
    /// Where its evaluation ended; None where no command had begun.
    pub place: Option<FaultPlace>,
    /// What it had said.
    pub messages: Vec<String>,
}

/// Why a modulefile is refused. The environment is then as it was.
#[derive(Debug, Drop)]
pub struct RunFault {
    /// Why.
    pub stop: RunStop,
    /// Which file, and where; None where memory ran out outside of its evaluation.
    pub file: Option<RefusedFile>,
}

impl RunFault {
    /// The number of the fault and its text: those of the reason, or 11 or 31 where memory ran out.
    pub fn numbered(&self) -> NumberedMessage<'_>
        ensures { numbered_text result ≡ texts.refusal_of self.now.stop }
    {
        self.stop.numbered()
    }

    /// The number of the fault: that of the reason, or 11 or 31 where memory ran out.
    pub fn number(&self) -> u16
        ensures exact { result ≡ (texts.refusal_of self.now.stop).number }
        ensures by_reason { IfSome (file_reason_of self.now) (λ reason. result ≡ file_reason_number reason) }
    {
        self.stop.number()
    }
}

impl fmt::Display for RunFault {
    ghost output = { λ f. Some (texts.refusal_of f.stop).text };

    fn fmt<W: fmt::Write>(&self, f: &mut fmt::Formatter<W>) -> fmt::Result {
        self.stop.fmt(f)
    }
}

impl Error for RunFault {}

impl From<RunStop> for RunFault {
    ghost use Rattle.std.specs.Prelude.{◌≡◌, None};

    ghost from_gives = { λ stop e. (e.stop ≡ stop) × (e.file ≡ None) };

    fn from(stop: RunStop) -> RunFault {
        RunFault { stop, file: None }
    }
}

impl From<AllocError> for RunFault {
    ghost use Rattle.std.specs.Prelude.{◌≡◌};
    ghost use Rattle.modulefile_run.specs.declared.run_stop.RunStop.TheVariants.{OutOfMemory};

    ghost from_gives = { λ _ e. e.stop ≡ OutOfMemory };

    fn from(_refused: AllocError) -> RunFault {
        RunFault::from(RunStop::OutOfMemory)
    }
}

impl From<EnvFault> for RunFault {
    ghost use Rattle.std.specs.Prelude.{◌≡◌};
    ghost use Rattle.modulefile_run.specs.Refusals.{fault_of_edit};

    ghost from_gives = { λ fault e. e.stop ≡ fault_of_edit fault };

    fn from(fault: EnvFault) -> RunFault {
        RunFault::from(RunStop::from(fault))
    }
}
