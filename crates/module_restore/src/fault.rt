//! Why nothing is kept as a collection, with the texts.
ghost use Rattle.std.specs.Prelude.{◌≡◌, Some};
ghost use Rattle.message.specs.Messages.{text_of};
ghost use Rattle.modules.specs.declared.refusal.Refusal.TheVariants as refusals;
ghost use Rattle.module_restore.specs.Answers.{keep_message};
ghost use Rattle.module_restore.specs.declared.fault.KeepFault.TheVariants as keeps;

use envvars::EnvFault;
use message::Message;
use module_words::modulepath::ModulePathFault;
use modules::Refusal;
use std::alloc::AllocError;
use std::error::Error;
use std::fmt;
use std::fmt::Display;

/// Why nothing can be kept as a collection. Its `Display` is what follows `ERROR: `.
#[derive(Debug, Drop)]
pub enum KeepFault {
    /// 2 to 55: the loaded modules contradict one another, their purge is refused, or memory ran out (31).
    Refused(Refusal),
    /// A directory of MODULEPATH has no absolute path without a colon.
    Path(ModulePathFault),
}

impl KeepFault {
    /// The text of the fault.
    pub fn message(&self) -> Message<'_>
        ensures { text_of result ≡ keep_message self.now }
    {
        match self {
            KeepFault::Refused(refusal) => refusal.numbered().message,
            KeepFault::Path(fault) => fault.message(),
        }
    }
}

impl fmt::Display for KeepFault {
    ghost output = { λ fault. Some (keep_message fault) };

    fn fmt<W: fmt::Write>(&self, f: &mut fmt::Formatter<W>) -> fmt::Result {
        self.message().fmt(f)
    }
}

impl Error for KeepFault {}

impl From<Refusal> for KeepFault {
    ghost from_gives = { λ refusal e. e ≡ keeps.Refused refusal };

    fn from(refusal: Refusal) -> KeepFault {
        KeepFault::Refused(refusal)
    }
}

impl From<ModulePathFault> for KeepFault {
    ghost from_gives = { λ fault e. e ≡ keeps.Path fault };

    fn from(fault: ModulePathFault) -> KeepFault {
        KeepFault::Path(fault)
    }
}

impl From<EnvFault> for KeepFault {
    ghost from_gives = { λ fault e. e ≡ keeps.Refused (refusals.Env fault) };

    fn from(fault: EnvFault) -> KeepFault {
        KeepFault::Refused(Refusal::Env(fault))
    }
}

impl From<AllocError> for KeepFault {
    ghost from_gives = { λ _ e. e ≡ keeps.Refused refusals.OutOfMemory };

    fn from(_e: AllocError) -> KeepFault {
        KeepFault::Refused(Refusal::OutOfMemory)
    }
}
