//! Why nothing is forgotten, with the texts.
ghost use Rattle.std.specs.Prelude.{◌≡◌, Some};
ghost use Rattle.message.specs.Messages.{text_of};
ghost use Rattle.envvars.specs.declared.fault.EnvFault.TheVariants as envs;
ghost use Rattle.module_restore.specs.forgetting.Answers.{message_of, refusal_message};
ghost use Rattle.module_restore.specs.declared.forgetting.fault.ForgetFault.TheVariants as faults;
ghost use Rattle.module_restore.specs.declared.forgetting.fault.ForgetRefusal.TheVariants as refusals;

use envvars::EnvFault;
use filetree::TreeFault;
use message::{Message, Subject};
use shelltext::PrintFault;
use std::alloc::{AllocError, AllocFailed};
use std::error::Error;
use std::fmt;
use std::fmt::Display;

/// Why a module isn't forgotten.
#[derive(Debug, Drop)]
pub enum ForgetRefusal {
    /// 35: the loaded lists don't fit together; or memory ran out.
    Env(EnvFault),
    /// 43: the device failed; or memory ran out.
    Tree(TreeFault),
    /// This name means no loaded module.
    NotLoaded(String),
    /// The file of a module is there, at this path.
    FileThere(String),
}

/// Why nothing is forgotten. Its `Display` is what follows `ERROR: `.
#[derive(Debug, Drop)]
pub enum ForgetFault {
    /// One of the modules isn't.
    Refused(ForgetRefusal),
    /// 61 and 62: the changes have no text for the shell.
    Unprinted(PrintFault),
}

impl ForgetRefusal {
    /// The text of the refusal.
    pub fn message<'b>(&'b self) -> Message<'b>
        ensures { text_of result ≡ refusal_message self.now }
    {
        match self {
            ForgetRefusal::Env(fault) => fault.numbered().message,
            ForgetRefusal::Tree(fault) => fault.numbered().message,
            ForgetRefusal::NotLoaded(name) => Message {
                before: "'",
                subject: Subject::Name(name.as_str()),
                after: "' isn't loaded",
            },
            ForgetRefusal::FileThere(path) => Message {
                before: "There is a file at '",
                subject: Subject::Name(path.as_str()),
                after: "': unload its module, or say --settings-stay",
            },
        }
    }
}

impl ForgetFault {
    /// The text of the fault.
    pub fn message(&self) -> Message<'_>
        ensures { text_of result ≡ message_of self.now }
    {
        match self {
            ForgetFault::Refused(refusal) => refusal.message(),
            ForgetFault::Unprinted(fault) => fault.numbered().message,
        }
    }
}

impl fmt::Display for ForgetFault {
    ghost output = { λ fault. Some (message_of fault) };

    fn fmt<W: fmt::Write>(&self, f: &mut fmt::Formatter<W>) -> fmt::Result {
        self.message().fmt(f)
    }
}

impl Error for ForgetFault {}

impl From<EnvFault> for ForgetRefusal {
    ghost from_gives = { λ fault e. e ≡ refusals.Env fault };

    fn from(fault: EnvFault) -> ForgetRefusal {
        ForgetRefusal::Env(fault)
    }
}

impl From<TreeFault> for ForgetRefusal {
    ghost from_gives = { λ fault e. e ≡ refusals.Tree fault };

    fn from(fault: TreeFault) -> ForgetRefusal {
        ForgetRefusal::Tree(fault)
    }
}

impl From<AllocError> for ForgetRefusal {
    ghost from_gives = { λ _ e. e ≡ refusals.Env envs.OutOfMemory };

    fn from(_e: AllocError) -> ForgetRefusal {
        ForgetRefusal::Env(EnvFault::OutOfMemory)
    }
}

impl<T: Drop> From<AllocFailed<T>> for ForgetRefusal {
    ghost from_gives = { λ _ e. e ≡ refusals.Env envs.OutOfMemory };

    fn from(_e: AllocFailed<T>) -> ForgetRefusal {
        ForgetRefusal::Env(EnvFault::OutOfMemory)
    }
}

impl From<ForgetRefusal> for ForgetFault {
    ghost from_gives = { λ refusal e. e ≡ faults.Refused refusal };

    fn from(refusal: ForgetRefusal) -> ForgetFault {
        ForgetFault::Refused(refusal)
    }
}

impl From<EnvFault> for ForgetFault {
    ghost from_gives = { λ fault e. e ≡ faults.Refused (refusals.Env fault) };

    fn from(fault: EnvFault) -> ForgetFault {
        ForgetFault::Refused(ForgetRefusal::Env(fault))
    }
}

impl From<AllocError> for ForgetFault {
    ghost from_gives = { λ _ e. e ≡ faults.Refused (refusals.Env envs.OutOfMemory) };

    fn from(_e: AllocError) -> ForgetFault {
        ForgetFault::Refused(ForgetRefusal::Env(EnvFault::OutOfMemory))
    }
}

impl From<PrintFault> for ForgetFault {
    ghost from_gives = { λ fault e. e ≡ faults.Unprinted fault };

    fn from(fault: PrintFault) -> ForgetFault {
        ForgetFault::Unprinted(fault)
    }
}
