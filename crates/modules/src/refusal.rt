//! Why a request is refused, with the number and the text of each refusal.
ghost use Rattle.std.specs.Prelude.{◌≡◌, Some};
ghost use Rattle.message.specs.Refusals.{numbered_text};
ghost use Rattle.modules.specs.declared.refusal.Refusal.TheVariants as refusals;
ghost use Rattle.modulefile_run.specs.Running.{file_reason_of};
ghost use Rattle.requests.specs.Reasons.{file_refused};
ghost use Rattle.modules.specs.Answers.{by_reason, refused_read};
ghost use Rattle.modules.specs.Messages.{number_by, number_of, refusal_of, run_memory_number};

use crate::missing::MissingNames;
use envvars::EnvFault;
use filetree::TreeFault;
use message::{NumberedMessage, RefusalKind};
use modulefile_run::RunFault;
use search::FindFault;
use std::alloc::{AllocError, AllocFailed};
use std::error::Error;
use std::fmt;
use std::fmt::Display;

/// Why a request is refused. Its `Display` is what follows `ERROR: `.
#[derive(Debug, Drop)]
pub enum Refusal {
    /// 31: memory ran out.
    OutOfMemory,
    /// 2 to 37, 44 and 56, by its cause: a modulefile is refused.
    Run(RunFault),
    /// 41 to 46: no modulefile is found, or it can't be read.
    Find(FindFault),
    /// 31 to 37: an edit of the environment is refused.
    Env(EnvFault),
    /// 56: the words don't fit the subcommand, or there is none.
    BadArguments,
    /// 57: no subcommand has this name.
    UnknownSubcommand(String),
    /// 51: the module and this loaded one are in conflict.
    ConflictWith(String),
    /// 52: none of these is loaded.
    PrereqMissing(MissingNames),
    /// 53: this module would lose what it needs.
    StillNeededBy(String),
    /// 54: no file is at the path of a loaded module.
    FileGone(String),
    /// 55: the file at the path of a loaded module is no modulefile.
    NotAModulefile(String),
}

/// The number of a modulefile's fault, as the refusal of a request.
fn run_number(refused: &RunFault) -> u16
    ensures { result ≡ number_by (run_memory_number refused.now.stop)
        (by_reason file_refused (file_reason_of refused.now)) }
{
    refused.number()
}

impl Refusal {
    /// The number of the refusal and its text.
    pub fn numbered(&self) -> NumberedMessage<'_>
        ensures { numbered_text result ≡ refusal_of self.now }
    {
        match self {
            Refusal::OutOfMemory => RefusalKind::MemoryForRequest.plain(),
            Refusal::Run(refused) => refused.numbered(),
            Refusal::Find(fault) => fault.numbered(),
            Refusal::Env(fault) => fault.numbered(),
            Refusal::BadArguments => RefusalKind::BadArguments.plain(),
            Refusal::UnknownSubcommand(word) => {
                RefusalKind::UnknownSubcommand.naming(word.as_str())
            }
            Refusal::ConflictWith(name) => RefusalKind::ConflictWith.naming(name.as_str()),
            Refusal::PrereqMissing(missing) => RefusalKind::PrereqMissing.naming(missing.text()),
            Refusal::StillNeededBy(name) => RefusalKind::StillNeededBy.naming(name.as_str()),
            Refusal::FileGone(path) => RefusalKind::FileGone.naming(path.as_str()),
            Refusal::NotAModulefile(path) => RefusalKind::NotAModulefile.naming(path.as_str()),
        }
    }

    /// The number of the refusal: that of its reason, or 43 for a failed device, or for want of memory 11 in the
    /// evaluation of a file, 41 in the search, and else 31.
    pub fn number(&self) -> u16
        ensures { result ≡ number_of self.now }
    {
        match self {
            Refusal::Run(refused) => run_number(refused),
            Refusal::Find(fault) => fault.number(),
            Refusal::Env(fault) => fault.number(),
            Refusal::OutOfMemory
            | Refusal::BadArguments
            | Refusal::UnknownSubcommand(_)
            | Refusal::ConflictWith(_)
            | Refusal::PrereqMissing(_)
            | Refusal::StillNeededBy(_)
            | Refusal::FileGone(_)
            | Refusal::NotAModulefile(_) => self.numbered().number,
        }
    }
}

impl fmt::Display for Refusal {
    ghost output = { λ refusal. Some (refusal_of refusal).text };

    fn fmt<W: fmt::Write>(&self, f: &mut fmt::Formatter<W>) -> fmt::Result {
        self.numbered().message.fmt(f)
    }
}

impl Error for Refusal {}

impl From<AllocError> for Refusal {
    ghost from_gives = { λ _ e. e ≡ refusals.OutOfMemory };

    fn from(_e: AllocError) -> Refusal {
        Refusal::OutOfMemory
    }
}

impl<T: Drop> From<AllocFailed<T>> for Refusal {
    ghost from_gives = { λ _ e. e ≡ refusals.OutOfMemory };

    fn from(_e: AllocFailed<T>) -> Refusal {
        Refusal::OutOfMemory
    }
}

impl From<RunFault> for Refusal {
    ghost from_gives = { λ refused e. e ≡ refusals.Run refused };

    fn from(refused: RunFault) -> Refusal {
        Refusal::Run(refused)
    }
}

impl From<FindFault> for Refusal {
    ghost from_gives = { λ fault e. e ≡ refusals.Find fault };

    fn from(fault: FindFault) -> Refusal {
        Refusal::Find(fault)
    }
}

impl From<EnvFault> for Refusal {
    ghost from_gives = { λ fault e. e ≡ refusals.Env fault };

    fn from(fault: EnvFault) -> Refusal {
        Refusal::Env(fault)
    }
}

impl From<TreeFault> for Refusal {
    ghost from_gives = { λ fault e. e ≡ refused_read fault };

    fn from(fault: TreeFault) -> Refusal {
        match fault {
            TreeFault::OutOfMemory => Refusal::Find(FindFault::OutOfMemory),
            TreeFault::Device => Refusal::Find(FindFault::Device),
        }
    }
}
