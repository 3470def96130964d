//! Why a search finds no module: the faults 41 to 46, which the reading of a recorded modulefile by its path has too.
ghost use Rattle.std.specs.Prelude.{◌≡◌, Some};
ghost use Rattle.search.specs.declared.find_fault.FindFault.TheVariants.{OutOfMemory};
ghost use Rattle.message.specs.Refusals.{numbered_text};
ghost use Rattle.search.specs.Answers.{fault_of_tree, refusal_of};

use filetree::TreeFault;
use message::{NumberedMessage, RefusalKind};
use std::alloc::{AllocError, AllocFailed};
use std::error::Error;
use std::fmt;
use std::fmt::Display;

/// Why no module was found.
#[derive(Debug, Drop)]
pub enum FindFault {
    /// An allocation failed.
    OutOfMemory,
    /// No directory of MODULEPATH has a module of this name.
    NotFound(String),
    /// The device failed in this call: a file or directory could not be read.
    Device,
    /// The name is not well spelled as the name of a module.
    BadName(String),
    /// The default file at this path is not UTF-8, or its evaluation has a fault.
    BadDefaultFile(String),
    /// The file at this path, which is the module, is not UTF-8.
    NotUtf8(String),
}

impl FindFault {
    /// The number of the fault, from 41 for want of memory to 46 for a module that is not UTF-8, and its text.
    pub fn numbered(&self) -> NumberedMessage<'_>
        ensures { numbered_text result ≡ refusal_of self.now }
    {
        match self {
            FindFault::OutOfMemory => RefusalKind::MemoryForSearch.plain(),
            FindFault::NotFound(name) => RefusalKind::NotFound.naming(name.as_str()),
            FindFault::Device => RefusalKind::Device.plain(),
            FindFault::BadName(name) => RefusalKind::BadName.naming(name.as_str()),
            FindFault::BadDefaultFile(path) => RefusalKind::BadDefaultFile.naming(path.as_str()),
            FindFault::NotUtf8(path) => RefusalKind::NotUtf8.naming(path.as_str()),
        }
    }

    /// The number of the fault, from 41 to 46.
    pub fn number(&self) -> u16
        ensures { result ≡ (refusal_of self.now).number }
    {
        self.numbered().number
    }
}

impl fmt::Display for FindFault {
    ghost output = { λ fault. Some (refusal_of fault).text };

    fn fmt<W: fmt::Write>(&self, f: &mut fmt::Formatter<W>) -> fmt::Result {
        self.numbered().message.fmt(f)
    }
}

impl Error for FindFault {}

impl From<AllocError> for FindFault {
    ghost from_gives = { λ _ e. e ≡ OutOfMemory };

    fn from(_e: AllocError) -> FindFault {
        FindFault::OutOfMemory
    }
}

impl<T: Drop> From<AllocFailed<T>> for FindFault {
    ghost from_gives = { λ _ e. e ≡ OutOfMemory };

    fn from(_e: AllocFailed<T>) -> FindFault {
        FindFault::OutOfMemory
    }
}

impl From<TreeFault> for FindFault {
    ghost from_gives = { λ fault e. e ≡ fault_of_tree fault };

    fn from(fault: TreeFault) -> FindFault {
        match fault {
            TreeFault::OutOfMemory => FindFault::OutOfMemory,
            TreeFault::Device => FindFault::Device,
        }
    }
}
