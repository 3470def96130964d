//! Why nothing was translated, or not all.
use filetree::TreeFault;
use port_rewriting::TranslationFault;
use process::InputFault;
use std::alloc::{AllocError, AllocFailed};
use std::error::Error;
use std::fmt;
use tcltext::chars::TextFault;

/// How the program is called.
pub(crate) const USAGE: &str = "Usage: modport [--json] [--strict] [--host NAME=VALUE]... \
     [--flatten RECORDS [--kept NAME=VALUE]...] FILE | --stdin | \
     [--one-version] [--alias-scripts] [--drop-unread] [--defaults FILE] FROM TO [FROM TO]... | \
     [--one-version] [--alias-scripts] [--drop-unread] [--defaults FILE] --check FROM [TO]";

/// Why nothing was translated, or not all.
#[derive(Debug, Drop)]
pub(crate) enum PortFault {
    /// An allocation was refused.
    OutOfMemory,
    /// The arguments ask for nothing that the program does.
    Usage,
    /// No file is there.
    NoFile,
    /// No directory is there.
    NoDirectory,
    /// The file isn't UTF-8.
    NotUtf8,
    /// It can't be read.
    Unreadable,
    /// It can't be written.
    Unwritable,
    /// Something is in the directory that would be written.
    NotEmpty,
    /// The directory that would be written is in the one that is read, or is it.
    Inside,
    /// Writing to a standard stream failed.
    WriteFailed,
    /// The arguments or standard input couldn't be read.
    Input(InputFault),
    /// It isn't translated.
    Translation(TranslationFault),
}

impl fmt::Display for PortFault {
    fn fmt<W: fmt::Write>(&self, f: &mut fmt::Formatter<W>) -> fmt::Result {
        match self {
            PortFault::OutOfMemory => f.write_str("Out of memory"),
            PortFault::Usage => f.write_str(USAGE),
            PortFault::NoFile => f.write_str("No such file"),
            PortFault::NoDirectory => f.write_str("No such directory"),
            PortFault::NotUtf8 => f.write_str("Not UTF-8"),
            PortFault::Unreadable => f.write_str("Can't be read"),
            PortFault::Unwritable => f.write_str("Can't be written"),
            PortFault::NotEmpty => f.write_str("Not an empty directory"),
            PortFault::Inside => f.write_str("In the directory that is read"),
            PortFault::WriteFailed => f.write_str("Writing failed"),
            PortFault::Input(fault) => fault.fmt(f),
            PortFault::Translation(fault) => fault.fmt(f),
        }
    }
}

impl Error for PortFault {}

impl From<AllocError> for PortFault {
    fn from(_refused: AllocError) -> PortFault {
        PortFault::OutOfMemory
    }
}

impl<T: Drop> From<AllocFailed<T>> for PortFault {
    fn from(_refused: AllocFailed<T>) -> PortFault {
        PortFault::OutOfMemory
    }
}

impl From<InputFault> for PortFault {
    fn from(fault: InputFault) -> PortFault {
        PortFault::Input(fault)
    }
}

impl From<TreeFault> for PortFault {
    fn from(fault: TreeFault) -> PortFault {
        match fault {
            TreeFault::OutOfMemory => PortFault::OutOfMemory,
            TreeFault::Device => PortFault::Unreadable,
        }
    }
}

impl From<TextFault> for PortFault {
    fn from(fault: TextFault) -> PortFault {
        PortFault::from(TranslationFault::Given(fault))
    }
}

impl From<TranslationFault> for PortFault {
    fn from(fault: TranslationFault) -> PortFault {
        match fault {
            TranslationFault::Given(TextFault::OutOfMemory) => PortFault::OutOfMemory,
            fault => PortFault::Translation(fault),
        }
    }
}
