//! Why a call for collections is refused, with the texts.
ghost use Rattle.std.specs.Prelude.{◌≡◌, Some};
ghost use Rattle.module_collections.specs.files.Failures.{message_of};
ghost use Rattle.module_collections.specs.declared.files.fault.FileFault.TheVariants.{OutOfMemory};

use crate::texts::{CollectionFault, SaveFault};
use std::alloc::{AllocError, AllocFailed};
use std::error::Error;
use std::fmt;

/// Why a call for collections is refused. Its `Display` is what stands behind `ERROR: `.
#[derive(Debug, Drop)]
pub enum FileFault {
    /// An allocation was refused.
    OutOfMemory,
    /// No variable says where collections lie.
    NoHome,
    /// No collection can have this name.
    BadName(String),
    /// There is no collection of this name.
    Missing(String),
    /// This path leads to no file.
    NoFile(String),
    /// The file of this path is one of Environment Modules.
    Others(String),
    /// The file of this path keeps no collection.
    NoCollection(String, CollectionFault),
    /// The collection can't be saved.
    Unsaved(SaveFault),
    /// The file of this path, or what leads to it, can't be read.
    Reading(String),
    /// The file of this path can't be written or removed. No file differs.
    Writing(String),
    /// A file can't be written, and the new one of this path, which was to take its place, can't be removed.
    Left(String),
}

impl fmt::Display for FileFault {
    ghost output = { λ fault. Some (message_of fault) };

    fn fmt<W: fmt::Write>(&self, f: &mut fmt::Formatter<W>) -> fmt::Result {
        match self {
            FileFault::OutOfMemory => f.write_str("Out of memory"),
            FileFault::NoHome => f.write_str("HOME is not set"),
            FileFault::BadName(name) => write!(f, "Bad name of a collection: '{name}'"),
            FileFault::Missing(name) => write!(f, "There is no collection '{name}'"),
            FileFault::NoFile(path) => write!(f, "No file: '{path}'"),
            FileFault::Others(path) => write!(
                f,
                "A collection of Environment Modules, which is left to it: '{path}'"
            ),
            FileFault::NoCollection(path, fault) => write!(f, "No collection: '{path}': {fault}"),
            FileFault::Unsaved(fault) => fault.fmt(f),
            FileFault::Reading(path) => write!(f, "Reading failed: '{path}'"),
            FileFault::Writing(path) => write!(f, "Writing failed: '{path}'"),
            FileFault::Left(path) => write!(f, "Writing failed, and a part stays: '{path}'"),
        }
    }
}

impl Error for FileFault {}

impl From<AllocError> for FileFault {
    ghost from_gives = { λ _ e. e ≡ OutOfMemory };

    fn from(_refused: AllocError) -> FileFault {
        FileFault::OutOfMemory
    }
}

impl<T: Drop> From<AllocFailed<T>> for FileFault {
    ghost from_gives = { λ _ e. e ≡ OutOfMemory };

    fn from(_refused: AllocFailed<T>) -> FileFault {
        FileFault::OutOfMemory
    }
}
