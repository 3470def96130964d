//! The type of the file at a path, as the system answers it (stat(2)).
ghost use Rattle.std.specs.Prelude.{◌≡◌};
ghost use Rattle.std.specs.Fs.{file_type};
ghost use Rattle.std.specs.IoError.{error_kind};
ghost use Rattle.filetree.specs.Systems.{IsKind, IsLooked, ShowsKind, fault_of, is_absence};

use crate::system::System;
use crate::tree::TreeFault;
use std::io::ErrorKind;
use std::{fs, io};

/// What is at a path, after symbolic links are followed.
#[derive(Clone, Copy)]
pub(crate) enum PathKind {
    /// The path names nothing.
    Nothing,
    /// A regular file.
    File,
    /// A directory.
    Directory,
    /// A pipe, a socket or a device.
    Other,
}

impl From<io::Error> for TreeFault {
    ghost from_gives = { λ e fault. fault ≡ fault_of e };

    fn from(e: io::Error) -> TreeFault {
        match e.kind() {
            ErrorKind::OutOfMemory => TreeFault::OutOfMemory,
            _ => TreeFault::Device,
        }
    }
}

/// Whether the error says that the path names nothing (ENOENT, ENOTDIR).
fn is_absence(e: &io::Error) -> bool
    ensures { result ≡ is_absence (error_kind e.now) }
{
    matches!(e.kind(), ErrorKind::NotFound | ErrorKind::NotADirectory)
}

/// What the system's metadata say is at a path.
fn path_kind_of(found: &fs::Metadata) -> PathKind
    ensures { IsKind (file_type found.now) result }
{
    if found.is_file() {
        PathKind::File
    } else if found.is_dir() {
        PathKind::Directory
    } else {
        PathKind::Other
    }
}

/// What the system's answer says is at a path, or the fault that it is.
fn found(answer: io::Result<fs::Metadata>) -> Result<PathKind, TreeFault>
    ensures { ShowsKind answer result }
{
    match answer {
        Ok(found) => Ok(path_kind_of(&found)),
        Err(e) if is_absence(&e) => Ok(PathKind::Nothing),
        Err(e) => Err(TreeFault::from(e)),
    }
}

/// Asks the system what is at a path, following symbolic links. A text with a NUL is no path, so the system isn't
/// asked.
pub(crate) fn look<S: System>(system: &S, path: &str) -> Result<PathKind, TreeFault>
    ensures { IsLooked (S.answers system.now) path.now result }
{
    if path.as_bytes().contains(&0) {
        return Ok(PathKind::Nothing);
    }
    found(system.find(path))
}
