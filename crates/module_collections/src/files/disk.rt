//! The storage of a real disk.

use crate::files::storage::{CreationFault, PathKind, Storage, StorageFault};
use std::fs::{Metadata, OpenFile, OpenOptions};
use std::io::{ErrorKind, Read, Write};
use std::rt::Files;
use std::{fs, io, str};

/// The files of a disk. Each method asks the system a few times, and keeps nothing.
///
/// Of a disk no clause can say what it holds: no map agrees with it here, so that the clauses of its methods say nothing,
/// and what they do is tested.
#[derive(Drop)]
pub struct DiskStorage<R: Files + AllocGlobal + Drop> {
    system: R,
}

impl From<io::Error> for StorageFault {
    fn from(fault: io::Error) -> StorageFault {
        match fault.kind() {
            ErrorKind::OutOfMemory => StorageFault::OutOfMemory,
            _ => StorageFault::Failed,
        }
    }
}

/// Whether the error says that nothing is at a path, as none can be at a name that is too long.
fn is_absence(fault: &io::Error) -> bool {
    matches!(
        fault.kind(),
        ErrorKind::NotFound | ErrorKind::NotADirectory | ErrorKind::InvalidFilename
    )
}

impl<R: Files + AllocGlobal + Drop> DiskStorage<R> {
    /// The files that the runtime reaches.
    pub fn new(system: R) -> DiskStorage<R> {
        DiskStorage { system }
    }

    /// What is at a path, by what the system says of it.
    fn seen(&self, path: &str, found: &Metadata) -> io::Result<PathKind> {
        if found.is_symlink() {
            let target = fs::read_link(&self.system, path)?;
            return Ok(PathKind::Link(target.into_string()));
        }
        if found.is_file() {
            return Ok(PathKind::File);
        }
        if found.is_dir() {
            return Ok(PathKind::Folder);
        }
        Ok(PathKind::Other)
    }

    /// The names in a folder, but those that aren't UTF-8.
    fn names_in(&self, path: &str) -> io::Result<Vec<String>> {
        let mut slashed = String::from_str(self.system.alloc(), path)?;
        slashed.push('/')?;
        let mut text = Vec::new(self.system.alloc());
        self.system
            .open_dir(slashed.as_str())?
            .read_to_end(&mut text)?;
        let mut names = Vec::new(self.system.alloc());
        for name in text.as_slice().split(|byte| *byte == 0) {
            if let Ok(name) = str::from_utf8(name) {
                names.push(String::from_str(self.system.alloc(), name)?)?;
            }
        }
        Ok(names)
    }

    /// The first bytes of the file at a path, at most so many.
    fn first_bytes(&self, path: &str, most: u64) -> io::Result<Vec<u8>> {
        let file = fs::open(&self.system, path)?;
        if !file.metadata()?.is_file() {
            return Err(io::Error::from(ErrorKind::InvalidInput));
        }
        let mut bytes = Vec::new(self.system.alloc());
        file.take(most).read_to_end(&mut bytes)?;
        Ok(bytes)
    }
}

/// Writes all the bytes, and waits until the disk has them: some systems say only then that there is no room.
fn write_all<F: Write + OpenFile>(file: &mut F, bytes: &[u8]) -> io::Result<()> {
    file.write_all(bytes)?;
    file.sync_all()
}

impl<R: Files + AllocGlobal + Drop> Storage for DiskStorage<R> {
    ghost agrees = { λ disk entries. ⊥ };

    fn look(&mut self, path: &str) -> Result<PathKind, StorageFault> {
        match fs::symlink_metadata(&self.system, path) {
            Ok(found) => Ok(self.seen(path, &found)?),
            Err(fault) if is_absence(&fault) => Ok(PathKind::Nothing),
            Err(fault) => Err(StorageFault::from(fault)),
        }
    }

    fn read(&mut self, path: &str, most: usize) -> Result<Vec<u8>, StorageFault> {
        Ok(self.first_bytes(path, most as u64)?)
    }

    fn names(&mut self, path: &str) -> Result<Vec<String>, StorageFault> {
        match self.names_in(path) {
            Ok(names) => Ok(names),
            Err(fault) if is_absence(&fault) => Ok(Vec::new(self.system.alloc())),
            Err(fault) => Err(StorageFault::from(fault)),
        }
    }

    fn make_folder(&mut self, path: &str) -> Result<(), StorageFault> {
        Ok(fs::create_dir_all(&self.system, path)?)
    }

    fn create(&mut self, path: &str, bytes: &[u8]) -> Result<(), CreationFault> {
        let mut how = OpenOptions::new();
        how.write(true).create_new(true);
        let Ok(mut file) = how.open(&self.system, path) else {
            return Err(CreationFault::NotMade);
        };
        match write_all(&mut file, bytes) {
            Ok(()) => Ok(()),
            Err(_) => Err(CreationFault::Unfinished),
        }
    }

    fn rename(&mut self, from: &str, to: &str) -> Result<(), StorageFault> {
        Ok(fs::rename(&self.system, from, to)?)
    }

    fn remove(&mut self, path: &str) -> Result<(), StorageFault> {
        Ok(fs::remove_file(&self.system, path)?)
    }
}
