//! The trait of what keeps files, with the contract of each, and its faults.
ghost use Rattle.std.specs.Prelude.{◌≡◌, true, IfOk, take};
ghost use Rattle.envvars.specs.Texts.{Text, has, texts_in};
ghost use Rattle.module_collections.specs.files.Entries.{Entries, file, in_folder, is_there};
ghost use Rattle.module_collections.specs.files.Names.{is_collection_name};
ghost use Rattle.module_collections.specs.files.Calls.{Changes, Clears, Creates, Does, InEach, MakesFolder, Moves, Narrows};
ghost use Rattle.module_collections.specs.files.PathKind.{IsSeen};
ghost use Rattle.module_collections.specs.declared.files.storage.StorageFault.TheVariants.{OutOfMemory};

use std::alloc::{AllocError, AllocFailed};

/// Why a storage didn't answer, or didn't do what was asked for.
#[derive(Clone, Copy)]
pub enum StorageFault {
    /// An allocation was refused.
    OutOfMemory,
    /// The system failed, or refused it.
    Failed,
}

impl From<AllocError> for StorageFault {
    ghost from_gives = { λ _ e. e ≡ OutOfMemory };

    fn from(_refused: AllocError) -> StorageFault {
        StorageFault::OutOfMemory
    }
}

impl<T: Drop> From<AllocFailed<T>> for StorageFault {
    ghost from_gives = { λ _ e. e ≡ OutOfMemory };

    fn from(_refused: AllocFailed<T>) -> StorageFault {
        StorageFault::OutOfMemory
    }
}

/// Why a new file isn't there whole.
#[derive(Clone, Copy)]
pub enum CreationFault {
    /// None was made.
    NotMade,
    /// One was made, and writing it failed.
    Unfinished,
}

/// What is at a path, where a link isn't followed.
#[derive(Drop)]
pub enum PathKind {
    /// Nothing.
    Nothing,
    /// A file.
    File,
    /// A folder.
    Folder,
    /// A link to this path.
    Link(String),
    /// A pipe, a socket or a device.
    Other,
}

/// What keeps files at paths.
///
/// The meaning of a storage is a set of maps from paths to what is there: those that agree with what it has answered and
/// done so far. A call that only asks makes this set no larger, and its answer is what each remaining map has. After a
/// call that changes something each map that agrees has come, by this change, from one that agreed before.
///
/// A path is taken as it is written: that two paths can lead to one place, by links to folders, no map says. Nor has a
/// map anything at a path that isn't UTF-8.
pub trait Storage {
    /// Which maps agree with the answers so far.
    ghost agrees: { Self → Entries → Type 0 };

    /// What is at the path (lstat(2), readlink(2)): nothing also where a folder on the way is missing or none.
    ///
    /// It fails where the system does, also for want of a permission on the way, and for want of memory.
    fn look(&mut self, path: &str) -> Result<PathKind, StorageFault>
        ensures narrows { Narrows (agrees self.old) (agrees self.new) }
        ensures answer { IfOk result (λ seen. InEach (agrees self.new) (λ entries. IsSeen seen (entries path.now))) };

    /// The first bytes of the file at the path, at most so many.
    ///
    /// It fails where the system does, as where no file is there, and for want of memory.
    fn read(&mut self, path: &str, most: usize) -> Result<Vec<u8>, StorageFault>
        ensures narrows { Narrows (agrees self.old) (agrees self.new) }
        ensures answer { IfOk result (λ bytes. InEach (agrees self.new) (λ entries.
            (all : _) × (entries path.now ≡ file all) × (bytes.items ≡ take most all))) };

    /// The names in the folder at the path, in any order; none where no folder is there. One that isn't UTF-8 isn't told.
    ///
    /// It fails where the system does, and for want of memory.
    fn names(&mut self, path: &str) -> Result<Vec<String>, StorageFault>
        ensures narrows { Narrows (agrees self.old) (agrees self.new) }
        ensures answer { IfOk result (λ names. InEach (agrees self.new) (λ entries. (name : Text)
            → is_collection_name name ≡ true
            → has name (texts_in names) ≡ is_there (entries (in_folder path.now name)))) };

    /// Makes the folder of this path, and those on the way, where they aren't there.
    ///
    /// It fails where the system does; some of them may then be made.
    fn make_folder(&mut self, path: &str) -> Result<(), StorageFault>
        ensures { Changes (agrees self.old) (agrees self.new) (MakesFolder path.now result) };

    /// Makes a file where nothing is at the path, not even a link (open(2) with O_EXCL), and writes these bytes.
    ///
    /// Also where it succeeds, the clause doesn't say what the file has.
    fn create(&mut self, path: &str, bytes: &[u8]) -> Result<(), CreationFault>
        ensures { Changes (agrees self.old) (agrees self.new) (Creates path.now result) };

    /// Puts what is at the one path at the other, in place of a file that is there (rename(2)).
    fn rename(&mut self, from: &str, to: &str) -> Result<(), StorageFault>
        ensures { Changes (agrees self.old) (agrees self.new) (Does result (Moves from.now to.now)) };

    /// Removes the file or the link at the path (unlink(2)).
    fn remove(&mut self, path: &str) -> Result<(), StorageFault>
        ensures { Changes (agrees self.old) (agrees self.new) (Does result (Clears path.now)) };
}
