//! The trait of trees of files, with the contract of every tree, and its faults.
ghost use Rattle.std.specs.Prelude.{◌≡◌, ℕ, Bool, true, false, List, None, Some, IfOk};
ghost use Rattle.filetree.specs.declared.tree.TreeFault.TheVariants.{OutOfMemory};
ghost use Rattle.message.specs.Refusals.{numbered_text};
ghost use Rattle.filetree.specs.Agreement.{FailsAt, Files, Listings, InEachPair, FailsOnlyByDevice, IsSatisfiable};
ghost use Rattle.filetree.specs.Agreement.{begins_with, file_answer, is_device, listing_answer, refusal_of, Narrows};

use message::{NumberedMessage, RefusalKind};
use std::alloc::{AllocError, AllocFailed};
use std::error::Error;
use std::fmt;
use std::fmt::Display;

/// Why a tree gave no answer.
#[derive(Clone, Copy, Debug, PartialEq, Eq)]
pub enum TreeFault {
    /// An allocation failed.
    OutOfMemory,
    /// The device failed: what is at the path could not be read or listed.
    Device,
}

impl TreeFault {
    /// The number of the fault and its text: 41 for want of memory, 43 for the device.
    pub fn numbered(&self) -> NumberedMessage<'static>
        ensures { numbered_text result ≡ refusal_of self.now }
    {
        match self {
            TreeFault::OutOfMemory => RefusalKind::MemoryForSearch.plain(),
            TreeFault::Device => RefusalKind::Device.plain(),
        }
    }

    /// The number of the fault: 41 for want of memory, 43 for the device.
    pub fn number(&self) -> u16
        ensures { result ≡ (refusal_of self.now).number }
    {
        self.numbered().number
    }
}

impl fmt::Display for TreeFault {
    ghost output = { λ fault. Some (refusal_of fault).text };

    fn fmt<W: fmt::Write>(&self, f: &mut fmt::Formatter<W>) -> fmt::Result {
        self.numbered().message.fmt(f)
    }
}

impl Error for TreeFault {}

impl From<AllocError> for TreeFault {
    ghost from_gives = { λ _ e. e ≡ OutOfMemory };

    fn from(_e: AllocError) -> TreeFault {
        TreeFault::OutOfMemory
    }
}

impl<T: Drop> From<AllocFailed<T>> for TreeFault {
    ghost from_gives = { λ _ e. e ≡ OutOfMemory };

    fn from(_e: AllocFailed<T>) -> TreeFault {
        TreeFault::OutOfMemory
    }
}

/// What is seen at a path.
#[derive(Clone, Copy, Debug, PartialEq, Eq)]
pub struct SeenPath {
    /// Whether a file is there that begins with the bytes that were asked for.
    pub begins: bool,
    /// Whether a directory may be there: false only where the answers so far say that none is.
    pub may_list: bool,
}

/// Files and directories by their paths.
///
/// The meaning of a tree is a set of pairs of maps, one of files and one of directories: those that agree with all its
/// answers so far. A call only makes this set smaller, and its answer is what each remaining pair has at the path. So a
/// tree need not know its disk as a whole, and a disk that changes between two calls breaks no clause.
pub trait Tree {
    /// How often the device has failed so far.
    ghost failures: { Self → ℕ };

    /// The paths at which the device may have failed so far. A tree that does not record them has every path here.
    ghost failed: { Self → List ℕ → Bool } = { λ _ _. true };

    /// Which pairs of maps agree with the answers so far.
    ghost agrees: { Self → Files → Listings → Type 0 };

    /// The bytes of the file at the path, or `None` where no file is there.
    ///
    /// It fails with `OutOfMemory`, or with `Device` where the device failed in this call.
    fn read(&mut self, path: &str) -> Result<Option<Vec<u8>>, TreeFault>
        ensures narrows { Narrows (agrees self.old) (agrees self.new) }
        ensures answer { IfOk result (λ answer.
            InEachPair (agrees self.new) (λ files listings. files path.now ≡ file_answer answer)) }
        ensures cause { FailsOnlyByDevice (failures self.old) (failures self.new) result }
        ensures failed { FailsAt is_device (failed self.old) (failed self.new) result (λ at. at ≡ path.now) };

    /// Whether a file is at the path that begins with these bytes. A tree may read no more of the file than that.
    ///
    /// It fails as `read` does.
    fn begins_with(&mut self, path: &str, prefix: &[u8]) -> Result<bool, TreeFault>
        ensures narrows { Narrows (agrees self.old) (agrees self.new) }
        ensures answer { IfOk result (λ answer.
            InEachPair (agrees self.new) (λ files listings. begins_with prefix.now (files path.now) ≡ answer)) }
        ensures cause { FailsOnlyByDevice (failures self.old) (failures self.new) result }
        ensures failed { FailsAt is_device (failed self.old) (failed self.new) result (λ at. at ≡ path.now) }
    {
        match self.read(path)? {
            None => Ok(false),
            Some(bytes) => Ok(bytes.as_slice().starts_with(prefix)),
        }
    }

    /// Whether a directory may be at the path: false only where the answers so far say that none is.
    fn may_list(&self, path: &str) -> bool
        ensures { result ≡ false → InEachPair (agrees self.now) (λ files listings. listings path.now ≡ None) }
    {
        let _ = path;
        true
    }

    /// What `begins_with` answers, and after that `may_list`, in one call.
    ///
    /// It fails as `read` does.
    fn see(&mut self, path: &str, prefix: &[u8]) -> Result<SeenPath, TreeFault>
        ensures narrows { Narrows (agrees self.old) (agrees self.new) }
        ensures answer { IfOk result (λ seen. InEachPair (agrees self.new) (λ files listings.
            begins_with prefix.now (files path.now) ≡ seen.begins)) }
        ensures nothing { IfOk result (λ seen. seen.may_list ≡ false → InEachPair (agrees self.new) (λ files listings.
            listings path.now ≡ None)) }
        ensures cause { FailsOnlyByDevice (failures self.old) (failures self.new) result }
        ensures failed { FailsAt is_device (failed self.old) (failed self.new) result (λ at. at ≡ path.now) }
    {
        let begins = self.begins_with(path, prefix)?;
        let may_list = self.may_list(path);
        Ok(SeenPath { begins, may_list })
    }

    /// The names in the directory at the path, in any order, or `None` where no directory is there.
    ///
    /// It fails as `read` does.
    fn entries(&mut self, dir: &str) -> Result<Option<Vec<String>>, TreeFault>
        ensures narrows { Narrows (agrees self.old) (agrees self.new) }
        ensures answer { IfOk result (λ answer.
            InEachPair (agrees self.new) (λ files listings. listings dir.now ≡ listing_answer answer)) }
        ensures cause { FailsOnlyByDevice (failures self.old) (failures self.new) result }
        ensures failed { FailsAt is_device (failed self.old) (failed self.new) result (λ at. at ≡ dir.now) };

    /// With each tree some pair of maps agrees.
    ghost satisfiable: { (tree : Self) → IsSatisfiable (agrees tree) };
}
