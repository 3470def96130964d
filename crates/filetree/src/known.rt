//! What the system's answers say of a path.
ghost use Rattle.std.specs.Prelude.{◌≡◌, List, ℕ, Option, None, true, false, IfOk, IfSome};
ghost use Rattle.filetree.specs.Agreement.{begins_with, file_answer, listing_answer};
ghost use Rattle.filetree.specs.Known.{FitsFile, FitsListing, is_read_in_part, is_unlisted, lacks};
ghost use Rattle.filetree.specs.Names.{is_hidden};

use crate::names::Names;
use crate::prefix::Prefix;
use std::alloc::{AllocError, Global};

/// After so many directories in a row one more is likely, as in a directory of folders with the versions of a module.
pub(crate) const USUAL: u8 = 2;

/// What is known of a path.
pub(crate) enum KnownPath {
    /// Neither a file nor a directory is there.
    Neither,
    /// A file, of which these first bytes were read.
    File(Prefix),
    /// A file, which was read whole.
    WholeFile(Vec<u8>),
    /// A directory, which was not listed.
    Directory,
    /// A directory with these names.
    Listing(Names),
}

// Not derived: it is dropped by one call, so a proof needn't look at each case at each exit.
impl Drop for KnownPath {
    fn drop(self) {
        match self {
            KnownPath::Neither | KnownPath::Directory => (),
            KnownPath::File(_prefix) => (),
            KnownPath::WholeFile(_bytes) => (),
            KnownPath::Listing(_names) => (),
        }
    }
}

impl KnownPath {
    /// Whether the file at the path begins with these bytes, or `None` where too little of it was read to say.
    pub(crate) fn begins_with(&self, prefix: &[u8]) -> Option<bool>
        ensures { IfSome result (λ answer. (file : Option (List ℕ)) → FitsFile self.now file
            → begins_with prefix.now file ≡ answer) }
    {
        match self {
            KnownPath::WholeFile(bytes) => Some(bytes.as_slice().starts_with(prefix)),
            KnownPath::File(read) => read.begins_with(prefix),
            KnownPath::Neither | KnownPath::Directory | KnownPath::Listing(_) => Some(false),
        }
    }

    /// Whether a directory was listed at the path that has no such name, which begins with a point.
    pub(crate) fn lacks_hidden(&self, name: &str) -> bool
        requires { is_hidden name.now ≡ true }
        ensures { result ≡ lacks self.now name.now }
    {
        match self {
            KnownPath::Listing(names) => !names.has_hidden(name),
            KnownPath::Neither
            | KnownPath::File(_)
            | KnownPath::WholeFile(_)
            | KnownPath::Directory => false,
        }
    }

    /// How many directories were found in a row, with this path and so many before it, at most `USUAL`.
    pub(crate) fn row_after(&self, before: u8) -> u8 {
        if !self.is_directory() {
            0
        } else if before < USUAL {
            before + 1
        } else {
            before
        }
    }

    /// A copy of the bytes of the file at the path, or `None` where no file is there.
    pub(crate) fn file(&self) -> Result<Option<Vec<u8>>, AllocError>
        requires { is_read_in_part self.now ≡ false }
        ensures { IfOk result (λ answer. (file : Option (List ℕ)) → FitsFile self.now file
            → file ≡ file_answer answer) }
    {
        match self {
            KnownPath::WholeFile(bytes) => Ok(Some(bytes.clone()?)),
            KnownPath::File(_)
            | KnownPath::Neither
            | KnownPath::Directory
            | KnownPath::Listing(_) => Ok(None),
        }
    }

    /// Whether a directory is at the path.
    pub(crate) fn is_directory(&self) -> bool
        ensures { result ≡ false → (listing : Option (List (List ℕ))) → FitsListing self.now listing
            → listing ≡ None }
    {
        match self {
            KnownPath::Directory | KnownPath::Listing(_) => true,
            KnownPath::Neither | KnownPath::File(_) | KnownPath::WholeFile(_) => false,
        }
    }

    /// A copy of the names in the directory at the path, or `None` where no directory is there.
    pub(crate) fn names(&self, alloc: Global) -> Result<Option<Vec<String>>, AllocError>
        requires { is_unlisted self.now ≡ false }
        ensures { IfOk result (λ answer. (listing : Option (List (List ℕ))) → FitsListing self.now listing
            → listing ≡ listing_answer answer) }
    {
        match self {
            KnownPath::Listing(names) => Ok(Some(names.copies(alloc)?)),
            KnownPath::Directory
            | KnownPath::Neither
            | KnownPath::File(_)
            | KnownPath::WholeFile(_) => Ok(None),
        }
    }
}
