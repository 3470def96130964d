//! The system, as it is asked what is at a path, and for the bytes of files and the names in directories.
ghost use Rattle.std.specs.Prelude.{List, ℕ};
ghost use Rattle.filetree.specs.Systems.{Answer, directory, file, found, seen};

use std::io::Read;
use std::rt::Files;
use std::{fs, io};

/// Whatever answers as a system does. What is made of its answers is proved for each such system, since of a real disk no
/// clause can say what it holds.
///
/// The methods for a runtime do nothing but ask it.
pub trait System {
    /// A file that is open, which reads as its bytes.
    type File: Read + Drop;

    /// A directory that is open, which reads as its names, each ended by a NUL.
    type Directory: Read + Drop;

    /// Whether this is an answer about the path.
    ghost answers: { Self → List ℕ → Answer → Type 0 };

    /// What is at the path, after symbolic links are followed (stat(2)).
    fn find(&self, path: &str) -> io::Result<fs::Metadata>
        ensures { answers self.now path.now (found result) };

    /// The file at the path, which is opened (open(2)).
    fn open(&self, path: &str) -> io::Result<Self::File>
        ensures { answers self.now path.now (file (seen Self.File.remaining result)) };

    /// The directory at the path, which is opened.
    fn open_directory(&self, path: &str) -> io::Result<Self::Directory>
        ensures { answers self.now path.now (directory (seen Self.Directory.remaining result)) };
}

impl<R: Files> System for R {
    type File = R::File;

    type Directory = R::Dir;

    ghost answers = { λ system path answer. Unit {0} };

    fn find(&self, path: &str) -> io::Result<fs::Metadata> {
        fs::metadata(self, path)
    }

    fn open(&self, path: &str) -> io::Result<R::File> {
        fs::open(self, path)
    }

    fn open_directory(&self, path: &str) -> io::Result<R::Dir> {
        self.open_dir(path)
    }
}
