//! Why `use` and `unuse` are refused, with the texts.
ghost use Rattle.std.specs.Prelude.{◌≡◌, codes};
ghost use Rattle.message.specs.Messages.{around, text_of};

use message::{Message, Subject};
use std::alloc::{AllocError, AllocFailed};
use std::error::Error;
use std::fmt;
use std::fmt::Display;

/// Why an edit of MODULEPATH was refused. The environment is then unchanged.
#[derive(Debug, Drop)]
pub enum ModulePathFault {
    /// An allocation was refused.
    OutOfMemory,
    /// A word is empty.
    NoName,
    /// This word is relative, and there is no working directory.
    NoWorkingDirectory(String),
    /// This path has a colon, so MODULEPATH can't hold it.
    HasColon(String),
    /// MODULEPATH would be longer than a shell can hand on.
    TooLong,
}

/// The text of a path that has a colon.
fn colon_message(path: &str) -> Message<'_>
    ensures { text_of result ≡ around (codes "Bad value of 'MODULEPATH': '") path.now (codes "' has a colon") }
{
    Message {
        before: "Bad value of 'MODULEPATH': '",
        subject: Subject::Name(path),
        after: "' has a colon",
    }
}

impl ModulePathFault {
    ghost use Rattle.module_words.specs.modulepath.Faults.{message_of};

    /// The text of the fault.
    pub fn message(&self) -> Message<'_>
        ensures { text_of result ≡ message_of self.now }
    {
        match self {
            ModulePathFault::OutOfMemory => Message::of_text("Out of memory"),
            ModulePathFault::NoName => Message::of_text(
                "Bad value of 'MODULEPATH': a directory without a name",
            ),
            ModulePathFault::NoWorkingDirectory(word) => {
                Message::quoting("There is no working directory for '", word.as_str())
            }
            ModulePathFault::HasColon(path) => colon_message(path.as_str()),
            ModulePathFault::TooLong => Message::of_text(
                "Bad value of 'MODULEPATH': it is too long",
            ),
        }
    }
}

impl fmt::Display for ModulePathFault {
    ghost use Rattle.std.specs.Prelude.{Some};
    ghost use Rattle.module_words.specs.modulepath.Faults.{message_of};

    ghost output = { λ fault. Some (message_of fault) };

    fn fmt<W: fmt::Write>(&self, f: &mut fmt::Formatter<W>) -> fmt::Result {
        self.message().fmt(f)
    }
}

impl Error for ModulePathFault {}

impl From<AllocError> for ModulePathFault {
    ghost use Rattle.module_words.specs.declared.modulepath.fault.ModulePathFault.TheVariants.{OutOfMemory};

    ghost from_gives = { λ _ e. e ≡ OutOfMemory };

    fn from(_refused: AllocError) -> ModulePathFault {
        ModulePathFault::OutOfMemory
    }
}

impl<T: Drop> From<AllocFailed<T>> for ModulePathFault {
    ghost use Rattle.module_words.specs.declared.modulepath.fault.ModulePathFault.TheVariants.{OutOfMemory};

    ghost from_gives = { λ _ e. e ≡ OutOfMemory };

    fn from(_refused: AllocFailed<T>) -> ModulePathFault {
        ModulePathFault::OutOfMemory
    }
}
