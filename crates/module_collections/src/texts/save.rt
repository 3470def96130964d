//! What is saved: a text that is read again as the same.
ghost use Rattle.std.specs.Prelude.{◌≡◌, string_bytes, IfErr, IfOk, Some};
ghost use Rattle.module_collections.specs.texts.Views.{kept_view};
ghost use Rattle.module_collections.specs.texts.Saved.{IsSaveFault, IsSaved, are_same, keep_same, of_fault, text_of_save};
ghost use Rattle.module_collections.specs.declared.texts.save.SaveFault.TheVariants.{OutOfMemory};

use crate::texts::collection::Collection;
use crate::texts::fault::CollectionFault;
use crate::texts::read::read_collection;
use crate::texts::write::write_collection;
use std::alloc::{AllocError, Global};
use std::error::Error;
use std::fmt;

/// Why a collection isn't saved.
#[derive(Debug, Drop)]
pub enum SaveFault {
    /// An allocation was refused.
    OutOfMemory,
    /// Its text would be no collection.
    Unreadable(CollectionFault),
    /// Its text would be another collection, as where a directory is there twice.
    Differs,
}

impl fmt::Display for SaveFault {
    ghost output = { λ fault. Some (text_of_save fault) };

    fn fmt<W: fmt::Write>(&self, f: &mut fmt::Formatter<W>) -> fmt::Result {
        match self {
            SaveFault::OutOfMemory => f.write_str("Out of memory"),
            SaveFault::Unreadable(CollectionFault::SaysNothing) => {
                f.write_str(
                    "Nothing to save: no module is loaded, and MODULEPATH names no directory",
                )
            }
            SaveFault::Unreadable(fault) => write!(f, "No collection can keep this: {fault}"),
            SaveFault::Differs => f.write_str(
                "No collection can keep this: it would be read as another one",
            ),
        }
    }
}

impl Error for SaveFault {}

impl From<AllocError> for SaveFault {
    ghost from_gives = { λ _ e. e ≡ OutOfMemory };

    fn from(_refused: AllocError) -> SaveFault {
        SaveFault::OutOfMemory
    }
}

impl From<CollectionFault> for SaveFault {
    ghost from_gives = { λ fault e. e ≡ of_fault fault };

    fn from(fault: CollectionFault) -> SaveFault {
        match fault {
            CollectionFault::OutOfMemory => SaveFault::OutOfMemory,
            fault => SaveFault::Unreadable(fault),
        }
    }
}

/// Whether the texts are the same, one by one.
fn are_same(xs: &[String], ys: &[String]) -> bool
    ensures { result ≡ are_same xs.now ys.now }
{
    xs == ys
}

/// Whether both keep the same.
fn keep_same(one: &Collection, other: &Collection) -> bool
    ensures { result ≡ keep_same one.now other.now }
{
    are_same(one.directories.as_slice(), other.directories.as_slice())
        && are_same(one.modules.as_slice(), other.modules.as_slice())
}

/// The text that is saved for a collection. It is read again before it is answered: where that would be refused, or
/// would give another collection, none is answered.
pub fn save_text(alloc: Global, collection: &Collection) -> Result<String, SaveFault>
    ensures saved { IfOk result (λ text. IsSaved (kept_view collection.now) (string_bytes text)) }
    ensures fault { IfErr result (IsSaveFault (kept_view collection.now)) }
{
    let bytes = write_collection(alloc, collection)?;
    let text = String::from_utf8_lossy(alloc, bytes.as_slice())?;
    let again = read_collection(alloc, text.as_str())?;
    let same = keep_same(&again, collection);
    if same {
        return Ok(text);
    }
    Err(SaveFault::Differs)
}
