//! What the file of a collection has, and what it keeps.
ghost use Rattle.std.specs.Prelude.{◌≡◌, IfErr, IfSome, None, Ok, Some, string_bytes, vec_items};
ghost use Rattle.message.specs.Answers.{Gives};
ghost use Rattle.module_collections.specs.texts.Views.{kept_view};
ghost use Rattle.module_collections.specs.files.Calls.{InEach, Narrows};
ghost use Rattle.module_collections.specs.files.Found as found;
ghost use Rattle.module_collections.specs.files.Failures.{failure_of, unread};
ghost use Rattle.module_collections.specs.files.Faults.{reason_at, reason_of};

use crate::files::fault::FileFault;
use crate::files::find::reading;
use crate::files::follow::{LinkEnd, end_of};
use crate::files::storage::{PathKind, Storage};
use crate::texts::{Collection, CollectionFault, read_collection};
use std::alloc::Global;

/// How many bytes a collection has at most.
const MAX_LENGTH: usize = 65_536;

/// The path at which links from this one end, if a file is there.
fn file_end<S: Storage>(alloc: Global, storage: &mut S, path: &str) -> Result<String, FileFault>
    ensures narrows { Narrows (S.agrees storage.old) (S.agrees storage.new) }
    ensures answer { InEach (S.agrees storage.new) (λ entries. Gives reason_of string_bytes result
        (found.file_end entries path.now)) }
    ensures failure { IfErr result (λ fault. IfSome (failure_of fault) (λ f. f ≡ unread path.now)) }
{
    match end_of(alloc, storage, path) {
        Ok(
            Some(
                LinkEnd {
                    path: end,
                    seen: PathKind::File,
                },
            ),
        ) => Ok(end),
        Ok(_) => Err(FileFault::NoFile(String::from_str(alloc, path)?)),
        Err(fault) => Err(reading(alloc, path, fault)),
    }
}

/// The bytes, if a collection may have so many.
fn short(alloc: Global, path: &str, bytes: Vec<u8>) -> Result<Vec<u8>, FileFault>
    ensures answer { (all : _) → bytes.items ≡ found.first all → Gives reason_of vec_items result
        (found.short path.now (Some all)) }
    ensures failure { IfErr result (λ fault. failure_of fault ≡ None) }
{
    if bytes.len() > MAX_LENGTH {
        let path = String::from_str(alloc, path)?;
        return Err(FileFault::NoCollection(path, CollectionFault::TooLong));
    }
    Ok(bytes)
}

/// The bytes of the file that a path leads to.
///
/// The errors: `NoFile`, it leads to none; `NoCollection`, a collection can't have so many; `Reading`, the system failed
/// at this path; `OutOfMemory`.
pub fn read_bytes<S: Storage>(
    alloc: Global,
    storage: &mut S,
    path: &str,
) -> Result<Vec<u8>, FileFault>
    ensures narrows { Narrows (S.agrees storage.old) (S.agrees storage.new) }
    ensures answer { InEach (S.agrees storage.new) (λ entries. Gives reason_of vec_items result
        (found.shown_at entries path.now)) }
    ensures failure { IfErr result (λ fault. IfSome (failure_of fault) (λ f. f ≡ unread path.now)) }
{
    let end = file_end(alloc, storage, path)?;
    match storage.read(end.as_str(), MAX_LENGTH + 1) {
        Ok(bytes) => short(alloc, path, bytes),
        Err(fault) => Err(reading(alloc, path, fault)),
    }
}

/// The fault of a file of this path that keeps no collection.
fn no_collection(alloc: Global, path: &str, fault: CollectionFault) -> FileFault
    ensures reason { IfSome (reason_of result) (λ reason. reason_at path.now fault ≡ Some reason) }
    ensures failure { failure_of result ≡ None }
{
    match String::from_str(alloc, path) {
        Ok(path) => FileFault::NoCollection(path, fault),
        Err(_) => FileFault::OutOfMemory,
    }
}

/// What the bytes of a file keep.
fn kept_in(alloc: Global, path: &str, bytes: Vec<u8>) -> Result<Collection, FileFault>
    ensures answer { Gives reason_of kept_view result (found.kept_in path.now (Ok bytes.items)) }
    ensures failure { IfErr result (λ fault. failure_of fault ≡ None) }
{
    let Ok(text) = String::from_utf8(bytes) else {
        return Err(no_collection(alloc, path, CollectionFault::NoText));
    };
    match read_collection(alloc, text.as_str()) {
        Ok(collection) => Ok(collection),
        Err(fault) => Err(no_collection(alloc, path, fault)),
    }
}

/// What the file that a path leads to keeps.
///
/// The errors: those of `read_bytes`, and `NoCollection`, its text keeps no collection.
pub fn read_collection_file<S: Storage>(
    alloc: Global,
    storage: &mut S,
    path: &str,
) -> Result<Collection, FileFault>
    ensures narrows { Narrows (S.agrees storage.old) (S.agrees storage.new) }
    ensures answer { InEach (S.agrees storage.new) (λ entries. Gives reason_of kept_view result
        (found.kept_at entries path.now)) }
    ensures failure { IfErr result (λ fault. IfSome (failure_of fault) (λ f. f ≡ unread path.now)) }
{
    let bytes = read_bytes(alloc, storage, path)?;
    kept_in(alloc, path, bytes)
}
