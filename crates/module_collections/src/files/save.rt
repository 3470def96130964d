//! Saving a collection: whole, or not at all.
ghost use Rattle.std.specs.Prelude.{◌≡◌, ◌↔◌, Err, IfErr, IfOk, IfSome, IsTrue, None, Some, string_bytes};
ghost use Rattle.message.specs.Answers.{Gives};
ghost use Rattle.module_collections.specs.texts.Saved.{IsSaved};
ghost use Rattle.module_collections.specs.texts.Views.{kept_view};
ghost use Rattle.module_collections.specs.files.Entries.{file};
ghost use Rattle.module_collections.specs.files.Calls.{Changes, InEach, MakesFolder, Narrows};
ghost use Rattle.module_collections.specs.files.Ends as ends;
ghost use Rattle.module_collections.specs.files.Failures as failures;
ghost use Rattle.module_collections.specs.files.Failures.{failure_of, unwritten};
ghost use Rattle.module_collections.specs.files.Faults.{reason_of};
ghost use Rattle.module_collections.specs.files.Places.{folders_for};
ghost use Rattle.module_collections.specs.files.PreparedSave.{IsPrepared, IsUnprepared, IsUnsaved};
ghost use Rattle.module_collections.specs.files.Saves as spec;

use crate::files::fault::FileFault;
use crate::files::find::folders_for;
use crate::files::follow::{LinkEnd, end_of};
use crate::files::paths::{beside, in_folder};
use crate::files::storage::{CreationFault, PathKind, Storage, StorageFault};
use crate::files::unwritten::Unwritten;
use crate::texts::{Collection, save_text};
use envvars::Env;
use std::alloc::{AllocError, Global};

/// The fault of what couldn't be written at a path.
fn writing(alloc: Global, path: &str) -> FileFault
    ensures reason { reason_of result ≡ None }
    ensures failure { IfSome (failure_of result) (λ f. f ≡ unwritten path.now) }
{
    match String::from_str(alloc, path) {
        Ok(path) => FileFault::Writing(path),
        Err(_) => FileFault::OutOfMemory,
    }
}

/// The end to which a path leads, if a file can be there: one is, or nothing.
fn free_end<S: Storage>(alloc: Global, storage: &mut S, path: &str) -> Result<String, FileFault>
    ensures narrows { Narrows (S.agrees storage.old) (S.agrees storage.new) }
    ensures answer { InEach (S.agrees storage.new) (λ entries. Gives reason_of string_bytes result
        (ends.free_end entries path.now)) }
    ensures failure { IfErr result (λ fault. IfSome (failure_of fault) (λ f. f ≡ unwritten path.now)) }
{
    match end_of(alloc, storage, path) {
        Ok(
            Some(
                LinkEnd {
                    path: end,
                    seen: PathKind::Nothing | PathKind::File,
                },
            ),
        ) => Ok(end),
        Ok(_) => Err(FileFault::NoFile(String::from_str(alloc, path)?)),
        Err(_) => Err(writing(alloc, path)),
    }
}

/// Whether a file is at the path and has this text.
fn holds<S: Storage>(storage: &mut S, path: &str, text: &str) -> Result<bool, StorageFault>
    ensures narrows { Narrows (S.agrees storage.old) (S.agrees storage.new) }
    ensures answer { IfOk result (λ same. InEach (S.agrees storage.new) (λ entries.
        IsTrue same ↔ (entries path.now ≡ file text.now))) }
{
    let bytes = storage.read(path, text.len() + 1)?;
    Ok(bytes.as_slice() == text.as_bytes())
}

/// Removes the new file at the path, which isn't put in its place.
fn discard<S: Storage>(storage: &mut S, path: &str) -> Unwritten
    ensures { Changes (S.agrees storage.old) (S.agrees storage.new) (spec.Discards path.now result) }
{
    match storage.remove(path) {
        Ok(()) => Unwritten::Failed,
        Err(_) => Unwritten::Left,
    }
}

/// Removes the new file at the path, if one was made before this fault.
fn undo<S: Storage>(storage: &mut S, path: &str, fault: CreationFault) -> Unwritten
    ensures { Changes (S.agrees storage.old) (S.agrees storage.new) (spec.Undoes path.now fault result) }
{
    match fault {
        CreationFault::NotMade => Unwritten::Failed,
        CreationFault::Unfinished => discard(storage, path),
    }
}

/// Reads the new file at the path again, and removes it if it hasn't this text: where a disk is full, not every write
/// fails.
fn compare<S: Storage>(storage: &mut S, path: &str, text: &str) -> Result<(), Unwritten>
    ensures { Changes (S.agrees storage.old) (S.agrees storage.new) (spec.Compares path.now text.now result) }
{
    match holds(storage, path, text) {
        Ok(true) => Ok(()),
        Ok(false) | Err(_) => Err(discard(storage, path)),
    }
}

/// Makes a file with this text where nothing was.
fn add<S: Storage>(storage: &mut S, path: &str, text: &str) -> Result<(), Unwritten>
    ensures { Changes (S.agrees storage.old) (S.agrees storage.new) (spec.Adds path.now text.now result) }
{
    match storage.create(path, text.as_bytes()) {
        Ok(()) => compare(storage, path, text),
        Err(fault) => Err(undo(storage, path, fault)),
    }
}

/// Puts the new file at the path in its place, or removes it.
fn put<S: Storage>(storage: &mut S, path: &str, end: &str) -> Result<(), Unwritten>
    ensures { Changes (S.agrees storage.old) (S.agrees storage.new) (spec.Settles path.now end.now result) }
{
    match storage.rename(path, end) {
        Ok(()) => Ok(()),
        Err(_) => Err(discard(storage, path)),
    }
}

/// Gives the file at the end this text, by way of a new file at the path.
fn replace<S: Storage>(storage: &mut S, path: &str, end: &str, text: &str) -> Result<(), Unwritten>
    ensures { Changes (S.agrees storage.old) (S.agrees storage.new) (spec.Replaces path.now end.now text.now result) }
{
    add(storage, path, text)?;
    put(storage, path, end)
}

/// The path of a new file beside another one, by a number.
fn new_path(alloc: Global, path: &str, number: u32) -> Result<String, AllocError>
    ensures { IfOk result (λ new. string_bytes new ≡ failures.new_path path.now number) }
{
    let name = format!(in alloc; ".new.{number}")?;
    beside(alloc, path, name.as_str())
}

/// The fault of a file that wasn't put in its place at the end.
fn fault_of(left: Unwritten, new: String, end: String) -> FileFault
    ensures reason { reason_of result ≡ None }
    ensures left { spec.left_by result ≡ spec.left_at (string_bytes new) left }
    ensures failure { failure_of result ≡ Some (failures.failure_by left (string_bytes new) (string_bytes end)) }
{
    match left {
        Unwritten::Failed => FileFault::Writing(end),
        Unwritten::Left => FileFault::Left(new),
    }
}

/// Gives the file at the end this text, by way of the new one.
fn write_by<S: Storage>(
    storage: &mut S,
    new: String,
    end: String,
    text: &str,
) -> Result<(), FileFault>
    ensures { Changes (S.agrees storage.old) (S.agrees storage.new)
        (spec.WritesAt (string_bytes new) (string_bytes end) text.now result) }
{
    match replace(storage, new.as_str(), end.as_str(), text) {
        Ok(()) => Ok(()),
        Err(left) => Err(fault_of(left, new, end)),
    }
}

/// Gives the file at the end this text. The new one beside it is named by the number.
fn write_at<S: Storage>(
    alloc: Global,
    storage: &mut S,
    end: String,
    text: &str,
    number: u32,
) -> Result<(), FileFault>
    ensures { Changes (S.agrees storage.old) (S.agrees storage.new)
        (spec.WritesAt (failures.new_path (string_bytes end) number) (string_bytes end) text.now result) }
{
    match new_path(alloc, end.as_str(), number) {
        Ok(new) => write_by(storage, new, end, text),
        Err(_) => Err(FileFault::OutOfMemory),
    }
}

/// Gives the file to which a path leads this text.
fn write<S: Storage>(
    alloc: Global,
    storage: &mut S,
    path: &str,
    text: &str,
    number: u32,
) -> Result<(), FileFault>
    ensures { Changes (S.agrees storage.old) (S.agrees storage.new) (spec.Writes path.now number text.now result) }
{
    match free_end(alloc, storage, path) {
        Ok(end) => write_at(alloc, storage, end, text, number),
        Err(fault) => Err(fault),
    }
}

/// The text of a collection, which is read again as it.
fn text_of(alloc: Global, collection: &Collection) -> Result<String, FileFault>
    ensures saved { IfOk result (λ text. IsSaved (kept_view collection.now) (string_bytes text)) }
    ensures fault { IfErr result (λ fault. reason_of fault ≡ None) }
    ensures failure { IfErr result (λ fault. IfSome (failure_of fault) (IsUnsaved (kept_view collection.now))) }
{
    match save_text(alloc, collection) {
        Ok(text) => Ok(text),
        Err(fault) => Err(FileFault::Unsaved(fault)),
    }
}

/// What is to be saved, and where.
#[derive(Drop)]
pub(crate) struct PreparedSave {
    /// The user's folder.
    pub(crate) folder: String,
    /// The path of the name in it.
    pub(crate) path: String,
    /// The text.
    pub(crate) text: String,
}

/// Finds the path, and makes the text.
fn prepare(
    alloc: Global,
    env: &Env,
    name: &str,
    collection: &Collection,
) -> Result<PreparedSave, FileFault>
    ensures ready { IfOk result (IsPrepared env.now name.now (kept_view collection.now)) }
    ensures fault { IfErr result (λ fault. IfSome (reason_of fault) (λ reason.
        folders_for env.now name.now ≡ Err reason)) }
    ensures failure { IfErr result (λ fault. IfSome (failure_of fault)
        (IsUnprepared env.now name.now (kept_view collection.now))) }
{
    let folders = folders_for(alloc, env, name)?;
    let path = in_folder(alloc, folders.own.as_str(), name)?;
    let text = text_of(alloc, collection)?;
    Ok(PreparedSave {
        folder: folders.own,
        path,
        text,
    })
}

/// Makes the folder, and those on the way to it, where they aren't there.
fn make<S: Storage>(alloc: Global, storage: &mut S, folder: &str) -> Result<(), FileFault>
    ensures made { Changes (S.agrees storage.old) (S.agrees storage.new) (MakesFolder folder.now result) }
    ensures fault { IfErr result (λ fault. reason_of fault ≡ None) }
    ensures failure { IfErr result (λ fault. IfSome (failure_of fault) (λ f. f ≡ unwritten folder.now)) }
{
    match storage.make_folder(folder) {
        Ok(()) => Ok(()),
        Err(_) => Err(writing(alloc, folder)),
    }
}

/// Makes the folder, and gives the file to which the path leads the text.
fn write_prepared<S: Storage>(
    alloc: Global,
    storage: &mut S,
    prepared: &PreparedSave,
    number: u32,
) -> Result<(), FileFault>
    ensures { Changes (S.agrees storage.old) (S.agrees storage.new)
        (spec.WritesInFolder (string_bytes prepared.now.folder) (string_bytes prepared.now.path) number
        (string_bytes prepared.now.text) result) }
{
    match make(alloc, storage, prepared.folder.as_str()) {
        Ok(()) => write(
            alloc,
            storage,
            prepared.path.as_str(),
            prepared.text.as_str(),
            number,
        ),
        Err(fault) => Err(fault),
    }
}

/// Saves a collection as the user's of this name: its file, to which links lead on, is given the text by way of a new
/// file beside it, `.new.` with the number, which should be no other process's. Afterwards it is read as the collection,
/// and no other file differs; or none differs at all. The user's folder and those on the way to it are made where nothing
/// was, and no others.
///
/// The errors: `BadName`, no collection can have this name; `NoHome`, no variable says where it would lie; `Unsaved`, no
/// file can keep the collection; `NoFile`, a folder, a pipe or too many links are where the file should be; `Writing`,
/// the system failed at this path, or there is no room; `Left`, the same, and the new file of this path is there;
/// `OutOfMemory`.
pub fn save_collection<S: Storage>(
    alloc: Global,
    storage: &mut S,
    env: &Env,
    name: &str,
    number: u32,
    collection: &Collection,
) -> Result<(), FileFault>
    ensures { Changes (S.agrees storage.old) (S.agrees storage.new)
        (spec.Saves env.now name.now number (kept_view collection.now) result) }
{
    match prepare(alloc, env, name, collection) {
        Ok(prepared) => write_prepared(alloc, storage, &prepared, number),
        Err(fault) => Err(fault),
    }
}
