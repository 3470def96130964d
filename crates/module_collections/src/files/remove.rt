//! Removing a collection.
ghost use Rattle.std.specs.Prelude.{◌≡◌, Err, IfErr, IfOk, IfSome, Ok, string_bytes};
ghost use Rattle.std.specs.Option.{option_map};
ghost use Rattle.message.specs.Answers.{Gives};
ghost use Rattle.module_collections.specs.files.Calls.{Changes, InEach, Narrows};
ghost use Rattle.module_collections.specs.files.Entries.{in_folder};
ghost use Rattle.module_collections.specs.files.Failures.{IsElsewhere, IsInFolders, IsLooked, IsRemoval, failure_of};
ghost use Rattle.module_collections.specs.files.Faults.{reason_of};
ghost use Rattle.module_collections.specs.files.Places as places;
ghost use Rattle.module_collections.specs.files.Removes as spec;
ghost use Rattle.module_collections.specs.files.PathKind.{folders_view};

use crate::files::fault::FileFault;
use crate::files::find::{elsewhere, folders_for, reading};
use crate::files::folders::Folders;
use crate::files::paths::in_folder;
use crate::files::storage::{PathKind, Storage};
use envvars::Env;
use std::alloc::Global;

/// The fault where the user has no collection of the name: one of Environment Modules is left to it.
fn not_own<S: Storage>(
    alloc: Global,
    storage: &mut S,
    folder: Option<&str>,
    name: &str,
) -> FileFault
    ensures narrows { Narrows (S.agrees storage.old) (S.agrees storage.new) }
    ensures answer { InEach (S.agrees storage.new) (λ entries. IfSome (reason_of result) (λ reason.
        spec.not_own (places.elsewhere entries (option_map (λ f. f.now) folder.entry) name.now) ≡ Err reason)) }
    ensures failure { IfSome (failure_of result) (IsElsewhere (option_map (λ f. f.now) folder.entry) name.now) }
{
    match elsewhere(alloc, storage, folder, name) {
        Ok(path) => FileFault::Others(path),
        Err(fault) => fault,
    }
}

/// The path of the collection of a name in the user's folder, if it can be removed.
fn removable_in<S: Storage>(
    alloc: Global,
    storage: &mut S,
    folders: &Folders,
    name: &str,
) -> Result<String, FileFault>
    ensures narrows { Narrows (S.agrees storage.old) (S.agrees storage.new) }
    ensures answer { InEach (S.agrees storage.new) (λ entries. Gives reason_of string_bytes result
        (spec.removable_in entries (folders_view folders.now) name.now)) }
    ensures own { IfOk result (λ path. string_bytes path ≡ in_folder (folders_view folders.now).own name.now) }
    ensures failure { IfErr result (λ fault. IfSome (failure_of fault)
        (IsInFolders (folders_view folders.now) name.now)) }
{
    let path = in_folder(alloc, folders.own.as_str(), name)?;
    match storage.look(path.as_str()) {
        Ok(PathKind::Nothing) => Err(not_own(alloc, storage, folders.others.as_deref(), name)),
        Ok(PathKind::File | PathKind::Link(_)) => Ok(path),
        Ok(PathKind::Folder | PathKind::Other) => Err(FileFault::NoFile(path)),
        Err(fault) => Err(reading(alloc, path.as_str(), fault)),
    }
}

/// The path of the user's collection of a name, if it can be removed.
fn removable<S: Storage>(
    alloc: Global,
    storage: &mut S,
    env: &Env,
    name: &str,
) -> Result<String, FileFault>
    ensures narrows { Narrows (S.agrees storage.old) (S.agrees storage.new) }
    ensures answer { InEach (S.agrees storage.new) (λ entries. Gives reason_of string_bytes result
        (spec.removable entries env.now name.now)) }
    ensures own { IfOk result (λ path. (folders : places.Folders) × (places.folders_for env.now name.now ≡ Ok folders)
        × (string_bytes path ≡ in_folder folders.own name.now)) }
    ensures failure { IfErr result (λ fault. IfSome (failure_of fault) (IsLooked env.now name.now)) }
{
    let folders = folders_for(alloc, env, name)?;
    removable_in(alloc, storage, &folders, name)
}

/// Removes the user's collection of this name: its file, or the link that stands there.
///
/// The errors: `BadName`, no collection can have this name; `NoHome`, no variable says where it would lie; `Missing`, there
/// is none; `Others`, there is one of Environment Modules alone; `NoFile`, a folder or a pipe is there; `Reading` and
/// `Writing`, the system failed; `OutOfMemory`. Nothing is removed then.
pub fn remove_collection<S: Storage>(
    alloc: Global,
    storage: &mut S,
    env: &Env,
    name: &str,
) -> Result<(), FileFault>
    ensures removes { Changes (S.agrees storage.old) (S.agrees storage.new) (spec.Removes env.now name.now result) }
    ensures failure { IfErr result (λ fault. IfSome (failure_of fault) (IsRemoval env.now name.now)) }
{
    let path = removable(alloc, storage, env, name)?;
    match storage.remove(path.as_str()) {
        Ok(()) => Ok(()),
        Err(_) => Err(FileFault::Writing(path)),
    }
}
