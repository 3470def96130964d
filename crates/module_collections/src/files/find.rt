//! Where the collection of a name lies.
ghost use Rattle.std.specs.Prelude.{◌≡◌, None, IfOk, IfErr, IfSome, string_bytes};
ghost use Rattle.std.specs.Option.{option_map};
ghost use Rattle.message.specs.Answers.{Gives};
ghost use Rattle.module_collections.specs.files.Entries as entry;
ghost use Rattle.module_collections.specs.files.Calls.{InEach, Narrows};
ghost use Rattle.module_collections.specs.files.Places as places;
ghost use Rattle.module_collections.specs.files.Failures.{IsElsewhere, IsInFolders, IsLooked, failure_of, unread};
ghost use Rattle.module_collections.specs.files.Faults.{reason_of};
ghost use Rattle.module_collections.specs.files.PathKind.{folders_view};
ghost use Rattle.module_collections.specs.declared.files.storage.StorageFault.TheVariants as storage;

use crate::files::fault::FileFault;
use crate::files::folders::Folders;
use crate::files::names::is_collection_name;
use crate::files::paths::in_folder;
use crate::files::storage::{PathKind, Storage, StorageFault};
use envvars::Env;
use std::alloc::Global;

/// The fault of what couldn't be read at a path.
pub(crate) fn reading(alloc: Global, path: &str, fault: StorageFault) -> FileFault
    ensures reason { reason_of result ≡ None }
    ensures failure { IfSome (failure_of result) (λ f. f ≡ unread path.now) }
    ensures memory { fault ≡ storage.OutOfMemory → failure_of result ≡ None }
{
    match fault {
        StorageFault::OutOfMemory => FileFault::OutOfMemory,
        StorageFault::Failed => match String::from_str(alloc, path) {
            Ok(path) => FileFault::Reading(path),
            Err(_) => FileFault::OutOfMemory,
        },
    }
}

/// What is at a path, where a link isn't followed.
pub(crate) fn is_there<S: Storage>(
    alloc: Global,
    storage: &mut S,
    path: &str,
) -> Result<bool, FileFault>
    ensures narrows { Narrows (S.agrees storage.old) (S.agrees storage.new) }
    ensures answer { IfOk result (λ there. InEach (S.agrees storage.new) (λ entries.
        entry.is_there (entries path.now) ≡ there)) }
    ensures fault { IfErr result (λ fault. reason_of fault ≡ None) }
    ensures failure { IfErr result (λ fault. IfSome (failure_of fault) (λ f. f ≡ unread path.now)) }
{
    match storage.look(path) {
        Ok(PathKind::Nothing) => Ok(false),
        Ok(_) => Ok(true),
        Err(fault) => Err(reading(alloc, path, fault)),
    }
}

/// The path of a name in the folder of Environment Modules, if something is there.
pub(crate) fn elsewhere<S: Storage>(
    alloc: Global,
    storage: &mut S,
    folder: Option<&str>,
    name: &str,
) -> Result<String, FileFault>
    ensures narrows { Narrows (S.agrees storage.old) (S.agrees storage.new) }
    ensures answer { InEach (S.agrees storage.new) (λ entries. Gives reason_of string_bytes result
        (places.elsewhere entries (option_map (λ f. f.now) folder.entry) name.now)) }
    ensures failure { IfErr result (λ fault. IfSome (failure_of fault)
        (IsElsewhere (option_map (λ f. f.now) folder.entry) name.now)) }
{
    if let Some(folder) = folder {
        let path = in_folder(alloc, folder, name)?;
        if is_there(alloc, storage, path.as_str())? {
            return Ok(path);
        }
    }
    Err(FileFault::Missing(String::from_str(alloc, name)?))
}

/// The path of the collection of a name.
fn place_of<S: Storage>(
    alloc: Global,
    storage: &mut S,
    folders: &Folders,
    name: &str,
) -> Result<String, FileFault>
    ensures narrows { Narrows (S.agrees storage.old) (S.agrees storage.new) }
    ensures answer { InEach (S.agrees storage.new) (λ entries. Gives reason_of string_bytes result
        (places.place_of entries (folders_view folders.now) name.now)) }
    ensures failure { IfErr result (λ fault. IfSome (failure_of fault)
        (IsInFolders (folders_view folders.now) name.now)) }
{
    let path = in_folder(alloc, folders.own.as_str(), name)?;
    if is_there(alloc, storage, path.as_str())? {
        return Ok(path);
    }
    elsewhere(alloc, storage, folders.others.as_deref(), name)
}

/// The folders for a name that a collection can have.
pub(crate) fn folders_for(alloc: Global, env: &Env, name: &str) -> Result<Folders, FileFault>
    ensures answer { Gives reason_of folders_view result (places.folders_for env.now name.now) }
    ensures failure { IfErr result (λ fault. failure_of fault ≡ None) }
{
    if !is_collection_name(name) {
        return Err(FileFault::BadName(String::from_str(alloc, name)?));
    }
    Folders::of_environment(alloc, env)
}

/// Whether a word is the path of the site's own collection.
fn is_site(site: Option<&str>, word: &str) -> bool
    ensures { result ≡ places.is_site (option_map (λ s. s.now) site.entry) word.now }
{
    match site {
        None => false,
        Some(path) => path == word,
    }
}

/// Where the collection lies that a word names: at this path, where it is that of the site's own collection; else in the
/// user's folder, where something has this name there, else in that of Environment Modules.
///
/// The errors: `BadName`, no collection can have this name; `NoHome`, no variable says where the folders lie; `Missing`,
/// in none of them is something of this name; `Reading`, the system couldn't say what is at this path of them;
/// `OutOfMemory`.
pub fn find_collection<S: Storage>(
    alloc: Global,
    storage: &mut S,
    env: &Env,
    site: Option<&str>,
    word: &str,
) -> Result<String, FileFault>
    ensures narrows { Narrows (S.agrees storage.old) (S.agrees storage.new) }
    ensures answer { InEach (S.agrees storage.new) (λ entries. Gives reason_of string_bytes result
        (places.found entries env.now (option_map (λ s. s.now) site.entry) word.now)) }
    ensures failure { IfErr result (λ fault. IfSome (failure_of fault) (IsLooked env.now word.now)) }
{
    if is_site(site, word) {
        return Ok(String::from_str(alloc, word)?);
    }
    let folders = folders_for(alloc, env, word)?;
    place_of(alloc, storage, &folders, word)
}
