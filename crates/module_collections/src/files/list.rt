//! The names of the collections that there are.
ghost use Rattle.std.specs.Prelude.{◌≡◌, ◌||◌, ◌&&◌, bytes_eq, map, string_bytes, IfOk, OnOk, IfErr, IfSome, Err, None, Ok};
ghost use Rattle.std.specs.BTreeSet.{contains_text};
ghost use Rattle.std.specs.List.{list_any};
ghost use Rattle.envvars.specs.Texts.{Text};
ghost use Rattle.module_collections.specs.files.Calls.{InEach, Narrows};
ghost use Rattle.module_collections.specs.files.Failures as failures;
ghost use Rattle.module_collections.specs.files.Failures.{failure_of, unread};
ghost use Rattle.module_collections.specs.files.Faults.{reason_of};
ghost use Rattle.module_collections.specs.files.Entries as entry;
ghost use Rattle.module_collections.specs.files.Lists as spec;
ghost use Rattle.module_collections.specs.files.Places as places;
ghost use Rattle.module_collections.specs.files.PathKind.{folders_view};

use crate::files::fault::FileFault;
use crate::files::find::reading;
use crate::files::folders::Folders;
use crate::files::follow::{LinkEnd, end_of};
use crate::files::names::is_collection_name;
use crate::files::paths::in_folder;
use crate::files::storage::{PathKind, Storage};
use envvars::Env;
use std::alloc::Global;
use std::collections::BTreeSet;

/// Whether a path leads to a file.
fn leads_to_file<S: Storage>(alloc: Global, storage: &mut S, path: &str) -> Result<bool, FileFault>
    ensures narrows { Narrows (S.agrees storage.old) (S.agrees storage.new) }
    ensures answer { IfOk result (λ leads. InEach (S.agrees storage.new) (λ entries.
        spec.leads_to_file entries path.now ≡ leads)) }
    ensures fault { IfErr result (λ fault. reason_of fault ≡ None) }
    ensures failure { IfErr result (λ fault. IfSome (failure_of fault) (λ f. f ≡ unread path.now)) }
{
    match end_of(alloc, storage, path) {
        Ok(
            Some(
                LinkEnd {
                    seen: PathKind::File,
                    ..
                },
            ),
        ) => Ok(true),
        Ok(_) => Ok(false),
        Err(fault) => Err(reading(alloc, path, fault)),
    }
}

/// Whether the path of a name in a folder leads to a file.
fn has_file<S: Storage>(
    alloc: Global,
    storage: &mut S,
    folder: &str,
    name: &str,
) -> Result<bool, FileFault>
    ensures narrows { Narrows (S.agrees storage.old) (S.agrees storage.new) }
    ensures answer { IfOk result (λ has. InEach (S.agrees storage.new) (λ entries.
        spec.leads_to_file entries (entry.in_folder folder.now name.now) ≡ has)) }
    ensures fault { IfErr result (λ fault. reason_of fault ≡ None) }
    ensures failure { IfErr result (λ fault. IfSome (failure_of fault) (λ f.
        f ≡ unread (entry.in_folder folder.now name.now))) }
{
    let path = in_folder(alloc, folder, name)?;
    leads_to_file(alloc, storage, path.as_str())
}

/// Whether a folder has a collection of this name.
fn is_in<S: Storage>(
    alloc: Global,
    storage: &mut S,
    folder: &str,
    name: &str,
) -> Result<bool, FileFault>
    ensures narrows { Narrows (S.agrees storage.old) (S.agrees storage.new) }
    ensures answer { IfOk result (λ is. InEach (S.agrees storage.new) (λ entries.
        spec.is_in entries folder.now name.now ≡ is)) }
    ensures fault { IfErr result (λ fault. reason_of fault ≡ None) }
    ensures failure { IfErr result (λ fault. IfSome (failure_of fault) (failures.IsAtName folder.now name.now)) }
{
    if is_collection_name(name) {
        return has_file(alloc, storage, folder, name);
    }
    Ok(false)
}

/// Adds a name.
fn put_name(alloc: Global, found: &mut BTreeSet<String>, name: &str) -> Result<(), FileFault>
    ensures added { OnOk result ((q : Text) →
        contains_text found.new q ≡ (contains_text found.old q || bytes_eq q name.now)) }
    ensures fault { IfErr result (λ fault. reason_of fault ≡ None) }
    ensures failure { IfErr result (λ fault. failure_of fault ≡ None) }
{
    let own = String::from_str(alloc, name)?;
    found.insert(own)?;
    Ok(())
}

/// Adds a name, if the folder has a collection of it.
fn add_name<S: Storage>(
    alloc: Global,
    storage: &mut S,
    found: &mut BTreeSet<String>,
    folder: &str,
    name: &str,
) -> Result<(), FileFault>
    ensures narrows { Narrows (S.agrees storage.old) (S.agrees storage.new) }
    ensures added { OnOk result (InEach (S.agrees storage.new) (λ entries. (q : Text) → contains_text found.new q
        ≡ (contains_text found.old q || (bytes_eq q name.now && spec.is_in entries folder.now name.now)))) }
    ensures fault { IfErr result (λ fault. reason_of fault ≡ None) }
    ensures failure { IfErr result (λ fault. IfSome (failure_of fault) (failures.IsAtName folder.now name.now)) }
{
    if is_in(alloc, storage, folder, name)? {
        return put_name(alloc, found, name);
    }
    Ok(())
}

/// Adds each of the names of which the folder has a collection.
fn add_names<S: Storage>(
    alloc: Global,
    storage: &mut S,
    found: &mut BTreeSet<String>,
    folder: &str,
    names: &[String],
) -> Result<(), FileFault>
    ensures narrows { Narrows (S.agrees storage.old) (S.agrees storage.new) }
    ensures added { OnOk result (InEach (S.agrees storage.new) (λ entries. (q : Text) → contains_text found.new q
        ≡ (contains_text found.old q || list_any (λ name. bytes_eq q name && spec.is_in entries folder.now name)
        (map string_bytes names.now)))) }
    ensures fault { IfErr result (λ fault. reason_of fault ≡ None) }
    ensures failure { IfErr result (λ fault. IfSome (failure_of fault)
        (failures.IsAtOne folder.now (map string_bytes names.now))) }
{
    for name in names {
        add_name(alloc, storage, found, folder, name.as_str())?;
    }
    Ok(())
}

/// Adds each name of which the folder has a collection.
fn add_folder<S: Storage>(
    alloc: Global,
    storage: &mut S,
    found: &mut BTreeSet<String>,
    folder: &str,
) -> Result<(), FileFault>
    ensures narrows { Narrows (S.agrees storage.old) (S.agrees storage.new) }
    ensures added { OnOk result (InEach (S.agrees storage.new) (λ entries. (q : Text) → contains_text found.new q
        ≡ (contains_text found.old q || spec.is_in entries folder.now q))) }
    ensures fault { IfErr result (λ fault. reason_of fault ≡ None) }
    ensures failure { IfErr result (λ fault. IfSome (failure_of fault) (λ f. InEach (S.agrees storage.new) (λ entries.
        failures.IsInFolder entries folder.now f))) }
{
    match storage.names(folder) {
        Ok(names) => add_names(alloc, storage, found, folder, names.as_slice()),
        Err(fault) => Err(reading(alloc, folder, fault)),
    }
}

/// Adds each name of which the folder of Environment Modules has a collection, where there is such a folder.
fn add_others<S: Storage>(
    alloc: Global,
    storage: &mut S,
    found: &mut BTreeSet<String>,
    folders: &Folders,
) -> Result<(), FileFault>
    ensures narrows { Narrows (S.agrees storage.old) (S.agrees storage.new) }
    ensures added { OnOk result (InEach (S.agrees storage.new) (λ entries. (q : Text) → contains_text found.new q
        ≡ (contains_text found.old q || spec.is_in_some entries (folders_view folders.now).others q))) }
    ensures fault { IfErr result (λ fault. reason_of fault ≡ None) }
    ensures failure { IfErr result (λ fault. IfSome (failure_of fault) (λ f. InEach (S.agrees storage.new) (λ entries.
        failures.IsInSome entries (folders_view folders.now).others f))) }
{
    match &folders.others {
        Some(others) => add_folder(alloc, storage, found, others.as_str()),
        None => Ok(()),
    }
}

/// The names of the collections, those of Environment Modules too, in the order of their bytes. Files of another name are
/// left out.
///
/// The errors: `NoHome`, no variable says where they lie; `Reading`, the system failed at this path, which is that of a
/// folder or of a collection's name in it; `OutOfMemory`.
pub fn list_collections<S: Storage>(
    alloc: Global,
    storage: &mut S,
    env: &Env,
) -> Result<BTreeSet<String>, FileFault>
    ensures narrows { Narrows (S.agrees storage.old) (S.agrees storage.new) }
    ensures listed { IfOk result (λ found. (folders : places.Folders) × (places.folders_of env.now ≡ Ok folders)
        × InEach (S.agrees storage.new) (λ entries. (name : Text)
        → contains_text found name ≡ spec.is_listed entries folders name)) }
    ensures fault { IfErr result (λ fault. IfSome (reason_of fault) (λ reason. places.folders_of env.now ≡ Err reason)) }
    ensures failure { IfErr result (λ fault. IfSome (failure_of fault) (λ f. (folders : places.Folders)
        × (places.folders_of env.now ≡ Ok folders)
        × InEach (S.agrees storage.new) (λ entries. failures.IsListing entries folders f))) }
{
    let folders = Folders::of_environment(alloc, env)?;
    let mut found = BTreeSet::new(alloc);
    add_folder(alloc, storage, &mut found, folders.own.as_str())?;
    add_others(alloc, storage, &mut found, &folders)?;
    Ok(found)
}
