//! Folders of a site whose default files have a fault, so that a search for the folder is refused, or name no version.
ghost use Rattle.std.specs.Prelude.{◌≡◌, ◌↔◌, ◌⊎◌, ◌<◌, true, option_to_list, Some, map, IfOk, IfErr, OnOk};
ghost use Rattle.std.specs.Prelude.{string_bytes};
ghost use Rattle.std.specs.Option.{option_map};
ghost use Rattle.envvars.specs.Texts.{texts_in};
ghost use Rattle.filetree.specs.Agreement.{FailsWhere, InEachPair, ReadsOn};
ghost use Rattle.filetree.specs.Causes.{Applies};
ghost use Rattle.modules.specs.Answers.{cause_of, is_failure};
ghost use Rattle.audit_certificate.specs.RecordUses.{IsAmong};
ghost use Rattle.audit_laws.specs.site.DirectorySets.{with_directories};
ghost use Rattle.audit_site.specs.DeterministicRuns.{evaluated_file};
ghost use Rattle.audit_site.specs.Folders.{FolderText, folder_view, HoldsModule, IsBadAnswer, AreBadDefaultFiles};
ghost use Rattle.audit_site.specs.Folders.{AddsBadAnswer, AddsNewAnswer, AddsBadDefault, AddsFolder};
ghost use Rattle.audit_site.specs.Folders.{SearchLooksAt, ModuleLooksAt, EvaluatedLookAt};

use crate::folders::{directory_of, folder_of};
use crate::walk::Evaluation;
use crate::without_version::default_file_without_version;
use audit_laws::site::directory_set::{Directories, in_order};
use filetree::Tree;
use indexmap::IndexSet;
use lookup::EvaluatedDefaultFiles;
use modules::Refusal;
use search::{FindFault, locate, one_found};
use std::alloc::{AllocError, Global};
use tclrules::Limits;

/// A folder of a directory of MODULEPATH.
#[derive(Debug, Drop, PartialEq, Eq, Hash)]
pub(crate) struct Folder {
    /// The directory.
    dir: String,
    /// The name of the folder below it, as `foo`.
    name: String,
}

/// The folder in which an evaluated module is; `None` where it stands in its directory itself.
fn folder_with(alloc: Global, module: &Evaluation) -> Result<Option<Folder>, AllocError>
    ensures { IfOk result (λ found. (folder : FolderText) → (option_map folder_view found ≡ Some folder)
        ↔ HoldsModule folder (string_bytes module.now.name) (string_bytes module.now.path)) }
{
    let Some(name) = folder_of(module.name.as_str()) else {
        return Ok(None);
    };
    let Some(dir) = directory_of(module.path.as_str(), module.name.as_str()) else {
        return Ok(None);
    };
    Ok(Some(Folder {
        dir: String::from_str(alloc, dir)?,
        name: String::from_str(alloc, name)?,
    }))
}

/// Whether the folder is among these.
fn is_among(folders: &IndexSet<Folder>, folder: &Folder) -> bool
    ensures { result ≡ true → IsAmong (folder_view folder.now) (map folder_view folders.now.keys) }
{
    folders.contains(folder)
}

/// Adds a folder, unless it is there.
fn add_folder(folders: &mut IndexSet<Folder>, folder: Folder) -> Result<(), AllocError>
    ensures { OnOk result ((other : FolderText) → IsAmong other (map folder_view folders.new.keys)
        ↔ (IsAmong other (map folder_view folders.old.keys) ⊎ (other ≡ folder_view folder))) }
{
    let _ = folders.insert(folder)?;
    Ok(())
}

/// The path of the bad default file of a folder: that by whose fault the search for the folder is refused, or the first
/// of those that name no version in it.
fn bad_default_file<T: Tree>(
    alloc: Global,
    tree: &mut T,
    limits: Limits,
    folder: &Folder,
) -> Result<Option<String>, Refusal>
    ensures reads { ReadsOn T.agrees T.failures tree.old tree.new }
    ensures answer { IfOk result (λ answer. InEachPair (T.agrees tree.new) (λ files listings.
        IsBadAnswer limits files listings (folder_view folder.now) (option_map string_bytes answer))) }
    ensures cause { IfErr result (λ refusal.
        Applies (cause_of refusal) (T.failures tree.old < T.failures tree.new) (λ reason. ⊥)) }
    ensures failed { FailsWhere is_failure T.agrees T.failed tree.old tree.new result (λ files listings.
        SearchLooksAt limits files listings (folder_view folder.now)) }
{
    let default_files = EvaluatedDefaultFiles { limits };
    one_found(&default_files);
    match locate(
        alloc,
        tree,
        &default_files,
        folder.dir.as_str(),
        folder.name.as_str(),
    ) {
        Ok(_) => Ok(default_file_without_version(
            alloc,
            tree,
            limits,
            folder.dir.as_str(),
            folder.name.as_str(),
        )?),
        Err(fault) => match fault {
            FindFault::BadDefaultFile(path) => Ok(Some(path)),
            FindFault::OutOfMemory => Err(Refusal::Find(FindFault::OutOfMemory)),
            FindFault::Device => Err(Refusal::Find(FindFault::Device)),
            FindFault::NotFound(_) | FindFault::BadName(_) | FindFault::NotUtf8(_) => Ok(None),
        },
    }
}

/// Adds the path that was found, if one was, unless it is there.
fn push_found(paths: &mut Directories, found: Option<String>) -> Result<(), AllocError>
    ensures { OnOk result (map string_bytes paths.new.keys
        ≡ with_directories (map string_bytes paths.old.keys) (option_to_list (option_map string_bytes found))) }
{
    if let Some(path) = found {
        let _ = paths.insert(path)?;
    }
    Ok(())
}

/// Adds the path of the default file of a folder, where that has a fault.
fn judge_folder<T: Tree>(
    alloc: Global,
    tree: &mut T,
    limits: Limits,
    folder: &Folder,
    paths: &mut Directories,
) -> Result<(), Refusal>
    ensures reads { ReadsOn T.agrees T.failures tree.old tree.new }
    ensures answer { OnOk result (InEachPair (T.agrees tree.new) (λ files listings.
        AddsBadAnswer limits files listings (folder_view folder.now)
        (map string_bytes paths.old.keys) (map string_bytes paths.new.keys))) }
    ensures cause { IfErr result (λ refusal.
        Applies (cause_of refusal) (T.failures tree.old < T.failures tree.new) (λ reason. ⊥)) }
    ensures failed { FailsWhere is_failure T.agrees T.failed tree.old tree.new result (λ files listings.
        SearchLooksAt limits files listings (folder_view folder.now)) }
{
    let found = bad_default_file(alloc, tree, limits, folder)?;
    push_found(paths, found)?;
    Ok(())
}

/// Judges a folder, unless it is one of those that were judged before; it is one of them then.
fn judge_new<T: Tree>(
    alloc: Global,
    tree: &mut T,
    limits: Limits,
    folder: Folder,
    folders: &mut IndexSet<Folder>,
    paths: &mut Directories,
) -> Result<(), Refusal>
    ensures reads { ReadsOn T.agrees T.failures tree.old tree.new }
    ensures folders { OnOk result ((other : FolderText) → IsAmong other (map folder_view folders.new.keys)
        ↔ (IsAmong other (map folder_view folders.old.keys) ⊎ (other ≡ folder_view folder))) }
    ensures answer { OnOk result (InEachPair (T.agrees tree.new) (λ files listings.
        AddsNewAnswer limits files listings (map folder_view folders.old.keys) (folder_view folder)
        (map string_bytes paths.old.keys) (map string_bytes paths.new.keys))) }
    ensures cause { IfErr result (λ refusal.
        Applies (cause_of refusal) (T.failures tree.old < T.failures tree.new) (λ reason. ⊥)) }
    ensures failed { FailsWhere is_failure T.agrees T.failed tree.old tree.new result (λ files listings.
        SearchLooksAt limits files listings (folder_view folder)) }
{
    if is_among(folders, &folder) {
        return Ok(());
    }
    judge_folder(alloc, tree, limits, &folder, paths)?;
    add_folder(folders, folder)?;
    Ok(())
}

/// Judges the folder in which an evaluated module is, if it is in one and that wasn't judged before.
fn judge_module<T: Tree>(
    alloc: Global,
    tree: &mut T,
    limits: Limits,
    module: &Evaluation,
    folders: &mut IndexSet<Folder>,
    paths: &mut Directories,
) -> Result<(), Refusal>
    ensures reads { ReadsOn T.agrees T.failures tree.old tree.new }
    ensures folders { OnOk result (AddsFolder (map folder_view folders.old.keys) (evaluated_file module.now)
        (map folder_view folders.new.keys)) }
    ensures answer { OnOk result (InEachPair (T.agrees tree.new) (λ files listings.
        AddsBadDefault limits files listings (map folder_view folders.old.keys) (evaluated_file module.now)
        (map string_bytes paths.old.keys) (map string_bytes paths.new.keys))) }
    ensures cause { IfErr result (λ refusal.
        Applies (cause_of refusal) (T.failures tree.old < T.failures tree.new) (λ reason. ⊥)) }
    ensures failed { FailsWhere is_failure T.agrees T.failed tree.old tree.new result (λ files listings.
        ModuleLooksAt limits files listings (evaluated_file module.now)) }
{
    match folder_with(alloc, module)? {
        None => Ok(()),
        Some(folder) => judge_new(alloc, tree, limits, folder, folders, paths),
    }
}

/// The paths of the default files that have a fault, of the folders in which the evaluated modules are: in the order of
/// the modules, each once.
pub(crate) fn bad_default_files<T: Tree>(
    alloc: Global,
    tree: &mut T,
    limits: Limits,
    evaluations: &[Evaluation],
) -> Result<Vec<String>, Refusal>
    ensures reads { ReadsOn T.agrees T.failures tree.old tree.new }
    ensures answer { IfOk result (λ paths. InEachPair (T.agrees tree.new) (λ files listings.
        AreBadDefaultFiles limits files listings (map evaluated_file evaluations.now) (texts_in paths))) }
    ensures cause { IfErr result (λ refusal.
        Applies (cause_of refusal) (T.failures tree.old < T.failures tree.new) (λ reason. ⊥)) }
    ensures failed { FailsWhere is_failure T.agrees T.failed tree.old tree.new result (λ files listings.
        EvaluatedLookAt limits files listings evaluations.now) }
{
    let mut folders = IndexSet::new(alloc);
    let mut paths = IndexSet::new(alloc);
    for module in evaluations {
        judge_module(alloc, tree, limits, module, &mut folders, &mut paths)?;
    }
    Ok(in_order(alloc, paths)?)
}
