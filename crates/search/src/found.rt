//! The search for the module that a name means: along MODULEPATH, and in each directory (module(1)).
ghost use Rattle.std.specs.Prelude.{◌≡◌, ◌⊎◌, ◌<◌, map, false, Some, IfOk, string_bytes};
ghost use Rattle.std.specs.Option.{option_map};
ghost use Rattle.modulename.specs.ModuleName.{is_module_name};
ghost use Rattle.filetree.specs.Agreement.{FailsAt, FailsWhere, InEachPair, ReadsOn};
ghost use Rattle.filetree.specs.Modulefiles.{path_of, directories};
ghost use Rattle.filetree.specs.Relations.{Is};
ghost use Rattle.search.specs.Found as meaning;
ghost use Rattle.search.specs.Looked.{LooksInFolder, LooksBelow, LooksAlong, LooksAt};
ghost use Rattle.search.specs.Answers.{FindAnswersOverTree, found_view, is_failure};
ghost use Rattle.search.specs.Steps.{module_at, DefaultIn, FoundBelow};

use crate::default_files::DefaultFiles;
use crate::defaults::{NamedVersion, named_default};
use crate::find_fault::FindFault;
use crate::modulefile::{FileContent, read_modulefile};
use crate::paths::path_of;
use crate::versions::{greatest_candidate, has_version};
use filetree::Tree;
use modulename::is_module_name;
use std::alloc::{AllocError, Global};

/// A module that was found.
#[derive(Debug, Drop)]
pub struct LocatedModule {
    /// The module's full name, as `foo/1.0`.
    pub name: String,
    /// The path of its modulefile: the directory as MODULEPATH spells it, `/`, and the name.
    pub path: String,
    /// The text of the whole file.
    pub text: String,
}

/// The module of this full name below a directory, or `None` where its path holds no module.
///
/// Errors: `NotUtf8` where the module is not UTF-8; what the tree answers at that path; want of memory.
fn module_at<T: Tree>(
    alloc: Global,
    tree: &mut T,
    dir: &str,
    name: &str,
) -> Result<Option<LocatedModule>, FindFault>
    ensures reads { ReadsOn T.agrees T.failures tree.old tree.new }
    ensures over_tree { FindAnswersOverTree (T.agrees tree.new) (T.failures tree.old < T.failures tree.new)
        (option_map found_view) result
        (λ files listings. Is (module_at files dir.now name.now)) }
    ensures failed { FailsAt is_failure (T.failed tree.old) (T.failed tree.new) result (λ at.
        at ≡ path_of dir.now name.now) }
{
    let path = path_of(alloc, dir, name)?;
    let file = read_modulefile(tree, &path)?;
    match file {
        FileContent::Absent | FileContent::NoCookie => Ok(None),
        FileContent::NotUtf8 => Err(FindFault::NotUtf8(path)),
        FileContent::Script(text) => {
            let name = String::from_str(alloc, name)?;
            Ok(Some(LocatedModule { name, path, text }))
        }
    }
}

/// The default candidate of a name, in whose folder are these entries; `None` where none of them is a candidate.
/// Default files are read only where an entry can be a version.
///
/// Errors: `BadDefaultFile` where a default file has a fault and there is a candidate; a folder without
/// candidates gives no module whatever its default files are.
fn default_of<T: Tree, D: DefaultFiles>(
    alloc: Global,
    tree: &mut T,
    default_files: &D,
    dir: &str,
    name: &str,
    entries: &[String],
) -> Result<Option<String>, FindFault>
    requires { InEachPair (T.agrees tree.old) (λ files listings.
        listings (path_of dir.now name.now) ≡ Some (map string_bytes entries.now)) }
    ensures reads { ReadsOn T.agrees T.failures tree.old tree.new }
    ensures over_tree { FindAnswersOverTree (T.agrees tree.new) (T.failures tree.old < T.failures tree.new)
        (option_map string_bytes) result
        (λ files listings. DefaultIn (D.results default_files.now) files listings dir.now name.now) }
    ensures failed { FailsWhere is_failure T.agrees T.failed tree.old tree.new result (λ files listings.
        LooksInFolder (D.results default_files.now) files listings dir.now name.now) }
{
    if !has_version(alloc, name, entries)? {
        return Ok(None);
    }
    match named_default(alloc, tree, default_files, dir, name, entries)? {
        NamedVersion::Version(version) => Ok(Some(version)),
        NamedVersion::Nothing => Ok(greatest_candidate(alloc, tree, dir, name, entries)?),
        NamedVersion::BadFile(path) => match greatest_candidate(alloc, tree, dir, name, entries)? {
            None => Ok(None),
            Some(_) => Err(FindFault::BadDefaultFile(path)),
        },
    }
}

/// The default candidate of the folder of a name below a directory; `None` where there is no folder, or no candidate.
fn default_in<T: Tree, D: DefaultFiles>(
    alloc: Global,
    tree: &mut T,
    default_files: &D,
    dir: &str,
    name: &str,
) -> Result<Option<String>, FindFault>
    ensures reads { ReadsOn T.agrees T.failures tree.old tree.new }
    ensures over_tree { FindAnswersOverTree (T.agrees tree.new) (T.failures tree.old < T.failures tree.new)
        (option_map string_bytes) result
        (λ files listings. DefaultIn (D.results default_files.now) files listings dir.now name.now) }
    ensures failed { FailsWhere is_failure T.agrees T.failed tree.old tree.new result (λ files listings at.
        (at ≡ path_of dir.now name.now)
        ⊎ LooksInFolder (D.results default_files.now) files listings dir.now name.now at) }
{
    let folder = path_of(alloc, dir, name)?;
    match tree.entries(&folder)? {
        None => Ok(None),
        Some(entries) => default_of(alloc, tree, default_files, dir, name, &entries),
    }
}

/// The module that one directory gives for a name, if it gives one: the file of the name, or else the default candidate
/// of its folder.
fn module_below<T: Tree, D: DefaultFiles>(
    alloc: Global,
    tree: &mut T,
    default_files: &D,
    dir: &str,
    name: &str,
) -> Result<Option<LocatedModule>, FindFault>
    ensures reads { ReadsOn T.agrees T.failures tree.old tree.new }
    ensures over_tree { FindAnswersOverTree (T.agrees tree.new) (T.failures tree.old < T.failures tree.new)
        (option_map found_view) result
        (λ files listings. FoundBelow (D.results default_files.now) files listings dir.now name.now) }
    ensures failed { FailsWhere is_failure T.agrees T.failed tree.old tree.new result (λ files listings.
        LooksBelow (D.results default_files.now) files listings dir.now name.now) }
{
    if let Some(found) = module_at(alloc, tree, dir, name)? {
        return Ok(Some(found));
    }
    match default_in(alloc, tree, default_files, dir, name)? {
        None => Ok(None),
        Some(version) => {
            let full = path_of(alloc, name, &version)?;
            module_at(alloc, tree, dir, &full)
        }
    }
}

/// The directories of a MODULEPATH, which is parted by colons; its empty entries are skipped.
///
/// It fails for want of memory alone.
pub fn directories(alloc: Global, modulepath: &str) -> Result<Vec<&str>, AllocError>
    ensures { IfOk result (λ dirs. map (λ dir. dir.now) dirs.items ≡ directories modulepath.entry.now) }
{
    modulepath
        .split(':')
        .filter(|dir| !dir.is_empty())
        .collect(alloc)
}

/// The module of the first directory that gives one for a well-spelled name.
///
/// Errors: `NotFound` where none does.
fn module_along<T: Tree, D: DefaultFiles>(
    alloc: Global,
    tree: &mut T,
    default_files: &D,
    dirs: &[&str],
    name: &str,
) -> Result<LocatedModule, FindFault>
    ensures reads { ReadsOn T.agrees T.failures tree.old tree.new }
    ensures over_tree { FindAnswersOverTree (T.agrees tree.new)
        (T.failures tree.old < T.failures tree.new) found_view result
        (λ files listings. meaning.FoundAlong (D.results default_files.now) files listings name.now
        (map (λ dir. dir.now) dirs.now)) }
    ensures failed { FailsWhere is_failure T.agrees T.failed tree.old tree.new result (λ files listings.
        LooksAlong (D.results default_files.now) files listings name.now (map (λ dir. dir.now) dirs.now)) }
{
    for dir in dirs {
        if let Some(found) = module_below(alloc, tree, default_files, dir, name)? {
            return Ok(found);
        }
    }
    Err(FindFault::NotFound(String::from_str(alloc, name)?))
}

/// Finds the module that a name means, in the first directory of MODULEPATH, a list parted by colons, that gives one. A
/// directory gives the modulefile at directory, `/`, name; or else, where a folder is there with files that begin
/// with `#%Module`, the one of these that its default files name, or else the greatest in version order.
///
/// Errors: `BadName` exactly where the name is ill-spelled, before anything is read; with `NotFound` where no
/// directory gives a module; with `BadDefaultFile` where a default file of the folder that was meant has a fault;
/// with `NotUtf8` where the module found is not UTF-8; with `Device` only where the device failed in this call, at a
/// path that the search for this name looks at; and with `OutOfMemory`.
pub fn locate<T: Tree, D: DefaultFiles>(
    alloc: Global,
    tree: &mut T,
    default_files: &D,
    modulepath: &str,
    name: &str,
) -> Result<LocatedModule, FindFault>
    ensures reads { ReadsOn T.agrees T.failures tree.old tree.new }
    ensures over_tree { FindAnswersOverTree (T.agrees tree.new)
        (T.failures tree.old < T.failures tree.new) found_view result
        (λ files listings. meaning.Found (D.results default_files.now) files listings modulepath.now name.now) }
    ensures failed { FailsWhere is_failure T.agrees T.failed tree.old tree.new result (λ files listings.
        LooksAt (D.results default_files.now) files listings modulepath.now name.now) }
    ensures unread { is_module_name name.now ≡ false → tree.new ≡ tree.old }
{
    if !is_module_name(name) {
        return Err(FindFault::BadName(String::from_str(alloc, name)?));
    }
    let dirs = directories(alloc, modulepath)?;
    module_along(alloc, tree, default_files, &dirs, name)
}
