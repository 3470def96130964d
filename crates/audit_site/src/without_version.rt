//! Default files that name no version in their folder, so that they have no effect.
ghost use Rattle.std.specs.Prelude.{◌≡◌, option_map, string_bytes, map, IfOk, Some};
ghost use Rattle.filetree.specs.Agreement.{FailsAt, FailsOnlyByDevice, FailsWhere, InEachPair, Narrows, is_device};
ghost use Rattle.filetree.specs.Modulefiles.{is_module, modulefile, path_of};
ghost use Rattle.search.specs.Found.{default_file};
ghost use Rattle.search.specs.VersionsNamed.{named_version_view};
ghost use Rattle.audit_site.specs.WithoutVersion as spec;
ghost use Rattle.audit_site.specs.WithoutVersion.{IsAnswer, LooksAtDefaultFiles, VersionsLookAt};

use filetree::{Tree, TreeFault};
use lookup::EvaluatedDefaultFiles;
use search::{FileContent, NamedVersion, named_default, path_of, read_modulefile};
use std::alloc::Global;
use tclrules::Limits;

/// Whether a file with the cookie is at the path.
fn is_there<T: Tree>(tree: &mut T, path: &str) -> Result<bool, TreeFault>
    ensures narrows { Narrows (T.agrees tree.old) (T.agrees tree.new) }
    ensures answer { IfOk result (λ there. InEachPair (T.agrees tree.new) (λ files listings.
        is_module (modulefile (files path.now)) ≡ there)) }
    ensures cause { FailsOnlyByDevice (T.failures tree.old) (T.failures tree.new) result }
    ensures failed { FailsAt is_device (T.failed tree.old) (T.failed tree.new) result (λ at. at ≡ path.now) }
{
    match read_modulefile(tree, path)? {
        FileContent::Absent | FileContent::NoCookie => Ok(false),
        FileContent::NotUtf8 | FileContent::Script(_) => Ok(true),
    }
}

/// The path of a default file of a folder, where one is there.
fn default_file_there<T: Tree>(
    alloc: Global,
    tree: &mut T,
    dir: &str,
    name: &str,
    file: &str,
) -> Result<Option<String>, TreeFault>
    ensures narrows { Narrows (T.agrees tree.old) (T.agrees tree.new) }
    ensures answer { IfOk result (λ path. InEachPair (T.agrees tree.new) (λ files listings.
        option_map string_bytes path ≡ spec.default_file_there files dir.now name.now file.now)) }
    ensures cause { FailsOnlyByDevice (T.failures tree.old) (T.failures tree.new) result }
    ensures failed { FailsAt is_device (T.failed tree.old) (T.failed tree.new) result (λ at.
        at ≡ default_file dir.now name.now file.now) }
{
    let folder = path_of(alloc, dir, name)?;
    let path = path_of(alloc, folder.as_str(), file)?;
    if is_there(tree, path.as_str())? {
        Ok(Some(path))
    } else {
        Ok(None)
    }
}

/// The path of the first default file of a folder that is there.
fn first_default_file<T: Tree>(
    alloc: Global,
    tree: &mut T,
    dir: &str,
    name: &str,
) -> Result<Option<String>, TreeFault>
    ensures narrows { Narrows (T.agrees tree.old) (T.agrees tree.new) }
    ensures answer { IfOk result (λ path. InEachPair (T.agrees tree.new) (λ files listings.
        option_map string_bytes path ≡ spec.first_default_file files dir.now name.now)) }
    ensures cause { FailsOnlyByDevice (T.failures tree.old) (T.failures tree.new) result }
    ensures failed { FailsAt is_device (T.failed tree.old) (T.failed tree.new) result
        (LooksAtDefaultFiles dir.now name.now) }
{
    match default_file_there(alloc, tree, dir, name, ".modulerc")? {
        Some(path) => Ok(Some(path)),
        None => default_file_there(alloc, tree, dir, name, ".version"),
    }
}

/// The path of the first default file of a folder that is there, where the default files of the folder name no version.
fn where_nothing<T: Tree>(
    alloc: Global,
    tree: &mut T,
    dir: &str,
    name: &str,
    named: NamedVersion,
) -> Result<Option<String>, TreeFault>
    ensures narrows { Narrows (T.agrees tree.old) (T.agrees tree.new) }
    ensures answer { IfOk result (λ path. InEachPair (T.agrees tree.new) (λ files listings.
        option_map string_bytes path ≡ spec.where_nothing (named_version_view named) files dir.now name.now)) }
    ensures cause { FailsOnlyByDevice (T.failures tree.old) (T.failures tree.new) result }
    ensures failed { FailsAt is_device (T.failed tree.old) (T.failed tree.new) result
        (LooksAtDefaultFiles dir.now name.now) }
{
    match named {
        NamedVersion::Nothing => first_default_file(alloc, tree, dir, name),
        NamedVersion::Version(_) | NamedVersion::BadFile(_) => Ok(None),
    }
}

/// The path of the first default file of a folder with these entries, where the default files name no version in it.
fn among_entries<T: Tree>(
    alloc: Global,
    tree: &mut T,
    limits: Limits,
    dir: &str,
    name: &str,
    entries: &[String],
) -> Result<Option<String>, TreeFault>
    requires { InEachPair (T.agrees tree.old) (λ files listings.
        listings (path_of dir.now name.now) ≡ Some (map string_bytes entries.now)) }
    ensures narrows { Narrows (T.agrees tree.old) (T.agrees tree.new) }
    ensures answer { IfOk result (λ path. InEachPair (T.agrees tree.new) (λ files listings.
        IsAnswer limits files listings dir.now name.now (option_map string_bytes path))) }
    ensures cause { FailsOnlyByDevice (T.failures tree.old) (T.failures tree.new) result }
    ensures failed { FailsWhere is_device T.agrees T.failed tree.old tree.new result (λ files listings.
        VersionsLookAt limits files listings dir.now name.now) }
{
    let default_files = EvaluatedDefaultFiles { limits };
    lookup::one_result();
    let named = named_default(alloc, tree, &default_files, dir, name, entries)?;
    where_nothing(alloc, tree, dir, name, named)
}

/// The path of the first default file of a folder, where it has default files, and these name no version in it; `None`
/// where one of them has a fault.
pub(crate) fn default_file_without_version<T: Tree>(
    alloc: Global,
    tree: &mut T,
    limits: Limits,
    dir: &str,
    name: &str,
) -> Result<Option<String>, TreeFault>
    ensures narrows { Narrows (T.agrees tree.old) (T.agrees tree.new) }
    ensures answer { IfOk result (λ path. InEachPair (T.agrees tree.new) (λ files listings.
        IsAnswer limits files listings dir.now name.now (option_map string_bytes path))) }
    ensures cause { FailsOnlyByDevice (T.failures tree.old) (T.failures tree.new) result }
    ensures failed { FailsWhere is_device T.agrees T.failed tree.old tree.new result (λ files listings.
        VersionsLookAt limits files listings dir.now name.now) }
{
    let folder = path_of(alloc, dir, name)?;
    match tree.entries(folder.as_str())? {
        Some(entries) => among_entries(alloc, tree, limits, dir, name, entries.as_slice()),
        None => Ok(None),
    }
}
