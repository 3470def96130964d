//! The entries of the folder of a name that can be versions, and the greatest candidate among them.
ghost use Rattle.std.specs.Prelude.{◌≡◌, map, filter, find, Some, OnOk, IfOk, string_bytes};
ghost use Rattle.std.specs.List.{list_any};
ghost use Rattle.std.specs.List.Sorted.{IsPermutation, IsSortedBy};
ghost use Rattle.std.specs.Option.{option_map};
ghost use Rattle.filetree.specs.Agreement.{FailsWhere, InEachPair, Narrows, FailsOnlyByDevice, is_device};
ghost use Rattle.filetree.specs.Modulefiles.{path_of};
ghost use Rattle.search.specs.Candidates.{LooksForGreatest};
ghost use Rattle.search.specs.Versions.{is_version, is_module_in, goes_before, IsGreatestOf, LooksFromGreatest};

use crate::module_files::is_module_in;
use crate::paths::{is_single, path_of};
use filetree::{Tree, TreeFault};
use modulename::{is_module_name, version_order};
use std::alloc::{AllocError, Global};

/// Whether an entry of the folder of a name can be a version: it has one part, and with it the full name is well
/// spelled.
pub fn is_version(alloc: Global, name: &str, entry: &str) -> Result<bool, AllocError>
    ensures { IfOk result (λ r. r ≡ is_version name.now entry.now) }
{
    if !is_single(entry) {
        return Ok(false);
    }
    let full = path_of(alloc, name, entry)?;
    Ok(is_module_name(&full))
}

/// Whether some entry of the folder of a name can be a version.
pub fn has_version(alloc: Global, name: &str, entries: &[String]) -> Result<bool, AllocError>
    ensures { IfOk result (λ r. r ≡ list_any (is_version name.now) (map string_bytes entries.now)) }
{
    for entry in entries {
        if is_version(alloc, name, entry)? {
            return Ok(true);
        }
    }
    Ok(false)
}

/// The entries of the folder of a name that can be versions.
fn versions_in<'a>(
    alloc: Global,
    name: &str,
    entries: &'a [String],
) -> Result<Vec<&'a str>, AllocError>
    ensures { IfOk result (λ versions.
        map (λ v. v.now) versions.items ≡ filter (is_version name.now) (map string_bytes entries.entry.now)) }
{
    let mut versions = Vec::with_capacity(alloc, entries.len())?;
    for entry in entries {
        if is_version(alloc, name, entry)? {
            versions.push(entry.as_str())?;
        }
    }
    Ok(versions)
}

/// Sorts versions by version order, the greatest first.
fn sort_down(versions: &mut Vec<&str>) -> Result<(), AllocError>
    ensures same { IsPermutation versions.old.items versions.new.items }
    ensures sorted { OnOk result (IsSortedBy (λ v w. goes_before v.now w.now) versions.new.items) }
{
    versions.sort_by(|left, right| version_order(right, left))?;
    Ok(())
}

/// The first of some versions of a name that is a module below the directory. No file of a later one is asked for.
fn first_module<T: Tree>(
    alloc: Global,
    tree: &mut T,
    dir: &str,
    name: &str,
    versions: &[&str],
) -> Result<Option<String>, TreeFault>
    ensures narrows { Narrows (T.agrees tree.old) (T.agrees tree.new) }
    ensures answer { IfOk result (λ r. InEachPair (T.agrees tree.new) (λ files listings.
        option_map string_bytes r ≡ find (is_module_in files dir.now name.now) (map (λ v. v.now) versions.now))) }
    ensures cause { FailsOnlyByDevice (T.failures tree.old) (T.failures tree.new) result }
    ensures failed { FailsWhere is_device T.agrees T.failed tree.old tree.new result (λ files listings.
        LooksFromGreatest files dir.now name.now (map (λ v. v.now) versions.now)) }
{
    for version in versions {
        if is_module_in(alloc, tree, dir, name, version)? {
            return Ok(Some(String::from_str(alloc, version)?));
        }
    }
    Ok(None)
}

/// The greatest candidate of a name, in whose folder are these entries. The files of versions are asked for from the
/// greatest down to the first that is a candidate.
///
/// It fails as the tree does, and for want of memory.
pub fn greatest_candidate<T: Tree>(
    alloc: Global,
    tree: &mut T,
    dir: &str,
    name: &str,
    entries: &[String],
) -> Result<Option<String>, TreeFault>
    requires { InEachPair (T.agrees tree.old) (λ files listings.
        listings (path_of dir.now name.now) ≡ Some (map string_bytes entries.now)) }
    ensures narrows { Narrows (T.agrees tree.old) (T.agrees tree.new) }
    ensures answer { IfOk result (λ r. InEachPair (T.agrees tree.new) (λ files listings.
        IsGreatestOf files listings dir.now name.now (option_map string_bytes r))) }
    ensures cause { FailsOnlyByDevice (T.failures tree.old) (T.failures tree.new) result }
    ensures failed { FailsWhere is_device T.agrees T.failed tree.old tree.new result (λ files listings.
        LooksForGreatest files listings dir.now name.now) }
{
    let mut versions = versions_in(alloc, name, entries)?;
    sort_down(&mut versions)?;
    first_module(alloc, tree, dir, name, &versions)
}
