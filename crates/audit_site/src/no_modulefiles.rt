//! Files in the places of modules that are no modulefiles, since they don't begin with the cookie.
ghost use Rattle.std.specs.Prelude.{◌≡◌, ◌++◌, true, map, flat_map, IfOk, OnOk, string_bytes};
ghost use Rattle.std.specs.List.Sorted.{IsStrictlySortedBy};
ghost use Rattle.std.specs.String.{string_cmp};
ghost use Rattle.filetree.specs.Agreement.{FailsAt, FailsOnlyByDevice, FailsWhere, InEachPair, Narrows, is_device};
ghost use Rattle.audit_site.specs.FilesBelow as spec;
ghost use Rattle.audit_site.specs.FilesBelow.{lacks_cookie_at, path_by, path_by_entry, Adds, IsFoundBelow};
ghost use Rattle.audit_site.specs.FilesBelow.{LooksAtAny, LooksAtBelow};
ghost use Rattle.audit_site.specs.NoModulefiles.{AreNoModulefiles};

use filetree::{Tree, TreeFault};
use modulename::{MAX_PARTS, is_module_name};
use search::{is_single, path_of};
use std::alloc::{AllocError, Global};
use std::collections::BTreeSet;

/// The bytes that every modulefile begins with.
const COOKIE: &[u8] = b"#%Module";

/// Whether a file is at the path that doesn't begin with the cookie.
fn lacks_cookie<T: Tree>(tree: &mut T, path: &str) -> Result<bool, TreeFault>
    ensures narrows { Narrows (T.agrees tree.old) (T.agrees tree.new) }
    ensures answer { IfOk result (λ lacks. InEachPair (T.agrees tree.new) (λ files listings.
        lacks_cookie_at files path.now ≡ lacks)) }
    ensures cause { FailsOnlyByDevice (T.failures tree.old) (T.failures tree.new) result }
    ensures failed { FailsAt is_device (T.failed tree.old) (T.failed tree.new) result (λ at. at ≡ path.now) }
{
    let is_file = tree.begins_with(path, b"")?;
    let is_module = tree.begins_with(path, COOKIE)?;
    Ok(is_file && !is_module)
}

/// Adds the path.
fn put_path(alloc: Global, path: &str, found: &mut BTreeSet<String>) -> Result<(), AllocError>
    ensures { OnOk result (Adds found.old found.new (λ q. q ≡ path.now)) }
{
    let own = String::from_str(alloc, path)?;
    found.insert(own)?;
    Ok(())
}

/// Adds the path, if it is wanted.
fn put_if(
    alloc: Global,
    is_wanted: bool,
    path: &str,
    found: &mut BTreeSet<String>,
) -> Result<(), AllocError>
    ensures { OnOk result (Adds found.old found.new (λ q. (q ≡ path.now) × (is_wanted ≡ true))) }
{
    if is_wanted {
        put_path(alloc, path, found)
    } else {
        Ok(())
    }
}

/// Adds the path, if a file is there that doesn't begin with the cookie.
fn add_file<T: Tree>(
    alloc: Global,
    tree: &mut T,
    path: &str,
    found: &mut BTreeSet<String>,
) -> Result<(), TreeFault>
    ensures narrows { Narrows (T.agrees tree.old) (T.agrees tree.new) }
    ensures added { OnOk result (InEachPair (T.agrees tree.new) (λ files listings.
        Adds found.old found.new (λ q. (q ≡ path.now) × (lacks_cookie_at files q ≡ true)))) }
    ensures cause { FailsOnlyByDevice (T.failures tree.old) (T.failures tree.new) result }
    ensures failed { FailsAt is_device (T.failed tree.old) (T.failed tree.new) result (λ at. at ≡ path.now) }
{
    let is_wanted = lacks_cookie(tree, path)?;
    put_if(alloc, is_wanted, path, found)?;
    Ok(())
}

/// Whether an entry of a folder can be a part of a name.
fn is_part_name(entry: &str) -> bool
    ensures { result ≡ spec.is_part_name entry.now }
{
    is_single(entry) && is_module_name(entry)
}

/// Adds the path of an entry of a folder, if it can be a part of a name.
fn push_path(
    alloc: Global,
    folder: &str,
    entry: &str,
    paths: &mut Vec<String>,
) -> Result<(), AllocError>
    ensures { OnOk result (map string_bytes paths.new.items ≡ map string_bytes paths.old.items
        ++ path_by folder.now entry.now) }
{
    if is_part_name(entry) {
        paths.push(path_of(alloc, folder, entry)?)?;
    }
    Ok(())
}

/// The paths of those of the entries of a folder that can be parts of names.
fn paths_of(alloc: Global, folder: &str, entries: &[String]) -> Result<Vec<String>, AllocError>
    ensures { IfOk result (λ paths. map string_bytes paths.items
        ≡ flat_map (path_by_entry folder.now) entries.now) }
{
    let mut paths = Vec::new(alloc);
    for entry in entries {
        push_path(alloc, folder, entry.as_str(), &mut paths)?;
    }
    Ok(paths)
}

/// The paths of those entries of the folder at a path, if one is there, that can be parts of names.
fn paths_in<T: Tree>(alloc: Global, tree: &mut T, folder: &str) -> Result<Vec<String>, TreeFault>
    ensures narrows { Narrows (T.agrees tree.old) (T.agrees tree.new) }
    ensures answer { IfOk result (λ paths. InEachPair (T.agrees tree.new) (λ files listings.
        map string_bytes paths.items ≡ spec.paths_in listings folder.now)) }
    ensures cause { FailsOnlyByDevice (T.failures tree.old) (T.failures tree.new) result }
    ensures failed { FailsAt is_device (T.failed tree.old) (T.failed tree.new) result (λ at. at ≡ folder.now) }
{
    match tree.entries(folder)? {
        Some(entries) => Ok(paths_of(alloc, folder, entries.as_slice())?),
        None => Ok(Vec::new(alloc)),
    }
}

/// Adds the paths of the files without the cookie in a folder and in the folders below it, `levels` levels in all.
fn add_below<T: Tree>(
    alloc: Global,
    tree: &mut T,
    folder: &str,
    levels: usize,
    found: &mut BTreeSet<String>,
) -> Result<(), TreeFault>
    ensures narrows { Narrows (T.agrees tree.old) (T.agrees tree.new) }
    ensures added { OnOk result (InEachPair (T.agrees tree.new) (λ files listings.
        Adds found.old found.new (IsFoundBelow files listings levels folder.now))) }
    ensures cause { FailsOnlyByDevice (T.failures tree.old) (T.failures tree.new) result }
    ensures failed { FailsWhere is_device T.agrees T.failed tree.old tree.new result (λ files listings.
        LooksAtBelow listings levels folder.now) }
{
    if levels == 0 {
        return Ok(());
    }
    let paths = paths_in(alloc, tree, folder)?;
    for path in &paths {
        let path = path.as_str();
        add_file(alloc, tree, path, found)?;
        add_below(alloc, tree, path, levels - 1, found)?;
    }
    Ok(())
}

/// The paths, in the order of their bytes.
fn in_order(alloc: Global, found: BTreeSet<String>) -> Result<Vec<String>, AllocError>
    ensures keys { IfOk result (λ paths. paths.items ≡ found.keys) }
    ensures order { IfOk result (λ paths. IsStrictlySortedBy string_cmp paths.items) }
{
    found.into_iter().collect(alloc)
}

/// The paths of the files without the cookie below the directories, each once, in the order of their bytes.
///
/// It fails as the tree does, at a path that a listing of one of the directories looks at, and for want of memory.
pub(crate) fn no_modulefiles<T: Tree>(
    alloc: Global,
    tree: &mut T,
    dirs: &[String],
) -> Result<Vec<String>, TreeFault>
    ensures narrows { Narrows (T.agrees tree.old) (T.agrees tree.new) }
    ensures answer { IfOk result (λ paths. InEachPair (T.agrees tree.new) (λ files listings.
        AreNoModulefiles files listings (map string_bytes dirs.now) (map string_bytes paths.items))) }
    ensures cause { FailsOnlyByDevice (T.failures tree.old) (T.failures tree.new) result }
    ensures failed { FailsWhere is_device T.agrees T.failed tree.old tree.new result (λ files listings.
        LooksAtAny listings (map string_bytes dirs.now)) }
{
    let mut found = BTreeSet::new(alloc);
    for dir in dirs {
        add_below(alloc, tree, dir.as_str(), MAX_PARTS, &mut found)?;
    }
    Ok(in_order(alloc, found)?)
}
