//! Paths of names below directories, and tests of names.
ghost use Rattle.std.specs.Prelude.{◌≡◌, map, bytes_eq, string_bytes, IfOk, OnOk};
ghost use Rattle.std.specs.List.{list_any};
ghost use Rattle.search.specs.Single.{is_single};
ghost use Rattle.filetree.specs.Modulefiles.{path_of};

use std::alloc::{AllocError, Global};

/// The path of a name below a directory: the directory, `/`, the name.
///
/// It fails for want of memory alone.
pub fn path_of(alloc: Global, dir: &str, name: &str) -> Result<String, AllocError>
    ensures { IfOk result (λ path. string_bytes path ≡ path_of dir.now name.now) }
{
    let mut path = String::with_capacity(alloc, dir.len() + 1 + name.len())?;
    path.push_str(dir)?;
    path.push('/')?;
    path.push_str(name)?;
    Ok(path)
}

/// The path of an entry of the folder of a name below a directory.
///
/// It fails for want of memory alone.
pub fn path_in_folder(
    alloc: Global,
    dir: &str,
    name: &str,
    entry: &str,
) -> Result<String, AllocError>
    ensures { IfOk result (λ path. string_bytes path ≡ path_of (path_of dir.now name.now) entry.now) }
{
    let below = name.len().saturating_add(entry.len());
    let room = dir.len().saturating_add(below).saturating_add(2);
    let mut path = String::with_capacity(alloc, room)?;
    path.push_str(dir)?;
    path.push('/')?;
    path.push_str(name)?;
    path.push('/')?;
    path.push_str(entry)?;
    Ok(path)
}

/// Writes the path of a name below a directory in place of a text, whose room is used again.
pub(crate) fn write_path(path: &mut String, dir: &str, name: &str) -> Result<(), AllocError>
    ensures { OnOk result (string_bytes path.new ≡ path_of dir.now name.now) }
{
    path.clear();
    path.push_str(dir)?;
    path.push('/')?;
    path.push_str(name)
}

/// Whether this is one of the names.
pub fn has(names: &[String], name: &str) -> bool
    ensures { result ≡ list_any (bytes_eq name.now) (map string_bytes names.now) }
{
    names.iter().any(|other| name == other.as_str())
}

/// Whether a name has one part, which is to say no `/`.
pub fn is_single(name: &str) -> bool
    ensures { result ≡ is_single name.now }
{
    !name.as_bytes().contains(&b'/')
}
