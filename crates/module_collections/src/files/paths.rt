//! Paths made of paths.
ghost use Rattle.std.specs.Prelude.{◌≡◌, IfOk, string_bytes};
ghost use Rattle.module_collections.specs.files.Entries as spec;

use std::alloc::{AllocError, Global};

/// The path of a name in a folder.
pub(crate) fn in_folder(alloc: Global, folder: &str, name: &str) -> Result<String, AllocError>
    ensures { IfOk result (λ path. string_bytes path ≡ spec.in_folder folder.now name.now) }
{
    let mut path = String::from_str(alloc, folder)?;
    path.push('/')?;
    path.push_str(name)?;
    Ok(path)
}

/// The path of this name in the folder of a path.
pub(crate) fn beside(alloc: Global, path: &str, name: &str) -> Result<String, AllocError>
    ensures { IfOk result (λ other. string_bytes other ≡ spec.beside path.now name.now) }
{
    match path.rsplit_once('/') {
        Some((folder, _)) => in_folder(alloc, folder, name),
        None => String::from_str(alloc, name),
    }
}

/// Whether a path begins at the root.
pub(crate) fn is_absolute(path: &str) -> bool
    ensures { result ≡ spec.is_absolute path.now }
{
    match path.as_bytes() {
        [] => false,
        [first, ..] => *first == b'/',
    }
}

/// Where the link at a path leads by its target.
pub(crate) fn behind(alloc: Global, path: &str, target: &str) -> Result<String, AllocError>
    ensures { IfOk result (λ next. string_bytes next ≡ spec.behind path.now target.now) }
{
    if is_absolute(target) {
        return String::from_str(alloc, target);
    }
    beside(alloc, path, target)
}
