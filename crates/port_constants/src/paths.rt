//! Names of files as Tcl joins and takes them apart (file(n)), where none is a home and no file is looked up.

use std::alloc::{AllocError, Global};

/// The parts of a path between its slashes.
fn parts_of(alloc: Global, path: &str) -> Result<Vec<&str>, AllocError> {
    path.split('/')
        .filter(|part| !part.is_empty())
        .collect(alloc)
}

/// The path with these parts.
fn path_of(alloc: Global, is_absolute: bool, parts: &[&str]) -> Result<String, AllocError> {
    let names = parts.join(alloc, "/")?;
    if is_absolute {
        return Ok(format!(in alloc; "/{names}")?);
    }
    Ok(names)
}

/// The names joined, as by `file join`: those before the last that is absolute don't count.
pub(crate) fn joined(alloc: Global, names: &[String]) -> Result<String, AllocError> {
    let mut parts = Vec::new(alloc);
    let mut is_absolute = false;
    for name in names {
        if name.starts_with('/') {
            parts.clear();
            is_absolute = true;
        }
        parts.append(&mut parts_of(alloc, name.as_str())?)?;
    }
    path_of(alloc, is_absolute, parts.as_slice())
}

/// The last part of a path, as by `file tail`.
pub(crate) fn tail_of(alloc: Global, path: &str) -> Result<String, AllocError> {
    String::from_str(alloc, parts_of(alloc, path)?.pop().unwrap_or(""))
}

/// The path without its last part, as by `file dirname`.
pub(crate) fn directory_of(alloc: Global, path: &str) -> Result<String, AllocError> {
    let mut parts = parts_of(alloc, path)?;
    let _ = parts.pop();
    let directory = path_of(alloc, path.starts_with('/'), parts.as_slice())?;
    if directory.is_empty() {
        String::from_str(alloc, ".")
    } else {
        Ok(directory)
    }
}
