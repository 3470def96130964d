//! The texts of files and paths.

use crate::fault::PortFault;
use port_reading::file_text::{FileText, file_text};
use process::absolute_path;
use std::alloc::{AllocError, Global};
use std::env::VarError;
use std::fs::Metadata;
use std::io::{ErrorKind, Read, Write};
use std::os::unix::fs::MetadataExt;
use std::{env, fs};

/// The first bytes of each modulefile (modulefile(5)).
const COOKIE: &str = "#%Module";

/// The path of a name in a directory, or in no directory, where that is empty.
pub(crate) fn joined(alloc: Global, dir: &str, name: &str) -> Result<String, AllocError> {
    if dir.is_empty() || dir.ends_with('/') {
        return Ok(format!(in alloc; "{dir}{name}")?);
    }
    Ok(format!(in alloc; "{dir}/{name}")?)
}

/// Whether this is an absolute path, without points for parts, of the working directory.
fn is_here(rt: &HostRuntime, path: &str) -> bool {
    if !path.starts_with('/') || path.split('/').any(|part| part == "." || part == "..") {
        return false;
    }
    let (Ok(named), Ok(here)) = (fs::metadata(rt, path), fs::metadata(rt, ".")) else {
        return false;
    };
    named.dev() == here.dev() && named.ino() == here.ino()
}

/// The working directory by the name that the shell has for it, where that is one, or by the system's.
///
/// The error: want of memory.
fn working_directory(rt: &HostRuntime) -> Result<Option<String>, PortFault> {
    match env::var(rt, "PWD") {
        Ok(name) if is_here(rt, name.as_str()) => return Ok(Some(name)),
        Err(VarError::OutOfMemory) => return Err(PortFault::OutOfMemory),
        _ => {}
    }
    match env::current_dir(rt) {
        Ok(place) => Ok(Some(place.into_string())),
        Err(fault) if fault.kind() == ErrorKind::OutOfMemory => Err(PortFault::OutOfMemory),
        Err(_) => Ok(None),
    }
}

/// The absolute path of a directory; none where the system says no working directory.
pub(crate) fn absolute(rt: &HostRuntime, path: &str) -> Result<Option<String>, PortFault> {
    let working = working_directory(rt)?;
    Ok(absolute_path(rt.alloc(), working.as_deref(), path)?)
}

/// The modulefile of these bytes, and how it was written; none where they don't begin as one.
pub(crate) fn modulefile(alloc: Global, bytes: &[u8]) -> Result<Option<FileText>, PortFault> {
    let file = file_text(alloc, bytes)?;
    Ok(Some(file).filter(|file| file.text.starts_with(COOKIE)))
}

/// The bytes of the file at the path, which isn't opened where it is of another type.
///
/// The errors: no file is there; it can't be read.
pub(crate) fn read(rt: &HostRuntime, path: &str) -> Result<Vec<u8>, PortFault> {
    match fs::metadata(rt, path) {
        Ok(found) if found.is_file() => {}
        Ok(_) => return Err(PortFault::NoFile),
        Err(e) if e.kind() == ErrorKind::NotFound => return Err(PortFault::NoFile),
        Err(_) => return Err(PortFault::Unreadable),
    }
    fs::read(rt, path).map_err(|_| PortFault::Unreadable)
}

/// The text of the file at the path; none where it isn't UTF-8.
///
/// The errors: no file is there; it can't be read.
pub(crate) fn text_at(rt: &HostRuntime, path: &str) -> Result<Option<String>, PortFault> {
    Ok(String::from_utf8(read(rt, path)?).ok())
}

/// The bytes of standard input.
///
/// The error: it can't be read.
pub(crate) fn read_input(rt: &HostRuntime) -> Result<Vec<u8>, PortFault> {
    let mut bytes = Vec::new(rt.alloc());
    let read = rt.stdin().read_to_end(&mut bytes);
    read.map_err(|_| PortFault::Unreadable)?;
    Ok(bytes)
}

/// Writes a new file, with these permissions. One that fails leaves nothing, and what is there stays.
///
/// The error: something is there, or it can't be written.
pub(crate) fn write_new(
    rt: &HostRuntime,
    path: &str,
    bytes: &[u8],
    like: &Metadata,
) -> Result<(), PortFault> {
    let Ok(mut file) = fs::File::create_new(rt, path) else {
        return Err(PortFault::Unwritable);
    };
    if file.write_all(bytes).is_err()
        || fs::set_permissions(rt, path, like.permissions()).is_err()
    {
        let _ = fs::remove_file(rt, path);
        return Err(PortFault::Unwritable);
    }
    Ok(())
}
