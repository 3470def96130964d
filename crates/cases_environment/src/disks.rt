//! Lines about the files and directories of a disk.

use crate::texts::{first_word, meant};
use crate::trees::{begins_text, file_text, folder_text};
use filetree::{DiskTree, Tree, TreeFault};
use std::alloc::{AllocError, Global};

/// Whether a file is answered as before when it is read again.
fn is_same_again(disk: &mut DiskTree<HostRuntime>, path: &str) -> Result<bool, TreeFault> {
    let first = disk.read(path)?;
    let again = disk.read(path)?;
    Ok(first.is_some() && first == again)
}

/// That in words.
fn again_text(disk: &mut DiskTree<HostRuntime>, path: &str) -> &'static str {
    match is_same_again(disk, path) {
        Ok(true) => "the same again",
        Ok(false) => "another",
        Err(_) => "a fault",
    }
}

/// The answer to `file`, `folder`, `begins` or `again` about a path.
fn answer_at(
    alloc: Global,
    disk: &mut DiskTree<HostRuntime>,
    kind: &str,
    path: &str,
) -> Result<String, AllocError> {
    match kind {
        "file" => file_text(alloc, disk.read(path)),
        "folder" => folder_text(alloc, disk.entries(path)),
        "begins" => begins_text(alloc, disk.begins_with(path, b"#%")),
        _ => String::from_str(alloc, again_text(disk, path)),
    }
}

/// The answer to `file`, `folder`, `begins` or `again`.
pub(crate) fn answer(
    alloc: Global,
    disk: &mut DiskTree<HostRuntime>,
    line: &str,
) -> Result<String, AllocError> {
    let (kind, path) = first_word(line);
    answer_at(alloc, disk, kind, &meant(alloc, b'\\', path)?)
}
