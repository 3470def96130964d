//! What a tree answers, in words, and questions about a tree in memory.

use crate::texts::{bytes_of, first_word, push_all};
use filetree::{MemoryTree, Tree, TreeFault};
use std::alloc::{AllocError, Global};

/// What was read.
pub(crate) fn file_text(
    alloc: Global,
    answer: Result<Option<Vec<u8>>, TreeFault>,
) -> Result<String, AllocError> {
    match answer {
        Ok(None) => String::from_str(alloc, "no file"),
        Ok(Some(bytes)) => format!(in alloc; "{} bytes", bytes.len()),
        Err(fault) => format!(in alloc; "{fault}"),
    }
}

/// Whether a file begins as was asked.
pub(crate) fn begins_text(
    alloc: Global,
    answer: Result<bool, TreeFault>,
) -> Result<String, AllocError> {
    match answer {
        Ok(begins) => String::from_str(alloc, if begins { "yes" } else { "no" }),
        Err(fault) => format!(in alloc; "{fault}"),
    }
}

fn bracketed(alloc: Global, names: &[String]) -> Result<String, AllocError> {
    let mut text = String::new(alloc);
    for name in names {
        push_all(&mut text, &["[", name, "]"])?;
    }
    Ok(text)
}

/// Each name in brackets, in the order of their bytes.
fn names_text(alloc: Global, mut names: Vec<String>) -> Result<String, AllocError> {
    names.sort()?;
    bracketed(alloc, &names)
}

/// What was listed.
pub(crate) fn folder_text(
    alloc: Global,
    answer: Result<Option<Vec<String>>, TreeFault>,
) -> Result<String, AllocError> {
    match answer {
        Ok(None) => String::from_str(alloc, "no folder"),
        Ok(Some(names)) => names_text(alloc, names),
        Err(fault) => format!(in alloc; "{fault}"),
    }
}

/// The answer to `put-file`, `put-folder`, `file` or `folder`.
pub(crate) fn answer(
    alloc: Global,
    tree: &mut MemoryTree,
    line: &str,
) -> Result<String, AllocError> {
    let (kind, rest) = first_word(line);
    let (path, text) = first_word(rest);
    match kind {
        "put-file" => tree.put_file(path, &bytes_of(alloc, b'\\', text)?)?,
        "put-folder" => tree.put_directory(path, &[text])?,
        "file" => return file_text(alloc, tree.read(path)),
        _ => return folder_text(alloc, tree.entries(path)),
    }
    String::from_str(alloc, "put")
}
