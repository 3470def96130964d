//! What is below a directory: its files and directories, by their paths, and the modulefiles among them.

use crate::fault::PortFault;
use crate::texts::{joined, modulefile, read};
use filetree::{DiskTree, Tree};
use port_reading::file_text::FileText;
use std::fs;
use std::fs::Metadata;

/// The most files and directories that are listed.
const MOST_ENTRIES: usize = 10_000_000;

/// What is found at a path.
#[derive(Debug, Drop)]
pub(crate) struct Found {
    /// What the system says of it, where links aren't followed.
    pub status: Metadata,
    /// Whether it is a directory, or a link to one.
    pub is_folder: bool,
    /// The modulefile that it is, or that a link leads to.
    pub file: Option<FileText>,
}

/// What is at a path below a directory.
#[derive(Debug, Drop)]
pub(crate) struct TreeEntry {
    /// Its path.
    pub path: String,
    /// Its name below the directory.
    pub below: String,
    /// Whether it is in a directory that a link leads to, which isn't written.
    pub is_linked: bool,
    /// What is found there; or why it isn't read.
    pub found: Result<Found, PortFault>,
}

/// The names in a directory, in their order.
pub(crate) fn names_in(rt: &HostRuntime, path: &str) -> Result<Vec<String>, PortFault> {
    let Ok(disk) = rt.clone() else {
        return Err(PortFault::OutOfMemory);
    };
    let Some(mut names) = DiskTree::new(disk).entries(path)? else {
        return Err(PortFault::NoDirectory);
    };
    names.sort()?;
    Ok(names)
}

/// What is found at a path.
fn look(rt: &HostRuntime, path: &str) -> Result<Found, PortFault> {
    let Ok(status) = fs::symlink_metadata(rt, path) else {
        return Err(PortFault::Unreadable);
    };
    let (is_folder, is_file) = match fs::metadata(rt, path) {
        Ok(found) => (found.is_dir(), found.is_file()),
        Err(_) => (false, false),
    };
    let file = if is_file {
        modulefile(rt.alloc(), read(rt, path)?.as_slice())?
    } else {
        None
    };
    Ok(Found {
        status,
        is_folder,
        file,
    })
}

/// What is in a directory of a path and this name below a tree.
fn entries_of(
    rt: &HostRuntime,
    path: &str,
    below: &str,
    is_linked: bool,
) -> Result<Vec<TreeEntry>, PortFault> {
    let alloc = rt.alloc();
    let mut entries = Vec::new(alloc);
    for name in names_in(rt, path)? {
        let path = joined(alloc, path, name.as_str())?;
        entries.push(TreeEntry {
            found: look(rt, path.as_str()),
            path,
            below: joined(alloc, below, name.as_str())?,
            is_linked,
        })?;
    }
    Ok(entries)
}

impl TreeEntry {
    /// What is in it, where it is a directory.
    fn inside(&self, rt: &HostRuntime) -> Result<Vec<TreeEntry>, PortFault> {
        match &self.found {
            Ok(found) if found.is_folder => {
                let is_linked = self.is_linked || found.status.is_symlink();
                entries_of(rt, self.path.as_str(), self.below.as_str(), is_linked)
            }
            _ => Ok(Vec::new(rt.alloc())),
        }
    }
}

/// What is below a directory, and behind the links in it: what is in a directory behind it.
///
/// The errors: want of memory; no directory is there, or it can't be read.
pub(crate) fn entries_below(rt: &HostRuntime, from: &str) -> Result<Vec<TreeEntry>, PortFault> {
    let mut entries = entries_of(rt, from, "", false)?;
    for place in 0..MOST_ENTRIES {
        let Some(entry) = entries.get_mut(place) else {
            break;
        };
        match entry.inside(rt) {
            Ok(mut inside) => entries.append(&mut inside)?,
            Err(PortFault::OutOfMemory) => return Err(PortFault::OutOfMemory),
            Err(fault) => entry.found = Err(fault),
        }
    }
    Ok(entries)
}
