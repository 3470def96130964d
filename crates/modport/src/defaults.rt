//! The defaults of folders, as a list of another tool names them.

use crate::fault::PortFault;
use crate::texts::{joined, read, text_at, write_new};
use filetree::DiskTree;
use lookup::locate;
use port_reading::file_text::file_text;
use port_rewriting::folder_of;
use std::alloc::{AllocError, Global};
use std::fs;
use tclrules::Limits;

/// The limits of a default file that is evaluated.
const LIMITS: Limits = Limits {
    commands: 100_000,
    depth: 200,
    value_bytes: 1_048_576,
};

/// The defaults that a list names: the module of each, with its version.
#[derive(Debug, Drop)]
pub(crate) struct NamedDefaults {
    modules: Vec<String>,
}

/// The default of a folder, as a list names it.
#[derive(Debug, Drop)]
pub(crate) enum NamedDefault {
    /// It is the one that was taken.
    Old,
    /// It is another module.
    New(String),
}

/// A folder whose default is to be named.
#[derive(Clone, Copy)]
pub(crate) struct DefaultPlace<'p> {
    /// The directory of all modules.
    pub top: &'p str,
    /// The directory that is written, where it is.
    pub to: Option<&'p str>,
    /// The name of the modules of the folder.
    pub name: &'p str,
}

/// The module that a line of a list names, without what stands behind it in parentheses.
fn module_of(line: &str) -> &str {
    line.split_once('(').map_or(line, |parts| parts.0).trim()
}

impl NamedDefaults {
    /// Those of the list at a path: a module a line, with its version. Lines that end in a colon name directories.
    ///
    /// The errors: no file is there; it can't be read.
    pub(crate) fn read(rt: &HostRuntime, path: &str) -> Result<NamedDefaults, PortFault> {
        let alloc = rt.alloc();
        let Some(text) = text_at(rt, path)? else {
            return Err(PortFault::NotUtf8);
        };
        let mut modules = Vec::new(alloc);
        for line in text.lines() {
            let module = module_of(line);
            if !module.is_empty() && !module.ends_with(':') {
                modules.push(String::from_str(alloc, module)?)?;
            }
        }
        Ok(NamedDefaults { modules })
    }

    /// The default of the folder of a name.
    fn of(&self, name: &str) -> Option<&str> {
        self.modules
            .iter()
            .find(|module| folder_of(module.as_str()) == name)
            .map(|module| module.as_str())
    }
}

/// The module that a name means here, below a directory.
fn own_default(rt: &HostRuntime, top: &str, name: &str) -> Result<Option<String>, PortFault> {
    let Ok(disk) = rt.clone() else {
        return Err(PortFault::OutOfMemory);
    };
    let found = locate(rt.alloc(), &mut DiskTree::new(disk), top, name, LIMITS);
    Ok(found.ok().map(|found| found.name))
}

/// A default file that names a module, behind what is in it.
fn with_default(alloc: Global, text: &str, module: &str) -> Result<String, AllocError> {
    let front = if text.is_empty() { "#%Module" } else { text };
    let end = if front.ends_with('\n') { "" } else { "\n" };
    Ok(format!(in alloc; "{front}{end}module-version {module} default\n")?)
}

/// Writes a default file in place of the one that is there; another one gets the permissions of a modulefile.
fn put(rt: &HostRuntime, path: &str, module: &str, like: &str) -> Result<(), PortFault> {
    let alloc = rt.alloc();
    let old = fs::symlink_metadata(rt, path);
    let mut text = String::new(alloc);
    if old.is_ok() {
        text = file_text(alloc, read(rt, path)?.as_slice())?.text;
        if fs::remove_file(rt, path).is_err() {
            return Err(PortFault::Unwritable);
        }
    }
    let Ok(status) = old.or_else(|_| fs::metadata(rt, like)) else {
        return Err(PortFault::Unreadable);
    };
    let text = with_default(alloc, text.as_str(), module)?;
    write_new(rt, path, text.as_bytes(), &status)
}

/// Names the default of a folder in its default file, where it isn't the one that is taken here; none where it
/// can't be named.
///
/// The errors: want of memory; it can't be written.
pub(crate) fn name_default(
    rt: &HostRuntime,
    defaults: &NamedDefaults,
    place: DefaultPlace,
) -> Result<Option<NamedDefault>, PortFault> {
    let alloc = rt.alloc();
    let own = own_default(rt, place.top, place.name)?;
    let Some(wanted) = defaults.of(place.name) else {
        return Ok(None);
    };
    if own.as_deref() == Some(wanted) {
        return Ok(Some(NamedDefault::Old));
    }
    let like = joined(alloc, place.top, wanted)?;
    if fs::metadata(rt, like.as_str()).is_err() || wanted.contains(' ') {
        return Ok(None);
    }
    if let Some(to) = place.to {
        let folder = joined(alloc, to, place.name)?;
        let path = joined(alloc, folder.as_str(), ".modulerc")?;
        put(rt, path.as_str(), wanted, like.as_str())?;
        if own_default(rt, to, place.name)?.as_deref() != Some(wanted) {
            return Ok(None);
        }
    }
    let name = String::from_str(alloc, wanted)?;
    Ok(Some(NamedDefault::New(name)))
}
