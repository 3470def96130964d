//! Where the scripts of aliases are written, and their files.

use crate::fault::PortFault;
use crate::site::is_default_file;
use crate::texts::{absolute, joined};
use port_rewriting::{ShellScript, folder_of};
use std::alloc::Global;
use std::fs::{Metadata, OpenOptions};
use std::io::{ErrorKind, Write};
use std::os::unix::fs::OpenOptionsExt;
use std::{fs, io};

/// The name of the directory that they are written below.
const SCRIPTS: &str = "bin";

/// Whether the system says that nothing is there.
fn is_nothing(found: io::Result<Metadata>) -> bool {
    found.is_err_and(|fault| fault.kind() == ErrorKind::NotFound)
}

/// A script that is to be written.
#[derive(Debug, Drop)]
pub(crate) struct ScriptFile {
    /// Its path.
    pub path: String,
    /// Its text.
    text: String,
}

/// The directories that the scripts of a tree are below.
#[derive(Debug, Drop)]
pub(crate) struct ScriptPlaces {
    /// The tree that is read.
    from: String,
    /// The tree that is written.
    to: Option<String>,
    /// The directory of scripts by its absolute path; none where the system says no working directory.
    named: Option<String>,
}

impl ScriptPlaces {
    /// Those of a tree that is read, and is written below `to`, where it is.
    ///
    /// The error: want of memory.
    pub fn new(rt: &HostRuntime, from: &str, to: Option<&str>) -> Result<ScriptPlaces, PortFault> {
        let alloc = rt.alloc();
        // Where nothing is written, scripts are spoken of as at the root.
        let top = absolute(rt, to.unwrap_or("/"))?;
        Ok(ScriptPlaces {
            from: joined(alloc, from, SCRIPTS)?,
            to: to.map(|to| joined(alloc, to, SCRIPTS)).transpose()?,
            named: top
                .map(|top| joined(alloc, top.as_str(), SCRIPTS))
                .transpose()?,
        })
    }

    /// Whether nothing of the tree that is read stands where the scripts of the file of this name would.
    ///
    /// The error: want of memory.
    fn is_free(&self, rt: &HostRuntime, name: &str) -> Result<bool, PortFault> {
        let mut path = self.from.clone()?;
        for part in name.split('/') {
            match fs::symlink_metadata(rt, path.as_str()) {
                Ok(found) if found.is_dir() => path = joined(rt.alloc(), path.as_str(), part)?,
                found => return Ok(is_nothing(found)),
            }
        }
        Ok(is_nothing(fs::symlink_metadata(rt, path.as_str())))
    }

    /// The folder for scripts of the modulefile of this name, where they can be written.
    ///
    /// The error: want of memory.
    pub fn folder(&self, rt: &HostRuntime, name: &str) -> Result<Option<String>, PortFault> {
        let Some(place) = &self.named else {
            return Ok(None);
        };
        if is_default_file(name) || !self.is_free(rt, name)? {
            return Ok(None);
        }
        Ok(Some(joined(rt.alloc(), place.as_str(), name)?))
    }

    /// Adds the scripts of the file of this name to those that are to be written, where they are.
    ///
    /// The error: want of memory.
    pub fn add(
        &self,
        alloc: Global,
        files: &mut Vec<ScriptFile>,
        name: &str,
        scripts: Vec<ShellScript>,
    ) -> Result<(), PortFault> {
        let Some(to) = &self.to else {
            return Ok(());
        };
        for script in scripts {
            let folder = joined(alloc, to.as_str(), name)?;
            let path = joined(alloc, folder.as_str(), script.name.as_str())?;
            let text = script.text;
            files.push(ScriptFile { path, text })?;
        }
        Ok(())
    }
}

impl ScriptFile {
    /// Writes it, as a program, with the directories that lead to it; the later of two at one path stays. One that fails
    /// leaves nothing.
    ///
    /// The error: it can't be written.
    pub fn write(&self, rt: &HostRuntime) -> Result<(), PortFault> {
        let path = self.path.as_str();
        let mut how = OpenOptions::new();
        how.write(true).create(true).truncate(true).mode(0o755);
        let made = fs::create_dir_all(rt, folder_of(path));
        let (Ok(()), Ok(mut file)) = (made, how.open(rt, path)) else {
            return Err(PortFault::Unwritable);
        };
        if file.write_all(self.text.as_bytes()).is_err() {
            let _ = fs::remove_file(rt, path);
            return Err(PortFault::Unwritable);
        }
        Ok(())
    }
}
