//! A walk over the files of trees, which are translated and written below others.

use crate::arguments::{PortOptions, TreePaths};
use crate::defaults::{DefaultPlace, NamedDefault, NamedDefaults, name_default};
use crate::fault::PortFault;
use crate::porting::{Sources, port_file};
use crate::reporting::{fault_line, line_on};
use crate::script_files::{ScriptFile, ScriptPlaces};
use crate::site::{add_tree, is_default_file, last_part};
use crate::status::Status;
use crate::texts::{absolute, joined, text_at, write_new};
use crate::tree::{Found, TreeEntry, entries_below, names_in};
use port_constants::KnownFile;
use port_reading::file_text::FileText;
use port_rewriting::{FileKind, Given, Outcome, Site, folder_of};
use std::fs::{Metadata, Permissions};
use std::io::Write;
use std::os::unix::fs::symlink;
use std::path::Path;
use std::{fs, mem};

/// A file that is translated.
#[derive(Clone, Copy)]
struct FileAt<'p> {
    /// Its path.
    from: &'p str,
    /// The path that it is written to.
    to: Option<&'p str>,
    /// Its name below the tree.
    below: &'p str,
}

/// A walk over the files below a directory.
#[derive(Drop)]
struct Walk<'r> {
    rt: &'r HostRuntime,
    /// How files are translated.
    options: &'r PortOptions,
    /// What the files of the site say of its modules.
    site: &'r Site,
    /// The defaults that a list names.
    defaults: Option<&'r NamedDefaults>,
    /// The absolute path of the tree that is read.
    top: String,
    /// Where scripts of aliases are written.
    script_places: ScriptPlaces,
    /// The scripts that are still to be written.
    scripts: Vec<ScriptFile>,
    /// How far what was read so far is translated.
    status: Status,
    /// The names of the folders that were walked.
    names: Vec<String>,
    /// The directories that were made, with the permissions that they get in the end.
    made: Vec<(String, Permissions)>,
}

/// Whether a link of this target still leads to the same place of the tree that is written: it is relative, and leads
/// to nothing above its directory.
fn stays(target: &str) -> bool {
    !target.starts_with('/') && target.split('/').all(|part| part != "..")
}

/// Whether a path leads into the directory that is read: the first one that is there of it and of those above it does.
fn is_inside(rt: &HostRuntime, from: &str, to: &str) -> Result<bool, PortFault> {
    let Ok(from) = fs::canonicalize(rt, from) else {
        return Err(PortFault::Unreadable);
    };
    for place in Path::new(to).ancestors() {
        let place = if place.as_str().is_empty() {
            "."
        } else {
            place.as_str()
        };
        if let Ok(place) = fs::canonicalize(rt, place) {
            return Ok(place.as_path().starts_with(from.as_path()));
        }
    }
    Ok(false)
}

/// Makes the directory that is written, and those above it, where they aren't there, or takes an empty one.
fn begin(rt: &HostRuntime, from: &str, to: &str) -> Result<(), PortFault> {
    if fs::metadata(rt, to).is_ok() && !names_in(rt, to)?.is_empty() {
        return Err(PortFault::NotEmpty);
    }
    if is_inside(rt, from, to)? {
        return Err(PortFault::Inside);
    }
    if fs::create_dir_all(rt, to).is_err() {
        return Err(PortFault::Unwritable);
    }
    // Two points behind a directory that wasn't there can lead elsewhere now.
    if is_inside(rt, from, to)? {
        Err(PortFault::Inside)
    } else {
        Ok(())
    }
}

/// What is known of the file of this name, whose absolute path this is.
fn given<'g>(
    options: &'g PortOptions,
    site: &'g Site,
    has_defaults: bool,
    below: &'g str,
    path: &'g str,
    scripts_folder: Option<&'g str>,
) -> Given<'g> {
    let folder = folder_of(below);
    let is_module = !folder.is_empty() && !last_part(below).starts_with('.');
    Given {
        kind: if is_default_file(below) {
            FileKind::Defaults
        } else {
            FileKind::Modulefile
        },
        site: Some(site),
        file: Some(KnownFile { path, name: below }),
        host: options.host.said.as_slice(),
        scripts_folder,
        one_version: if options.one_version && is_module {
            Some(folder)
        } else {
            None
        },
        has_defaults,
        drops_unread: options.drop_unread,
        is_strict: options.strict,
    }
}

impl<'r> Walk<'r> {
    /// Writes a part of the report.
    fn say(&self, lines: &[u8]) -> Result<(), PortFault> {
        let written = self.rt.stdout().write_all(lines);
        written.map_err(|_| PortFault::WriteFailed)
    }

    /// Says what became of what is at a path.
    fn say_of(&self, path: &str, outcome: Outcome, what: &str) -> Result<(), PortFault> {
        let line = line_on(self.rt.alloc(), self.options.json, path, outcome, what)?;
        self.say(line.as_slice())
    }

    /// Says what is left out of a path.
    fn leave(&mut self, path: &str, what: &str) -> Result<(), PortFault> {
        self.status = self.status.and(Status::Left);
        self.say_of(path, Outcome::Left, what)
    }

    /// Goes on behind a fault at a path, which is said, unless memory ran out or the report can't be written.
    fn go_on(&mut self, path: &str, done: Result<(), PortFault>) -> Result<(), PortFault> {
        match done {
            Ok(()) => Ok(()),
            Err(PortFault::OutOfMemory) => Err(PortFault::OutOfMemory),
            Err(PortFault::WriteFailed) => Err(PortFault::WriteFailed),
            Err(fault) => {
                self.status = Status::Refused;
                let line = fault_line(self.rt.alloc(), path, &fault)?;
                let _ = self.rt.stderr().write_all(line.as_bytes());
                Ok(())
            }
        }
    }

    /// What a load of the file of this name has done, where that is known.
    fn records_of(&self, below: &str) -> Result<Option<String>, PortFault> {
        let Some(records) = &self.options.records else {
            return Ok(None);
        };
        let path = joined(self.rt.alloc(), records.as_str(), below)?;
        match text_at(self.rt, path.as_str()) {
            Err(PortFault::NoFile) => Ok(None),
            text => text,
        }
    }

    /// The folder for scripts of the file of this name, where they are wanted and can be written.
    fn scripts_folder(&self, below: &str) -> Result<Option<String>, PortFault> {
        if !self.options.alias_scripts {
            return Ok(None);
        }
        self.script_places.folder(self.rt, below)
    }

    /// Translates a file, and writes it with these permissions.
    fn file(&mut self, at: FileAt, file: FileText, status: &Metadata) -> Result<(), PortFault> {
        let alloc = self.rt.alloc();
        let records = self.records_of(at.below)?;
        let sources = Sources {
            json: self.options.json,
            records: records.as_deref(),
            person: self.options.kept.person(),
        };
        let folder = self.scripts_folder(at.below)?;
        let path = joined(alloc, self.top.as_str(), at.below)?;
        let has_defaults = self.defaults.is_some();
        let (path, folder) = (path.as_str(), folder.as_deref());
        let given = given(
            self.options,
            self.site,
            has_defaults,
            at.below,
            path,
            folder,
        );
        let ported = port_file(alloc, sources, at.from, &file, given)?;
        if let Some(to) = at.to {
            write_new(self.rt, to, ported.text.as_bytes(), status)?;
        }
        self.script_places
            .add(alloc, &mut self.scripts, at.below, ported.scripts)?;
        self.status = self.status.and(ported.status);
        self.say(ported.report.as_slice())
    }

    /// Writes the modulefile that a link leads to at the place of the link, or makes the link again, where it still leads to the
    /// same place.
    fn link(&mut self, at: FileAt, file: Option<FileText>) -> Result<(), PortFault> {
        let Ok(target) = fs::read_link(self.rt, at.from) else {
            return Err(PortFault::Unreadable);
        };
        let Some(target) = target.to_str() else {
            return Err(PortFault::NotUtf8);
        };
        let what = format!(in self.rt.alloc(); "link to {target}")?;
        match (file, fs::metadata(self.rt, at.from)) {
            (Some(file), Ok(status)) => {
                self.say_of(at.from, Outcome::Translated, what.as_str())?;
                return self.file(at, file, &status);
            }
            (None, Ok(_)) if stays(target) => {}
            _ => return self.leave(at.from, what.as_str()),
        }
        match at.to {
            Some(to) if symlink(self.rt, target, to).is_err() => Err(PortFault::Unwritable),
            _ => Ok(()),
        }
    }

    /// Makes a directory.
    fn folder(&mut self, at: FileAt, status: &Metadata) -> Result<(), PortFault> {
        let alloc = self.rt.alloc();
        if let Some(to) = at.to {
            if fs::create_dir(self.rt, to).is_err() {
                return Err(PortFault::Unwritable);
            }
            let made = (String::from_str(alloc, to)?, status.permissions());
            self.made.push(made)?;
        }
        self.names.push(String::from_str(alloc, at.below)?)?;
        Ok(())
    }

    /// Does what is to be done for what is found at a path below a tree.
    fn entry(&mut self, at: FileAt, found: Found) -> Result<(), PortFault> {
        let Found { status, file, .. } = found;
        if status.is_dir() {
            self.folder(at, &status)
        } else if status.is_symlink() {
            self.link(at, file)
        } else if let Some(file) = file {
            self.file(at, file, &status)
        } else if status.is_file() {
            // What is no modulefile isn't missed.
            self.say_of(at.from, Outcome::Left, "no modulefile")
        } else {
            self.leave(at.from, "neither a file nor a directory")
        }
    }

    /// Does what is to be done for an entry of a tree; a fault is said.
    fn visit(&mut self, tree: &TreePaths, entry: TreeEntry) -> Result<(), PortFault> {
        let TreeEntry {
            path,
            below,
            is_linked,
            found,
        } = entry;
        if is_linked {
            return Ok(());
        }
        let to = tree.to.as_deref();
        let to = to
            .map(|to| joined(self.rt.alloc(), to, below.as_str()))
            .transpose()?;
        let at = FileAt {
            from: path.as_str(),
            to: to.as_deref(),
            below: below.as_str(),
        };
        let done = match found {
            Ok(found) => self.entry(at, found),
            Err(fault) => Err(fault),
        };
        self.go_on(at.from, done)
    }

    /// Names the default of a folder of this path, where a list names another than is taken here.
    fn default_of(
        &mut self,
        defaults: &NamedDefaults,
        path: &str,
        place: DefaultPlace,
    ) -> Result<(), PortFault> {
        match name_default(self.rt, defaults, place)? {
            Some(NamedDefault::New(name)) => self.say_of(path, Outcome::Default, name.as_str()),
            Some(NamedDefault::Old) => Ok(()),
            None => self.leave(path, "default"),
        }
    }

    /// Names the defaults of the folders with versions.
    fn name_defaults(&mut self, tree: &TreePaths) -> Result<(), PortFault> {
        let Some(defaults) = self.defaults else {
            return Ok(());
        };
        let names = mem::replace(&mut self.names, Vec::new(self.rt.alloc()));
        let top = self.top.clone()?;
        for name in &names {
            if !self.site.has_version(name.as_str()) {
                continue;
            }
            let path = joined(self.rt.alloc(), tree.from.as_str(), name.as_str())?;
            let place = DefaultPlace {
                top: top.as_str(),
                to: tree.to.as_deref(),
                name: name.as_str(),
            };
            let done = self.default_of(defaults, path.as_str(), place);
            self.go_on(path.as_str(), done)?;
        }
        Ok(())
    }

    /// Writes the scripts of the aliases, behind the directories of the tree.
    fn write_scripts(&mut self) -> Result<(), PortFault> {
        let scripts = mem::replace(&mut self.scripts, Vec::new(self.rt.alloc()));
        for script in &scripts {
            self.go_on(script.path.as_str(), script.write(self.rt))?;
        }
        Ok(())
    }

    /// Gives the directories that were made their permissions, those below others first.
    fn finish(&mut self) -> Result<(), PortFault> {
        for _ in 0..self.made.len() {
            let Some((path, permissions)) = self.made.pop() else {
                break;
            };
            if fs::set_permissions(self.rt, path.as_str(), permissions).is_err() {
                self.go_on(path.as_str(), Err(PortFault::Unwritable))?;
            }
        }
        Ok(())
    }
}

/// Translates the files of a tree, and gives the status.
fn walk_tree(
    rt: &HostRuntime,
    options: &PortOptions,
    site: &Site,
    defaults: Option<&NamedDefaults>,
    tree: &TreePaths,
    entries: Vec<TreeEntry>,
) -> Result<Status, PortFault> {
    let mut walk = Walk {
        rt,
        options,
        site,
        defaults,
        top: absolute(rt, tree.from.as_str())?.unwrap_or(tree.from.clone()?),
        script_places: ScriptPlaces::new(rt, tree.from.as_str(), tree.to.as_deref())?,
        scripts: Vec::new(rt.alloc()),
        status: Status::Within,
        names: Vec::new(rt.alloc()),
        made: Vec::new(rt.alloc()),
    };
    for entry in entries {
        walk.visit(tree, entry)?;
    }
    walk.write_scripts()?;
    walk.name_defaults(tree)?;
    walk.finish()?;
    Ok(walk.status)
}

/// Translates the files below directories, below others where there are some, writes the report to standard output, and
/// gives the status.
///
/// The errors: the directories can't be taken; memory ran out, or the report couldn't be written, in its midst. A fault
/// at one path is said on standard error.
pub(crate) fn walk_trees(
    rt: &HostRuntime,
    options: &PortOptions,
    trees: &[TreePaths],
) -> Result<Status, PortFault> {
    let list = options.defaults.as_deref();
    let defaults = list.map(|path| NamedDefaults::read(rt, path)).transpose()?;
    let mut site = Site::new(rt.alloc());
    let mut listed = Vec::new(rt.alloc());
    for tree in trees {
        let entries = entries_below(rt, tree.from.as_str())?;
        if let Some(to) = &tree.to {
            begin(rt, tree.from.as_str(), to.as_str())?;
        }
        add_tree(rt.alloc(), &mut site, entries.as_slice())?;
        listed.push(entries)?;
    }
    let mut status = Status::Within;
    for (tree, entries) in trees.iter().zip(listed) {
        let done = walk_tree(rt, options, &site, defaults.as_ref(), tree, entries)?;
        status = status.and(done);
    }
    Ok(status)
}
