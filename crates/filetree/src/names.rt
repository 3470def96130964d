//! The names in a directory, read from the system and kept as one text.
ghost use Rattle.std.specs.Prelude.{◌≡◌, [], false, map, string_bytes, true, IfErr, IfOk, IfSome};
ghost use Rattle.std.specs.List.{All, list_any};
ghost use Rattle.std.specs.List.Sorted.{IsPermutation};
ghost use Rattle.filetree.specs.Names.{IsName, entries_of, has_name, is_hidden, names_of};
ghost use Rattle.filetree.specs.Systems.{AreEntriesThere, IsFault, IsListingThere, WasDirectory, slashed};
ghost use Rattle.filetree.specs.Utf8.{is_text};

use crate::memory::own_names;
use crate::system::System;
use crate::tree::TreeFault;
use std::alloc::{AllocError, Global};
use std::io;
use std::io::Read;

/// The names in a directory, hidden ones too, in the order in which the system gives them.
#[derive(Drop)]
pub(crate) struct Names {
    /// The names, each ended by a NUL.
    text: String,
    /// Whether one begins with a point.
    hides: bool,
    ghost hides_some: { hides ≡ list_any is_hidden (names_of (string_bytes text)) },
}

/// How many bytes most names have at least, with their NUL: as many names get their room at once.
const USUAL_LENGTH: usize = 4;

/// The names in a text in which a NUL ends each.
fn parted(alloc: Global, text: &str) -> Result<Vec<&str>, AllocError>
    ensures { IfOk result (λ names. map (λ name. name.now) names.items ≡ names_of text.entry.now) }
{
    let mut names = Vec::with_capacity(alloc, text.len() / USUAL_LENGTH + 1)?;
    names.extend(text.split('\0'))?;
    names.retain(|name| !name.is_empty());
    Ok(names)
}

/// The entries of a directory, by the text of its names: not the directory itself and the one above it.
fn entries(alloc: Global, text: &str) -> Result<Vec<&str>, AllocError>
    ensures { IfOk result (λ entries. map (λ name. name.now) entries.items ≡ entries_of text.entry.now) }
{
    let mut names = parted(alloc, text)?;
    names.retain(|name| *name != "." && *name != "..");
    Ok(names)
}

impl Names {
    /// The names as owned strings.
    pub(crate) fn copies(&self, alloc: Global) -> Result<Vec<String>, AllocError>
        ensures { IfOk result (λ copies. map string_bytes copies.items ≡ names_of (string_bytes self.now.text)) }
    {
        let names = parted(alloc, &self.text)?;
        own_names(alloc, &names)
    }

    /// Whether this is one of the names, for a name that begins with a point.
    pub(crate) fn has_hidden(&self, name: &str) -> bool
        requires { is_hidden name.now ≡ true }
        ensures { result ≡ has_name (string_bytes self.now.text) name.now }
    {
        self.hides && self.text.split('\0').any(|other| name == other)
    }

    /// The entries of a directory, by the text of its names.
    fn of_text(alloc: Global, text: &str) -> Result<Names, AllocError>
        ensures { IfOk result (λ names. IsPermutation (entries_of text.now) (names_of (string_bytes names.text))) }
    {
        let names = entries(alloc, text)?;
        Names::joined(String::with_capacity(alloc, text.len())?, &names)
    }

    /// These names, with their text in this room.
    fn joined(room: String, names: &[&str]) -> Result<Names, AllocError>
        requires room { string_bytes room ≡ [] }
        requires names { All IsName (map (λ name. name.now) names.now) }
        ensures { IfOk result (λ joined. names_of (string_bytes joined.text) ≡ map (λ name. name.now) names.now) }
    {
        let mut text = room;
        for name in names {
            text.push_str(name)?;
            text.push('\0')?;
        }
        Ok(Names {
            text,
            hides: names.iter().any(|name| name.starts_with('.')),
        })
    }

    /// The names of bytes in which a NUL ends each, as the system gives them.
    fn of_bytes(alloc: Global, bytes: &[u8]) -> Result<Names, TreeFault>
        ensures names { IfOk result (λ names. IsPermutation (entries_of bytes.now) (names_of (string_bytes names.text))) }
        ensures fault { IfErr result (λ fault. fault ≡ TreeFault.Device → is_text bytes.now ≡ false) }
    {
        match str::from_utf8(bytes) {
            Ok(text) => Ok(Names::of_text(alloc, text)?),
            Err(_) => Err(TreeFault::Device),
        }
    }
}

/// How many bytes of a directory's names are read at once. A name has some hundred at most.
const NAMES_AT_ONCE: usize = 2000;

/// The path of a directory with a slash, which makes the system follow a symbolic link to it.
fn with_slash(alloc: Global, dir: &str) -> Result<String, AllocError>
    ensures { IfOk result (λ path. string_bytes path ≡ slashed dir.now) }
{
    let mut path = String::with_capacity(alloc, dir.len().saturating_add(1))?;
    path.push_str(dir)?;
    path.push('/')?;
    Ok(path)
}

/// The names that are left to read, each ended by a NUL.
fn read_names<D: Read>(alloc: Global, names: &mut D) -> io::Result<Vec<u8>>
    ensures { IfSome (D.remaining names.old) (λ all. IfOk result (λ text. text.items ≡ all)) }
{
    let mut text = Vec::new(alloc);
    let mut room = [0; NAMES_AT_ONCE];
    for _ in 0..u64::MAX {
        let count = names.read(&mut room)?;
        if count == 0 {
            return Ok(text);
        }
        text.extend_from_slice(&room[..count])?;
    }
    Err(io::Error::from(io::ErrorKind::OutOfMemory))
}

/// The names in a directory, each ended by a NUL, as one text. `fs::read_dir` would make a path of each.
fn text_of_names<S: System + AllocGlobal>(system: &S, dir: &str) -> Result<Vec<u8>, TreeFault>
    ensures text { IfOk result (λ text. IsListingThere (S.answers system.now) dir.now text.items) }
    ensures fault { WasDirectory (S.answers system.now) dir.now → IfErr result (IsFault (S.answers system.now) dir.now) }
{
    let path = with_slash(system.alloc(), dir)?;
    let mut names = system.open_directory(&path)?;
    Ok(read_names(system.alloc(), &mut names)?)
}

/// The names in a directory.
pub(crate) fn list<S: System + AllocGlobal>(system: &S, dir: &str) -> Result<Names, TreeFault>
    ensures names { IfOk result (λ names. AreEntriesThere (S.answers system.now) dir.now (string_bytes names.text)) }
    ensures fault { WasDirectory (S.answers system.now) dir.now → IfErr result (IsFault (S.answers system.now) dir.now) }
{
    let bytes = text_of_names(system, dir)?;
    Names::of_bytes(system.alloc(), &bytes)
}
