//! The commands that answer by their words and what is known alone.

use crate::knowledge::Knowledge;
use crate::paths::{directory_of, joined, tail_of};
use std::alloc::{AllocError, Global};
use tclvalue::operators::ValueFault;
use tclvalue::value_command;

/// The most bytes of a value.
pub const MOST_BYTES: usize = 65_536;

/// A copy of a text, where there is one.
pub fn copied(alloc: Global, text: Option<&str>) -> Result<Option<String>, AllocError> {
    text.map(|text| String::from_str(alloc, text)).transpose()
}

/// The answer of `file` to its words; none where a home would be looked up.
fn file_answer(alloc: Global, words: &[String]) -> Result<Option<String>, AllocError> {
    let [word, names @ ..] = words else {
        return Ok(None);
    };
    if names.iter().any(|name| name.contains('~')) {
        return Ok(None);
    }
    match (word.as_str(), names) {
        ("join", [_, ..]) => Ok(Some(joined(alloc, names)?)),
        ("tail", [path]) => Ok(Some(tail_of(alloc, path.as_str())?)),
        ("dirname", [path]) => Ok(Some(directory_of(alloc, path.as_str())?)),
        _ => Ok(None),
    }
}

/// The answer of a command on lists and texts to its words.
fn value_answer(alloc: Global, words: &[String]) -> Result<Option<String>, AllocError> {
    match value_command(alloc, words, MOST_BYTES) {
        Ok(answer) => Ok(answer),
        Err(ValueFault::OutOfMemory) => Err(AllocError),
        Err(_) => Ok(None),
    }
}

impl Knowledge<'_> {
    /// The answer to a command of these words, of which the first names it; none where it isn't known.
    pub(crate) fn answer(
        &self,
        alloc: Global,
        words: &[String],
    ) -> Result<Option<String>, AllocError> {
        let [name, others @ ..] = words else {
            return Ok(None);
        };
        if self.is_overridden {
            return Ok(None);
        }
        match (name.as_str(), others) {
            ("file", _) => file_answer(alloc, others),
            ("uname", [word]) => copied(alloc, self.host(word.as_str())),
            ("info", [word]) if word.as_str() == "hostname" => {
                copied(alloc, self.host("nodename"))
            }
            ("module-info", [word]) if word.as_str() == "name" => {
                copied(alloc, self.file.map(|file| file.name))
            }
            _ => value_answer(alloc, words),
        }
    }

    /// What Tcl knows of the host, by the name of an element of `tcl_platform`.
    pub(crate) fn platform(&self, element: &str) -> Option<&str> {
        if self.is_overridden {
            return None;
        }
        match element {
            "os" => self.host("sysname"),
            "osVersion" => self.host("release"),
            "machine" => self.host("machine"),
            _ => None,
        }
    }
}
