//! What is written for a command, and what is said of that.

use crate::class::{Class, Outcome};
use port_constants::Edit;
use std::alloc::{AllocError, Global};
use tcltext::script::ByteRange;

/// A case in which what is written for a command does something else.
#[derive(Clone, Copy, Debug, PartialEq, Eq)]
pub(crate) enum Case {
    /// A module is loaded before the file, and not where the file loads it.
    Order,
    /// A module has to be there.
    Absence,
    /// An element of a path is there already.
    Present,
    /// A script stands for an alias.
    Script,
    /// A command of a default file is dropped.
    Dropped,
}

impl Case {
    /// How the report says it.
    fn text(self) -> &'static str {
        match self {
            Case::Order => "the module is loaded before the file, and not between its commands",
            Case::Absence => "the module has to be there",
            Case::Present => "an element that is there already keeps its place",
            Case::Dropped => "a name that it gives isn't found, and it hides nothing",
            Case::Script => {
                "child processes run the script too, and directories before it in PATH hide it"
            }
        }
    }
}

/// What is written for a command.
#[derive(Debug, Drop)]
pub(crate) enum Rewrite {
    /// The command.
    Keep,
    /// Commands of this text; whether they add a directory that modules are searched in; and what differs.
    Commands(String, bool, Option<Case>),
    /// The command with a text in place of each word for which there is one.
    Words(Vec<Option<String>>),
    /// The command without the option that is its second word; and what differs.
    WithoutOption(Option<Case>),
    /// The command, which isn't read here as it was meant, by what is said.
    Left(String),
}

impl Rewrite {
    /// What differs in what is written.
    fn case(&self) -> Option<Case> {
        match self {
            Rewrite::Commands(_, _, case) | Rewrite::WithoutOption(case) => *case,
            _ => None,
        }
    }

    /// The class of the command.
    pub(crate) fn class(&self) -> Class {
        match (self, self.case()) {
            (Rewrite::Keep, _) => Class::Same,
            (Rewrite::Left(_), _) => Class::Left,
            (_, Some(_)) => Class::Changed,
            (_, None) => Class::Exact,
        }
    }

    /// What the report says of the command, where it is written in another way.
    pub(crate) fn outcome(&self, alloc: Global) -> Result<Outcome, AllocError> {
        match self.case() {
            Some(case) => Ok(Outcome::Changed(String::from_str(alloc, case.text())?)),
            None => Ok(Outcome::Translated),
        }
    }

    /// The texts that are written for a command whose words stand at these places; none where it can't be written.
    pub(crate) fn edits(
        &self,
        alloc: Global,
        places: &[ByteRange],
    ) -> Result<Option<Vec<Edit>>, AllocError> {
        let mut edits = Vec::new(alloc);
        match (self, places, places.last()) {
            (Rewrite::Commands(text, _, _), [first, ..], Some(last)) => {
                edits.push(Edit::between(first.start, last.end, text.clone()?))?;
            }
            (Rewrite::WithoutOption(_), [name, option, ..], _) => {
                edits.push(Edit::between(name.end, option.end, String::new(alloc)))?;
            }
            (Rewrite::Words(texts), _, _) => {
                for (place, text) in places.iter().zip(texts.iter()) {
                    if let Some(text) = text {
                        edits.push(Edit::between(place.start, place.end, text.clone()?))?;
                    }
                }
            }
            _ => return Ok(None),
        }
        Ok(Some(edits))
    }
}
