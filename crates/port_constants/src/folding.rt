//! What is written for words that Tcl computes: the texts of what isn't read here, where they are known.

use crate::knowledge::{Knowledge, plain_name};
use port_reading::places::{constant, end_of_part, places_of_words};
use std::alloc::{AllocError, Global};
use tcltext::chars::{is_gap, is_special};
use tcltext::script::{ByteRange, Command, Part, Script, WordContent};

/// A text that is written for what stands at a place of a file.
#[derive(Debug, Drop)]
pub struct Edit {
    /// The place.
    pub place: ByteRange,
    /// The text.
    pub text: String,
}

impl Edit {
    /// That of a text for what stands between two places.
    pub fn between(start: usize, end: usize, text: String) -> Edit {
        let place = ByteRange { start, end };
        Edit { place, text }
    }
}

/// Where a part of a word stands.
#[derive(Clone, Copy)]
struct PartPlace {
    /// Its place.
    place: ByteRange,
    /// Whether it is the whole word, without quotes.
    is_word: bool,
    /// Whether the name of a variable before it may go on.
    is_behind_name: bool,
}

/// What is computed in a command so far.
#[derive(Drop)]
struct Folding<'k, 't> {
    alloc: Global,
    known: &'k Knowledge<'k>,
    text: &'t str,
    found: Vec<Edit>,
}

/// Whether each byte stands for itself in a script, and there is one.
pub fn is_bare(text: &str) -> bool {
    !text.is_empty() && text.bytes().all(|byte| !is_gap(byte) && !is_special(byte))
}

/// Whether each byte stands for itself in braces, and ends no line.
fn fits_in_braces(text: &str) -> bool {
    text.bytes()
        .all(|byte| !matches!(byte, b'{' | b'}' | b'\\' | b'\n'))
}

/// How a text is spelled in place of a part of a word.
fn spelled(alloc: Global, text: &str, is_word: bool) -> Result<Option<String>, AllocError> {
    if is_bare(text) {
        return Ok(Some(String::from_str(alloc, text)?));
    }
    if is_word && fits_in_braces(text) {
        return Ok(Some(format!(in alloc; "{{{text}}}")?));
    }
    Ok(None)
}

/// Whether the one command of a script isn't read here, but may be computed.
fn is_unread(text: &str, script: &Script<ByteRange>) -> bool {
    let [command] = script.commands.as_slice() else {
        return false;
    };
    let [name, word, ..] = command.words.as_slice() else {
        return false;
    };
    let word = constant(text, word).map(|word| word.value);
    match constant(text, name).map(|name| name.value) {
        Some("file" | "uname") => true,
        Some("info") => word == Some("hostname"),
        _ => false,
    }
}

/// Whether the name of a variable may go on behind a part of a word.
fn is_open_name(text: &str, part: &Part<ByteRange>, was_open: bool) -> bool {
    match part {
        Part::Variable(_) => true,
        Part::Literal(range) => was_open && range.of(text).bytes().all(|byte| byte == b':'),
        _ => false,
    }
}

impl<'k, 't> Folding<'k, 't> {
    /// Adds the value of a part, where it is known, and can be spelled there.
    fn fold(&mut self, at: PartPlace, part: &Part<ByteRange>) -> Result<(), AllocError> {
        match self.known.value_of_part(self.alloc, self.text, part)? {
            Some(value) if !at.is_behind_name => {
                if let Some(text) = spelled(self.alloc, value.as_str(), at.is_word)? {
                    let place = at.place;
                    self.found.push(Edit { place, text })?;
                }
                Ok(())
            }
            _ => Ok(()),
        }
    }

    /// Whether a variable is one that isn't there here.
    fn is_foreign(&self, name: ByteRange) -> bool {
        matches!(
            plain_name(name.of(self.text)),
            "env" | "tcl_platform" | "tcl_version"
        )
    }

    /// What is computed in a part of a word.
    #[cycle(folds)]
    fn part(&mut self, at: PartPlace, part: &Part<ByteRange>) -> Result<(), AllocError> {
        match part {
            Part::Literal(_) | Part::Backslash(_) => Ok(()),
            Part::Variable(name) | Part::Indexed(name, _) => {
                if self.is_foreign(*name) {
                    self.fold(at, part)?;
                }
                Ok(())
            }
            Part::Bracket(script) if is_unread(self.text, script) => self.fold(at, part),
            Part::Bracket(script) => {
                for command in &script.commands {
                    self.command(command)?;
                }
                Ok(())
            }
        }
    }

    /// What is computed in the parts of a word that stands at a place.
    #[cycle(folds)]
    fn parts(&mut self, place: ByteRange, parts: &[Part<ByteRange>]) -> Result<(), AllocError> {
        let is_quoted = self.text.as_bytes().get(place.start) == Some(&b'"');
        let mut start = if is_quoted {
            place.start.saturating_add(1)
        } else {
            place.start
        };
        let mut is_behind_name = false;
        for part in parts {
            let Some(end) = end_of_part(self.text, start, part) else {
                return Ok(());
            };
            let at = PartPlace {
                place: ByteRange { start, end },
                is_word: !is_quoted && parts.len() == 1,
                is_behind_name,
            };
            self.part(at, part)?;
            is_behind_name = is_open_name(self.text, part, is_behind_name);
            start = end;
        }
        Ok(())
    }

    /// What is computed in the words of a command.
    #[cycle(folds)]
    fn command(&mut self, command: &Command<ByteRange>) -> Result<(), AllocError> {
        let Some(places) = places_of_words(self.alloc, self.text, command)? else {
            return Ok(());
        };
        for (word, place) in command.words.iter().zip(places.iter()) {
            match &word.content {
                WordContent::Parts(parts) if !word.expands => {
                    self.parts(*place, parts.as_slice())?;
                }
                _ => {}
            }
        }
        Ok(())
    }
}

/// What is computed in the words of a command of a text, by what is known, in the order of the text.
pub fn computed_in(
    alloc: Global,
    known: &Knowledge,
    text: &str,
    command: &Command<ByteRange>,
) -> Result<Vec<Edit>, AllocError> {
    let mut folding = Folding {
        alloc,
        known,
        text,
        found: Vec::new(alloc),
    };
    folding.command(command)?;
    Ok(folding.found)
}
