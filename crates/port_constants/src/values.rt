//! The values of words of which all is known.

use crate::answers::copied;
use crate::knowledge::{Knowledge, plain_name, value_among};
use std::alloc::{AllocError, Global};
use tcltext::script::{ByteRange, Command, Part, Word, WordContent};

impl Knowledge<'_> {
    /// The value of an element of an array.
    fn element(
        &self,
        alloc: Global,
        array: &str,
        index: &str,
    ) -> Result<Option<String>, AllocError> {
        match plain_name(array) {
            "env" => copied(alloc, value_among(self.environment.as_slice(), index)),
            "tcl_platform" => copied(alloc, self.platform(index)),
            _ => Ok(None),
        }
    }

    /// The value of a part of a word.
    #[cycle(values)]
    pub(crate) fn value_of_part(
        &self,
        alloc: Global,
        text: &str,
        part: &Part<ByteRange>,
    ) -> Result<Option<String>, AllocError> {
        match part {
            Part::Literal(range) => copied(alloc, Some(range.of(text))),
            Part::Backslash(character) => {
                let mut value = String::new(alloc);
                value.push(*character)?;
                Ok(Some(value))
            }
            Part::Variable(name) => copied(alloc, self.variable(name.of(text))),
            Part::Indexed(name, index) => {
                match self.value_of_parts(alloc, text, index.as_slice())? {
                    Some(index) => self.element(alloc, name.of(text), index.as_str()),
                    None => Ok(None),
                }
            }
            Part::Bracket(script) => match script.commands.as_slice() {
                [command] => self.value_of_command(alloc, text, command),
                _ => Ok(None),
            },
        }
    }

    /// The values of parts, joined.
    #[cycle(values)]
    pub(crate) fn value_of_parts(
        &self,
        alloc: Global,
        text: &str,
        parts: &[Part<ByteRange>],
    ) -> Result<Option<String>, AllocError> {
        let mut value = String::new(alloc);
        for part in parts {
            match self.value_of_part(alloc, text, part)? {
                Some(more) => value.push_str(more.as_str())?,
                None => return Ok(None),
            }
        }
        Ok(Some(value))
    }

    /// The answer of a command.
    #[cycle(values)]
    fn value_of_command(
        &self,
        alloc: Global,
        text: &str,
        command: &Command<ByteRange>,
    ) -> Result<Option<String>, AllocError> {
        let mut words = Vec::new(alloc);
        for word in &command.words {
            match self.value_of_word(alloc, text, word)? {
                Some(value) => words.push(value)?,
                None => return Ok(None),
            }
        }
        self.answer(alloc, words.as_slice())
    }

    /// The value of a word of a text, where all in it is known.
    #[cycle(values)]
    pub fn value_of_word(
        &self,
        alloc: Global,
        text: &str,
        word: &Word<ByteRange>,
    ) -> Result<Option<String>, AllocError> {
        if word.expands {
            return Ok(None);
        }
        match &word.content {
            WordContent::Bare(range) | WordContent::Braced(range) => {
                copied(alloc, Some(range.of(text)))
            }
            WordContent::Parts(parts) => self.value_of_parts(alloc, text, parts.as_slice()),
        }
    }
}
