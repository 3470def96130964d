//! Words of commands whose value is one text, and where they stand.

pub use crate::ends::end_of_part;
use crate::ends::{end_of_word, gap_end, rest_at};
use std::alloc::{AllocError, Global};
use tcltext::script::{ByteRange, Command, Part, Word, WordContent};

/// A word in which nothing is substituted.
#[derive(Clone, Copy, Debug, Drop)]
pub struct ConstantWord<'t> {
    /// Its value.
    pub value: &'t str,
    /// Where that begins.
    pub start: usize,
}

/// The value of a word of this text, where nothing is substituted in it.
pub fn constant<'t>(text: &'t str, word: &Word<ByteRange>) -> Option<ConstantWord<'t>> {
    if word.expands {
        return None;
    }
    let range = match &word.content {
        WordContent::Bare(range) | WordContent::Braced(range) => *range,
        WordContent::Parts(parts) => match parts.as_slice() {
            [] => ByteRange { start: 0, end: 0 },
            [Part::Literal(range)] => *range,
            _ => return None,
        },
    };
    Some(ConstantWord {
        value: range.of(text),
        start: range.start,
    })
}

/// The values of the words of a command of this text, where nothing is substituted in them.
pub fn words_of<'t>(
    alloc: Global,
    text: &'t str,
    command: &Command<ByteRange>,
) -> Result<Vec<Option<&'t str>>, AllocError> {
    let words = command.words.iter();
    words
        .map(|word| constant(text, word).map(|word| word.value))
        .collect(alloc)
}

/// Where the words of a command stand, with their braces and quotes; none where one stands elsewhere than the tree has it.
pub fn places_of_words(
    alloc: Global,
    text: &str,
    command: &Command<ByteRange>,
) -> Result<Option<Vec<ByteRange>>, AllocError> {
    let mut places = Vec::new(alloc);
    let mut at = command.source.start;
    for word in &command.words {
        let start = gap_end(text, at);
        let Some(end) = end_of_word(text, start, word) else {
            return Ok(None);
        };
        places.push(ByteRange { start, end })?;
        at = end;
    }
    Ok(Some(places))
}

/// What stands in a text from a place on, up to a newline or a semicolon.
pub fn first_line(text: &str, at: usize) -> &str {
    let rest = rest_at(text, at);
    rest.split_once(['\n', ';']).map_or(rest, |parts| parts.0)
}

/// How many lines end in a text.
pub fn line_ends(text: &str) -> usize {
    text.bytes().filter(|byte| *byte == b'\n').count()
}
