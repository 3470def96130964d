//! Where the parts of words end. What doesn't stand where the tree has it gives no place.

use tcltext::chars::{is_blank, read_backslash};
use tcltext::script::{ByteRange, Command, Part, Script, Word, WordContent};

/// What stands in the text from a place on.
pub(crate) fn rest_at(text: &str, at: usize) -> &str {
    let rest = ByteRange {
        start: at,
        end: text.len(),
    };
    rest.of(text)
}

/// The place behind a byte, where it stands at a place.
fn behind(text: &str, at: usize, byte: u8) -> Option<usize> {
    match text.as_bytes().get(at) {
        Some(other) if *other == byte => Some(at.saturating_add(1)),
        _ => None,
    }
}

/// The place behind the blanks, escaped newlines and bytes of these that stand at a place.
fn run_end(text: &str, at: usize, others: &[u8]) -> usize {
    let mut end = at;
    let mut is_escaped = false;
    for byte in rest_at(text, at).bytes() {
        if is_escaped {
            if byte != b'\n' {
                break;
            }
            end = end.saturating_add(2);
            is_escaped = false;
        } else if byte == b'\\' {
            is_escaped = true;
        } else if is_blank(byte) || others.contains(&byte) {
            end = end.saturating_add(1);
        } else {
            break;
        }
    }
    end
}

/// The place behind the blanks and escaped newlines at a place.
pub(crate) fn gap_end(text: &str, at: usize) -> usize {
    run_end(text, at, b"")
}

/// The place behind the name of a variable, with its dollar sign, which stands at a place.
fn end_of_name(text: &str, at: usize, name: ByteRange) -> Option<usize> {
    let inside = behind(text, at, b'$')?;
    if name.start == inside {
        return Some(name.end);
    }
    match behind(text, inside, b'{') {
        Some(start) if name.start == start => behind(text, name.end, b'}'),
        _ => None,
    }
}

/// The place behind a backslash with what belongs to it, which stands at a place.
fn end_of_backslash(text: &str, at: usize) -> Option<usize> {
    let inside = behind(text, at, b'\\')?;
    match read_backslash(rest_at(text, inside)) {
        Some((_, rest)) => Some(text.len().saturating_sub(rest.len())),
        None => None,
    }
}

/// The place behind a part that stands at a place.
#[cycle(ends)]
pub fn end_of_part(text: &str, at: usize, part: &Part<ByteRange>) -> Option<usize> {
    match part {
        Part::Literal(range) if range.start == at => Some(range.end),
        Part::Literal(_) => None,
        Part::Backslash(_) => end_of_backslash(text, at),
        Part::Variable(name) => end_of_name(text, at, *name),
        Part::Indexed(name, index) => {
            let inside = behind(text, name.end, b'(')?;
            let end = end_of_parts(text, inside, index.as_slice())?;
            behind(text, end, b')')
        }
        Part::Bracket(script) => end_of_bracket(text, at, script),
    }
}

/// The place behind parts of which the first stands at a place.
#[cycle(ends)]
fn end_of_parts(text: &str, at: usize, parts: &[Part<ByteRange>]) -> Option<usize> {
    let mut end = at;
    for part in parts {
        end = end_of_part(text, end, part)?;
    }
    Some(end)
}

/// The place behind a script in brackets, of which the opening one stands at a place.
#[cycle(ends)]
fn end_of_bracket(text: &str, at: usize, script: &Script<ByteRange>) -> Option<usize> {
    let mut end = behind(text, at, b'[')?;
    for command in &script.commands {
        end = end_of_command(text, command)?;
    }
    behind(text, run_end(text, end, b"\n;"), b']')
}

/// The place behind the words of a command.
#[cycle(ends)]
fn end_of_command(text: &str, command: &Command<ByteRange>) -> Option<usize> {
    let mut end = command.source.start;
    for word in &command.words {
        end = end_of_word(text, gap_end(text, end), word)?;
    }
    Some(end)
}

/// The place behind a word that stands at a place.
#[cycle(ends)]
pub(crate) fn end_of_word(text: &str, at: usize, word: &Word<ByteRange>) -> Option<usize> {
    let at = if word.expands {
        at.saturating_add(3)
    } else {
        at
    };
    match &word.content {
        WordContent::Bare(range) if range.start == at => Some(range.end),
        WordContent::Bare(_) => None,
        WordContent::Braced(range) => behind(text, range.end, b'}'),
        WordContent::Parts(parts) => match behind(text, at, b'"') {
            Some(inside) => {
                let end = end_of_parts(text, inside, parts.as_slice())?;
                behind(text, end, b'"')
            }
            None => end_of_parts(text, at, parts.as_slice()),
        },
    }
}
