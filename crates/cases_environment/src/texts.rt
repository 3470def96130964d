//! Texts of lines: what marks in them mean, and their words and parts.

use std::alloc::{AllocError, Global};

/// How many x a `*` after a mark means.
const MANY: usize = 40_959;

/// The byte that this one means after a mark.
fn meant_by(byte: u8) -> u8 {
    match byte {
        b'0' | b'@' => 0,
        b't' => b'\t',
        b'n' => b'\n',
        b'_' => 0x1f,
        b's' => b' ',
        b'*' => b'x',
        b'?' => 0x7f,
        b'!' => 0xff,
        other => other,
    }
}

/// The bytes of a text, with what each mark and the byte after it mean.
pub(crate) fn bytes_of(alloc: Global, mark: u8, text: &str) -> Result<Vec<u8>, AllocError> {
    let mut bytes = Vec::new(alloc);
    let mut is_marked = false;
    for byte in text.as_bytes() {
        if is_marked {
            let count = if *byte == b'*' { MANY } else { 1 };
            bytes.resize(bytes.len().saturating_add(count), meant_by(*byte))?;
            is_marked = false;
        } else if *byte == mark {
            is_marked = true;
        } else {
            bytes.push(*byte)?;
        }
    }
    Ok(bytes)
}

/// A text with what its marks mean; empty where that isn't UTF-8.
pub(crate) fn meant(alloc: Global, mark: u8, text: &str) -> Result<String, AllocError> {
    let bytes = bytes_of(alloc, mark, text)?;
    String::from_str(alloc, str::from_utf8(&bytes).unwrap_or(""))
}

/// The first word, and the text after it.
pub(crate) fn first_word(line: &str) -> (&str, &str) {
    line.split_once(' ').unwrap_or((line, ""))
}

/// Adds texts one after another.
pub(crate) fn push_all(text: &mut String, parts: &[&str]) -> Result<(), AllocError> {
    for part in parts {
        text.push_str(part)?;
    }
    Ok(())
}

/// Adds what a word means; `''` is the empty one.
fn push_word(
    alloc: Global,
    words: &mut Vec<String>,
    mark: u8,
    word: &str,
) -> Result<(), AllocError> {
    let word = if word == "''" { "" } else { word };
    Ok(words.push(meant(alloc, mark, word)?)?)
}

/// The words of a line, separated by blanks.
pub(crate) fn words(alloc: Global, mark: u8, line: &str) -> Result<Vec<String>, AllocError> {
    let mut words = Vec::new(alloc);
    for word in line.split(' ') {
        if !word.is_empty() {
            push_word(alloc, &mut words, mark, word)?;
        }
    }
    Ok(words)
}

/// The texts of a list, which this character parts: `-` has none.
pub(crate) fn parts(alloc: Global, list: &str, mark: char) -> Result<Vec<String>, AllocError> {
    let mut parts = Vec::new(alloc);
    if list != "-" {
        for part in list.split(mark) {
            parts.push(String::from_str(alloc, part)?)?;
        }
    }
    Ok(parts)
}
