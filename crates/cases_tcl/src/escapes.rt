//! Texts that stand in a line as they are, but for a backslash, which is doubled, and `\n`, `\t`, `\r`, `\v`, `\f`,
//! `\|` for a newline, a tab, a carriage return, a vertical tab, a form feed and a bar. `\s` is a blank; any other
//! character after a backslash is itself. The empty text is `-`.
//!
//! A text that is asked about may have parts with `·` between them, and a part `×TIMES` after it; so none has one of
//! these two signs itself.
use crate::lines::Line;
use std::alloc::{AllocError, Global};

/// The character that this one means after a backslash.
fn meant(escape: char) -> char {
    match escape {
        'n' => '\n',
        't' => '\t',
        'r' => '\r',
        'v' => '\u{b}',
        'f' => '\u{c}',
        's' => ' ',
        character => character,
    }
}

/// Adds what is written so.
fn push_meant(text: &mut Line, written: &str) {
    let mut escaped = false;
    for character in written.chars() {
        if escaped {
            text.push(meant(character));
            escaped = false;
        } else if character == '\\' {
            escaped = true;
        } else {
            text.push(character);
        }
    }
}

/// Adds a part of a text, as often as it says.
fn push_part(alloc: Global, text: &mut String, part: &str) -> Option<()> {
    let (written, times) = part.split_once('×').unwrap_or((part, "1"));
    let times: usize = times.parse().ok()?;
    let mut once = Line::new(alloc);
    push_meant(&mut once, written);
    let repeated = once.finish()?.repeat(alloc, times).ok()?;
    text.push_str(&repeated).ok()
}

/// The text that is written so; None where it isn't one, or memory ran out.
pub(crate) fn text_of(alloc: Global, written: &str) -> Option<String> {
    let mut text = String::new(alloc);
    if written != "-" {
        for part in written.split('·') {
            push_part(alloc, &mut text, part)?;
        }
    }
    Some(text)
}

/// Adds the text of a word.
fn push_text_of(alloc: Global, texts: &mut Vec<String>, word: &str) -> Option<()> {
    texts.push(text_of(alloc, word)?).ok()
}

/// The texts of words between blanks.
pub(crate) fn texts_of(alloc: Global, words: &str) -> Option<Vec<String>> {
    let mut texts = Vec::new(alloc);
    for word in words.split(' ') {
        if !word.is_empty() {
            push_text_of(alloc, &mut texts, word)?;
        }
    }
    Some(texts)
}

/// Adds a character as it is written in a line.
fn push_character(line: &mut Line, character: char) {
    match character {
        '\\' => line.push_str("\\\\"),
        '\n' => line.push_str("\\n"),
        '\t' => line.push_str("\\t"),
        '\r' => line.push_str("\\r"),
        '\u{b}' => line.push_str("\\v"),
        '\u{c}' => line.push_str("\\f"),
        '|' => line.push_str("\\|"),
        _ => line.push(character),
    }
}

/// Adds the characters of a text as they are written in a line.
fn push_characters(line: &mut Line, text: &str) {
    for character in text.chars() {
        push_character(line, character);
    }
}

/// Adds a text as it is written in a line.
pub(crate) fn push_text(line: &mut Line, text: &str) {
    match text {
        "" => line.push('-'),
        "-" => line.push_str("\\-"),
        _ => push_characters(line, text),
    }
}

/// Adds a text that was made for this line, as it is written in one.
pub(crate) fn push_made_text(line: &mut Line, made: Result<String, AllocError>) {
    match made {
        Ok(text) => push_text(line, &text),
        Err(fault) => line.note(Err(fault)),
    }
}

/// A word, and after it a text as it is written in a line.
pub(crate) fn shown(alloc: Global, word: &str, text: &str) -> Option<String> {
    let mut line = Line::new(alloc);
    line.push_str(word);
    line.push(' ');
    push_text(&mut line, text);
    line.finish()
}

/// Adds texts as they are written in a line, with bars between them.
pub(crate) fn push_texts(line: &mut Line, texts: &[String]) {
    for (index, text) in texts.iter().enumerate() {
        if index > 0 {
            line.push('|');
        }
        push_text(line, text);
    }
}
