//! Texts without the characters that steer a terminal.
ghost use Rattle.std.specs.Prelude.{◌≡◌, ◌++◌, IfOk, OnOk, string_bytes};
ghost use Rattle.terminal.specs.text.Shown.{is_control, is_mark, lays_out, shown, shown_char, shown_in_lines};
ghost use Rattle.terminal.specs.text.Shown.{shown_lines, steers};

use std::alloc::{AllocError, Global};

/// Whether it is a control character.
fn is_control(c: char) -> bool
    ensures { result ≡ is_control c }
{
    matches!(c, '\0'..='\x1f' | '\x7f'..='\u{9f}')
}

/// Whether it is a mark that ends a line, or says in which direction a text is written.
fn is_mark(c: char) -> bool
    ensures { result ≡ is_mark c }
{
    matches!(c, '\u{61c}' | '\u{200e}'..='\u{200f}' | '\u{2028}'..='\u{202e}' | '\u{2066}'..='\u{2069}')
}

/// Whether the character steers a terminal: it is a control character, ends a line, or says in which direction a text
/// is written.
pub fn steers(c: char) -> bool
    ensures { result ≡ steers c }
{
    is_control(c) || is_mark(c)
}

/// Adds what a terminal shows of a character.
fn push_shown(text: &mut String, c: char) -> Result<(), AllocError>
    ensures { OnOk result (string_bytes text.new ≡ string_bytes text.old ++ shown_char c) }
{
    if steers(c) {
        text.push('?')
    } else {
        text.push(c)
    }
}

/// What a terminal shows of a text: a `?` in the place of each character that steers it, and the others as they are.
///
/// It fails for want of memory alone.
pub fn shown(alloc: Global, text: &str) -> Result<String, AllocError>
    ensures { IfOk result (λ t. string_bytes t ≡ shown text.now) }
{
    let mut seen = String::with_capacity(alloc, text.len())?;
    for c in text.chars() {
        push_shown(&mut seen, c)?;
    }
    Ok(seen)
}

/// Whether the character lays out a text of several lines: it is a tab, or the end of a line.
fn lays_out(c: char) -> bool
    ensures { result ≡ lays_out c }
{
    c == '\t' || c == '\n'
}

/// Adds what a terminal shows of a character in a text of several lines.
fn push_in_lines(text: &mut String, c: char) -> Result<(), AllocError>
    ensures { OnOk result (string_bytes text.new ≡ string_bytes text.old ++ shown_in_lines c) }
{
    if lays_out(c) {
        text.push(c)
    } else {
        push_shown(text, c)
    }
}

/// What a terminal shows of a text of several lines: as `shown`, but tabs and the ends of lines stay.
///
/// It fails for want of memory alone.
pub fn shown_lines(alloc: Global, text: &str) -> Result<String, AllocError>
    ensures { IfOk result (λ t. string_bytes t ≡ shown_lines text.now) }
{
    let mut seen = String::with_capacity(alloc, text.len())?;
    for c in text.chars() {
        push_in_lines(&mut seen, c)?;
    }
    Ok(seen)
}
