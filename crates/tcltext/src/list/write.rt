//! Elements as the text of a list (list(n)).
ghost use Rattle.std.specs.Prelude.{◌≡◌, ◌++◌, ◌≤◌, ◌<◌, ◌∷◌, [], length, map, flat_map, false, true, IfOk, OnOk};
ghost use Rattle.std.specs.Prelude.{MatchOption, string_bytes};
ghost use Rattle.std.specs.List.{list_all};
ghost use Rattle.tcltext.specs.chars.Bytes.{is_literal};
ghost use Rattle.tcltext.specs.list.ListGrammar.{IsList};
ghost use Rattle.tcltext.specs.list.Lists.{needs_escape, begins_needing_escape, begins_bare, is_bare, depth_after, balances};
ghost use Rattle.tcltext.specs.list.Lists.{letter_of, escape, escaped, braced, element_text, list_rest, list_text};

use crate::chars::{Class, after_mark, is_gap, is_special, split_run};
use std::alloc::{AllocError, Global};

/// The text of a list with these elements, with one space between them. An element is written as it is, in braces, or
/// with backslashes, whichever comes first of those that are read again. The error is that a growth was refused.
pub fn write_list(alloc: Global, elements: &[&str]) -> Result<String, AllocError>
    ensures text { IfOk result (λ text. string_bytes text ≡ list_text (map (λ e. e.now) elements.now)) }
    ensures read { IfOk result (λ text. IsList (string_bytes text) (map (λ e. e.now) elements.now)) }
{
    let mut text = String::new(alloc);
    push_list(&mut text, elements)?;
    Ok(text)
}

fn push_list(text: &mut String, elements: &[&str]) -> Result<(), AllocError>
    ensures { OnOk result (string_bytes text.new
        ≡ string_bytes text.old ++ list_text (map (λ e. e.now) elements.now)) }
{
    match elements {
        [] => Ok(()),
        [first, rest @ ..] => {
            push_element(text, first)?;
            push_rest(text, rest)
        }
    }
}

/// Adds the text of the elements after the first, each after a space.
fn push_rest(text: &mut String, elements: &[&str]) -> Result<(), AllocError>
    ensures { OnOk result (string_bytes text.new
        ≡ string_bytes text.old ++ list_rest (map (λ e. e.now) elements.now)) }
{
    for element in elements {
        text.push(' ')?;
        push_element(text, element)?;
    }
    Ok(())
}

fn push_element(text: &mut String, element: &str) -> Result<(), AllocError>
    ensures { OnOk result (string_bytes text.new ≡ string_bytes text.old ++ element_text element.now) }
{
    if is_bare(element) {
        return text.push_str(element);
    }
    if balances(element) {
        return push_braced(text, element);
    }
    push_escaped(text, element)
}

fn push_braced(text: &mut String, element: &str) -> Result<(), AllocError>
    ensures { OnOk result (string_bytes text.new ≡ string_bytes text.old ++ braced element.now) }
{
    text.push('{')?;
    text.push_str(element)?;
    text.push('}')
}

/// Whether an element is written as it is.
fn is_bare(element: &str) -> bool
    ensures { result ≡ is_bare element.now }
{
    begins_bare(element) && are_literal(element)
}

/// Whether an element is not empty and begins with no `#`, which would begin a comment where the list is a command.
fn begins_bare(element: &str) -> bool
    ensures { result ≡ begins_bare element.now }
{
    match element.as_bytes() {
        [] => false,
        [b, ..] => *b != b'#',
    }
}

/// Whether no byte of the element has a meaning of its own.
fn are_literal(element: &str) -> bool
    ensures { result ≡ list_all is_literal element.now }
{
    split_run(element, Class::Literal).1.is_empty()
}

/// How many braces are open after a byte. None where it is a backslash, or closes one more than are open.
fn depth_after(depth: usize, b: u8) -> Option<usize>
    requires { depth < usize.MAX }
    ensures { result ≡ depth_after depth b }
{
    match b {
        b'\\' => None,
        b'{' => Some(depth + 1),
        b'}' => depth.checked_sub(1),
        _ => Some(depth),
    }
}

/// Whether an element may be written in braces: it has no backslash, and its braces match.
fn balances(element: &str) -> bool
    ensures { result ≡ balances 0 element.now }
{
    let bytes = element.as_bytes();
    let mut depth = 0usize;
    for b in bytes {
        match depth_after(depth, *b) {
            None => return false,
            Some(open) => depth = open,
        }
    }
    depth == 0
}

/// What is written after a backslash for a byte with a meaning: a letter for white space, else the byte.
fn letter_of(b: u8) -> u8
    ensures { result ≡ letter_of b }
{
    match b {
        b'\n' => b'n',
        b'\t' => b't',
        b'\r' => b'r',
        11 => b'v',
        12 => b'f',
        _ => b,
    }
}

/// Adds an element with backslashes.
fn push_escaped(text: &mut String, element: &str) -> Result<(), AllocError>
    ensures { OnOk result (string_bytes text.new ≡ string_bytes text.old ++ escaped element.now) }
{
    match after_mark(element, b'#') {
        Some(rest) => {
            text.push_str("\\#")?;
            push_escapes(text, rest)
        }
        None => push_escapes(text, element),
    }
}

/// Adds a text with a backslash before each byte that has a meaning of its own.
fn push_escapes(text: &mut String, literal: &str) -> Result<(), AllocError>
    ensures { OnOk result (string_bytes text.new ≡ string_bytes text.old ++ flat_map escape literal.now) }
{
    let mut rest = literal;
    loop {
        let (run, marked) = split_run(rest, Class::Literal);
        text.push_str(run)?;
        let Some((b, after)) = split_needing_escape(marked) else {
            return Ok(());
        };
        text.push('\\')?;
        text.push(letter_of(b) as char)?;
        rest = after;
    }
}

/// Whether the byte has a meaning in a list or a script.
fn needs_escape(b: u8) -> bool
    ensures { result ≡ needs_escape b }
{
    is_gap(b) || is_special(b)
}

/// The first byte, if it has a meaning in a list or a script, and the rest.
fn split_needing_escape(text: &str) -> Option<(u8, &str)>
    ensures { MatchOption result (begins_needing_escape text.now ≡ false)
        (λ p. (text.now ≡ p.0 ∷ p.1.now) × (needs_escape p.0 ≡ true)) }
{
    match text.as_bytes() {
        [b, ..] if needs_escape(*b) => Some((*b, text.split_at(1).1)),
        _ => None,
    }
}
