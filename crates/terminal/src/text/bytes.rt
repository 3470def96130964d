//! Reports as bytes: what a terminal shows of them, how many lines they have, and their texts without colours.
ghost use Rattle.std.specs.Prelude.{◌≡◌, ◌++◌, ◌==◌, encode_utf8, IfOk, OnOk, string_bytes};
ghost use Rattle.std.specs.List.{flat_map, slice_split};
ghost use Rattle.terminal.specs.columns.Views.{texts};
ghost use Rattle.terminal.specs.text.Bytes as spec;

use crate::text::showing::shown_lines;
use std::alloc::{AllocError, Global};
use std::str;

/// What stands for a byte of a text that isn't UTF-8: its character of ASCII, or a question mark.
fn character_of(byte: u8) -> char
    ensures { encode_utf8 result ≡ spec.character_of byte }
{
    if byte.is_ascii() {
        char::from(byte)
    } else {
        '?'
    }
}

/// A text that isn't UTF-8, with a question mark in the place of each byte that isn't ASCII.
fn in_ascii(alloc: Global, bytes: &[u8]) -> Result<String, AllocError>
    ensures { IfOk result (λ t. string_bytes t ≡ flat_map spec.character_of bytes.now) }
{
    let mut text = String::with_capacity(alloc, bytes.len())?;
    for byte in bytes {
        text.push(character_of(*byte))?;
    }
    Ok(text)
}

/// What a terminal shows of bytes, as `shown_lines` does: a `?` also in the place of each byte that isn't ASCII, where
/// they aren't UTF-8.
///
/// It fails for want of memory alone.
#[tactic(auto, using(crate::proofs::columns::Utf8::is_text, crate::proofs::columns::Utf8::is_no_text))]
pub fn shown_bytes(alloc: Global, bytes: &[u8]) -> Result<String, AllocError>
    ensures { IfOk result (λ t. string_bytes t ≡ spec.shown_bytes bytes.now) }
{
    match str::from_utf8(bytes) {
        Ok(text) => shown_lines(alloc, text),
        Err(_) => shown_lines(alloc, in_ascii(alloc, bytes)?.as_str()),
    }
}

/// How many lines a text has that are ended.
pub fn line_count(text: &str) -> usize
    ensures { result ≡ spec.line_count text.now }
{
    text.as_bytes()
        .iter()
        .filter(|byte| **byte == b'\n')
        .count()
}

/// What is behind the end of a colour, where it stands in front of a text: behind its first `m`.
fn behind_colour(text: &str) -> &str
    ensures { result.now ≡ spec.behind_colour text.now }
{
    match text.split_once('m') {
        Some((_, rest)) => rest,
        None => "",
    }
}

/// Adds the parts of a text that stand behind colours, each without its colour.
fn push_behind_colours(plain: &mut String, parts: &[&str]) -> Result<(), AllocError>
    ensures { OnOk result (string_bytes plain.new
        ≡ string_bytes plain.old ++ flat_map spec.behind_colour (texts parts.now)) }
{
    for part in parts {
        plain.push_str(behind_colour(part))?;
    }
    Ok(())
}

/// The parts of a text between its escapes.
fn parts_at_escapes(alloc: Global, text: &str) -> Result<Vec<&str>, AllocError>
    ensures { IfOk result (λ v. texts v.items ≡ slice_split (λ b. b == 27) text.now) }
{
    let mut parts = Vec::with_capacity(alloc, 1)?;
    parts.extend(text.split('\u{1b}'))?;
    Ok(parts)
}

/// Adds the parts of a text between its escapes without the colours that the escapes begin.
fn push_plain(plain: &mut String, parts: &[&str]) -> Result<(), AllocError>
    ensures { OnOk result (string_bytes plain.new ≡ string_bytes plain.old ++ spec.plain_parts (texts parts.now)) }
{
    match parts {
        [] => Ok(()),
        [first, rest @ ..] => {
            plain.push_str(first)?;
            push_behind_colours(plain, rest)
        }
    }
}

/// A report without its colours: each begins with an escape and ends with the next `m`.
///
/// It fails for want of memory alone.
pub fn without_colours(alloc: Global, text: &str) -> Result<String, AllocError>
    ensures { IfOk result (λ t. string_bytes t ≡ spec.without_colours text.now) }
{
    let parts = parts_at_escapes(alloc, text)?;
    let mut plain = String::with_capacity(alloc, text.len())?;
    push_plain(&mut plain, parts.as_slice())?;
    Ok(plain)
}
