//! Which command of a file an evaluation stood at, and in which line: the text of a script is looked for in the braces of
//! the file.
ghost use Rattle.std.specs.Prelude.{◌≡◌, ◌≤◌, ◌==◌, ◌∷◌, IfOk, ℕ, suc, false, count_by, length, take};
ghost use Rattle.tcltext.specs.chars.Runs.{drop_while};
ghost use Rattle.tcltext.specs.chars.Backslash.{is_blank_or_tab};
ghost use Rattle.tcltext.specs.chars.Braces.{braced_at};
ghost use Rattle.tclrules.specs.Meaning.{line_at};
ghost use Rattle.tclrules.specs.Places.{behind_value, offset_inside, offset_from, offset_in_file};
ghost use Rattle.tcleval.specs.OpenScripts.{script_view};

use std::alloc::{AllocError, Global};
use tcltext::chars::{push_braced_text, split_close};

/// A script under evaluation, whose text is looked for in a file.
#[derive(Clone, Copy)]
pub(crate) struct SoughtScript<'t> {
    /// How many scripts may still begin inside of it.
    pub(crate) remaining: u32,
    /// The text.
    pub(crate) text: &'t str,
    /// The offset in the text, in bytes, of its current command.
    pub(crate) offset: usize,
}

/// The bytes behind the blanks and tabs that these begin with.
fn after_blanks(bytes: &[u8]) -> &[u8]
    ensures { result.now ≡ drop_while is_blank_or_tab bytes.now }
{
    let mut rest = bytes;
    while let [byte, after @ ..] = rest {
        if *byte != b' ' && *byte != b'\t' {
            return rest;
        }
        rest = after;
    }
    rest
}

/// What is left behind the first byte of the value of a text in braces, and whether that was a backslash that keeps the
/// next byte as it is.
fn behind_byte(escaped: bool, byte: u8, after: &[u8]) -> (bool, &[u8])
    ensures { (n : ℕ) → behind_value escaped (suc n) (byte ∷ after.now) ≡ behind_value result.0 n result.1.now }
{
    if escaped || byte != b'\\' {
        return (false, after);
    }
    match after {
        [b'\n', blanks @ ..] => (false, after_blanks(blanks)),
        _ => (true, after),
    }
}

/// What is left of a text in braces behind so many bytes of its value.
fn behind_value(inside: &[u8], offset: usize) -> &[u8]
    ensures { result.now ≡ behind_value false offset inside.now }
{
    let mut rest = inside;
    let mut left = offset;
    let mut escaped = false;
    while left > 0 {
        let [byte, after @ ..] = rest else {
            return rest;
        };
        left -= 1;
        let (escapes, behind) = behind_byte(escaped, *byte, after);
        escaped = escapes;
        rest = behind;
    }
    rest
}

/// The offset of the current command of a script in the braces that a text follows, where what is in them has the value
/// that the script is.
fn offset_inside(
    alloc: Global,
    script: SoughtScript<'_>,
    text: &str,
) -> Result<Option<usize>, AllocError>
    ensures { IfOk result (λ found. found ≡ offset_inside (script_view script.entry) (braced_at false 0 text.now)) }
{
    let Some((inside, _)) = split_close(text) else {
        return Ok(None);
    };
    let mut value = String::new(alloc);
    push_braced_text(&mut value, inside)?;
    if value.as_str() != script.text {
        return Ok(None);
    }
    let rest = behind_value(inside.as_bytes(), script.offset);
    Ok(Some(inside.len() - rest.len()))
}

/// The offset of the current command of a script in a file: in the first such braces that open at this offset or
/// behind.
fn offset_from(
    alloc: Global,
    script: SoughtScript<'_>,
    from: usize,
    file: &str,
) -> Result<Option<usize>, AllocError>
    ensures { IfOk result (λ found. found ≡ offset_from (script_view script.entry) from file.now) }
{
    let mut rest = file;
    while let Some((_, after)) = rest.split_once('{') {
        let begin = file.len() - after.len();
        if begin > from {
            if let Some(offset) = offset_inside(alloc, script, after)? {
                return Ok(Some(begin + offset));
            }
        }
        rest = after;
    }
    Ok(None)
}

/// The offset of the current command of a script behind a command at this offset of the file, or else anywhere in the
/// file.
pub(crate) fn offset_in_file(
    alloc: Global,
    file: &str,
    at: usize,
    script: SoughtScript<'_>,
) -> Result<Option<usize>, AllocError>
    ensures { IfOk result (λ found. found ≡ offset_in_file file.now at (script_view script.entry)) }
{
    match offset_from(alloc, script, at, file)? {
        Some(offset) => Ok(Some(offset)),
        None => offset_from(alloc, script, 0, file),
    }
}

/// The bytes before an offset.
fn prefix(bytes: &[u8], offset: usize) -> &[u8]
    ensures { result.now ≡ take offset bytes.now }
{
    if offset < bytes.len() {
        &bytes[..offset]
    } else {
        bytes
    }
}

/// How many newlines bytes have.
fn newlines(bytes: &[u8]) -> usize
    ensures number { result ≡ count_by (λ b. b == 10) bytes.now }
    ensures within { result ≤ length bytes.now }
{
    bytes.iter().filter(|byte| **byte == b'\n').count()
}

/// The line, counted from 1, of a byte offset in a script.
pub(crate) fn line_at(script: &str, offset: usize) -> usize
    ensures { result ≡ line_at script.now offset }
{
    1 + newlines(prefix(script.as_bytes(), offset))
}
