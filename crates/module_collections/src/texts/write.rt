//! The text of a collection, which is read again as the same.
ghost use Rattle.std.specs.Prelude.{◌≡◌, ◌++◌, flat_map, map, not, string_bytes, IfOk, OnOk};
ghost use Rattle.std.specs.List.{list_all};
ghost use Rattle.module_collections.specs.texts.Spelling as spec;
ghost use Rattle.module_collections.specs.texts.Views.{kept_view};

use crate::texts::collection::Collection;
use crate::texts::words::is_alphanumeric;
use std::alloc::{AllocError, Global};

/// Whether a byte of a word is written as it is.
fn is_plain(byte: u8) -> bool
    ensures { result ≡ spec.is_plain byte }
{
    is_alphanumeric(byte) || 128 <= byte || b"_/.,+=@%^~:-".contains(&byte)
}

/// Whether braces don't keep the byte.
fn is_unbraced(byte: u8) -> bool
    ensures { result ≡ spec.is_unbraced byte }
{
    byte == b'{' || byte == b'}' || byte == b'\\' || byte == b'\n'
}

/// Adds a byte, behind a backslash where it is odd.
fn push_escape(text: &mut Vec<u8>, byte: u8) -> Result<(), AllocError>
    ensures { OnOk result (text.new.items ≡ text.old.items ++ spec.escape byte) }
{
    if is_plain(byte) {
        text.push(byte)?;
        return Ok(());
    }
    let meant = if byte == b'\n' { b'n' } else { byte };
    text.extend_from_slice(&[b'\\', meant])
}

/// Adds a word with backslashes.
fn push_escaped(text: &mut Vec<u8>, word: &[u8]) -> Result<(), AllocError>
    ensures { OnOk result (text.new.items ≡ text.old.items ++ flat_map spec.escape word.now) }
{
    for byte in word {
        push_escape(text, *byte)?;
    }
    Ok(())
}

/// Adds a word in braces.
fn push_braced(text: &mut Vec<u8>, word: &[u8]) -> Result<(), AllocError>
    ensures { OnOk result (text.new.items ≡ text.old.items ++ spec.braced word.now) }
{
    text.push(b'{')?;
    text.extend_from_slice(word)?;
    text.push(b'}')?;
    Ok(())
}

/// Whether each byte of a word is written as it is.
fn are_plain(word: &[u8]) -> bool
    ensures { result ≡ list_all spec.is_plain word.now }
{
    word.iter().all(|byte| is_plain(*byte))
}

/// Whether braces keep a word.
fn are_braced(word: &[u8]) -> bool
    ensures { result ≡ list_all (λ b. not (spec.is_unbraced b)) word.now }
{
    word.iter().all(|byte| !is_unbraced(*byte))
}

/// Adds a word as it is, in braces, or with backslashes, whichever comes first of those that are read again.
fn push_spelled(text: &mut Vec<u8>, word: &[u8]) -> Result<(), AllocError>
    ensures { OnOk result (text.new.items ≡ text.old.items ++ spec.spelled word.now) }
{
    if are_plain(word) {
        return text.extend_from_slice(word);
    }
    if are_braced(word) {
        return push_braced(text, word);
    }
    push_escaped(text, word)
}

/// Adds a line: its beginning, and a word.
fn push_line(text: &mut Vec<u8>, front: &[u8], word: &[u8]) -> Result<(), AllocError>
    ensures { OnOk result (text.new.items ≡ text.old.items ++ spec.line front.now word.now) }
{
    text.extend_from_slice(front)?;
    push_spelled(text, word)?;
    text.push(b'\n')?;
    Ok(())
}

/// Adds a line for each of the words.
fn push_lines(text: &mut Vec<u8>, front: &[u8], words: &[String]) -> Result<(), AllocError>
    ensures { OnOk result (text.new.items
        ≡ text.old.items ++ flat_map (spec.line front.now) (map string_bytes words.now)) }
{
    for word in words {
        push_line(text, front, word.as_bytes())?;
    }
    Ok(())
}

/// The text of a collection.
pub fn write_collection(alloc: Global, collection: &Collection) -> Result<Vec<u8>, AllocError>
    ensures { IfOk result (λ text. text.items ≡ spec.written (kept_view collection.now)) }
{
    let mut text = Vec::new(alloc);
    push_lines(
        &mut text,
        b"module use --append ",
        collection.directories.as_slice(),
    )?;
    push_lines(&mut text, b"module load ", collection.modules.as_slice())?;
    Ok(text)
}
