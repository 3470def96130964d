//! The text of a file: UTF-8, in lines that end in newlines, however it was written.
ghost use Rattle.std.specs.Prelude.{◌≡◌, IfOk, string_bytes};
ghost use Rattle.port_reading.specs.FileTexts.{IsPlain};

use std::alloc::{AllocError, Global};

/// The text of a file, and how it was written.
#[derive(Debug, Drop)]
pub struct FileText {
    /// The text, without a byte order mark and without a carriage return before a newline.
    pub text: String,
    /// How it was written.
    pub source: SourceEncoding,
}

/// How a file was written.
#[derive(Clone, Copy, Debug)]
pub struct SourceEncoding {
    /// Whether it began with a byte order mark.
    pub mark: bool,
    /// Whether bytes in it weren't UTF-8, and were read as ISO 8859-1.
    pub latin: bool,
    /// Whether a line ended in a carriage return and a newline.
    pub returns: bool,
    /// Whether a carriage return stands elsewhere.
    pub lone_returns: bool,
}

/// The bytes without a byte order mark in UTF-8.
fn unmarked(bytes: &[u8]) -> &[u8] {
    match bytes {
        [0xEF, 0xBB, 0xBF, rest @ ..] => rest,
        _ => bytes,
    }
}

/// Adds bytes as the characters of their numbers.
fn push_latin(text: &mut String, bytes: &[u8]) -> Result<(), AllocError> {
    for byte in bytes {
        text.push(char::from(*byte))?;
    }
    Ok(())
}

/// The text of bytes: what is UTF-8 as it is, and each other byte as the character of its number.
fn decoded(alloc: Global, bytes: &[u8]) -> Result<String, AllocError> {
    let mut text = String::new(alloc);
    for chunk in bytes.utf8_chunks() {
        text.push_str(chunk.valid())?;
        push_latin(&mut text, chunk.invalid())?;
    }
    Ok(text)
}

/// The text of a file of these bytes, and how it was written.
pub fn file_text(alloc: Global, bytes: &[u8]) -> Result<FileText, AllocError>
    // A file that wasn't written in another way is its text, byte for byte.
    ensures { IfOk result (λ f. IsPlain f.source → string_bytes f.text ≡ bytes.now) }
{
    let rest = unmarked(bytes);
    let whole = decoded(alloc, rest)?;
    let text = whole.as_str().replace(alloc, "\r\n", "\n")?;
    let source = SourceEncoding {
        mark: rest != bytes,
        latin: whole.as_bytes() != rest,
        returns: text.as_str() != whole.as_str(),
        lone_returns: text.as_str().contains('\r'),
    };
    Ok(FileText { text, source })
}
