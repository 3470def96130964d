//! The file of a site with the directories that are searched where a user has no MODULEPATH.
ghost use Rattle.std.specs.Prelude.{◌≡◌, ◌++◌, IfOk, OnOk, vec_items};
ghost use Rattle.envvars.specs.Texts.{slice_texts};
ghost use Rattle.module_words.specs.function.Sites as spec;

use envvars::fields::parts;
use std::alloc::{AllocError, Global};

/// Whether a byte is a blank or a tabulator.
fn is_blank(byte: u8) -> bool
    ensures { result ≡ spec.is_blank byte }
{
    byte == b' ' || byte == b'\t'
}

/// A text without the blanks at its front.
fn unblanked(text: &[u8]) -> &[u8]
    ensures { result.now ≡ spec.unblanked text.now }
{
    let mut rest = text;
    while let [byte, after @ ..] = rest {
        if !is_blank(*byte) {
            return rest;
        }
        rest = after;
    }
    rest
}

/// Whether a text begins with `#`.
fn is_comment(text: &[u8]) -> bool
    ensures { result ≡ spec.is_comment text.now }
{
    match text {
        [byte, ..] => *byte == b'#',
        [] => false,
    }
}

/// Whether a blank stands at the front of a text.
fn begins_blank(text: &[u8]) -> bool
    ensures { result ≡ spec.begins_blank text.now }
{
    match text {
        [byte, ..] => is_blank(*byte),
        [] => false,
    }
}

/// Whether there are only blanks, or a comment behind some.
fn is_over(text: &[u8]) -> bool
    ensures { result ≡ spec.is_over text.now }
{
    let rest = unblanked(text);
    match rest {
        [] => true,
        [_, ..] => begins_blank(text) && is_comment(rest),
    }
}

/// A text up to where it is over.
fn content(alloc: Global, text: &[u8]) -> Result<Vec<u8>, AllocError>
    ensures { IfOk result (λ v. vec_items v ≡ spec.content text.now) }
{
    let mut kept = Vec::new(alloc);
    let mut rest = text;
    while let [byte, after @ ..] = rest {
        if is_over(rest) {
            return Ok(kept);
        }
        kept.push(*byte)?;
        rest = after;
    }
    Ok(kept)
}

/// The directory in a line; nothing where it is a comment.
fn directory(alloc: Global, line: &[u8]) -> Result<Vec<u8>, AllocError>
    ensures { IfOk result (λ v. vec_items v ≡ spec.directory line.now) }
{
    let line = unblanked(line);
    if is_comment(line) {
        return Ok(Vec::new(alloc));
    }
    content(alloc, line)
}

/// Adds a directory to others, behind a colon where there are some.
fn push_directory(joined: &mut Vec<u8>, directory: &[u8]) -> Result<(), AllocError>
    ensures { OnOk result (vec_items joined.new ≡ spec.with_directory (vec_items joined.old) directory.now) }
{
    if directory.is_empty() {
        return Ok(());
    }
    if !joined.is_empty() {
        joined.push(b':')?;
    }
    joined.extend_from_slice(directory)?;
    Ok(())
}

/// The directories of some lines, joined by colons.
fn directories(alloc: Global, lines: &[&str]) -> Result<Vec<u8>, AllocError>
    ensures { IfOk result (λ v. vec_items v ≡ spec.joined_lines (slice_texts lines.now)) }
{
    let mut joined = Vec::new(alloc);
    for line in lines {
        let directory = directory(alloc, line.as_bytes())?;
        push_directory(&mut joined, &directory)?;
    }
    Ok(joined)
}

/// The directories in the text of such a file, joined by colons, as bytes: one a line, without blanks around it. `#` begins
/// a comment at the front of a line, or behind a blank.
///
/// It fails for want of memory.
pub fn site_directories(alloc: Global, text: &str) -> Result<Vec<u8>, AllocError>
    ensures { IfOk result (λ v. vec_items v ≡ spec.site_directories text.now) }
{
    let lines = parts(alloc, text, '\n')?;
    directories(alloc, &lines)
}
