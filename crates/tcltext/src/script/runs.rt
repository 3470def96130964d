//! What is skipped or taken: blanks, gaps with their comments, and names of variables (Tcl(n), rules 3, 8 and 10).
ghost use Rattle.std.specs.Prelude.{◌≡◌, ◌<◌, ◌≤◌, ◌∷◌, ◌&&◌, ◌==◌, false, not, length, MatchOption};
ghost use Rattle.tcltext.specs.chars.Bytes.{newline, hash, backslash};
ghost use Rattle.tcltext.specs.chars.Runs.{begins};
ghost use Rattle.tcltext.specs.script.ScanState.{Comment, Name, scan, skip_blanks, skip_gap, joins_lines, is_in_name};

use crate::chars::{Class, after_mark, is_name, split_run};

/// The text after a backslash and a newline, which join two lines, where it begins with them.
fn after_joined_lines(text: &str) -> Option<&str>
    ensures { MatchOption result (joins_lines text.now ≡ false)
        (λ rest. text.now ≡ backslash ∷ (newline ∷ rest.now)) }
{
    after_mark(after_mark(text, b'\\')?, b'\n')
}

/// The text without the blanks that it begins with.
pub(crate) fn skip_blanks(text: &str) -> &str
    ensures { result.now ≡ skip_blanks text.now }
{
    let mut rest = split_run(text, Class::Blank).1;
    while let Some(next) = after_joined_lines(rest) {
        rest = split_run(next, Class::Blank).1;
    }
    rest
}

/// Whether the byte ends the comment that it is in, `escaped` or not.
fn ends_comment(escaped: bool, b: u8) -> bool
    ensures { result ≡ (b == newline && not escaped) }
{
    b == b'\n' && !escaped
}

/// Whether the byte of a comment, `escaped` or not, takes the next one with it.
fn escapes_next(escaped: bool, b: u8) -> bool
    ensures { result ≡ (b == backslash && not escaped) }
{
    b == b'\\' && !escaped
}

/// The text from the newline on that ends a comment, nothing where none does; `text` follows the mark of the comment.
fn skip_comment(text: &str) -> &str
    ensures same { (scan Comment text.now).1 ≡ skip_gap result.now }
    ensures shorter { length result.now ≤ length text.now }
{
    let bytes = text.as_bytes();
    let mut escaped = false;
    for (n, b) in bytes.iter().enumerate() {
        if ends_comment(escaped, *b) {
            return text.split_at(n).1;
        }
        escaped = escapes_next(escaped, *b);
    }
    text.split_at(text.len()).1
}

/// The text after a comment, or after two lines that are joined, where it begins with one of them.
fn after_comment(text: &str) -> Option<&str>
    ensures { MatchOption result ((begins hash text.now ≡ false) × (joins_lines text.now ≡ false))
        (λ rest. (skip_gap text.now ≡ skip_gap rest.now) × (length rest.now < length text.now)) }
{
    match after_mark(text, b'#') {
        Some(comment) => Some(skip_comment(comment)),
        None => after_joined_lines(text),
    }
}

/// The text without the gap that it begins with: white space, semicolons and comments.
pub(crate) fn skip_gap(text: &str) -> &str
    ensures { result.now ≡ skip_gap text.now }
{
    let mut rest = split_run(text, Class::Gap).1;
    while let Some(next) = after_comment(rest) {
        rest = split_run(next, Class::Gap).1;
    }
    rest
}

/// Whether the text begins with that byte.
fn begins(text: &[u8], mark: u8) -> bool
    ensures { result ≡ begins mark text.now }
{
    match text {
        [b, ..] => *b == mark,
        [] => false,
    }
}

/// Whether a name goes on with the byte, after a colon or not; one colon alone is no part of it.
fn is_in_name(after_colon: bool, b: u8, after: &[u8]) -> bool
    ensures { result ≡ is_in_name after_colon b after.now }
{
    is_name(b) || b == b':' && (after_colon || begins(after, b':'))
}

/// The name of a variable that the text begins with, and the rest.
pub(crate) fn split_name(text: &str) -> (&str, &str)
    ensures run { result.0.now ≡ (scan Name text.now).0 }
    ensures rest { result.1.now ≡ (scan Name text.now).1 }
{
    let bytes = text.as_bytes();
    let mut after_colon = false;
    for (n, b) in bytes.iter().enumerate() {
        if !is_in_name(after_colon, *b, &bytes[n + 1..]) {
            return text.split_at(n);
        }
        after_colon = *b == b':';
    }
    text.split_at(text.len())
}
