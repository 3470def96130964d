//! The value of a text in braces (Tcl(n), rules 6 and 9).
ghost use Rattle.std.specs.Prelude.{◌≡◌, ◌≤◌, ◌++◌, length, IfOk, OnOk, string_bytes};
ghost use Rattle.tcltext.specs.chars.BracedText.{braced_text, braced_after_backslash};

use crate::chars::runs::{Class, after_mark, split_run};
use std::alloc::AllocError;

/// Adds the value of a text in braces, given without them: the text itself, but that a backslash before a newline
/// becomes, with the blanks and tabs after them, one space (Tcl(n), rules 6 and 9).
pub fn push_braced_text(value: &mut String, inside: &str) -> Result<(), AllocError>
    ensures { OnOk result (string_bytes value.new ≡ string_bytes value.old ++ braced_text inside.now) }
{
    let (run, mut rest) = split_run(inside, Class::Unescaped);
    value.push_str(run)?;
    while let Some(after) = after_mark(rest, b'\\') {
        let following = push_escape(value, after)?;
        let (run, more) = split_run(following, Class::Unescaped);
        value.push_str(run)?;
        rest = more;
    }
    Ok(())
}

/// Adds the value of a backslash and the character that it escapes, and answers the rest; `after` is what follows the
/// backslash.
fn push_escape<'a>(value: &mut String, after: &'a str) -> Result<&'a str, AllocError>
    ensures shorter { IfOk result (λ rest. length rest.now ≤ length after.now) }
    ensures text { IfOk result
        (λ rest. string_bytes value.new ++ braced_text rest.now
        ≡ string_bytes value.old ++ braced_after_backslash after.now) }
{
    if let Some(next) = after_mark(after, b'\n') {
        value.push(' ')?;
        return Ok(split_run(next, Class::BlankOrTab).1);
    }
    value.push('\\')?;
    if let Some(next) = after_mark(after, b'\\') {
        value.push('\\')?;
        return Ok(next);
    }
    Ok(after)
}
