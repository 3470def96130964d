//! A call of `ModulesHelp` behind the text of a modulefile.
ghost use Rattle.std.specs.Prelude.{◌≡◌, ◌++◌, IfOk, OnOk, string_bytes};
ghost use Rattle.module_reports.specs.descriptions.Calls.{is_special, quoted, quoted_char, with_call};

use std::alloc::{AllocError, Global};

/// Whether the character means something between the double quotes of a Tcl script.
fn is_special(c: char) -> bool
    ensures { result ≡ is_special c }
{
    c == '"' || c == '$' || c == '[' || c == '\\'
}

/// Adds a character that stands for itself between double quotes.
fn push_quoted(text: &mut String, c: char) -> Result<(), AllocError>
    ensures { OnOk result (string_bytes text.new ≡ string_bytes text.old ++ quoted_char c) }
{
    if is_special(c) {
        text.push('\\')?;
        text.push(c)
    } else {
        text.push(c)
    }
}

/// A text, each of whose characters stands for itself between double quotes.
fn quoted(alloc: Global, text: &str) -> Result<String, AllocError>
    ensures { IfOk result (λ t. string_bytes t ≡ quoted text.now) }
{
    let mut quoted = String::with_capacity(alloc, text.len())?;
    for c in text.chars() {
        push_quoted(&mut quoted, c)?;
    }
    Ok(quoted)
}

/// The text of a modulefile with a call of its procedure behind it, which is reached also where the file returns.
pub(crate) fn with_call(alloc: Global, text: &str) -> Result<String, AllocError>
    ensures { IfOk result (λ t. string_bytes t ≡ with_call text.now) }
{
    let file = quoted(alloc, text)?;
    let mut called = String::from_str(alloc, "catch \"")?;
    called.push_str(file.as_str())?;
    called.push_str("\"\nModulesHelp\n")?;
    Ok(called)
}
