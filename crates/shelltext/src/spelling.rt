//! How a value is quoted, and how a line that sets or unsets a variable is written, for each family of shells.
ghost use Rattle.std.specs.Prelude.{◌≡◌, ◌<◌, ◌==◌, ◌++◌, true, not, OnOk, string_bytes, encode_utf8};
ghost use Rattle.std.specs.List.{flat_map, list_all, list_any};
ghost use Rattle.shelltext.specs.Reading as reading;
ghost use Rattle.shelltext.specs.Printing as printing;

use crate::family::Family;
use std::alloc::AllocError;

/// Whether the value has the character, which is ASCII.
fn has(value: &str, c: char) -> bool
    requires { c < 128 }
    ensures { result ≡ list_any (λ b. b == c) value.now }
{
    value.contains(c)
}

/// Whether the value has a byte that no text of these shells says.
fn has_unsayable(family: Family, value: &str) -> bool
    ensures { result ≡ list_any (reading.is_unsayable family) value.now }
{
    match family {
        Family::Sh | Family::Fish => has(value, '\0'),
        Family::Csh => has(value, '\0') || has(value, '\n'),
    }
}

/// Whether a text of these shells can say the value: it has no NUL, nor, for csh and tcsh, a newline.
pub fn is_value_sayable(family: Family, value: &str) -> bool
    ensures { result ≡ list_all (λ b. not (reading.is_unsayable family b)) value.now }
{
    !has_unsayable(family, value)
}

/// Whether the character means something inside single quotes, and so needs a backslash.
fn is_special(family: Family, c: char) -> bool
    ensures { result ≡ reading.is_special family c }
{
    match family {
        Family::Sh => c == '\'',
        Family::Csh => c == '\'' || c == '!',
        Family::Fish => c == '\'' || c == '\\',
    }
}

/// Whether a character of the value needs a backslash. Most values have none, and are then appended as they are.
fn has_special(family: Family, value: &str) -> bool
    ensures { result ≡ list_any (reading.is_special family) value.now }
{
    match family {
        Family::Sh => has(value, '\''),
        Family::Csh => has(value, '\'') || has(value, '!'),
        Family::Fish => has(value, '\'') || has(value, '\\'),
    }
}

/// Appends a character that needs a backslash. In sh and csh the quotes end before it and begin again after it.
fn push_special(out: &mut String, family: Family, special: char) -> Result<(), AllocError>
    requires { reading.is_special family special ≡ true }
    ensures { OnOk result (string_bytes out.new ≡ string_bytes out.old ++ printing.special_text family special) }
{
    match family {
        Family::Sh | Family::Csh => {
            out.push_str("'\\")?;
            out.push(special)?;
            out.push('\'')
        }
        Family::Fish => {
            out.push('\\')?;
            out.push(special)
        }
    }
}

/// Appends a character of a value that is inside single quotes.
fn push_char(out: &mut String, family: Family, c: char) -> Result<(), AllocError>
    ensures { OnOk result (string_bytes out.new ≡ string_bytes out.old
        ++ flat_map (printing.spell family) (encode_utf8 c)) }
{
    if is_special(family, c) {
        push_special(out, family, c)
    } else {
        out.push(c)
    }
}

/// Appends what is inside the single quotes of a value.
fn push_inner(out: &mut String, family: Family, value: &str) -> Result<(), AllocError>
    ensures { OnOk result (string_bytes out.new ≡ string_bytes out.old ++ flat_map (printing.spell family) value.now) }
{
    if !has_special(family, value) {
        return out.push_str(value);
    }
    for c in value.chars() {
        push_char(out, family, c)?;
    }
    Ok(())
}

/// Appends a value, or a word of a command, in single quotes, as the shells of the family read it back.
pub fn push_quoted(out: &mut String, family: Family, value: &str) -> Result<(), AllocError>
    ensures { OnOk result (string_bytes out.new ≡ string_bytes out.old ++ printing.quoted family value.now) }
{
    out.push('\'')?;
    push_inner(out, family, value)?;
    out.push('\'')
}

/// Appends the line that sets the variable to the value and exports it.
pub fn push_set(out: &mut String, family: Family, name: &str, value: &str) -> Result<(), AllocError>
    ensures { OnOk result (string_bytes out.new ≡ string_bytes out.old
        ++ reading.set_line family name.now (printing.quoted family value.now)) }
{
    match family {
        Family::Sh => {
            out.push_str(name)?;
            out.push('=')?;
            push_quoted(out, family, value)?;
            out.push_str("; export ")?;
            out.push_str(name)?;
        }
        Family::Csh => {
            out.push_str("setenv ")?;
            out.push_str(name)?;
            out.push(' ')?;
            push_quoted(out, family, value)?;
        }
        Family::Fish => {
            out.push_str("set -xg ")?;
            out.push_str(name)?;
            out.push(' ')?;
            push_quoted(out, family, value)?;
        }
    }
    out.push_str(";\n")
}

/// Appends the line that unsets the variable.
pub fn push_unset(out: &mut String, family: Family, name: &str) -> Result<(), AllocError>
    ensures { OnOk result (string_bytes out.new ≡ string_bytes out.old ++ reading.unset_line family name.now) }
{
    match family {
        Family::Sh => out.push_str("unset ")?,
        Family::Csh => out.push_str("unsetenv ")?,
        Family::Fish => out.push_str("set -e ")?,
    }
    out.push_str(name)?;
    out.push_str(";\n")
}
