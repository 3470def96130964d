//! The fields of a line: texts in which no character ends a field or a line, or changes what stands beside it.
ghost use Rattle.std.specs.Prelude.{◌≡◌, ◌<◌, ◌++◌, [], ◌∷◌, OnOk, encode_utf8, flat_map};
ghost use Rattle.std.specs.Char.{digit_char};
ghost use Rattle.audit_report.specs.Words.{hex_escape, is_control, is_mark, mark_escape, spelled, spelled_char};

use std::alloc::AllocError;

/// The hexadecimal digit of a number.
fn hex_digit(n: u32) -> u8
    requires { n < 16 }
    ensures { result ≡ digit_char n }
{
    let n = n as u8;
    if n < 10 { b'0' + n } else { b'a' + n - 10 }
}

/// Adds a text as it is.
pub(crate) fn push_text(report: &mut Vec<u8>, text: &str) -> Result<(), AllocError>
    ensures { OnOk result (report.new.items ≡ report.old.items ++ text.now) }
{
    report.extend_from_slice(text.as_bytes())
}

/// Whether it is a control character.
fn is_control(c: char) -> bool
    ensures { result ≡ is_control c }
{
    matches!(c, '\0'..='\x1f' | '\x7f'..='\u{9f}')
}

/// Whether it is a mark that ends a line, or says in which direction a text is written.
fn is_mark(c: char) -> bool
    ensures { result ≡ is_mark c }
{
    matches!(c, '\u{61c}' | '\u{200e}'..='\u{200f}' | '\u{2028}'..='\u{202e}' | '\u{2066}'..='\u{2069}')
}

/// Adds the escape of a control character.
fn push_control(report: &mut Vec<u8>, c: char) -> Result<(), AllocError>
    requires { c < 256 }
    ensures { OnOk result (report.new.items ≡ report.old.items ++ hex_escape c) }
{
    let number = c as u32;
    report.extend_from_slice(&[b'\\', b'x', hex_digit(number / 16), hex_digit(number % 16)])
}

/// Adds the escape of a mark.
fn push_mark(report: &mut Vec<u8>, c: char) -> Result<(), AllocError>
    requires { c < 65536 }
    ensures { OnOk result (report.new.items ≡ report.old.items ++ mark_escape c) }
{
    let number = c as u32;
    report.extend_from_slice(&[
        b'\\',
        b'u',
        hex_digit(number / 4096),
        hex_digit(number / 256 % 16),
        hex_digit(number / 16 % 16),
        hex_digit(number % 16),
    ])
}

/// Adds a character as it is.
fn push_plain(report: &mut Vec<u8>, c: char) -> Result<(), AllocError>
    ensures { OnOk result (report.new.items ≡ report.old.items ++ encode_utf8 c) }
{
    let mut bytes = [0; 4];
    report.extend_from_slice(c.encode_utf8(&mut bytes).as_bytes())
}

/// Adds a character of a field: by its escape where it could end the field or the line, and else as it is.
fn push_char(report: &mut Vec<u8>, c: char) -> Result<(), AllocError>
    ensures { OnOk result (report.new.items ≡ report.old.items ++ spelled_char c) }
{
    match c {
        '\\' => report.extend_from_slice(b"\\\\"),
        '\t' => report.extend_from_slice(b"\\t"),
        '\n' => report.extend_from_slice(b"\\n"),
        _ if is_control(c) => push_control(report, c),
        _ if is_mark(c) => push_mark(report, c),
        _ => push_plain(report, c),
    }
}

/// Adds a text as a field: no character of it ends the field or the line.
pub(crate) fn push_field(report: &mut Vec<u8>, text: &str) -> Result<(), AllocError>
    ensures { OnOk result (report.new.items ≡ report.old.items ++ spelled text.now) }
{
    for c in text.chars() {
        push_char(report, c)?;
    }
    Ok(())
}
