//! What a backslash and the characters after it stand for (Tcl(n), rule 9).
ghost use Rattle.std.specs.Prelude.{true, ◌≡◌, ◌<◌, ◌≤◌, ◌^◌, ◌-◌, encode_utf8, option_map};
ghost use Rattle.std.specs.Char.{digit_value};
ghost use Rattle.tcltext.specs.chars.Backslash.{after_backslash, letter_value, is_octal, begins_wide, digit_at, octal_at};
ghost use Rattle.tcltext.specs.chars.Backslash.{hexadecimal_at, character, code_at, wide_code_at, begins_hexadecimal};

use crate::chars::runs::{Class, split_run};

/// The character that a backslash stands for (Tcl(n), rule 9), and the rest of the text; `text` is what follows the
/// backslash. Takes no memory.
///
/// None where a backslash stands for no character: at the end of the text, before a code from D800 to DFFF (half of a
/// pair of UTF-16), and before `U` and a hexadecimal digit.
pub fn read_backslash(text: &str) -> Option<(char, &str)>
    ensures { option_map (λ p. (encode_utf8 p.0, p.1.now)) result ≡ after_backslash text.now }
{
    let [b, ..] = text.as_bytes() else {
        return None;
    };
    let b = *b;
    if b >= 128 {
        return wide_character(text);
    }
    let rest = text.split_at(1).1;
    if b == b'\n' {
        return Some((' ', split_run(rest, Class::BlankOrTab).1));
    }
    if is_octal(b) {
        let (value, rest) = octal(text, 3, 0);
        return character(value, rest);
    }
    if b == b'x' {
        return code(rest, 2, 'x');
    }
    if b == b'u' {
        return code(rest, 4, 'u');
    }
    if b == b'U' {
        return wide_code(rest);
    }
    Some((letter(b), rest))
}

/// A character of several bytes, which stands for itself, and the rest.
fn wide_character(text: &str) -> Option<(char, &str)>
    requires { begins_wide text.now ≡ true }
    ensures { option_map (λ p. (encode_utf8 p.0, p.1.now)) result ≡ after_backslash text.now }
{
    let mut chars = text.chars();
    Some((chars.next()?, chars.as_str()))
}

/// Whether the byte is an octal digit.
fn is_octal(b: u8) -> bool
    ensures { result ≡ is_octal b }
{
    matches!(b, b'0'..=b'7')
}

/// The character that an ASCII character after a backslash stands for: a control character for one of `abfnrtv`, else
/// itself.
fn letter(b: u8) -> char
    requires { b < 128 }
    ensures { result ≡ letter_value b }
{
    match b {
        b'a' => '\x07',
        b'b' => '\x08',
        b'f' => '\x0c',
        b'n' => '\n',
        b'r' => '\r',
        b't' => '\t',
        b'v' => '\x0b',
        _ => char::from(b),
    }
}

/// The value of the digit of that base that the text begins with, and the rest.
fn digit(text: &str, base: u32) -> Option<(u32, &str)>
    requires low { 2 ≤ base }
    requires high { base ≤ 16 }
    ensures { option_map (λ p. (p.0, p.1.now)) result ≡ digit_at base text.now }
{
    match text.as_bytes() {
        [b, ..] if digit_value(*b) < base => Some((digit_value(*b), text.split_at(1).1)),
        _ => None,
    }
}

/// The value of a digit of bases up to 36; 36 for any other byte.
pub fn digit_value(b: u8) -> u32
    ensures { result ≡ digit_value b }
{
    match b {
        b'0'..=b'9' => u32::from(b - b'0'),
        b'a'..=b'z' => u32::from(b - b'a') + 10,
        b'A'..=b'Z' => u32::from(b - b'A') + 10,
        _ => 36,
    }
}

/// The number whose first digits gave `value`, with `digits` more octal digits at most, while it stays below 256; and
/// the rest.
fn octal(text: &str, digits: u32, value: u32) -> (u32, &str)
    requires { value < 256 }
    ensures number { (result.0, result.1.now) ≡ octal_at digits value text.now }
    ensures small { result.0 < 256 }
{
    if digits == 0 {
        return (value, text);
    }
    match digit(text, 8) {
        Some((d, rest)) if value * 8 + d < 256 => octal(rest, digits - 1, value * 8 + d),
        _ => (value, text),
    }
}

/// The number whose first digits gave `value`, with `digits` more hexadecimal digits at most; and the rest.
fn hexadecimal(text: &str, digits: u32, value: u32) -> (u32, &str)
    requires few { digits ≤ 4 }
    requires within { value < 16 ^ (4 - digits) }
    ensures number { (result.0, result.1.now) ≡ hexadecimal_at digits value text.now }
    ensures small { result.0 < 16 ^ 4 }
{
    if digits == 0 {
        return (value, text);
    }
    match digit(text, 16) {
        Some((d, rest)) => hexadecimal(rest, digits - 1, value * 16 + d),
        None => (value, text),
    }
}

/// The character with that code, before the rest; none for half of a pair of UTF-16.
fn character(value: u32, rest: &str) -> Option<(char, &str)>
    requires { value < 16 ^ 4 }
    ensures { option_map (λ p. (encode_utf8 p.0, p.1.now)) result ≡ character (value, rest.now) }
{
    Some((char::from_u32(value)?, rest))
}

/// The character of `digits` hexadecimal digits at most, after the letter `x` or `u`; without digits the letter stands
/// for itself.
fn code(text: &str, digits: u32, letter: char) -> Option<(char, &str)>
    requires few { digits ≤ 4 }
    requires ascii { letter < 128 }
    ensures { option_map (λ p. (encode_utf8 p.0, p.1.now)) result ≡ code_at digits letter text.now }
{
    if digit(text, 16).is_none() {
        return Some((letter, text));
    }
    let (value, rest) = hexadecimal(text, digits, 0);
    character(value, rest)
}

/// `U`, which stands for itself; before a hexadecimal digit it is unsupported, and stands for nothing.
fn wide_code(text: &str) -> Option<(char, &str)>
    ensures { option_map (λ p. (encode_utf8 p.0, p.1.now)) result ≡ wide_code_at text.now }
{
    if digit(text, 16).is_some() {
        return None;
    }
    Some(('U', text))
}
