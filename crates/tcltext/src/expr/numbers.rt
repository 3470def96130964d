//! How numbers are spelled in expressions (expr(n), OPERANDS).
ghost use Rattle.std.specs.Prelude.{◌≡◌, ◌<◌, option_map};
ghost use Rattle.tcltext.specs.expr.Operands.{is_digit, begins_digit, after_digits, announced, after_based, after_sign};
ghost use Rattle.tcltext.specs.expr.Operands.{after_exponent, after_fraction, begins_point, after_decimal, after_number};

use crate::expr::marks::after_first;

/// The digits of a base.
#[derive(Clone, Copy, Debug, PartialEq, Eq)]
pub enum Digits {
    /// 0 and 1.
    Binary,
    /// 0 to 7.
    Octal,
    /// 0 to 9.
    Decimal,
    /// 0 to 9, and a to f in either case.
    Hexadecimal,
}

/// Whether the byte is a digit of the base.
fn is_digit(digits: Digits, b: u8) -> bool
    ensures { result ≡ is_digit digits b }
{
    match digits {
        Digits::Binary => matches!(b, b'0'..=b'1'),
        Digits::Octal => matches!(b, b'0'..=b'7'),
        Digits::Decimal => matches!(b, b'0'..=b'9'),
        Digits::Hexadecimal => matches!(b, b'0'..=b'9')
            || matches!(b, b'A'..=b'F')
            || matches!(b, b'a'..=b'f'),
    }
}

/// Whether the text begins with a digit of the base.
fn begins_digit(text: &str, digits: Digits) -> bool
    ensures { result ≡ begins_digit digits text.now }
{
    match text.as_bytes() {
        [] => false,
        [b, ..] => is_digit(digits, *b),
    }
}

/// The text without the digits that it begins with.
fn after_digits(text: &str, digits: Digits) -> &str
    ensures { result.now ≡ after_digits digits text.now }
{
    let mut rest = text;
    while begins_digit(rest, digits) {
        rest = after_first(rest);
    }
    rest
}

/// The digits that a letter after a leading 0 announces: `x`, `o` or `b` in either case.
fn announced(b: u8) -> Option<Digits>
    ensures { result ≡ announced b }
{
    match b {
        b'x' | b'X' => Some(Digits::Hexadecimal),
        b'o' | b'O' => Some(Digits::Octal),
        b'b' | b'B' => Some(Digits::Binary),
        _ => None,
    }
}

/// The rest after a number with a base prefix, if the text begins with one.
fn after_based(text: &str) -> Option<&str>
    ensures { option_map (λ rest. rest.now) result ≡ after_based text.now }
{
    let [b'0', c, ..] = text.as_bytes() else {
        return None;
    };
    let digits = announced(*c)?;
    let following = after_first(after_first(text));
    if begins_digit(following, digits) {
        Some(after_digits(following, digits))
    } else {
        None
    }
}

/// The text without the sign that it begins with, if it does.
fn after_sign(text: &str) -> &str
    ensures { result.now ≡ after_sign text.now }
{
    match text.as_bytes() {
        [b'+' | b'-', ..] => after_first(text),
        _ => text,
    }
}

/// The text without the exponent that it begins with, if it does.
fn after_exponent(text: &str) -> &str
    ensures { result.now ≡ after_exponent text.now }
{
    let [b'e' | b'E', ..] = text.as_bytes() else {
        return text;
    };
    let digits = after_sign(after_first(text));
    if begins_digit(digits, Digits::Decimal) {
        after_digits(digits, Digits::Decimal)
    } else {
        text
    }
}

/// The text without the point and the digits that it begins with, if it does.
fn after_fraction(text: &str) -> &str
    ensures { result.now ≡ after_fraction text.now }
{
    match text.as_bytes() {
        [b'.', ..] => after_digits(after_first(text), Digits::Decimal),
        _ => text,
    }
}

/// The rest after a decimal number, if the text begins with one.
fn after_decimal(text: &str) -> Option<&str>
    ensures { option_map (λ rest. rest.now) result ≡ after_decimal text.now }
{
    if begins_digit(text, Digits::Decimal) || begins_point(text) {
        Some(after_exponent(after_fraction(after_digits(text, Digits::Decimal))))
    } else {
        None
    }
}

/// Whether the text begins with a point and a digit.
fn begins_point(text: &str) -> bool
    ensures { result ≡ begins_point text.now }
{
    match text.as_bytes() {
        [b'.', b, ..] => is_digit(Digits::Decimal, *b),
        _ => false,
    }
}

/// The rest after the longest number that the text begins with, if it does.
pub(crate) fn after_number(text: &str) -> Option<&str>
    ensures { option_map (λ rest. rest.now) result ≡ after_number text.now }
{
    match after_based(text) {
        Some(rest) => Some(rest),
        None => after_decimal(text),
    }
}
