//! Numbers as texts: their class and value (expr(n), OPERANDS).
ghost use Rattle.std.specs.Prelude.{◌≡◌, ◌≤◌, ◌<◌, ◌-◌, ◌^◌, min, option_map, true, false, IfSome, Some};
ghost use Rattle.std.specs.List.{prefix_len};
ghost use Rattle.tcltext.specs.chars.Runs.{drop_while};
ghost use Rattle.tcltext.specs.chars.Numerals.{trimmed, trimmed_end, is_minus, without_sign, digits_in, base_of, magnitude};
ghost use Rattle.tcltext.specs.chars.Numerals.{digits_from, after_zero, is_digit, begins_digit, are_digits, is_exponent};
ghost use Rattle.tcltext.specs.chars.Numerals.{may_be_exponent, is_fraction_end, is_number_name, is_fraction, whole_of};
ghost use Rattle.tcltext.specs.chars.Numerals.{numeral};
ghost use Rattle.tcltext.specs.declared.chars.number.Numeral.TheVariants.{Whole};

use crate::chars::backslash::digit_value;
use crate::chars::runs::{Class, is_space, split_run};

/// What a text is as a number.
#[derive(Clone, Copy, Debug, PartialEq, Eq)]
pub enum Numeral {
    /// A whole number that a signed number of 64 bits holds.
    Whole(i64),
    /// A whole number that does not fit into 64 bits.
    TooLarge,
    /// A number with a fraction or an exponent, an infinity, or what is not a number.
    Fraction,
    /// No number.
    Text,
}

/// The class of a text as a number of Tcl, with its value where it is whole. White space may be around it. Takes no
/// memory.
///
/// - `Whole`: an optional sign, then decimal digits, `0x` with hexadecimal, `0o` with octal, `0b` with binary digits,
///   or a leading 0 with octal digits, within 64 bits.
/// - `TooLarge`: such a number outside 64 bits.
/// - `Fraction`: an optional sign, then digits with a point or an exponent, `inf`, `infinity` or `nan` in any case, or
///   a leading 0 with decimal digits of which one is 8 or 9.
/// - `Text`: any other text.
pub fn read_number(text: &str) -> Numeral
    ensures { result ≡ numeral text.now }
{
    if let Some(number) = short_decimal(text.as_bytes()) {
        return Numeral::Whole(number);
    }
    any_number(text)
}

/// So many decimal digits always fit.
const FEW_DIGITS: usize = 18;

/// The number of a few decimal digits alone; none where another byte is among them, or where there are many.
fn few_digits(digits: &[u8]) -> Option<u64>
    ensures { IfSome result (λ n. (n < 2 ^ 63) × (digits_from 10 0 digits.now ≡ Some n)) }
{
    if digits.len() > FEW_DIGITS {
        return None;
    }
    let mut number = 0u64;
    for digit in digits {
        if !is_digit(*digit) {
            return None;
        }
        number = number * 10 + u64::from(*digit - b'0');
    }
    Some(number)
}

/// The number of a few decimal digits alone, the first of which is no 0: what most numbers are, read at once.
fn short_decimal(text: &[u8]) -> Option<i64>
    ensures { IfSome result (λ n. numeral text.now ≡ Whole n) }
{
    match text {
        [first, ..] if *first != b'0' => Some(few_digits(text)? as i64),
        _ => None,
    }
}

/// The class of any text as a number, and its value.
fn any_number(text: &str) -> Numeral
    ensures { result ≡ numeral text.now }
{
    let signed = trim(text);
    let digits = without_sign(signed);
    match magnitude(digits) {
        Some(n) => {
            if is_minus(signed) {
                negative(n)
            } else {
                positive(n)
            }
        }
        None => {
            if is_fraction(digits) {
                Numeral::Fraction
            } else {
                Numeral::Text
            }
        }
    }
}

/// The bytes of the text without the white space around it.
fn trim(text: &str) -> &[u8]
    ensures { result.now ≡ trimmed text.now }
{
    trim_end(split_run(text, Class::Space).1.as_bytes())
}

/// The bytes without the white space that they end with.
fn trim_end(bytes: &[u8]) -> &[u8]
    ensures { result.now ≡ trimmed_end bytes.now }
{
    let mut rest = bytes;
    while let [before @ .., b] = rest {
        if !is_space(*b) {
            return rest;
        }
        rest = before;
    }
    rest
}

/// Whether the bytes begin with a minus sign.
fn is_minus(bytes: &[u8]) -> bool
    ensures { result ≡ is_minus bytes.now }
{
    match bytes {
        [b, ..] => *b == b'-',
        [] => false,
    }
}

/// The bytes without the sign that they begin with, if they do.
fn without_sign(bytes: &[u8]) -> &[u8]
    ensures { result.now ≡ without_sign bytes.now }
{
    match bytes {
        [b, rest @ ..] if *b == b'+' || *b == b'-' => rest,
        _ => bytes,
    }
}

/// The number that these digits of the base spell, or the largest `u64` where it is larger; none without digits, or
/// where a byte is no digit of the base.
fn digits_in(base: u64, digits: &[u8]) -> Option<u64>
    requires low { 1 ≤ base }
    requires high { base ≤ 16 }
    ensures { result ≡ option_map (λ n. min n (2 ^ 64 - 1)) (digits_in base digits.now) }
{
    if digits.is_empty() {
        return None;
    }
    let mut n = 0u64;
    for digit in digits {
        let value = u64::from(digit_value(*digit));
        if value >= base {
            return None;
        }
        n = n.saturating_mul(base).saturating_add(value);
    }
    Some(n)
}

/// The base that the letter after a leading 0 names.
fn base_of(letter: u8) -> Option<u64>
    ensures { result ≡ base_of letter }
{
    match letter {
        b'x' | b'X' => Some(16),
        b'o' | b'O' => Some(8),
        b'b' | b'B' => Some(2),
        _ => None,
    }
}

/// The value of a whole number without a sign, or the largest `u64` where it is larger; none where the bytes are no
/// whole number.
fn magnitude(bytes: &[u8]) -> Option<u64>
    ensures { result ≡ option_map (λ n. min n (2 ^ 64 - 1)) (magnitude bytes.now) }
{
    match bytes {
        [] => None,
        [b'0'] => Some(0),
        [b'0', rest @ ..] => after_zero(rest),
        _ => digits_in(10, bytes),
    }
}

/// The value of the bytes after a leading 0: after a letter of a base its digits, else octal digits.
fn after_zero(bytes: &[u8]) -> Option<u64>
    ensures { result ≡ option_map (λ n. min n (2 ^ 64 - 1)) (after_zero bytes.now) }
{
    match bytes {
        [] => Some(0),
        [letter, digits @ ..] => match base_of(*letter) {
            Some(base) => digits_in(base, digits),
            None => digits_in(8, bytes),
        },
    }
}

/// The whole number of this magnitude without a minus sign, where 64 bits hold it.
fn positive(magnitude: u64) -> Numeral
    ensures { result ≡ whole_of false magnitude }
{
    if magnitude < 9_223_372_036_854_775_808 {
        Numeral::Whole(magnitude as i64)
    } else {
        Numeral::TooLarge
    }
}

/// The whole number of this magnitude with a minus sign, where 64 bits hold it.
fn negative(magnitude: u64) -> Numeral
    ensures { result ≡ whole_of true magnitude }
{
    if magnitude == 0 {
        return Numeral::Whole(0);
    }
    let below = magnitude - 1;
    if below < 9_223_372_036_854_775_808 {
        Numeral::Whole(-1 - (below as i64))
    } else {
        Numeral::TooLarge
    }
}

/// Whether the byte is a decimal digit.
fn is_digit(b: u8) -> bool
    ensures { result ≡ is_digit b }
{
    b.is_ascii_digit()
}

/// Whether the bytes begin with a decimal digit.
fn begins_digit(bytes: &[u8]) -> bool
    ensures { result ≡ begins_digit bytes.now }
{
    match bytes {
        [b, ..] => is_digit(*b),
        [] => false,
    }
}

/// How many decimal digits the bytes begin with.
fn digit_count(bytes: &[u8]) -> usize
    ensures { result ≡ prefix_len is_digit bytes.now }
{
    let end = bytes.iter().position(|b| !is_digit(*b));
    end.unwrap_or(bytes.len())
}

/// The bytes without the decimal digits that they begin with.
fn after_digits(bytes: &[u8]) -> &[u8]
    ensures { result.now ≡ drop_while is_digit bytes.now }
{
    bytes.split_at(digit_count(bytes)).1
}

/// Whether the bytes are decimal digits alone, one at least.
fn are_digits(bytes: &[u8]) -> bool
    ensures { result ≡ are_digits bytes.now }
{
    begins_digit(bytes) && after_digits(bytes).is_empty()
}

/// Whether the bytes are an exponent: `e` or `E`, a sign or none, and digits.
fn is_exponent(bytes: &[u8]) -> bool
    ensures { result ≡ is_exponent bytes.now }
{
    match bytes {
        [b, rest @ ..] => (*b == b'e' || *b == b'E') && are_digits(without_sign(rest)),
        [] => false,
    }
}

/// Whether the bytes are a number with a fraction, without a sign; asked where they are no whole number.
fn is_fraction(bytes: &[u8]) -> bool
    ensures { result ≡ is_fraction bytes.now }
{
    is_fraction_end(bytes, after_digits(bytes)) || is_number_name(bytes)
}

/// Whether the bytes are a number with a fraction, by the rest after their leading digits.
fn is_fraction_end(bytes: &[u8], rest: &[u8]) -> bool
    ensures { result ≡ is_fraction_end bytes.now rest.now }
{
    match rest {
        [] => matches!(bytes, [b'0', ..]),
        [b'.', after @ ..] => {
            (begins_digit(bytes) || begins_digit(after)) && may_be_exponent(after_digits(after))
        }
        _ => begins_digit(bytes) && is_exponent(rest),
    }
}

/// Whether the bytes are an exponent or nothing.
fn may_be_exponent(bytes: &[u8]) -> bool
    ensures { result ≡ may_be_exponent bytes.now }
{
    bytes.is_empty() || is_exponent(bytes)
}

/// Whether the bytes are `inf`, `infinity` or `nan` in any case.
fn is_number_name(bytes: &[u8]) -> bool
    ensures { result ≡ is_number_name bytes.now }
{
    bytes.eq_ignore_ascii_case(b"inf")
        || bytes.eq_ignore_ascii_case(b"infinity")
        || bytes.eq_ignore_ascii_case(b"nan")
}
