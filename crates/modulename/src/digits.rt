//! Whole numbers of any length, as runs of digits, compared without being computed.
ghost use Rattle.std.specs.Prelude.{◌≡◌, ◌++◌, ◌<◌, ◌≤◌, length, true, false};
ghost use Rattle.std.specs.List.{prefix_len};
ghost use Rattle.std.specs.Ordering.{nat_cmp};
ghost use Rattle.modulename.specs.Versions.{is_digit};
ghost use Rattle.modulename.specs.DigitRuns.{number_of, are_digits, begins_digit, begins_zero};

use std::cmp::Ordering;

/// How many digits a text begins with.
pub(crate) fn digit_count(text: &[u8]) -> usize
    ensures { result ≡ prefix_len is_digit text.now }
{
    let end = text.iter().position(|b| !b.is_ascii_digit());
    end.unwrap_or(text.len())
}

/// The digits that a text begins with, and the rest of it.
pub(crate) fn split_digits(text: &[u8]) -> (&[u8], &[u8])
    ensures whole { text.now ≡ result.0.now ++ result.1.now }
    ensures digits { are_digits result.0.now ≡ true }
    ensures rest { begins_digit result.1.now ≡ false }
{
    text.split_at(digit_count(text))
}

/// The digits of a number without leading zeros.
fn without_zeros(digits: &[u8]) -> &[u8]
    requires { are_digits digits.now ≡ true }
    ensures number { number_of result.now ≡ number_of digits.now }
    ensures digits { are_digits result.now ≡ true }
    ensures first { begins_zero result.now ≡ false }
{
    let mut rest = digits;
    while let [b'0', after @ ..] = rest {
        rest = after;
    }
    rest
}

/// The order of two numbers: without leading zeros the longer one is the greater, and of two as long the digits decide.
pub(crate) fn order_of_numbers(left: &[u8], right: &[u8]) -> Ordering
    requires left { are_digits left.now ≡ true }
    requires right { are_digits right.now ≡ true }
    ensures { result ≡ nat_cmp (number_of left.now) (number_of right.now) }
{
    let left = without_zeros(left);
    let right = without_zeros(right);
    match left.len().cmp(&right.len()) {
        Ordering::Equal => left.cmp(right),
        order => order,
    }
}
