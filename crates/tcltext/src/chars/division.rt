//! The division of whole numbers of 64 bits (expr(n), OPERATORS).
ghost use Rattle.std.specs.Prelude.{◌≡◌, ◌≢◌, pos, true, false};
ghost use Rattle.tcltext.specs.chars.Division.{quotient, signed, in_64_bits};

/// `left / right`, rounded down; None where it lies outside 64 bits. The divisor isn't 0.
pub fn quotient(left: i64, right: i64) -> Option<i64>
    requires { right ≢ pos 0 }
    ensures { result ≡ in_64_bits (quotient left right) }
{
    let dividend = left.unsigned_abs();
    let divisor = right.unsigned_abs();
    if (left < 0) == (right < 0) {
        positive(dividend / divisor)
    } else {
        negative(dividend.div_ceil(divisor))
    }
}

/// The whole number of this size from 0 on; None where it lies outside 64 bits.
fn positive(size: u64) -> Option<i64>
    ensures { result ≡ in_64_bits (signed false size) }
{
    0_i64.checked_add_unsigned(size)
}

/// The whole number of this size from 0 down; None where it lies outside 64 bits.
fn negative(size: u64) -> Option<i64>
    ensures { result ≡ in_64_bits (signed true size) }
{
    0_i64.checked_sub_unsigned(size)
}
