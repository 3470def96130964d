//! Arithmetic of two whole numbers of 64 bits (expr(n), OPERATORS).
ghost use Rattle.std.specs.Prelude.{◌≡◌, ◌^◌, ◌*ℤ◌, pos, IfErr};
ghost use Rattle.message.specs.Answers.{Gives};
ghost use Rattle.tcltext.specs.chars.Division.{quotient};
ghost use Rattle.tclvalue.specs.operators.Faults.{reason_of};
ghost use Rattle.tclvalue.specs.operators.Numbers as numbers;
ghost use Rattle.tclvalue.specs.declared.operators.fault.ValueFault.TheVariants.{NumberTooLarge};

use crate::operators::fault::ValueFault;
use crate::operators::messages::{divide_by_zero, negative_shift};
use std::alloc::Global;
use tcltext::chars::quotient;

/// The two whole numbers that an operator computes with.
#[derive(Clone, Copy)]
pub(crate) struct Operands {
    pub(crate) left: i64,
    pub(crate) right: i64,
}

impl Operands {
    /// `left + right`, or `NumberTooLarge` outside 64 bits.
    pub(crate) fn sum(self) -> Result<i64, ValueFault>
        ensures { Gives reason_of (λ z. z) result (numbers.sum self.left self.right) }
    {
        sum(self.left, self.right)
    }

    /// `left - right`, or `NumberTooLarge` outside 64 bits.
    pub(crate) fn difference(self) -> Result<i64, ValueFault>
        ensures { Gives reason_of (λ z. z) result (numbers.difference self.left self.right) }
    {
        self.left
            .checked_sub(self.right)
            .ok_or(ValueFault::NumberTooLarge)
    }

    /// `left * right`, or `NumberTooLarge` outside 64 bits.
    pub(crate) fn product(self) -> Result<i64, ValueFault>
        ensures { Gives reason_of (λ z. z) result (numbers.product self.left self.right) }
    {
        self.left
            .checked_mul(self.right)
            .ok_or(ValueFault::NumberTooLarge)
    }

    /// `left / right`, rounded down; the error for a divisor 0 is one of Tcl.
    pub(crate) fn quotient(self, alloc: Global) -> Result<i64, ValueFault>
        ensures { Gives reason_of (λ z. z) result (numbers.quotient_value self.left self.right) }
    {
        if self.right == 0 {
            return Err(divide_by_zero(alloc));
        }
        quotient(self.left, self.right).ok_or(ValueFault::NumberTooLarge)
    }

    /// `left % right`, with the sign of the divisor; the error for a divisor 0 is one of Tcl.
    pub(crate) fn remainder(self, alloc: Global) -> Result<i64, ValueFault>
        ensures { Gives reason_of (λ z. z) result (numbers.remainder_value self.left self.right) }
    {
        if self.right == 0 {
            return Err(divide_by_zero(alloc));
        }
        let rest = self.left.wrapping_rem(self.right);
        if rest == 0 {
            return Ok(0);
        }
        if (rest < 0) == (self.right < 0) {
            Ok(rest)
        } else {
            Ok(rest + self.right)
        }
    }

    /// `left << right`: the left number times that power of two.
    pub(crate) fn shifted_left(self, alloc: Global) -> Result<i64, ValueFault>
        ensures { Gives reason_of (λ z. z) result (numbers.shifted_left self.left self.right) }
    {
        match u64::try_from(self.right) {
            Ok(count) => doubled(self.left, count),
            Err(_) => Err(negative_shift(alloc)),
        }
    }

    /// `left >> right`: the left number divided by that power of two, rounded down.
    pub(crate) fn shifted_right(self, alloc: Global) -> Result<i64, ValueFault>
        ensures { Gives reason_of (λ z. z) result (numbers.shifted_right self.left self.right) }
    {
        match u64::try_from(self.right) {
            Ok(count) => Ok(halved(self.left, count)),
            Err(_) => Err(negative_shift(alloc)),
        }
    }

    /// `left & right`.
    pub(crate) fn bitwise_and(self) -> i64
        ensures { result ≡ numbers.bitwise_and self.left self.right }
    {
        self.left & self.right
    }

    /// `left ^ right`.
    pub(crate) fn bitwise_xor(self) -> i64
        ensures { result ≡ numbers.bitwise_xor self.left self.right }
    {
        self.left ^ self.right
    }

    /// `left | right`.
    pub(crate) fn bitwise_or(self) -> i64
        ensures { result ≡ numbers.bitwise_or self.left self.right }
    {
        self.left | self.right
    }
}

/// The sum of two whole numbers.
///
/// Errors: `NumberTooLarge` where it lies outside 64 bits.
pub fn sum(left: i64, right: i64) -> Result<i64, ValueFault>
    ensures number { Gives reason_of (λ z. z) result (numbers.sum left right) }
    ensures fault { IfErr result (λ e. e ≡ NumberTooLarge) }
{
    left.checked_add(right).ok_or(ValueFault::NumberTooLarge)
}

/// A number doubled so many times, or `NumberTooLarge` outside 64 bits.
fn doubled(number: i64, times: u64) -> Result<i64, ValueFault>
    ensures { Gives reason_of (λ z. z) result (numbers.within_64_bits (number *ℤ pos (2 ^ times))) }
{
    if number == 0 {
        return Ok(0);
    }
    if times < 63 {
        return number
            .checked_mul(1 << times)
            .ok_or(ValueFault::NumberTooLarge);
    }
    if number == -1 && times == 63 {
        return Ok(i64::MIN);
    }
    Err(ValueFault::NumberTooLarge)
}

/// A number halved so many times, rounded down each time.
fn halved(number: i64, times: u64) -> i64
    ensures { result ≡ quotient number (pos (2 ^ times)) }
{
    number >> times.min(63)
}
