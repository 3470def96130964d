//! The operators of expressions on the texts of their operands (expr(n), OPERATORS).
ghost use Rattle.std.specs.Prelude.{◌≡◌, neg_ℤ, Ok, IfSome};
ghost use Rattle.tcltext.specs.chars.Runs.{Text};
ghost use Rattle.tcltext.specs.chars.Numerals.{numeral};
ghost use Rattle.tcltext.specs.declared.chars.number.Numeral.TheVariants.{Whole};
ghost use Rattle.tclvalue.specs.declared.operators.operators.ComputedValue.TheVariants.{Truth};
ghost use Rattle.tcltext.specs.expr.Symbols.{binary_symbol};
ghost use Rattle.message.specs.Answers.{Gives};
ghost use Rattle.tclvalue.specs.operators.Faults.{reason_of, GivesText};
ghost use Rattle.tclvalue.specs.operators.Numbers.{within_64_bits, bitwise_not};
ghost use Rattle.tclvalue.specs.operators.Operators.{unary_value, binary_value, truth_text, text_order, order_of};
ghost use Rattle.tclvalue.specs.operators.Operators.{decimal_text, whole_operand, whole_operands, number_operand, found_in};
ghost use Rattle.tclvalue.specs.operators.Values.{computed_text};
ghost use Rattle.tclvalue.specs.operators.Views.{operands_view};

use crate::operators::fault::ValueFault;
use crate::operators::lists::{elements, is_among};
use crate::operators::messages::not_numeric;
use crate::operators::operands::Operands;
use crate::operators::truth_values::truth;
use std::alloc::Global;
use std::cmp::Ordering;
use tcltext::chars::{Numeral, read_number};
use tcltext::expr::{BinaryOperator, UnaryOperator};

/// The value of an operator between two operands, before its text is made.
#[derive(Clone, Copy, Debug, PartialEq, Eq)]
pub enum ComputedValue {
    /// Whether a comparison holds.
    Truth(bool),
    /// A whole number.
    Whole(i64),
}

impl ComputedValue {
    /// The text of the value: 1 or 0 of a truth value, and a number in decimal.
    ///
    /// Errors: `OutOfMemory`.
    pub fn into_text(self, alloc: Global) -> Result<String, ValueFault>
        ensures { GivesText result (Ok (computed_text self)) }
    {
        match self {
            ComputedValue::Truth(holds) => truth_text(alloc, holds),
            ComputedValue::Whole(number) => decimal_text(alloc, number),
        }
    }
}

/// The value of an operator before its operand: `-`, `+` and `~` take a whole number, `!` a truth value.
///
/// Errors: `NumberTooLarge` for an operand or a result outside 64 bits, `FractionOperand`, `TclError` for another text,
/// `OutOfMemory`.
pub fn unary(alloc: Global, op: UnaryOperator, operand: &str) -> Result<String, ValueFault>
    ensures { GivesText result (unary_value op operand.now) }
{
    match op {
        UnaryOperator::Minus => {
            let number = whole_operand(alloc, op.symbol(), operand)?;
            decimal_text(alloc, negated(number)?)
        }
        UnaryOperator::Plus => decimal_text(alloc, whole_operand(alloc, op.symbol(), operand)?),
        UnaryOperator::Complement => {
            let number = whole_operand(alloc, op.symbol(), operand)?;
            decimal_text(alloc, bitwise_not(number))
        }
        UnaryOperator::Not => truth_text(alloc, !truth(alloc, operand)?),
    }
}

/// The value of an operator between its operands. `eq` and `ne` compare texts, `in` and `ni` look for a text in a list.
/// `==`, `!=` and the four orders compare as numbers where both sides are whole numbers, else as texts by their
/// characters. All others take two whole numbers: a quotient is rounded down, a remainder has the divisor's sign, and
/// the operators of bits take two's complement of 64 bits.
///
/// The operands are judged from the left: `NumberTooLarge` and `FractionOperand` for a number outside 64 bits and one
/// with a fraction, `TclError` for a text where a number is needed, and for a right side of `in` and `ni` that is no
/// list (`Text` where it is too long). Then `TclError` is the error for a divisor 0 and a negative shift, and
/// `NumberTooLarge` for a result outside 64 bits. `OutOfMemory` comes where memory runs out.
pub fn binary(
    alloc: Global,
    op: BinaryOperator,
    left: &str,
    right: &str,
) -> Result<String, ValueFault>
    ensures { GivesText result (binary_value op left.now right.now) }
{
    compute(alloc, op, left, right)?.into_text(alloc)
}

/// The value of an operator between its operands, before its text is made. Its faults are those of `binary`.
pub fn compute(
    alloc: Global,
    op: BinaryOperator,
    left: &str,
    right: &str,
) -> Result<ComputedValue, ValueFault>
    ensures { Gives reason_of computed_text result (binary_value op left.now right.now) }
{
    let number = match op {
        BinaryOperator::TextEqual => return Ok(ComputedValue::Truth(left == right)),
        BinaryOperator::TextNotEqual => return Ok(ComputedValue::Truth(left != right)),
        BinaryOperator::In => return Ok(ComputedValue::Truth(is_in(alloc, left, right)?)),
        BinaryOperator::NotIn => return Ok(ComputedValue::Truth(!is_in(alloc, left, right)?)),
        BinaryOperator::Less => return Ok(ComputedValue::Truth(order(left, right)?.is_lt())),
        BinaryOperator::Greater => return Ok(ComputedValue::Truth(order(left, right)?.is_gt())),
        BinaryOperator::LessEqual => return Ok(ComputedValue::Truth(order(left, right)?.is_le())),
        BinaryOperator::GreaterEqual => return Ok(ComputedValue::Truth(order(
            left, right,
        )?.is_ge())),
        BinaryOperator::Equal => return Ok(ComputedValue::Truth(order(left, right)?.is_eq())),
        BinaryOperator::NotEqual => return Ok(ComputedValue::Truth(order(left, right)?.is_ne())),
        BinaryOperator::Multiply => whole_operands(alloc, op, left, right)?.product()?,
        BinaryOperator::Divide => whole_operands(alloc, op, left, right)?.quotient(alloc)?,
        BinaryOperator::Remainder => whole_operands(alloc, op, left, right)?.remainder(alloc)?,
        BinaryOperator::Add => whole_operands(alloc, op, left, right)?.sum()?,
        BinaryOperator::Subtract => whole_operands(alloc, op, left, right)?.difference()?,
        BinaryOperator::ShiftLeft => whole_operands(alloc, op, left, right)?.shifted_left(alloc)?,
        BinaryOperator::ShiftRight => whole_operands(alloc, op, left, right)?.shifted_right(alloc)?,
        BinaryOperator::BitAnd => whole_operands(alloc, op, left, right)?.bitwise_and(),
        BinaryOperator::BitXor => whole_operands(alloc, op, left, right)?.bitwise_xor(),
        BinaryOperator::BitOr => whole_operands(alloc, op, left, right)?.bitwise_or(),
    };
    Ok(ComputedValue::Whole(number))
}

/// The whole number that a text spells; None for any other text.
pub fn whole_number(text: &str) -> Option<i64>
    ensures { IfSome result (λ number. numeral text.now ≡ Whole number) }
{
    match read_number(text) {
        Numeral::Whole(number) => Some(number),
        Numeral::TooLarge | Numeral::Fraction | Numeral::Text => None,
    }
}

/// Whether an operator that compares holds of two operands that spell these whole numbers; None for any other operator.
pub fn compare_numbers(op: BinaryOperator, left: i64, right: i64) -> Option<bool>
    ensures { IfSome result (λ holds. (a b : Text) → numeral a ≡ Whole left → numeral b ≡ Whole right
        → binary_value op a b ≡ Ok (computed_text (Truth holds))) }
{
    match op {
        BinaryOperator::Less => Some(left < right),
        BinaryOperator::Greater => Some(left > right),
        BinaryOperator::LessEqual => Some(left <= right),
        BinaryOperator::GreaterEqual => Some(left >= right),
        BinaryOperator::Equal => Some(left == right),
        BinaryOperator::NotEqual => Some(left != right),
        _ => None,
    }
}

/// Whether a text is an element of a list.
fn is_in(alloc: Global, sought: &str, list: &str) -> Result<bool, ValueFault>
    ensures { Gives reason_of (λ b. b) result (found_in sought.now list.now) }
{
    Ok(is_among(&elements(alloc, list)?, sought))
}

/// The whole number that an operand spells; any other text is the error of the operator with this symbol.
fn whole_operand(alloc: Global, symbol: &str, text: &str) -> Result<i64, ValueFault>
    ensures { Gives reason_of (λ z. z) result (whole_operand symbol.now text.now) }
{
    match read_number(text) {
        Numeral::Whole(number) => Ok(number),
        Numeral::TooLarge => Err(ValueFault::NumberTooLarge),
        Numeral::Fraction => Err(ValueFault::FractionOperand),
        Numeral::Text => Err(not_numeric(alloc, symbol)),
    }
}

/// The whole numbers that both operands of an operator spell, judged from the left.
fn whole_operands(
    alloc: Global,
    op: BinaryOperator,
    left: &str,
    right: &str,
) -> Result<Operands, ValueFault>
    ensures { Gives reason_of operands_view result (whole_operands (binary_symbol op) left.now right.now) }
{
    let left = whole_operand(alloc, op.symbol(), left)?;
    let right = whole_operand(alloc, op.symbol(), right)?;
    Ok(Operands { left, right })
}

/// The number with the other sign, or `NumberTooLarge` for the least number.
fn negated(number: i64) -> Result<i64, ValueFault>
    ensures { Gives reason_of (λ z. z) result (within_64_bits (neg_ℤ number)) }
{
    number.checked_neg().ok_or(ValueFault::NumberTooLarge)
}

/// `~number`.
fn bitwise_not(number: i64) -> i64
    ensures { result ≡ bitwise_not number }
{
    !number
}

/// The whole number that an operand spells; None for a text that spells no number.
fn number_operand(text: &str) -> Result<Option<i64>, ValueFault>
    ensures { Gives reason_of (λ n. n) result (number_operand text.now) }
{
    match read_number(text) {
        Numeral::Whole(number) => Ok(Some(number)),
        Numeral::TooLarge => Err(ValueFault::NumberTooLarge),
        Numeral::Fraction => Err(ValueFault::FractionOperand),
        Numeral::Text => Ok(None),
    }
}

/// The order of two operands: as numbers where both are whole numbers, else as texts.
fn order(left: &str, right: &str) -> Result<Ordering, ValueFault>
    ensures { Gives reason_of (λ o. o) result (order_of left.now right.now) }
{
    let left_number = number_operand(left)?;
    let right_number = number_operand(right)?;
    match (left_number, right_number) {
        (Some(a), Some(b)) => Ok(a.cmp(&b)),
        _ => Ok(text_order(left, right)),
    }
}

/// The order of two texts, character by character in the order of code points.
pub fn text_order(left: &str, right: &str) -> Ordering
    ensures { result ≡ text_order left.now right.now }
{
    left.chars().cmp(right.chars())
}

fn decimal_text(alloc: Global, number: i64) -> Result<String, ValueFault>
    ensures { GivesText result (decimal_text number) }
{
    Ok(number.to_string(alloc)?)
}

/// The text of a truth value: 1 or 0.
pub fn truth_text(alloc: Global, truth: bool) -> Result<String, ValueFault>
    ensures { GivesText result (Ok (truth_text truth)) }
{
    Ok(String::from_str(alloc, if truth { "1" } else { "0" })?)
}
