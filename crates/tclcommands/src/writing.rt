//! Commands that write a variable: set(n), append(n), incr(n), within the limit on the bytes of a value.
ghost use Rattle.std.specs.Prelude.{◌≡◌, ◌≤◌, ◌++◌, [], None, Ok, codes, length, map, string_bytes, IfOk, IfSome, OnOk};
ghost use Rattle.std.specs.Fmt.{signed_decimal};
ghost use Rattle.message.specs.Answers.{Gives};
ghost use Rattle.tclvalue.specs.operators.Faults.{GivesText, reason_of};
ghost use Rattle.tclvalue.specs.Limits.{limited};
ghost use Rattle.tclvalue.specs.Characters.{joined};
ghost use Rattle.tcltext.specs.chars.Runs.{Text};
ghost use Rattle.tclrules.specs.Variables.{with_value};
ghost use Rattle.tclrules.specs.Forms.{Set, Append, Increase};
ghost use Rattle.tclrules.specs.Rules.{write_at, write, assign, form, value_or, increased};
ghost use Rattle.tclcommands.specs.Increments.{increment_text};
ghost use Rattle.tclcommands.specs.Continuations.{named_values, increase_at, ContinuesWithVariablesWithin};
ghost use Rattle.tclcommands.specs.Continuations.{ContinuesWithText, ContinuesWithNumber, ContinuesWithinLimit};
ghost use Rattle.tclforms.specs.variables.Locations.{scalar_view};

use crate::increment::Increment;
use crate::value::{Value, value_or};
use itoa::Buffer;
use std::alloc::{AllocError, Global};
use tclforms::substitution::Stop;
use tclforms::variables::{Content, Scalar, Variables, writable};
use tclrules::EvalFault;
use tclvalue::count_of;
use tclvalue::operators::{ValueFault, sum};

/// Gives the variable at a location its content, within the limit on values.
#[tactic(none)]
pub(crate) fn put_at(
    alloc: Global,
    variables: &mut Variables,
    limit: usize,
    variable: Scalar<'_>,
    content: Content,
) -> Result<(), Stop>
    ensures continues { ContinuesWithText (λ b. write_at b (scalar_view variable.entry) content variables.old) limit result
        (λ _. content)
        variables.new }
    ensures written { OnOk result (variables.new ≡ with_value variables.old (scalar_view variable.entry) content) }
{
    if content.as_str().len() > limit {
        return Err(Stop::Fault(EvalFault::ValueTooLong));
    }
    variables.put(alloc, variable, content)?;
    Ok(())
}

/// Gives the variable at a location its value, within the limit on values.
#[tactic(none)]
fn write_at(
    alloc: Global,
    variables: &mut Variables,
    limit: usize,
    variable: Scalar<'_>,
    value: String,
) -> Result<(), Stop>
    ensures continues { ContinuesWithText (λ b. write_at b (scalar_view variable.entry)
        (string_bytes value) variables.old) limit result
        (λ _. string_bytes value) variables.new }
    ensures written { OnOk result (variables.new ≡ with_value variables.old (scalar_view variable.entry) (string_bytes value)) }
{
    put_at(alloc, variables, limit, variable, Content::of_text(value))
}

/// Gives the variable of this name a value.
///
/// Errors: a halt where the value has more bytes than `limit`, the variable is unsupported, or memory runs out.
#[tactic(none)]
pub fn write(
    alloc: Global,
    variables: &mut Variables,
    limit: usize,
    name: &str,
    value: String,
) -> Result<(), Stop>
    ensures { ContinuesWithText (λ b. write b name.now (string_bytes value) variables.old) limit result
        (λ _. string_bytes value)
        variables.new }
{
    let variable = writable(variables, alloc, name)?;
    write_at(alloc, variables, limit, variable, value)
}

/// Gives variables their values, in turn: the variables of a turn of foreach(n), or the parameters of a procedure.
///
/// Errors: as of `write`, for the first variable that has one; those before it stay written.
#[tactic(none)]
pub fn assign(
    alloc: Global,
    variables: &mut Variables,
    limit: usize,
    pairs: Vec<(&str, String)>,
) -> Result<(), Stop>
    ensures { ContinuesWithVariablesWithin
        (λ b. assign b (named_values pairs.entry.items) variables.old) limit result variables.new }
{
    for (name, value) in pairs {
        write(alloc, variables, limit, name, value)?;
    }
    Ok(())
}

/// set(n) with a value, which is the result.
///
/// Errors: as of `write`.
#[tactic(none)]
pub fn set<'a>(
    alloc: Global,
    variables: &mut Variables,
    limit: usize,
    name: &'a str,
    value: &'a str,
) -> Result<Value<'a>, Stop>
    ensures { ContinuesWithinLimit (λ b. form b (Set name.now value.now) variables.old) limit result variables.new }
{
    let copy = String::from_str(alloc, value)?;
    write(alloc, variables, limit, name, copy)?;
    Ok(Value::Word(value))
}

/// Takes the text of a variable, or an empty one where it is unset, so that it grows without a copy. The caller gives
/// the variable its next value.
pub(crate) fn take_text(alloc: Global, variables: &mut Variables, variable: Scalar<'_>) -> String
    ensures value { string_bytes result ≡ value_or [] variables.old (scalar_view variable.entry) }
    ensures given_back { (t : Text) → with_value variables.new (scalar_view variable.entry) t
        ≡ with_value variables.old (scalar_view variable.entry) t }
{
    match variables.take(alloc, variable) {
        Some(text) => text,
        None => String::new(alloc),
    }
}

/// A text with others appended, within the limit on values.
fn extended(text: String, values: &[String], limit: usize) -> Result<String, ValueFault>
    ensures { GivesText result (limited limit (string_bytes text ++ joined [] (map string_bytes values.now))) }
{
    let mut text = text;
    for value in values {
        if value.len() > limit.saturating_sub(text.len()) {
            return Err(ValueFault::ValueTooLong);
        }
        text.push_str(value)?;
    }
    if text.len() > limit {
        return Err(ValueFault::ValueTooLong);
    }
    Ok(text)
}

/// append(n): appends texts to the value of a variable, which is made where it is unset. The result is the value.
///
/// Errors: as of `write`.
#[tactic(none)]
pub fn append<'a>(
    alloc: Global,
    variables: &mut Variables,
    limit: usize,
    name: &'a str,
    values: &'a [String],
) -> Result<Value<'a>, Stop>
    ensures { ContinuesWithinLimit (λ b. form b (Append name.now
        (map string_bytes values.now)) variables.old) limit result
        variables.new }
{
    let variable = writable(variables, alloc, name)?;
    let old = take_text(alloc, variables, variable);
    let value = extended(old, values, limit)?;
    write_at(alloc, variables, limit, variable, value)?;
    Ok(Value::Variable(variable))
}

/// The sum of two whole numbers. The first is judged before the second.
fn increased(alloc: Global, old: &str, increase: &str) -> Result<i64, ValueFault>
    ensures { Gives reason_of signed_decimal result (increased old.now increase.now) }
{
    let old = count_of(alloc, old)?;
    let increase = count_of(alloc, increase)?;
    sum(old, increase)
}

/// A number in decimal, in the memory of a text that is no longer needed.
fn decimal_in(text: String, number: i64) -> Result<String, AllocError>
    ensures { IfOk result (λ t. string_bytes t ≡ signed_decimal number) }
{
    let mut text = text;
    text.clear();
    text.push_str(Buffer::new().format(number))?;
    Ok(text)
}

/// Adds a whole number to the one that a variable holds, as `Variables::increase`; None also where the increment is no
/// whole number.
fn increase_in_place(
    variables: &mut Variables,
    limit: usize,
    variable: Scalar<'_>,
    increment: Increment<'_>,
) -> Result<Option<i64>, AllocError>
    ensures sum { IfOk result (λ made. IfSome made (λ total.
        (increased (value_or (codes "0") variables.old (scalar_view variable.entry)) (increment_text increment.entry)
        ≡ Ok (signed_decimal total))
        × (length (signed_decimal total) ≤ limit)
        × (variables.new ≡ with_value variables.old (scalar_view variable.entry) (signed_decimal total)))) }
    ensures same { IfOk result (λ made. made ≡ None → variables.new ≡ variables.old) }
{
    match increment.whole_number() {
        Some(amount) => variables.increase(variable, amount, limit),
        None => Ok(None),
    }
}

/// Adds a whole number to the value of a variable, 0 where it is unset, which is read and written anew.
#[tactic(none)]
fn increase_anew(
    alloc: Global,
    variables: &mut Variables,
    limit: usize,
    variable: Scalar<'_>,
    increment: Increment<'_>,
) -> Result<i64, Stop>
    ensures { ContinuesWithNumber (λ b. increase_at b (scalar_view variable.entry) (increment_text increment.entry)
        variables.old) limit result variables.new }
{
    let sum = increased(alloc, value_or(variables, variable, "0"), increment.text())?;
    let old = take_text(alloc, variables, variable);
    let value = decimal_in(old, sum)?;
    write_at(alloc, variables, limit, variable, value)?;
    Ok(sum)
}

/// Adds a whole number to the value of a variable: in place where it holds one.
#[tactic(none)]
fn increase_at(
    alloc: Global,
    variables: &mut Variables,
    limit: usize,
    variable: Scalar<'_>,
    increment: Increment<'_>,
) -> Result<i64, Stop>
    ensures { ContinuesWithNumber (λ b. increase_at b (scalar_view variable.entry) (increment_text increment.entry)
        variables.old) limit result variables.new }
{
    match increase_in_place(variables, limit, variable, increment)? {
        Some(sum) => Ok(sum),
        None => increase_anew(alloc, variables, limit, variable, increment),
    }
}

/// incr(n): adds a whole number, 1 where none is given, to the value of a variable, 0 where it is unset. The result is
/// the sum. The number of words is judged here, after the name.
///
/// Errors: as of `write`; a wrong number of words, or a value that is no whole number, which catch(n) sees; a halt
/// where a number or the sum lies outside 64 bits, or is spelled as a fraction.
#[tactic(none)]
pub fn increase<'a>(
    alloc: Global,
    variables: &mut Variables,
    limit: usize,
    name: &'a str,
    words: &'a [String],
) -> Result<Value<'a>, Stop>
    ensures { ContinuesWithinLimit (λ b. form b (Increase name.now
        (map string_bytes words.now)) variables.old) limit result
        variables.new }
{
    let variable = writable(variables, alloc, name)?;
    let increment = Increment::of_words(alloc, words)?;
    let sum = increase_at(alloc, variables, limit, variable, increment)?;
    Ok(Value::Number(sum))
}
