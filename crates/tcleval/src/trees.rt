//! The trees of expressions at their evaluation, with the faults of texts that have none; and how the value of a whole
//! expression is written.
ghost use Rattle.std.specs.Prelude.{◌≡◌, if◌then◌else◌, IfOk, Some, None, MatchOption, drop, option_map, string_bytes};
ghost use Rattle.std.specs.Fmt.{signed_decimal};
ghost use Rattle.tcltext.specs.expr.Text.{expr_of};
ghost use Rattle.tcltext.specs.expr.Owned as expressions;
ghost use Rattle.tcltext.specs.chars.Numerals.{numeral};
ghost use Rattle.message.specs.Answers.{Gives};
ghost use Rattle.tclvalue.specs.operators.Faults.{reason_of, GivesText};
ghost use Rattle.tcltext.specs.chars.Runs.{begins, take_while};
ghost use Rattle.tcltext.specs.expr.UnsupportedSyntax.{begins_power, is_letter, is_operator_word, names_function};
ghost use Rattle.tcltext.specs.expr.UnsupportedSyntax.{unsupported_at};
ghost use Rattle.tcltext.specs.chars.Classes.{is_name, begins_in};
ghost use Rattle.tclrules.specs.Expressions.{fault_of, parsed, normal};
ghost use Rattle.tcleval.specs.cache.Kept.{BeginWith};
ghost use Rattle.tclcommands.specs.Completions.{IsExpressionFault, value_fault};

use crate::cache::Kept;
use std::alloc::{AllocError, Global};
use std::rc::Rc;
use tcltext::chars::{Class, Numeral, TextFault, read_number, split_run};
use tcltext::expr::OwnedExpr;
use tclvalue::operators::{ValueFault, unsupported};

/// The rest of a text from a byte offset on, where a character begins there. Where none does, no name that is
/// unsupported begins there either.
fn rest_at(text: &str, offset: usize) -> Option<&str>
    ensures { MatchOption result (unsupported_at (drop offset text.now) ≡ None)
        (λ rest. rest.now ≡ drop offset text.now) }
{
    if text.is_char_boundary(offset) {
        Some(text.split_at(offset).1)
    } else {
        None
    }
}

/// Whether a text begins with a letter or an underscore, as names of functions do.
fn begins_with_letter(text: &str) -> bool
    ensures { result ≡ begins_in is_letter text.now }
{
    match text.as_bytes() {
        [first, ..] => *first == b'_' || first.is_ascii_alphabetic(),
        [] => false,
    }
}

/// Whether a text begins with an opening parenthesis.
fn opens_parenthesis(text: &str) -> bool
    ensures { result ≡ begins 40 text.now }
{
    text.as_bytes().first() == Some(&b'(')
}

/// Whether a word is an operator of expr(n).
fn is_operator_word(text: &str) -> bool
    ensures { result ≡ is_operator_word text.now }
{
    matches!(text, "eq" | "ne" | "in" | "ni")
}

/// The name of the function that a text begins with, where its parenthesis follows directly.
fn function_named(text: &str) -> Option<&str>
    ensures { option_map (λ name. name.now) result
        ≡ (if names_function text.now then Some (take_while is_name text.now) else None) }
{
    let (name, rest) = split_run(text, Class::Name);
    if begins_with_letter(text) && opens_parenthesis(rest) && !is_operator_word(name) {
        Some(name)
    } else {
        None
    }
}

/// Whether a text begins with the operator `**`.
fn begins_power(text: &str) -> bool
    ensures { result ≡ begins_power text.now }
{
    matches!(text.as_bytes(), [b'*', b'*', ..])
}

/// The name of the operator or function of expr(n) that is unsupported on purpose, where a text begins with one: `**`
/// or any function.
fn unsupported_at(text: &str) -> Option<&str>
    ensures { option_map (λ name. name.now) result ≡ unsupported_at text.now }
{
    if begins_power(text) {
        return Some("**");
    }
    function_named(text)
}

/// The fault of an evaluation for a text that can't be parsed.
fn from_text_fault(fault: TextFault) -> ValueFault
    ensures { result ≡ value_fault fault }
{
    match fault {
        TextFault::OutOfMemory => ValueFault::OutOfMemory,
        fault => ValueFault::Text(fault),
    }
}

/// The name of what is unsupported at a byte offset of a text.
fn unsupported_from(text: &str, offset: usize) -> Option<&str>
    ensures { option_map (λ name. name.now) result ≡ unsupported_at (drop offset text.now) }
{
    match rest_at(text, offset) {
        Some(rest) => unsupported_at(rest),
        None => None,
    }
}

/// The fault of the evaluation of a text that is no expression: where it went wrong at an operator or a function that
/// is unsupported, the fault names that.
fn expression_fault(alloc: Global, text: &str, fault: TextFault) -> ValueFault
    ensures { IsExpressionFault text.now fault result }
{
    match fault {
        TextFault::BadExpression(offset) => match unsupported_from(text, offset) {
            Some(name) => unsupported(alloc, name),
            None => ValueFault::Text(TextFault::BadExpression(offset)),
        },
        fault => from_text_fault(fault),
    }
}

/// The tree of an expression, parsed or taken from the cache.
///
/// Errors: `LeftOut` where the text goes wrong at an operator or a function that is unsupported, else `Text` with the
/// fault of the text; `OutOfMemory`.
pub(crate) fn expression_tree(
    alloc: Global,
    cache: &mut Kept,
    text: &str,
) -> Result<Rc<OwnedExpr>, ValueFault>
    ensures tree { Gives reason_of (λ o. expressions.owned_view o.value) result (parsed text.now (expr_of text.now)) }
    ensures begins { BeginWith cache.old cache.new }
{
    match cache.expr_tree(text) {
        Ok(tree) => Ok(tree),
        Err(fault) => Err(expression_fault(alloc, text, fault)),
    }
}

/// A whole number in decimal.
fn decimal(alloc: Global, number: i64) -> Result<String, AllocError>
    ensures { IfOk result (λ t. string_bytes t ≡ signed_decimal number) }
{
    format!(in alloc; "{number}")
}

/// The value of a whole expression as it is written: a whole number in decimal, any other text as it is.
///
/// Errors: `NumberTooLarge` for a whole number outside 64 bits, `FractionOperand` for a fraction, `OutOfMemory`.
pub(crate) fn normal(alloc: Global, value: String) -> Result<String, ValueFault>
    ensures { GivesText result (normal (string_bytes value) (numeral (string_bytes value))) }
{
    match read_number(value.as_str()) {
        Numeral::Whole(number) => Ok(decimal(alloc, number)?),
        Numeral::TooLarge => Err(ValueFault::NumberTooLarge),
        Numeral::Fraction => Err(ValueFault::FractionOperand),
        Numeral::Text => Ok(value),
    }
}
