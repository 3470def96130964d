//! Truth values: what a condition takes for true and false (expr(n), OPERANDS).
ghost use Rattle.std.specs.Prelude.{◌≡◌};
ghost use Rattle.message.specs.Answers.{Gives};
ghost use Rattle.tclvalue.specs.operators.Faults.{reason_of};
ghost use Rattle.tclvalue.specs.operators.Operators.{has_abbreviation, is_true_word, is_false_word, word_truth, truth};

use crate::operators::fault::ValueFault;
use crate::operators::messages::not_a_boolean;
use std::alloc::Global;
use tcltext::chars::{Numeral, read_number};

/// Whether a value is true. A whole number is unless it is 0. Of words, in any case of their letters, `true` and `yes`,
/// or their first letters, and `on` are true; `false` and `no`, or their first letters, and `of` and `off` are false.
///
/// Errors: `NumberTooLarge` and `FractionOperand` for other numbers, `TclError` for any other text, `OutOfMemory` where
/// memory for its message runs out.
pub fn truth(alloc: Global, text: &str) -> Result<bool, ValueFault>
    ensures { Gives reason_of (λ b. b) result (truth text.now) }
{
    match read_number(text) {
        Numeral::Whole(number) => Ok(number != 0),
        Numeral::TooLarge => Err(ValueFault::NumberTooLarge),
        Numeral::Fraction => Err(ValueFault::FractionOperand),
        Numeral::Text => word_truth(alloc, text),
    }
}

/// The truth value that a word names.
fn word_truth(alloc: Global, word: &str) -> Result<bool, ValueFault>
    ensures { Gives reason_of (λ b. b) result (word_truth word.now) }
{
    if is_true_word(word) {
        Ok(true)
    } else if is_false_word(word) {
        Ok(false)
    } else {
        Err(not_a_boolean(alloc, word))
    }
}

/// Whether a word names the truth value true.
fn is_true_word(text: &str) -> bool
    ensures { result ≡ is_true_word text.now }
{
    has_abbreviation("true", text)
        || has_abbreviation("yes", text)
        || text.eq_ignore_ascii_case("on")
}

/// Whether a word names the truth value false.
fn is_false_word(text: &str) -> bool
    ensures { result ≡ is_false_word text.now }
{
    has_abbreviation("false", text)
        || has_abbreviation("no", text)
        || text.eq_ignore_ascii_case("of")
        || text.eq_ignore_ascii_case("off")
}

/// Whether the text is some first letters of a word, one at least, in any case.
fn has_abbreviation(word: &str, text: &str) -> bool
    ensures { result ≡ has_abbreviation word.now text.now }
{
    let length = text.len().min(word.len());
    !text.is_empty() && word.as_bytes()[..length].eq_ignore_ascii_case(text.as_bytes())
}
