//! The errors of values that catch(n) catches, each with its message, and the fault of what is unsupported.
ghost use Rattle.std.specs.Prelude.{◌≡◌, ◌++◌, Some, IfOk, MatchResult, codes, string_bytes};
ghost use Rattle.tclvalue.specs.operators.Faults.{HasReason, reason_of, error, unsupported};
ghost use Rattle.tclvalue.specs.operators.Messages.{not_numeric, not_a_boolean, not_a_whole_number, bad_index, wrong_words};
ghost use Rattle.tclvalue.specs.operators.Messages.{divide_by_zero, negative_shift, not_a_list, in_quotes};
ghost use Rattle.tclvalue.specs.declared.operators.fault.ValueFault.TheVariants.{OutOfMemory};

use crate::operators::fault::ValueFault;
use std::alloc::{AllocError, Global};

/// The error of Tcl with this message, or `OutOfMemory` where its text could not be made.
pub fn tcl_error(message: Result<String, AllocError>) -> ValueFault
    ensures { MatchResult message (λ m. reason_of result ≡ Some (error (string_bytes m))) (λ _. result ≡ OutOfMemory) }
{
    match message {
        Ok(message) => ValueFault::TclError(message),
        Err(_) => ValueFault::OutOfMemory,
    }
}

/// The operand of the operator with this symbol is no number.
#[tactic(auto, unfolding(crate::specs::operators::Messages::not_numeric))]
pub fn not_numeric(alloc: Global, symbol: &str) -> ValueFault
    ensures { HasReason (error (not_numeric symbol.now)) result }
{
    tcl_error(format!(in alloc; "can't use non-numeric text as operand of \"{symbol}\""))
}

/// A word is no truth value.
#[tactic(auto, unfolding(crate::specs::operators::Messages::not_a_boolean))]
pub fn not_a_boolean(alloc: Global, word: &str) -> ValueFault
    ensures { HasReason (error (not_a_boolean word.now)) result }
{
    tcl_error(format!(in alloc; "expected boolean value but got \"{word}\""))
}

/// The right operand of `/` or `%` is 0.
#[tactic(auto, unfolding(crate::specs::operators::Messages::divide_by_zero))]
pub fn divide_by_zero(alloc: Global) -> ValueFault
    ensures { HasReason (error divide_by_zero) result }
{
    tcl_error(String::from_str(alloc, "divide by zero"))
}

/// The right operand of `<<` or `>>` is negative.
#[tactic(auto, unfolding(crate::specs::operators::Messages::negative_shift))]
pub fn negative_shift(alloc: Global) -> ValueFault
    ensures { HasReason (error negative_shift) result }
{
    tcl_error(String::from_str(alloc, "negative shift argument"))
}

/// A word is no index of a list or text.
#[tactic(auto, unfolding(crate::specs::operators::Messages::bad_index))]
pub fn bad_index(alloc: Global, word: &str) -> ValueFault
    ensures { HasReason (error (bad_index word.now)) result }
{
    tcl_error(format!(in alloc; "bad index \"{word}\""))
}

/// A word is no whole number.
#[tactic(auto, unfolding(crate::specs::operators::Messages::not_a_whole_number))]
pub fn not_a_whole_number(alloc: Global, word: &str) -> ValueFault
    ensures { HasReason (error (not_a_whole_number word.now)) result }
{
    tcl_error(format!(in alloc; "expected whole number but got \"{word}\""))
}

/// The command of this name has too few or too many words.
#[tactic(auto, unfolding(crate::specs::operators::Messages::wrong_words))]
pub fn wrong_words(alloc: Global, name: &str) -> ValueFault
    ensures { HasReason (error (wrong_words name.now)) result }
{
    tcl_error(format!(in alloc; "wrong # args for \"{name}\""))
}

/// A text is no list, or a list with an odd number of elements where pairs are expected.
#[tactic(auto, unfolding(crate::specs::operators::Messages::not_a_list))]
pub fn not_a_list(alloc: Global) -> ValueFault
    ensures { HasReason (error not_a_list) result }
{
    tcl_error(String::from_str(alloc, "not a list"))
}

/// The fault of what has this name and is unsupported: a command, an option, a kind of variable.
pub fn unsupported(alloc: Global, name: &str) -> ValueFault
    ensures { HasReason (unsupported name.now) result }
{
    left_out(String::from_str(alloc, name))
}

/// The fault of a subcommand or an option of this command that is unsupported.
pub fn unsupported_subcommand(alloc: Global, command: &str, word: &str) -> ValueFault
    ensures { HasReason (unsupported (command.now ++ (codes " " ++ word.now))) result }
{
    left_out(format!(in alloc; "{command} {word}"))
}

/// The fault that what has this name is unsupported, or `OutOfMemory` where its name could not be made.
fn left_out(name: Result<String, AllocError>) -> ValueFault
    ensures { MatchResult name (λ n. reason_of result ≡ Some (unsupported (string_bytes n))) (λ _. result ≡ OutOfMemory) }
{
    match name {
        Ok(name) => ValueFault::LeftOut(name),
        Err(_) => ValueFault::OutOfMemory,
    }
}

/// The text in double quotes, as messages have names.
pub fn in_quotes(alloc: Global, text: &str) -> Result<String, AllocError>
    ensures { IfOk result (λ t. string_bytes t ≡ in_quotes text.now) }
{
    format!(in alloc; "\"{text}\"")
}
