//! The command `string` with its subcommands (string(n)).
ghost use Rattle.std.specs.Prelude.{◌≡◌, map, option_map, string_bytes, IfOk};
ghost use Rattle.tclvalue.specs.Commands.{subcommand_value, subcommand_named, option_in, order_text, position_text};
ghost use Rattle.tclvalue.specs.Commands.{sought_position, string_length, string_index, string_range, string_equal};
ghost use Rattle.tclvalue.specs.Commands.{string_compare, string_match, string_position, string_map, string_repeat};
ghost use Rattle.tclvalue.specs.Commands.{string_trimmed};
ghost use Rattle.tclvalue.specs.Growing.{GivesWithin};
ghost use Rattle.tclvalue.specs.Views.{operation, option_of, search_for, trimmed_at};

use crate::bounded::limited;
use crate::characters::{character_count, characters};
use crate::index::{count_of, index_of};
use crate::names::{Subcommand, is_option, subcommand_named, takes_options};
use crate::operators::{
    ValueFault, elements, text_order, truth_text, unsupported_subcommand, wrong_words,
};
use crate::pattern::glob;
use crate::searches::{Occurrence, first_position, last_position, mapped, replacements};
use crate::texts::{Ends, characters_between, repeated, trimmed, trimmed_of_space};
use std::alloc::{AllocError, Global};
use std::cmp::Ordering;

/// The answer of `string` to a subcommand and its operands, within a limit on its bytes.
pub(crate) fn string_value(
    alloc: Global,
    subcommand: &str,
    operands: &[String],
    limit: usize,
) -> Result<String, ValueFault>
    ensures { GivesWithin limit result (subcommand_value subcommand.now (map string_bytes operands.now)
        (subcommand_named subcommand.now)) }
{
    let Some(command) = subcommand_named(subcommand) else {
        return Err(unsupported_subcommand(alloc, "string", subcommand));
    };
    if let Some(option) = option_of(command, operands) {
        return Err(unsupported_subcommand(alloc, "string", option));
    }
    operation_value(alloc, command, operands, limit)
}

/// The option among the operands of a subcommand that takes options.
fn option_of(command: Subcommand, operands: &[String]) -> Option<&str>
    ensures { option_map (λ w. w.now) result ≡ option_of command (map string_bytes operands.entry.now) }
{
    if takes_options(command) {
        option_in(operands)
    } else {
        None
    }
}

/// The first operand, where it is an option and two operands at least follow.
fn option_in(operands: &[String]) -> Option<&str>
    ensures { option_map (λ w. w.now) result ≡ option_in (map string_bytes operands.entry.now) }
{
    match operands {
        [word, _, _, ..] if is_option(word) => Some(word),
        _ => None,
    }
}

/// The answer of a subcommand to its operands, among which there is no option.
fn operation_value(
    alloc: Global,
    command: Subcommand,
    operands: &[String],
    limit: usize,
) -> Result<String, ValueFault>
    ensures { GivesWithin limit result (operation command (map string_bytes operands.now)) }
{
    match command {
        Subcommand::Length => length_value(alloc, operands, limit),
        Subcommand::Index => index_value(alloc, operands, limit),
        Subcommand::Range => range_value(alloc, operands, limit),
        Subcommand::Equal => equal_value(alloc, operands, limit),
        Subcommand::Compare => compare_value(alloc, operands, limit),
        Subcommand::Match => match_value(alloc, operands, limit),
        Subcommand::First => position_value(alloc, Occurrence::First, operands, limit),
        Subcommand::Last => position_value(alloc, Occurrence::Last, operands, limit),
        Subcommand::Map => map_value(alloc, operands, limit),
        Subcommand::Repeat => repeat_value(alloc, operands, limit),
        Subcommand::Trim => trim_value(alloc, Ends::Both, operands, limit),
        Subcommand::TrimLeft => trim_value(alloc, Ends::Start, operands, limit),
        Subcommand::TrimRight => trim_value(alloc, Ends::End, operands, limit),
    }
}

/// `string length text`
fn length_value(alloc: Global, operands: &[String], limit: usize) -> Result<String, ValueFault>
    ensures { GivesWithin limit result (string_length (map string_bytes operands.now)) }
{
    match operands {
        [text] => limited(character_count(text).to_string(alloc)?, limit),
        _ => Err(wrong_words(alloc, "string")),
    }
}

/// `string index text index`
fn index_value(alloc: Global, operands: &[String], limit: usize) -> Result<String, ValueFault>
    ensures { GivesWithin limit result (string_index (map string_bytes operands.now)) }
{
    match operands {
        [text, index] => {
            let index = index_of(alloc, index)?;
            limited(characters_between(alloc, text, index, index)?, limit)
        }
        _ => Err(wrong_words(alloc, "string")),
    }
}

/// `string range text first last`
fn range_value(alloc: Global, operands: &[String], limit: usize) -> Result<String, ValueFault>
    ensures { GivesWithin limit result (string_range (map string_bytes operands.now)) }
{
    match operands {
        [text, first, last] => {
            let first = index_of(alloc, first)?;
            let last = index_of(alloc, last)?;
            limited(characters_between(alloc, text, first, last)?, limit)
        }
        _ => Err(wrong_words(alloc, "string")),
    }
}

/// `string equal text text`
fn equal_value(alloc: Global, operands: &[String], limit: usize) -> Result<String, ValueFault>
    ensures { GivesWithin limit result (string_equal (map string_bytes operands.now)) }
{
    match operands {
        [left, right] => limited(truth_text(alloc, left.as_str() == right.as_str())?, limit),
        _ => Err(wrong_words(alloc, "string")),
    }
}

/// `string compare text text`
fn compare_value(alloc: Global, operands: &[String], limit: usize) -> Result<String, ValueFault>
    ensures { GivesWithin limit result (string_compare (map string_bytes operands.now)) }
{
    match operands {
        [left, right] => limited(order_text(alloc, text_order(left, right))?, limit),
        _ => Err(wrong_words(alloc, "string")),
    }
}

/// An order as -1, 0 or 1.
fn order_text(alloc: Global, order: Ordering) -> Result<String, AllocError>
    ensures { IfOk result (λ t. string_bytes t ≡ order_text order) }
{
    let text = match order {
        Ordering::Less => "-1",
        Ordering::Equal => "0",
        Ordering::Greater => "1",
    };
    String::from_str(alloc, text)
}

/// `string match pattern text`
fn match_value(alloc: Global, operands: &[String], limit: usize) -> Result<String, ValueFault>
    ensures { GivesWithin limit result (string_match (map string_bytes operands.now)) }
{
    match operands {
        [pattern, text] => limited(truth_text(alloc, glob(pattern, text))?, limit),
        _ => Err(wrong_words(alloc, "string")),
    }
}

/// `string first sought text` and `string last sought text`
fn position_value(
    alloc: Global,
    occurrence: Occurrence,
    operands: &[String],
    limit: usize,
) -> Result<String, ValueFault>
    ensures { GivesWithin limit result (string_position (search_for occurrence) (map string_bytes operands.now)) }
{
    match operands {
        [sought, text] => {
            let position = sought_position(alloc, occurrence, sought, text)?;
            limited(position_text(alloc, position)?, limit)
        }
        _ => Err(wrong_words(alloc, "string")),
    }
}

/// The position of the first character of a text in another; an empty text is never found.
fn sought_position(
    alloc: Global,
    occurrence: Occurrence,
    sought: &str,
    text: &str,
) -> Result<Option<usize>, AllocError>
    ensures { IfOk result (λ p. p ≡ sought_position (search_for occurrence) sought.now text.now) }
{
    if sought.is_empty() {
        return Ok(None);
    }
    let sought = characters(alloc, sought)?;
    let text = characters(alloc, text)?;
    match occurrence {
        Occurrence::First => Ok(first_position(&sought, &text)),
        Occurrence::Last => Ok(last_position(&sought, &text)),
    }
}

/// A position as a number; -1 where there is none.
fn position_text(alloc: Global, position: Option<usize>) -> Result<String, AllocError>
    ensures { IfOk result (λ t. string_bytes t ≡ position_text position) }
{
    match position {
        None => String::from_str(alloc, "-1"),
        Some(position) => position.to_string(alloc),
    }
}

/// `string map list text`
fn map_value(alloc: Global, operands: &[String], limit: usize) -> Result<String, ValueFault>
    ensures { GivesWithin limit result (string_map (map string_bytes operands.now)) }
{
    match operands {
        [list, text] => {
            let elements = elements(alloc, list)?;
            mapped(alloc, &replacements(alloc, &elements)?, text, limit)
        }
        _ => Err(wrong_words(alloc, "string")),
    }
}

/// `string repeat text count`
fn repeat_value(alloc: Global, operands: &[String], limit: usize) -> Result<String, ValueFault>
    ensures { GivesWithin limit result (string_repeat (map string_bytes operands.now)) }
{
    match operands {
        [text, count] => {
            let count = usize::try_from(count_of(alloc, count)?).unwrap_or(0);
            repeated(alloc, text, count, limit)
        }
        _ => Err(wrong_words(alloc, "string")),
    }
}

/// `string trim text ?characters?`, and `trimleft` and `trimright`
fn trim_value(
    alloc: Global,
    ends: Ends,
    operands: &[String],
    limit: usize,
) -> Result<String, ValueFault>
    ensures { GivesWithin limit result (string_trimmed (trimmed_at ends) (map string_bytes operands.now)) }
{
    match operands {
        [text] => limited(trimmed_of_space(alloc, ends, text)?, limit),
        [text, set] => limited(trimmed(alloc, ends, set, text)?, limit),
        _ => Err(wrong_words(alloc, "string")),
    }
}
