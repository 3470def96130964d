//! The commands on lists (list(n), llength(n), lindex(n), lrange(n), split(n), join(n), concat(n)).
ghost use Rattle.std.specs.Prelude.{◌≡◌, ◌∷◌, [], Ok, decimal, length, map, string_bytes};
ghost use Rattle.tclvalue.specs.Commands.{list_command, llength_command, lindex_command, lrange_command, split_command};
ghost use Rattle.tclvalue.specs.Commands.{join_command, element_at, element_text, elements_between, range_text};
ghost use Rattle.tclvalue.specs.Growing.{GivesWithin};
ghost use Rattle.tclvalue.specs.Views.{command_view, index_view};

use crate::bounded::limited;
use crate::concat::concatenated;
use crate::index::{Index, between, index_of};
use crate::lists::{joined, list_text};
use crate::names::ValueCommand;
use crate::operators::{ValueFault, elements, wrong_words};
use crate::string_command::string_value;
use crate::texts::{parts, parts_at_space};
use std::alloc::Global;

/// The answer of a command of values to the words after its name, within a limit on its bytes.
pub(crate) fn value_of(
    alloc: Global,
    command: ValueCommand,
    words: &[String],
    limit: usize,
) -> Result<String, ValueFault>
    ensures { GivesWithin limit result (command_view command (map string_bytes words.now)) }
{
    match command {
        ValueCommand::List => limited_list(alloc, words, limit),
        ValueCommand::Llength => llength_value(alloc, words, limit),
        ValueCommand::Lindex => lindex_value(alloc, words, limit),
        ValueCommand::Lrange => lrange_value(alloc, words, limit),
        ValueCommand::Split => split_value(alloc, words, limit),
        ValueCommand::Join => join_value(alloc, words, limit),
        ValueCommand::Concat => concatenated(alloc, words, limit),
        ValueCommand::String => match words {
            [subcommand, operands @ ..] => string_value(alloc, subcommand, operands, limit),
            [] => Err(wrong_words(alloc, "string")),
        },
    }
}

/// The text of the list with these elements, within the limit.
fn limited_list(alloc: Global, elements: &[String], limit: usize) -> Result<String, ValueFault>
    ensures { GivesWithin limit result (list_command (map string_bytes elements.now)) }
{
    limited(list_text(alloc, elements)?, limit)
}

/// How many elements there are, as a text.
fn count_text(alloc: Global, elements: &[String], limit: usize) -> Result<String, ValueFault>
    ensures { GivesWithin limit result (Ok (decimal (length (map string_bytes elements.now)))) }
{
    limited(elements.len().to_string(alloc)?, limit)
}

/// `llength list`
fn llength_value(alloc: Global, words: &[String], limit: usize) -> Result<String, ValueFault>
    ensures { GivesWithin limit result (llength_command (map string_bytes words.now)) }
{
    match words {
        [list] => count_text(alloc, &elements(alloc, list)?, limit),
        _ => Err(wrong_words(alloc, "llength")),
    }
}

/// `lindex list ?index?`
fn lindex_value(alloc: Global, words: &[String], limit: usize) -> Result<String, ValueFault>
    ensures { GivesWithin limit result (lindex_command (map string_bytes words.now)) }
{
    match words {
        [list] => limited(list.clone()?, limit),
        [list, index] => element_text(alloc, &elements(alloc, list)?, index, limit),
        _ => Err(wrong_words(alloc, "lindex")),
    }
}

/// The element at the index that a word spells, or the empty text outside of the list.
fn element_text(
    alloc: Global,
    elements: &[String],
    index: &str,
    limit: usize,
) -> Result<String, ValueFault>
    ensures { GivesWithin limit result (element_text index.now (map string_bytes elements.now)) }
{
    let index = index_of(alloc, index)?;
    limited(String::from_str(alloc, element_at(elements, index))?, limit)
}

/// The element at an index, or the empty text outside of the list.
fn element_at(elements: &[String], index: Index) -> &str
    ensures { result.now ≡ element_at (index_view index) (map string_bytes elements.entry.now) }
{
    match index.position(elements.len()) {
        Some(position) => &elements[position],
        None => "",
    }
}

/// `lrange list first last`
#[tactic(auto, using(crate::proofs::CommandLemmas::too_few_to_range, crate::proofs::CommandLemmas::too_many_to_range))]
fn lrange_value(alloc: Global, words: &[String], limit: usize) -> Result<String, ValueFault>
    ensures { GivesWithin limit result (lrange_command (map string_bytes words.now)) }
{
    match words {
        [list, first, last] => range_text(alloc, &elements(alloc, list)?, first, last, limit),
        _ => Err(wrong_words(alloc, "lrange")),
    }
}

/// The list of the elements from one index to another, which two words spell.
fn range_text(
    alloc: Global,
    elements: &[String],
    first: &str,
    last: &str,
    limit: usize,
) -> Result<String, ValueFault>
    ensures { GivesWithin limit result (range_text first.now last.now (map string_bytes elements.now)) }
{
    let first = index_of(alloc, first)?;
    let last = index_of(alloc, last)?;
    limited_list(alloc, elements_between(elements, first, last), limit)
}

/// The elements from one index to another, both included, as far as there are such elements.
fn elements_between(elements: &[String], first: Index, last: Index) -> &[String]
    ensures { map string_bytes result.now ≡ elements_between (index_view first) (index_view last)
        (map string_bytes elements.entry.now) }
{
    between(elements, first, last)
}

/// `split text ?characters?`
#[tactic(auto, using(crate::proofs::CommandLemmas::too_few_to_split, crate::proofs::CommandLemmas::too_many_to_split))]
fn split_value(alloc: Global, words: &[String], limit: usize) -> Result<String, ValueFault>
    ensures { GivesWithin limit result (split_command (map string_bytes words.now)) }
{
    match words {
        [text] => limited_list(alloc, &parts_at_space(alloc, text)?, limit),
        [text, set] => limited_list(alloc, &parts(alloc, set, text)?, limit),
        _ => Err(wrong_words(alloc, "split")),
    }
}

/// `join list ?separator?`
fn join_value(alloc: Global, words: &[String], limit: usize) -> Result<String, ValueFault>
    ensures { GivesWithin limit result (join_command (map string_bytes words.now)) }
{
    match words {
        [list] => joined_elements(alloc, " ", list, limit),
        [list, separator] => joined_elements(alloc, separator, list, limit),
        _ => Err(wrong_words(alloc, "join")),
    }
}

/// The elements of a list with a separator between them.
fn joined_elements(
    alloc: Global,
    separator: &str,
    list: &str,
    limit: usize,
) -> Result<String, ValueFault>
    ensures { GivesWithin limit result (join_command (list.now ∷ separator.now ∷ [])) }
{
    joined(alloc, separator, &elements(alloc, list)?, limit)
}
