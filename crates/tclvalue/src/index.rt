//! Indexes of lists and texts (lindex(n), string(n)): a whole number, `end`, or `end-N`.
ghost use Rattle.std.specs.Prelude.{◌≡◌, ◌+ℤ◌, ℤ, pos, min, length, Some, Ok};
ghost use Rattle.tcltext.specs.chars.Numerals.{numeral};
ghost use Rattle.message.specs.Answers.{Gives};
ghost use Rattle.tclvalue.specs.operators.Faults.{reason_of};
ghost use Rattle.tclvalue.specs.Indexes.{index_of, index_after_end, index_number, count_of, position, position_among};
ghost use Rattle.tclvalue.specs.Indexes.{at_least_0, items_between};
ghost use Rattle.tclvalue.specs.Views.{index_view};

use crate::operators::{ValueFault, bad_index, not_a_whole_number};
use std::alloc::Global;
use tcltext::chars::{Class, Numeral, begins_class, read_number};

/// An index as it is spelled, before the number of items is known.
#[derive(Clone, Copy)]
pub(crate) enum Index {
    /// `N`: counted from 0, the first item.
    FromStart(i64),
    /// `end-N`: counted back from the last item.
    FromEnd(i64),
}

impl Index {
    /// The position, from 0, among so many items; None outside of them.
    pub(crate) fn position(self, length: usize) -> Option<usize>
        ensures { result ≡ position_among length (position length (index_view self)) }
    {
        match self {
            Index::FromStart(number) => usize::try_from(number)
                .ok()
                .filter(|position| *position < length),
            Index::FromEnd(number) => match usize::try_from(number) {
                Ok(back) if back < length => Some(length - 1 - back),
                _ => None,
            },
        }
    }

    /// How many of so many items are before the index.
    pub(crate) fn items_before(self, length: usize) -> usize
        ensures { result ≡ min (at_least_0 (position length (index_view self))) length }
    {
        match self {
            Index::FromStart(number) => usize::try_from(number).unwrap_or(0).min(length),
            Index::FromEnd(number) => match usize::try_from(number) {
                Ok(back) => length.saturating_sub(1).saturating_sub(back),
                Err(_) => length,
            },
        }
    }

    /// How many of so many items are before the index or at it.
    pub(crate) fn items_through(self, length: usize) -> usize
        ensures { result ≡ min (at_least_0 (position length (index_view self) +ℤ pos 1)) length }
    {
        match self {
            Index::FromStart(number) => match usize::try_from(number) {
                Ok(position) if position < length => position + 1,
                Ok(_) => length,
                Err(_) => 0,
            },
            Index::FromEnd(number) => match usize::try_from(number) {
                Ok(back) => length.saturating_sub(back),
                Err(_) => length,
            },
        }
    }
}

/// The index that a word spells.
pub(crate) fn index_of(alloc: Global, word: &str) -> Result<Index, ValueFault>
    ensures { Gives reason_of index_view result (index_of word.now) }
{
    if word == "end" {
        return Ok(Index::FromEnd(0));
    }
    match word.strip_prefix("end-") {
        Some(rest) => index_after_end(alloc, word, rest),
        None => number_in(alloc, word, word).map(Index::FromStart),
    }
}

/// The index of a word that is `end-` and the rest, which may not begin with white space.
#[tactic(auto, using(crate::proofs::IndexLemmas::space_class))]
fn index_after_end(alloc: Global, word: &str, rest: &str) -> Result<Index, ValueFault>
    ensures { Gives reason_of index_view result (index_after_end word.now (Some rest.now)) }
{
    if begins_class(rest, Class::Space) {
        return Err(bad_index(alloc, word));
    }
    number_in(alloc, word, rest).map(Index::FromEnd)
}

/// The number that is spelled in an index; the word is the whole index, for the message.
fn number_in(alloc: Global, word: &str, number: &str) -> Result<i64, ValueFault>
    ensures { Gives reason_of (λ n. n) result (index_number word.now (numeral number.now)) }
{
    match read_number(number) {
        Numeral::Whole(number) => Ok(number),
        Numeral::TooLarge => Err(ValueFault::NumberTooLarge),
        Numeral::Fraction => Err(ValueFault::FractionOperand),
        Numeral::Text => Err(bad_index(alloc, word)),
    }
}

/// A count: a whole number.
///
/// Errors: `NumberTooLarge`, `FractionOperand`, `TclError` for another text, `OutOfMemory` where memory for its message
/// runs out.
pub fn count_of(alloc: Global, word: &str) -> Result<i64, ValueFault>
    ensures value { Gives reason_of (λ n. n) result (count_of word.now) }

    // Memory is needed for a message alone.
    ensures sure { (n : ℤ) → count_of word.now ≡ Ok n → result ≡ Ok n }
{
    match read_number(word) {
        Numeral::Whole(number) => Ok(number),
        Numeral::TooLarge => Err(ValueFault::NumberTooLarge),
        Numeral::Fraction => Err(ValueFault::FractionOperand),
        Numeral::Text => Err(not_a_whole_number(alloc, word)),
    }
}

/// The items from one index to another, both included, as far as there are such items.
pub(crate) fn between<T>(items: &[T], first: Index, last: Index) -> &[T]
    ensures { result.now ≡ items_between (position (length items.entry.now) (index_view first))
        (position (length items.entry.now) (index_view last)) items.entry.now }
{
    let start = first.items_before(items.len());
    let end = last.items_through(items.len());
    items.get(start..end).unwrap_or(&[])
}
