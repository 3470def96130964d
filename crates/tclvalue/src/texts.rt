//! Texts trimmed, cut, split and repeated (string(n), split(n)).
ghost use Rattle.std.specs.Prelude.{◌≡◌, ◌∷◌, [], map, string_bytes, IfOk};
ghost use Rattle.std.specs.List.{repeat, slice_split};
ghost use Rattle.tclvalue.specs.operators.Faults.{GivesText};
ghost use Rattle.tclvalue.specs.Limits.{limited};
ghost use Rattle.tclvalue.specs.Characters.{is_among, characters_between, parts, pieces, encoded_all, white_space};
ghost use Rattle.tclvalue.specs.Characters.{split_space};
ghost use Rattle.tclvalue.specs.Views.{without, trimmed_at, index_view};

use crate::characters::{characters, is_among, text_of, without_end, without_start};
use crate::index::{Index, between};
use crate::lists::texts_of;
use crate::operators::ValueFault;
use std::alloc::{AllocError, Global};

/// What string(n) trims by itself: space, tab, newline, vertical tab, form feed and carriage return.
const WHITE_SPACE: &str = " \t\n\u{b}\u{c}\r";

/// What split(n) splits at by itself: space, newline, tab and carriage return.
const SPLIT_SPACE: &str = " \n\t\r";

/// The ends at which a text is trimmed.
#[derive(Clone, Copy)]
pub(crate) enum Ends {
    Both,
    Start,
    End,
}

/// The text without the characters of a set at these ends.
pub(crate) fn trimmed(
    alloc: Global,
    ends: Ends,
    set: &str,
    text: &str,
) -> Result<String, AllocError>
    ensures { IfOk result (λ t. string_bytes t ≡ trimmed_at ends set.now text.now) }
{
    let set = characters(alloc, set)?;
    let characters = characters(alloc, text)?;
    text_of(alloc, without(ends, &set, &characters))
}

/// The text without white space at these ends.
#[tactic(auto, unfolding(crate::specs::Characters::white_space))]
pub(crate) fn trimmed_of_space(alloc: Global, ends: Ends, text: &str) -> Result<String, AllocError>
    ensures { IfOk result (λ t. string_bytes t ≡ trimmed_at ends white_space text.now) }
{
    trimmed(alloc, ends, WHITE_SPACE, text)
}

/// The characters without those of a set at these ends.
fn without<'a>(ends: Ends, set: &[char], text: &'a [char]) -> &'a [char]
    ensures { result.now ≡ without ends set.now text.entry.now }
{
    match ends {
        Ends::Both => without_end(set, without_start(set, text)),
        Ends::Start => without_start(set, text),
        Ends::End => without_end(set, text),
    }
}

/// The characters from one index to another, both included, as far as there are such characters.
pub(crate) fn characters_between(
    alloc: Global,
    text: &str,
    first: Index,
    last: Index,
) -> Result<String, AllocError>
    ensures { IfOk result (λ t. string_bytes t ≡ characters_between (index_view first) (index_view last) text.now) }
{
    let characters = characters(alloc, text)?;
    text_of(alloc, between(&characters, first, last))
}

/// The parts of a text between the characters of a set (split(n)): without a set each character is a part.
pub(crate) fn parts(alloc: Global, set: &str, text: &str) -> Result<Vec<String>, AllocError>
    ensures { IfOk result (λ v. map string_bytes v.items ≡ parts set.now text.now) }
{
    let set = characters(alloc, set)?;
    let characters = characters(alloc, text)?;
    if characters.is_empty() {
        return Ok(Vec::new(alloc));
    }
    if set.is_empty() {
        return single_texts(alloc, &characters);
    }
    texts_of(alloc, &character_runs(alloc, &set, &characters)?)
}

/// The runs of characters between those of a set.
fn character_runs<'a>(
    alloc: Global,
    set: &[char],
    text: &'a [char],
) -> Result<Vec<&'a [char]>, AllocError>
    ensures { IfOk result (λ v. map (λ r. r.now) v.items ≡ slice_split (is_among set.now) text.entry.now) }
{
    text.split(|c| is_among(set, *c)).collect(alloc)
}

/// The parts of a text between its white space (split(n) without a set).
#[tactic(auto, unfolding(crate::specs::Characters::split_space))]
pub(crate) fn parts_at_space(alloc: Global, text: &str) -> Result<Vec<String>, AllocError>
    ensures { IfOk result (λ v. map string_bytes v.items ≡ parts split_space text.now) }
{
    parts(alloc, SPLIT_SPACE, text)
}

fn single_texts(alloc: Global, characters: &[char]) -> Result<Vec<String>, AllocError>
    ensures { IfOk result (λ v. map string_bytes v.items ≡ encoded_all (map (λ c. c ∷ []) characters.now)) }
{
    let mut texts = Vec::new(alloc);
    for character in characters {
        texts.push(text_of(alloc, &[*character])?)?;
    }
    Ok(texts)
}

/// The text so many times (string(n), repeat), or `ValueTooLong` beyond the limit.
#[tactic(auto, using(crate::proofs::LimitLemmas::no_copies, crate::proofs::LimitLemmas::few_copies, crate::proofs::LimitLemmas::many_copies))]
pub(crate) fn repeated(
    alloc: Global,
    text: &str,
    count: usize,
    limit: usize,
) -> Result<String, ValueFault>
    ensures { GivesText result (limited limit (repeat count text.now)) }
{
    if text.is_empty() {
        return Ok(String::new(alloc));
    }
    let Some(length) = text.len().checked_mul(count) else {
        return Err(ValueFault::ValueTooLong);
    };
    if length > limit {
        return Err(ValueFault::ValueTooLong);
    }
    Ok(copies(alloc, text, count)?)
}

/// The text so many times, whatever its length.
fn copies(alloc: Global, text: &str, count: usize) -> Result<String, AllocError>
    ensures { IfOk result (λ t. string_bytes t ≡ repeat count text.now) }
{
    let mut copies = String::new(alloc);
    for _ in 0..count {
        copies.push_str(text)?;
    }
    Ok(copies)
}
