//! Reading the two texts of a path variable: its elements, and the counters of its elements.
ghost use Rattle.std.specs.Prelude.{◌≡◌, ◌≤◌, ◌<◌, ◌&&◌, nat_le, slice_index, IfOk, [], ◌∷◌, is_some};
ghost use Rattle.std.specs.Option.{option_map};
ghost use Rattle.envvars.specs.Texts.{Text, slice_texts};
ghost use Rattle.envstate.specs.paths.Paths.{largest_counter};
ghost use Rattle.envstate.specs.paths.Counters.{counter_of};
ghost use Rattle.envstate.specs.paths.Tables.{counter_in, count_in, overwritten_by, one_for_each, state_from_table};
ghost use Rattle.envstate.specs.paths.Tables.{HasCountersOf};
ghost use Rattle.envstate.specs.paths.PathTexts.{counter_in_pairs, paired, elements_of, state_from_pairs, state_of};

use crate::paths::path::{Counters, Path};
use envvars::escapes::unescaped_fields;
use envvars::fields::{parts, slices};
use indexmap::IndexMap;
use std::alloc::{AllocError, Global};

/// Whether the text begins with a digit from 1 to 9, as a counter without leading zeros does.
fn begins_as_counter(text: &str) -> bool
    ensures { result ≡ (nat_le 49 (slice_index text.now 0) && nat_le (slice_index text.now 0) 57) }
{
    match text.as_bytes() {
        [first, ..] => b'1' <= *first && *first <= b'9',
        [] => false,
    }
}

/// The counter that the text spells in decimal, without leading zeros; none where it spells none.
fn counter_of(text: &str) -> Option<u32>
    ensures { result ≡ counter_of text.now }
{
    if !begins_as_counter(text) {
        return None;
    }
    match text.parse() {
        Ok(count) => Some(count),
        Err(_) => None,
    }
}

/// Sets the counter of an element to the one that a text spells, where the element is there and the text spells one.
fn set_counter(counters: &mut Counters<'_>, element: &str, number: &str)
    ensures { (x : Text) → counter_in counters.new x
        ≡ overwritten_by ((element.now, number.now) ∷ []) (counter_in counters.old) x }
{
    let Some(count) = counter_of(number) else {
        return;
    };
    if let Some(slot) = counters.get_mut(element) {
        *slot = count;
    }
}

/// Sets the counters from fields in pairs of element and counter. They are gone through from the last to the first, so
/// the first pair of an element counts. A last field without a partner is passed over.
fn set_counters(counters: &mut Counters<'_>, fields: &[&str])
    ensures { (x : Text) → counter_in counters.new x
        ≡ overwritten_by (paired (slice_texts fields.now)) (counter_in counters.old) x }
{
    let mut rest = &fields[..fields.len() - fields.len() % 2];
    while let [before @ .., element, number] = rest {
        set_counter(counters, element, number);
        rest = before;
    }
}

/// Whether a pair of the fields has a counter for the empty element.
fn counts_empty_element(fields: &[&str]) -> bool
    ensures { result ≡ is_some (counter_in_pairs [] (paired (slice_texts fields.now))) }
{
    let mut rest = fields;
    while let [element, number, after @ ..] = rest {
        if element.is_empty() && counter_of(number).is_some() {
            return true;
        }
        rest = after;
    }
    false
}

/// The elements of a path variable. The fields of its counters decide whether an empty text is one empty element.
fn elements_of<'a>(
    alloc: Global,
    delim: char,
    text: Option<&'a str>,
    fields: &[&str],
) -> Result<Vec<&'a str>, AllocError>
    requires { delim < 128 }
    ensures { IfOk result (λ v. slice_texts v.items
        ≡ elements_of delim (option_map (λ t. t.now) text.entry) (paired (slice_texts fields.now))) }
{
    let Some(text) = text else {
        return Ok(Vec::new(alloc));
    };
    if !text.is_empty() {
        return parts(alloc, text, delim);
    }
    let mut elements = Vec::new(alloc);
    if counts_empty_element(fields) {
        elements.push(text)?;
    }
    Ok(elements)
}

/// The counter 1 for each of the elements.
fn counters_of_one<'a>(alloc: Global, elements: &[&'a str]) -> Result<Counters<'a>, AllocError>
    ensures { IfOk result (λ m. (x : Text) → counter_in m x ≡ one_for_each (slice_texts elements.now) x) }
{
    let mut counters = IndexMap::with_capacity(alloc, elements.len())?;
    for element in elements {
        counters.insert(*element, 1)?;
    }
    Ok(counters)
}

/// Reads a path variable with the fields of its counters.
fn path_of<'a>(
    alloc: Global,
    delim: char,
    text: Option<&'a str>,
    fields: &[&str],
) -> Result<Path<'a>, AllocError>
    requires { delim < 128 }
    ensures state { IfOk result (λ p. state_from_table (slice_texts p.elements.items) (counter_in p.counters)
        ≡ state_from_pairs delim (option_map (λ t. t.now) text.entry) (paired (slice_texts fields.now))) }
    ensures fits { IfOk result (λ p. (x : Text) → count_in (counter_in p.counters) x ≤ largest_counter) }
    ensures table { IfOk result (λ p. HasCountersOf (slice_texts p.elements.items) (counter_in p.counters)) }
{
    let elements = elements_of(alloc, delim, text, fields)?;
    let mut counters = counters_of_one(alloc, elements.as_slice())?;
    set_counters(&mut counters, fields);
    Ok(Path { elements, counters })
}

/// Reads a path variable from its text and from that of its counters.
pub(crate) fn read_path<'a>(
    alloc: Global,
    delim: char,
    text: Option<&'a str>,
    counts: Option<&str>,
) -> Result<Path<'a>, AllocError>
    requires { delim < 128 }
    ensures state { IfOk result (λ p. state_from_table (slice_texts p.elements.items) (counter_in p.counters)
        ≡ state_of delim (option_map (λ t. t.now) text.entry) (option_map (λ t. t.now) counts.entry)) }
    ensures fits { IfOk result (λ p. (x : Text) → count_in (counter_in p.counters) x ≤ largest_counter) }
    ensures table { IfOk result (λ p. HasCountersOf (slice_texts p.elements.items) (counter_in p.counters)) }
{
    let Some(counts) = counts else {
        return path_of(alloc, delim, text, &[]);
    };
    if !counts.contains('\\') {
        return path_of(alloc, delim, text, parts(alloc, counts, ':')?.as_slice());
    }
    let fields = unescaped_fields(alloc, counts)?;
    let fields = slices(alloc, fields.as_slice())?;
    path_of(alloc, delim, text, fields.as_slice())
}
