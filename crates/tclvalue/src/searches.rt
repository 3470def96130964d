//! Searches in texts, and replacements (string(n), first, last, map).
ghost use Rattle.std.specs.Prelude.{◌≡◌, ◌<◌, ◌-◌, ◌++◌, length, drop, map, string_bytes, IfOk, IfErr, OnOk};
ghost use Rattle.std.specs.Option.{option_map, option_copied};
ghost use Rattle.std.specs.Str.{chars};
ghost use Rattle.message.specs.Answers.{Gives};
ghost use Rattle.tclvalue.specs.operators.Faults.{reason_of, GivesText};
ghost use Rattle.tclvalue.specs.Limits.{limited};
ghost use Rattle.tclvalue.specs.Growing.{Appends, Exceeds, StaysWithin};
ghost use Rattle.tclvalue.specs.Searches.{first_position, last_position, fits, first_fit, pairs_of, mapped};
ghost use Rattle.tclvalue.specs.Views.{pair_view};

use crate::bounded::{BoundedText, limited};
use crate::characters::characters;
use crate::operators::{ValueFault, not_a_list};
use std::alloc::Global;

/// Which of the copies of a text in another is sought.
#[derive(Clone, Copy)]
pub(crate) enum Occurrence {
    First,
    Last,
}

/// The first position at which a text stands in another.
pub(crate) fn first_position(sought: &[char], text: &[char]) -> Option<usize>
    ensures { result ≡ first_position sought.now text.now }
{
    let mut rest = text;
    while let [_, after @ ..] = rest {
        if rest.starts_with(sought) {
            return Some(text.len() - rest.len());
        }
        rest = after;
    }
    None
}

/// The last position at which a text stands in another.
pub(crate) fn last_position(sought: &[char], text: &[char]) -> Option<usize>
    ensures { result ≡ last_position sought.now text.now }
{
    let mut rest = text;
    let mut last = None;
    while let [_, after @ ..] = rest {
        let here = rest.starts_with(sought).then_some(text.len() - rest.len());
        last = here.or(last);
        rest = after;
    }
    last
}

/// A key, and the text that replaces it.
#[derive(Drop)]
pub(crate) struct Replacement<'a> {
    pub(crate) key: Vec<char>,
    pub(crate) value: &'a str,
}

/// Whether a text begins with the key; an empty key never fits.
fn fits(text: &[char], replacement: &Replacement) -> bool
    ensures { result ≡ fits text.now (pair_view replacement.now) }
{
    !replacement.key.is_empty() && text.starts_with(&replacement.key)
}

/// The first of the replacements whose key a text begins with.
fn first_fit<'a, 'b>(
    replacements: &'a [Replacement<'b>],
    text: &[char],
) -> Option<&'a Replacement<'b>>
    ensures { option_map pair_view (option_copied result)
        ≡ first_fit (map pair_view replacements.entry.now) text.now }
{
    replacements
        .iter()
        .find(|replacement| fits(text, replacement))
}

/// Appends a text in which, from left to right, the first key that fits is replaced.
fn push_mapped(
    out: &mut BoundedText,
    replacements: &[Replacement],
    text: &[char],
) -> Result<(), ValueFault>
    ensures { Appends result out.old out.new (mapped (map pair_view replacements.now) 0 text.now) }
{
    let mut rest = text;
    while !rest.is_empty() {
        rest = push_next(out, replacements, rest)?;
    }
    Ok(())
}

/// The text in which, from left to right, the first key that fits is replaced (string(n), map).
///
/// Errors: `ValueTooLong` beyond the limit, `OutOfMemory`.
pub(crate) fn mapped(
    alloc: Global,
    replacements: &[Replacement],
    text: &str,
    limit: usize,
) -> Result<String, ValueFault>
    ensures { GivesText result (limited limit (mapped (map pair_view replacements.now) 0 (chars text.now))) }
{
    let characters = characters(alloc, text)?;
    let mut out = BoundedText::new(alloc, limit);
    push_mapped(&mut out, replacements, &characters)?;
    limited(out.text, limit)
}

/// Appends the first character of a text, or what replaces the key that it begins with. Gives the rest of the text.
fn push_next<'a>(
    out: &mut BoundedText,
    replacements: &[Replacement],
    text: &'a [char],
) -> Result<&'a [char], ValueFault>
    ensures shorter { IfOk result (λ rest. 0 < length text.entry.now → length rest.now < length text.entry.now) }
    ensures limit { OnOk result (out.new.limit ≡ out.old.limit) }
    ensures within { OnOk result (StaysWithin out.old out.new) }
    ensures ok { IfOk result (λ rest. string_bytes out.new.text ++ mapped (map pair_view replacements.now) 0 rest.now
        ≡ string_bytes out.old.text ++ mapped (map pair_view replacements.now) 0 text.entry.now) }
    ensures refused { IfErr result (λ e. Exceeds e out.old.limit
        (string_bytes out.old.text ++ mapped (map pair_view replacements.now) 0 text.entry.now)) }
{
    let [first, after @ ..] = text else {
        return Ok(text);
    };
    match first_fit(replacements, text) {
        Some(found) => {
            out.push(found.value)?;
            Ok(after_key(found, after))
        }
        None => {
            out.push_character(*first)?;
            Ok(after)
        }
    }
}

/// What follows a key in a text that goes on after the first character of the key.
fn after_key<'a>(found: &Replacement, text: &'a [char]) -> &'a [char]
    ensures { result.now ≡ drop (length (pair_view found.now).0 - 1) text.entry.now }
{
    text.get(found.key.len().saturating_sub(1)..).unwrap_or(&[])
}

/// The keys and values in the elements of a list, by turns.
///
/// Errors: `TclError` where the last key has no value, `OutOfMemory`.
pub(crate) fn replacements(
    alloc: Global,
    elements: &[String],
) -> Result<Vec<Replacement<'_>>, ValueFault>
    ensures { Gives reason_of (λ v. map pair_view v.items) result (pairs_of (map string_bytes elements.entry.now)) }
{
    let mut replacements = Vec::new(alloc);
    let mut rest = elements;
    while let [key, value, after @ ..] = rest {
        let key = characters(alloc, key)?;
        replacements.push(Replacement { key, value })?;
        rest = after;
    }
    if rest.is_empty() {
        Ok(replacements)
    } else {
        Err(not_a_list(alloc))
    }
}
