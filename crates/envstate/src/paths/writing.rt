//! The two texts that a path variable is written as: its elements, and the counters of its elements.
ghost use Rattle.std.specs.Prelude.{◌≡◌, ◌<◌, List, IfOk, OnOk, [], ◌∷◌, ◌++◌, decimal, flat_map, string_bytes, nat_le};
ghost use Rattle.std.specs.List.{list_any};
ghost use Rattle.std.specs.Option.{option_map};
ghost use Rattle.indexmap.specs.IndexMap.{values};
ghost use Rattle.envvars.specs.Texts.{Text, slice_texts};
ghost use Rattle.envvars.specs.Fields.{text_of_elements, without_repeats};
ghost use Rattle.envvars.specs.Escapes.{escaped};
ghost use Rattle.envstate.specs.paths.Tables.{counter_in, count_in, state_from_table, pair_fields, with_separator};
ghost use Rattle.envstate.specs.paths.Tables.{unless_empty};
ghost use Rattle.envstate.specs.paths.PathEdits.{AreTexts};
ghost use Rattle.envstate.specs.paths.PathTexts.{elements_text, counters_as_text, is_lone_empty};

use crate::paths::path::{Counters, Path, PathTexts};
use envvars::escapes::push_escaped;
use envvars::fields::join;
use itoa::Buffer;
use std::alloc::{AllocError, Global};

/// The smallest counter that is written: an element without a written counter has 1.
const LEAST_WRITTEN: u32 = 2;

/// Appends a colon, unless the text is empty.
fn push_separator(text: &mut String) -> Result<(), AllocError>
    ensures { OnOk result (string_bytes text.new ≡ with_separator (string_bytes text.old)) }
{
    if text.is_empty() {
        return Ok(());
    }
    text.push(':')
}

/// Appends an element, with escapes, and its counter.
fn push_pair(text: &mut String, element: &str, count: u32) -> Result<(), AllocError>
    ensures { OnOk result (string_bytes text.new ≡ string_bytes text.old ++
        (escaped element.now ++ 58 ∷ decimal count)) }
{
    push_escaped(text, element)?;
    text.push(':')?;
    text.push_str(Buffer::new().format(count))
}

/// Appends the pair of an element and its counter to the pairs of a text, where the counter is two or more.
fn push_count(text: &mut String, element: &str, count: u32) -> Result<(), AllocError>
    ensures { OnOk result ((fs : List Text) → unless_empty (string_bytes text.old) ≡ text_of_elements fs
        → unless_empty (string_bytes text.new) ≡ text_of_elements (fs ++ pair_fields (λ x. count) element.now)) }
{
    if count < LEAST_WRITTEN {
        return Ok(());
    }
    push_separator(text)?;
    push_pair(text, element, count)
}

/// The text; none where it is empty.
fn unless_empty(text: String) -> Option<String>
    ensures { option_map string_bytes result ≡ unless_empty (string_bytes text) }
{
    if text.is_empty() {
        return None;
    }
    Some(text)
}

/// The text of the counters of two or more, in the order of the elements. An element that is there twice is written
/// once, since the counter of each element becomes 1 when it is written.
fn counters_text<'a>(
    alloc: Global,
    elements: &[&'a str],
    counters: &mut Counters<'a>,
) -> Result<Option<String>, AllocError>
    ensures { IfOk result (λ t. option_map string_bytes t
        ≡ text_of_elements (flat_map (pair_fields (count_in (counter_in counters.old))) (without_repeats (slice_texts elements.now)))) }
{
    let mut text = String::new(alloc);
    for element in elements {
        let count = counters.insert(*element, 1)?.unwrap_or(0);
        push_count(&mut text, *element, count)?;
    }
    Ok(unless_empty(text))
}

/// The text of the counters where the empty element is the only one, whose counter is always written.
fn lone_empty_text(alloc: Global, counters: &Counters<'_>) -> Result<Option<String>, AllocError>
    ensures { IfOk result (λ t. option_map string_bytes t
        ≡ text_of_elements ([] ∷ decimal (count_in (counter_in counters.now) []) ∷ [])) }
{
    let count = counters.get("").copied().unwrap_or(0);
    let mut text = String::new(alloc);
    push_pair(&mut text, "", count)?;
    Ok(Some(text))
}

/// Whether the empty element is the only one.
fn is_lone_empty(elements: &[&str]) -> bool
    ensures { result ≡ is_lone_empty (slice_texts elements.now) }
{
    match elements {
        [only] => only.is_empty(),
        _ => false,
    }
}

/// Whether some counter is two or more.
fn any_is_repeated(counters: &Counters<'_>) -> bool
    ensures { result ≡ list_any (λ count. nat_le 2 count) (values counters.now) }
{
    counters.values().any(|count| *count >= 2)
}

/// The text of the counters; none where none has to be written. It uses the counters up.
fn write_counters<'a>(
    alloc: Global,
    elements: &[&'a str],
    counters: &mut Counters<'a>,
) -> Result<Option<String>, AllocError>
    ensures { IfOk result (λ t. option_map string_bytes t
        ≡ counters_as_text (state_from_table (slice_texts elements.now) (counter_in counters.old))) }
{
    if is_lone_empty(elements) {
        return lone_empty_text(alloc, counters);
    }
    if !any_is_repeated(counters) {
        return Ok(None);
    }
    counters_text(alloc, elements, counters)
}

/// The elements with the delimiter between them; no text where there is no element.
fn elements_text(
    alloc: Global,
    delim: char,
    elements: &[&str],
) -> Result<Option<String>, AllocError>
    requires { delim < 128 }
    ensures { IfOk result (λ t. option_map string_bytes t ≡ elements_text delim (slice_texts elements.now)) }
{
    if elements.is_empty() {
        return Ok(None);
    }
    Ok(Some(join(alloc, elements, delim)?))
}

/// The two texts that a path variable is written as. It uses the counters up.
pub fn write_path(alloc: Global, delim: char, path: &mut Path<'_>) -> Result<PathTexts, AllocError>
    requires { delim < 128 }
    ensures { IfOk result (λ t. AreTexts t delim (state_from_table (slice_texts path.old.elements.items)
        (counter_in path.old.counters))) }
{
    let elements = elements_text(alloc, delim, path.elements.as_slice())?;
    let counters = write_counters(alloc, path.elements.as_slice(), &mut path.counters)?;
    Ok(PathTexts { elements, counters })
}
