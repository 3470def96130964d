//! Edits of one element where no counter is written: the text is searched, and what stays is copied as it is.
ghost use Rattle.std.specs.Prelude.{◌≡◌, ◌<◌, ◌++◌, ◌∷◌, [], IfOk, IfSome, true, string_bytes};
ghost use Rattle.std.specs.List.{list_all, join_with_byte};
ghost use Rattle.std.specs.Option.{option_map};
ghost use Rattle.envvars.specs.Texts.{has, slice_texts};
ghost use Rattle.envvars.specs.Fields.{without};
ghost use Rattle.envstate.specs.paths.Paths.{put_at, add_all, drop_all};
ghost use Rattle.envstate.specs.paths.PathTexts.{split_elements, state_of};
ghost use Rattle.envstate.specs.paths.PathVariables.{is_element};
ghost use Rattle.envstate.specs.paths.PathEdits.{AreTexts, IsWritten};

use crate::paths::adding::End;
use crate::paths::path::PathTexts;
use envvars::fields::join;
use std::alloc::{AllocError, Global};

/// The text with the delimiter before and after it.
fn surrounded(alloc: Global, delim: char, text: &str) -> Result<String, AllocError>
    requires { delim < 128 }
    ensures { IfOk result (λ t. string_bytes t ≡ delim ∷ (text.now ++ delim ∷ [])) }
{
    let mut surrounded = String::with_capacity(alloc, text.len() + 2)?;
    surrounded.push(delim)?;
    surrounded.push_str(text)?;
    surrounded.push(delim)?;
    Ok(surrounded)
}

/// Whether the text has the element between its delimiters.
fn has_element(alloc: Global, delim: char, text: &str, element: &str) -> Result<bool, AllocError>
    requires delimiter { delim < 128 }
    requires element { is_element delim element.now ≡ true }
    ensures { IfOk result (λ b. b ≡ has element.now (split_elements delim text.now)) }
{
    let text = surrounded(alloc, delim, text)?;
    let element = surrounded(alloc, delim, element)?;
    Ok(text.as_str().contains(element.as_str()))
}

/// The text with an element put at an end.
fn with_element(
    alloc: Global,
    delim: char,
    text: &str,
    element: &str,
    end: End,
) -> Result<String, AllocError>
    requires { delim < 128 }
    ensures { IfOk result (λ t. string_bytes t ≡ join_with_byte delim (put_at (text.now ∷ []) element.now end)) }
{
    match end {
        End::Front => join(alloc, &[element, text], delim),
        End::Back => join(alloc, &[text, element], delim),
    }
}

/// The texts after one new element is added to a text that has others, where no counter is written. None in every
/// other case: the elements have to be read then.
pub(crate) fn with_one_more(
    alloc: Global,
    delim: char,
    text: Option<&str>,
    counts: Option<&str>,
    more: &[&str],
    end: End,
) -> Result<Option<PathTexts>, AllocError>
    requires delimiter { delim < 128 }
    requires elements { list_all (is_element delim) (slice_texts more.now) ≡ true }
    ensures { IfOk result (λ o. IfSome o (λ t. IsWritten t delim (add_all (state_of delim
        (option_map (λ t. t.now) text.entry) (option_map (λ t. t.now) counts.entry)) (slice_texts more.now) end))) }
{
    let (Some(text), None, [element]) = (text, counts, more) else {
        return Ok(None);
    };
    if text.is_empty() || has_element(alloc, delim, text, element)? {
        return Ok(None);
    }
    let elements = with_element(alloc, delim, text, element, end)?;
    Ok(Some(PathTexts {
        elements: Some(elements),
        counters: None,
    }))
}

/// The text between the delimiters at its ends; none where it hasn't both.
fn between_delimiters(delim: char, text: String) -> Option<String>
    requires { delim < 128 }
    ensures { IfSome result (λ inner. string_bytes text ≡ delim ∷ (string_bytes inner ++ delim ∷ [])) }
{
    let mut inner = text;
    let last = inner.pop()?;
    if inner.is_empty() {
        return None;
    }
    let first = inner.remove(0);
    if first != delim || last != delim {
        return None;
    }
    Some(inner)
}

/// The text without an element that it has exactly once. None where it hasn't it so, and where no other is left.
fn without_element(
    alloc: Global,
    delim: char,
    text: &str,
    element: &str,
) -> Result<Option<String>, AllocError>
    requires delimiter { delim < 128 }
    requires element { is_element delim element.now ≡ true }
    ensures { IfOk result (λ o. IfSome o (λ t. split_elements delim (string_bytes t)
        ≡ without element.now (split_elements delim text.now))) }
{
    let text = surrounded(alloc, delim, text)?;
    let wanted = surrounded(alloc, delim, element)?;
    let Some((before, after)) = text.as_str().split_once(wanted.as_str()) else {
        return Ok(None);
    };
    let rest = join(alloc, &[before, after], delim)?;
    if rest.as_str().contains(wanted.as_str()) {
        return Ok(None);
    }
    Ok(between_delimiters(delim, rest))
}

/// The texts after the only one of an element is dropped from a text that has others, where no counter is written.
/// None in every other case: the elements have to be read then.
pub(crate) fn with_one_less(
    alloc: Global,
    delim: char,
    text: Option<&str>,
    counts: Option<&str>,
    less: &[&str],
) -> Result<Option<PathTexts>, AllocError>
    requires delimiter { delim < 128 }
    requires elements { list_all (is_element delim) (slice_texts less.now) ≡ true }
    ensures { IfOk result (λ o. IfSome o (λ t. AreTexts t delim (drop_all (state_of delim
        (option_map (λ t. t.now) text.entry) (option_map (λ t. t.now) counts.entry)) (slice_texts less.now)))) }
{
    let (Some(text), None, [element]) = (text, counts, less) else {
        return Ok(None);
    };
    if text.is_empty() {
        return Ok(None);
    }
    let Some(kept) = without_element(alloc, delim, text, element)? else {
        return Ok(None);
    };
    if kept.as_str().is_empty() {
        return Ok(None);
    }
    Ok(Some(PathTexts {
        elements: Some(kept),
        counters: None,
    }))
}
