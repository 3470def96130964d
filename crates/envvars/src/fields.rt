//! Texts that are lists of fields: splitting, joining, and dropping repeated fields.
ghost use Rattle.std.specs.Prelude.{◌≡◌, ◌==◌, ◌<◌, map, IfOk, string_bytes};
ghost use Rattle.std.specs.List.{slice_split, join_with_byte};
ghost use Rattle.std.specs.Option.{option_map};
ghost use Rattle.envvars.specs.Texts.{slice_texts, texts_in};
ghost use Rattle.envvars.specs.Fields.{elements_in, text_of_elements, without_repeats, are_distinct};

use indexmap::IndexSet;
use std::alloc::{AllocError, Global};

/// How many bytes most parts have at least: as many parts get their room at once.
const USUAL_LENGTH: usize = 8;

/// The parts of a text between its separators. The separator is ASCII.
pub fn parts(alloc: Global, text: &str, separator: char) -> Result<Vec<&str>, AllocError>
    requires { separator < 128 }
    ensures { IfOk result (λ v. slice_texts v.items ≡ slice_split (λ b. b == separator) text.now) }
{
    let mut parts = Vec::with_capacity(alloc, text.len() / USUAL_LENGTH + 1)?;
    parts.extend(text.split(separator))?;
    Ok(parts)
}

/// The parts with the separator between them. The separator is ASCII.
pub fn join(alloc: Global, parts: &[&str], separator: char) -> Result<String, AllocError>
    requires { separator < 128 }
    ensures { IfOk result (λ t. string_bytes t ≡ join_with_byte separator (slice_texts parts.now)) }
{
    let [first, later @ ..] = parts else {
        return Ok(String::new(alloc));
    };
    // Room for the whole text at once. Were the sum wrong, the text would still grow.
    let length = parts
        .iter()
        .fold(parts.len(), |sum, part| sum.wrapping_add(part.len()));
    let mut text = String::with_capacity(alloc, length)?;
    text.push_str(first)?;
    for part in later {
        text.push(separator)?;
        text.push_str(part)?;
    }
    Ok(text)
}

/// The elements of a text, separated by colons; none where the text is unset or empty.
pub fn elements(alloc: Global, text: Option<&str>) -> Result<Vec<&str>, AllocError>
    ensures { IfOk result (λ v. slice_texts v.items ≡ elements_in (option_map (λ t. t.now) text.entry)) }
{
    match text {
        None => Ok(Vec::new(alloc)),
        Some(text) => {
            if text.is_empty() {
                Ok(Vec::new(alloc))
            } else {
                parts(alloc, text, ':')
            }
        }
    }
}

/// The elements with colons between them; where there is no element, no text, which unsets the variable.
pub fn text_of_elements(alloc: Global, elements: &[&str]) -> Result<Option<String>, AllocError>
    ensures { IfOk result (λ t. option_map string_bytes t ≡ text_of_elements (slice_texts elements.now)) }
{
    if elements.is_empty() {
        return Ok(None);
    }
    Ok(Some(join(alloc, elements, ':')?))
}

/// The texts without repetitions, in the order of their first occurrences.
pub fn deduplicated<'a>(alloc: Global, texts: &[&'a str]) -> Result<Vec<&'a str>, AllocError>
    ensures { IfOk result (λ v. slice_texts v.items ≡ without_repeats (slice_texts texts.now)) }
{
    let mut done = IndexSet::with_capacity(alloc, texts.len())?;
    for text in texts {
        done.insert(*text)?;
    }
    done.into_iter().collect(alloc)
}

/// Whether no text is there twice.
pub fn are_distinct(alloc: Global, texts: &[&str]) -> Result<bool, AllocError>
    ensures { IfOk result (λ b. b ≡ are_distinct (slice_texts texts.now)) }
{
    Ok(deduplicated(alloc, texts)?.len() == texts.len())
}

/// A copy of the text, if there is one.
pub fn copy(alloc: Global, text: Option<&str>) -> Result<Option<String>, AllocError>
    ensures { IfOk result (λ t. option_map string_bytes t ≡ option_map (λ x. x.now) text.entry) }
{
    match text {
        None => Ok(None),
        Some(text) => Ok(Some(String::from_str(alloc, text)?)),
    }
}

/// The texts, borrowed.
pub fn slices(alloc: Global, texts: &[String]) -> Result<Vec<&str>, AllocError>
    ensures { IfOk result (λ v. slice_texts v.items ≡ map string_bytes texts.now) }
{
    let mut slices = Vec::with_capacity(alloc, texts.len())?;
    for text in texts {
        slices.push(text.as_str())?;
    }
    Ok(slices)
}

/// The texts, owned.
pub fn owned(alloc: Global, texts: &[&str]) -> Result<Vec<String>, AllocError>
    ensures { IfOk result (λ v. texts_in v ≡ slice_texts texts.now) }
{
    let mut owned = Vec::with_capacity(alloc, texts.len())?;
    for text in texts {
        owned.push(String::from_str(alloc, text)?)?;
    }
    Ok(owned)
}
