//! Texts as lists of characters, which are Unicode code points (string(n), split(n)).
ghost use Rattle.std.specs.Prelude.{◌≡◌, length, IfOk, string_bytes};
ghost use Rattle.std.specs.Str.{chars, encode_utf8_all};
ghost use Rattle.tclvalue.specs.Characters.{is_among, without_start, without_end};

use std::alloc::{AllocError, Global};

/// The characters of a text.
pub(crate) fn characters(alloc: Global, text: &str) -> Result<Vec<char>, AllocError>
    ensures { IfOk result (λ v. v.items ≡ chars text.now) }
{
    text.chars().collect(alloc)
}

/// How many characters a text has.
pub(crate) fn character_count(text: &str) -> usize
    ensures { result ≡ length (chars text.now) }
{
    text.chars().count()
}

/// The text that characters make.
pub(crate) fn text_of(alloc: Global, characters: &[char]) -> Result<String, AllocError>
    ensures { IfOk result (λ s. string_bytes s ≡ encode_utf8_all characters.now) }
{
    characters.iter().copied().collect(alloc)
}

/// Whether a character is one of a set.
pub(crate) fn is_among(set: &[char], character: char) -> bool
    ensures { result ≡ is_among set.now character }
{
    set.contains(&character)
}

/// The characters without those of a set at the start.
pub(crate) fn without_start<'a>(set: &[char], text: &'a [char]) -> &'a [char]
    ensures { result.now ≡ without_start set.now text.entry.now }
{
    let mut rest = text;
    while let [first, after @ ..] = rest {
        if !is_among(set, *first) {
            return rest;
        }
        rest = after;
    }
    rest
}

/// The characters without those of a set at the end.
pub(crate) fn without_end<'a>(set: &[char], text: &'a [char]) -> &'a [char]
    ensures { result.now ≡ without_end set.now text.entry.now }
{
    let mut rest = text;
    while let Some((last, before)) = rest.split_last() {
        if !is_among(set, *last) {
            return rest;
        }
        rest = before;
    }
    rest
}
