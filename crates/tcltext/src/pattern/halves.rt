//! The search for a match without a table, for patterns too long for one.
ghost use Rattle.std.specs.Prelude.{◌≡◌, ◌≢◌, ◌↔◌, [], ◌∷◌, ◌≤◌, length, take, drop, IsTrue};
ghost use Rattle.std.specs.Str.{chars};
ghost use Rattle.tcltext.specs.pattern.Patterns.{star, IsMatch};
ghost use Rattle.tcltext.specs.pattern.Search.Steps.{Run, RunsBy};

use crate::pattern::reading::{after_char, split_char};

/// Whether a star and then the pattern match the text. The search guesses which rest of the pattern is reached at the
/// middle of the text, and does the same for each half: the stack is small for every text, but the time grows fast with
/// the lengths.
pub(crate) fn matches(pattern: &str, text: &str) -> bool
    ensures { IsTrue result ↔ IsMatch (star ∷ chars pattern.now) (chars text.now) }
{
    let mut rest = text;
    loop {
        if runs(pattern, rest, rest.len(), "") {
            return true;
        }
        match split_char(rest) {
            None => return false,
            Some((_, after)) => rest = after,
        }
    }
}

/// Whether the pattern `from` can read the first `count` characters of the text, or the whole text where that is
/// shorter, so that `to` is what remains of the pattern.
#[cycle(halves)]
fn runs(from: &str, text: &str, count: usize, to: &str) -> bool
    ensures { IsTrue result ↔ Run (chars from.now) (take count (chars text.now)) (chars to.now) }
{
    if count < 2 {
        return runs_short(from, text, count, to);
    }
    let mut middle = from;
    loop {
        if runs_by(from, text, middle, count, to) {
            return true;
        }
        match split_char(middle) {
            None => return false,
            Some((_, rest)) => middle = rest,
        }
    }
}

/// Whether the pattern reads the characters as `runs` decides it, and `middle` remains of it after half of them.
#[cycle(halves)]
fn runs_by(from: &str, text: &str, middle: &str, count: usize, to: &str) -> bool
    requires { 2 ≤ count }
    ensures { IsTrue result ↔ RunsBy (chars from.now) (chars text.now) (chars middle.now) count (chars to.now) }
{
    runs(from, text, count / 2, middle)
        && runs(middle, skip(text, count / 2), count - count / 2, to)
}

/// The text without its first `count` characters; the empty text where it has fewer.
fn skip(text: &str, count: usize) -> &str
    ensures { chars result.now ≡ drop count (chars text.now) }
{
    let mut rest = text;
    for _ in 0..count {
        let Some((_, after)) = split_char(rest) else {
            return rest;
        };
        rest = after;
    }
    rest
}

/// Decides `runs` for one character at most.
fn runs_short(from: &str, text: &str, count: usize, to: &str) -> bool
    requires { count ≤ 1 }
    ensures { IsTrue result ↔ Run (chars from.now) (take count (chars text.now)) (chars to.now) }
{
    if count == 0 {
        return runs_none(from, to);
    }
    match split_char(text) {
        Some((c, _)) => runs_one(from, c, to),
        None => runs_none(from, to),
    }
}

/// Whether the pattern `from` can read the character so that `to` remains.
fn runs_one(from: &str, c: char, to: &str) -> bool
    ensures { IsTrue result ↔ Run (chars from.now) (c ∷ []) (chars to.now) }
{
    let mut pattern = from;
    while let Some((first, rest)) = split_char(pattern) {
        if first != '*' {
            return steps_to(first, rest, c, to);
        }
        if runs_none(pattern, to) {
            return true;
        }
        pattern = rest;
    }
    false
}

/// Whether a pattern whose first character is no star can read the character so that `to` remains.
fn steps_to(first: char, rest: &str, c: char, to: &str) -> bool
    requires { first ≢ star }
    ensures { IsTrue result ↔ Run (first ∷ chars rest.now) (c ∷ []) (chars to.now) }
{
    match after_char(first, rest, c) {
        Some(more) => runs_none(more, to),
        None => false,
    }
}

/// Whether `to` remains of the pattern `from` without a character being read: they differ by leading stars alone.
fn runs_none(from: &str, to: &str) -> bool
    ensures { IsTrue result ↔ Run (chars from.now) [] (chars to.now) }
{
    let mut pattern = from;
    while !is_same(pattern, to) {
        let Some((first, rest)) = split_char(pattern) else {
            return false;
        };
        if first != '*' {
            return false;
        }
        pattern = rest;
    }
    true
}

/// Whether two texts are equal.
fn is_same(a: &str, b: &str) -> bool
    ensures { IsTrue result ↔ (chars a.now ≡ chars b.now) }
{
    a == b
}
