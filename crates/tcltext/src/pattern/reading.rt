//! One step of a pattern other than a star, over one character of the text (string(n), match).
ghost use Rattle.std.specs.Prelude.{◌≡◌, ℕ, List, ◌∷◌, [], ◌++◌, ◌≤◌, ◌<◌, ◌≢◌, length, option_map, MatchOption};
ghost use Rattle.std.specs.Prelude.{IfSome};
ghost use Rattle.std.specs.Str.{chars};
ghost use Rattle.tcltext.specs.pattern.Patterns.{star, is_between, after_close};
ghost use Rattle.tcltext.specs.pattern.Search.Items.{item_at};
ghost use Rattle.tcltext.specs.pattern.Search.View.{item_view};
ghost use Rattle.tcltext.specs.pattern.Search.Tails.{HoldsNowhere, HoldsOnly};
ghost use Rattle.tcltext.specs.pattern.Search.Steps.{StepsNowhere, StepsOnly};

/// An item of a set: a character, or all characters between two.
#[derive(Clone, Copy)]
pub(crate) struct Item<'a> {
    /// One end of the range, or the character.
    low: char,
    /// The other end; the same character where the item is no range.
    high: char,
    /// The pattern after the item.
    rest: &'a str,
}

/// Whether a range holds the character; either of its ends may be the greater.
pub(crate) fn is_between(low: char, high: char, c: char) -> bool
    ensures { result ≡ is_between low high c }
{
    (low <= c && c <= high) || (high <= c && c <= low)
}

/// The first character, and the rest.
pub(crate) fn split_char(text: &str) -> Option<(char, &str)>
    ensures characters { MatchOption result (chars text.now ≡ []) (λ p. chars text.now ≡ p.0 ∷ chars p.1.now) }
    ensures shorter { MatchOption result (length text.now ≡ 0) (λ p. length p.1.now < length text.now) }
{
    let mut characters = text.chars();
    let first = characters.next()?;
    Some((first, characters.as_str()))
}

/// The text before the last character, and that character.
pub(crate) fn split_last(text: &str) -> Option<(&str, char)>
    ensures characters { MatchOption result (chars text.now ≡ [])
        (λ p. chars text.now ≡ chars p.0.now ++ p.1 ∷ []) }
    ensures shorter { MatchOption result (length text.now ≡ 0) (λ p. length p.0.now < length text.now) }
{
    let mut characters = text.chars();
    let last = characters.next_back()?;
    Some((characters.as_str(), last))
}

/// The item that the rest of a set begins with; none where the set ends there, or the pattern ends before the range
/// does.
fn split_item(set: &str) -> Option<Item<'_>>
    ensures item { option_map item_view result ≡ item_at (chars set.now) }
    ensures shorter { IfSome result (λ i. length i.rest.now < length set.now) }
{
    let (low, rest) = split_char(set)?;
    if low == ']' {
        return None;
    }
    match split_char(rest) {
        Some(('-', range)) => {
            let (high, rest) = split_char(range)?;
            Some(Item { low, high, rest })
        }
        _ => Some(Item {
            low,
            high: low,
            rest,
        }),
    }
}

/// The pattern after the next closing bracket; the empty one where none follows.
fn after_close(pattern: &str) -> &str
    ensures rest { chars result.now ≡ after_close (chars pattern.now) }
    ensures no_longer { length result.now ≤ length pattern.now }
{
    let mut rest = pattern;
    while let Some((c, after)) = split_char(rest) {
        rest = after;
        if c == ']' {
            break;
        }
    }
    rest
}

/// What the pattern continues with after a set that holds the character; `set` follows the opening bracket. None where
/// the set does not hold it.
#[inline(always)]
fn after_set(set: &str, c: char) -> Option<&str>
    ensures holds { MatchOption result (HoldsNowhere c (chars set.now))
        (λ rest. HoldsOnly c (chars set.now) (chars rest.now)) }
    ensures no_longer { IfSome result (λ rest. length rest.now ≤ length set.now) }
{
    let mut rest = set;
    while let Some(item) = split_item(rest) {
        if is_between(item.low, item.high, c) {
            return Some(after_close(item.rest));
        }
        rest = item.rest;
    }
    None
}

/// What the pattern continues with after a backslash and that character; `pattern` follows the backslash.
fn after_escaped(pattern: &str, c: char) -> Option<&str>
    ensures is { MatchOption result ((rest : List ℕ) → chars pattern.now ≢ c ∷ rest)
        (λ rest. chars pattern.now ≡ c ∷ chars rest.now) }
    ensures no_longer { IfSome result (λ rest. length rest.now ≤ length pattern.now) }
{
    match split_char(pattern) {
        Some((literal, rest)) if literal == c => Some(rest),
        _ => None,
    }
}

/// What the pattern continues with after one character of the text; it begins with `first`, which is no star, and then
/// `rest`. None where the character does not match.
#[inline(always)]
pub(crate) fn after_char(first: char, rest: &str, c: char) -> Option<&str>
    requires { first ≢ star }
    ensures steps { MatchOption result (StepsNowhere first (chars rest.now) c)
        (λ more. StepsOnly first (chars rest.now) c (chars more.now)) }
    ensures no_longer { IfSome result (λ more. length more.now ≤ length rest.now) }
{
    match first {
        '?' => Some(rest),
        '[' => after_set(rest, c),
        '\\' => after_escaped(rest, c),
        _ if first == c => Some(rest),
        _ => None,
    }
}
