//! The search for a match from a star on: which search is used depends on the shape and length of the pattern.
ghost use Rattle.std.specs.Prelude.{◌≡◌, ◌↔◌, true, IsTrue};
ghost use Rattle.std.specs.Str.{chars};
ghost use Rattle.tcltext.specs.pattern.Search.Uniform as uniform;
ghost use Rattle.tcltext.specs.pattern.Search.Positions.{StarMatches, IsUtf8Position};

use crate::pattern::halves;
use crate::pattern::position::{Position, UpToStar, read_to_star};
use crate::pattern::reading::split_char;
use crate::pattern::sweep::matches_by_states;

/// How many words of 64 bits the smallest table has: enough for patterns up to 1,087 bytes.
const SMALL: usize = 17;

/// How many words the middle table has: enough for patterns up to 32,831 bytes.
const MIDDLE: usize = 513;

/// How many words the largest table has: enough for patterns up to 1,048,639 bytes.
const LARGE: usize = 16_385;

/// Whether the pattern matches from that star on.
pub(crate) fn matches_from(star: Position<'_>) -> bool
    requires { IsUtf8Position star }
    ensures { IsTrue result ↔ StarMatches star.entry }
{
    if is_uniform(star.pattern) {
        matches_uniform(star)
    } else if star.pattern.len() < 64 * SMALL {
        matches_by_states::<SMALL>(star.pattern, star.text)
    } else if star.pattern.len() < 64 * MIDDLE {
        matches_by_states::<MIDDLE>(star.pattern, star.text)
    } else if star.pattern.len() < 64 * LARGE {
        matches_by_states::<LARGE>(star.pattern, star.text)
    } else {
        halves::matches(star.pattern, star.text)
    }
}

/// The state of a pattern that is read character by character, to find how the ranges of its sets end.
#[derive(Clone, Copy)]
enum ReadingState {
    /// Outside of sets.
    Outside,
    /// After a backslash.
    Escaped,
    /// In a set, where an item begins or the set ends.
    AtItem,
    /// In a set, after the first character of an item.
    AfterLow,
    /// In a set, after the dash of a range.
    AfterDash,
    /// After a range up to a closing bracket: the pattern has such a range.
    RangeToClose,
}

/// The state after the character.
fn reading_after(reading: ReadingState, c: char) -> ReadingState
    ensures { result ≡ uniform.reading_after reading c }
{
    match reading {
        ReadingState::Outside if c == '\\' => ReadingState::Escaped,
        ReadingState::Outside if c == '[' => ReadingState::AtItem,
        ReadingState::Outside | ReadingState::Escaped => ReadingState::Outside,
        ReadingState::AtItem | ReadingState::AfterLow if c == ']' => ReadingState::Outside,
        ReadingState::AfterLow if c == '-' => ReadingState::AfterDash,
        ReadingState::AtItem | ReadingState::AfterLow => ReadingState::AfterLow,
        ReadingState::AfterDash if c != ']' => ReadingState::AtItem,
        ReadingState::AfterDash | ReadingState::RangeToClose => ReadingState::RangeToClose,
    }
}

/// Whether no range of a set ends at a closing bracket: then what follows a set is the same for each character that the
/// set holds.
fn is_uniform(pattern: &str) -> bool
    ensures { result ≡ uniform.is_uniform (chars pattern.now) }
{
    let mut reading = ReadingState::Outside;
    for c in pattern.chars() {
        reading = reading_after(reading, c);
    }
    !matches!(reading, ReadingState::RangeToClose)
}

/// Whether the pattern matches the text, as `matches_from` decides it, for a pattern without a range up to a closing
/// bracket. Such a pattern needs only the first match up to the next star, since a later one leaves less of the text.
fn matches_uniform(first: Position<'_>) -> bool
    requires text { IsUtf8Position first }
    requires uniform { uniform.is_uniform (chars first.pattern.now) ≡ true }
    ensures { IsTrue result ↔ StarMatches first.entry }
{
    let mut star = first;
    while !star.pattern.is_empty() {
        match read_to_star(star.pattern, star.text) {
            UpToStar::Matches => return true,
            UpToStar::Differs => match split_char(star.text) {
                Some((_, text)) => star.text = text,
                None => return false,
            },
            UpToStar::Star(next) => star = next,
        }
    }
    true
}
