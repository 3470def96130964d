//! A pattern and a text read side by side, up to a star (string(n), match).
ghost use Rattle.std.specs.Prelude.{◌≡◌, ◌+◌, ◌≤◌, ◌<◌, ◌↔◌, length};
ghost use Rattle.std.specs.Str.{chars};
ghost use Rattle.tcltext.specs.pattern.Patterns.{IsMatch};
ghost use Rattle.tcltext.specs.pattern.Search.Positions.{UpToStarMatches, UpToStarIsUtf8, StepsAs, UpToStarIsShorter};

use crate::pattern::reading::{after_char, split_char};

/// A star that was reached: what follows it in the pattern, and what remains of the text for the star and the rest of
/// the pattern.
#[derive(Clone, Copy)]
pub(crate) struct Position<'a> {
    /// The pattern after the star.
    pub(crate) pattern: &'a str,
    /// The text that remains.
    pub(crate) text: &'a str,
}

/// How the reading of a pattern up to its next star ends.
#[derive(Clone, Copy)]
pub(crate) enum UpToStar<'a> {
    /// The pattern and the text end together.
    Matches,
    /// One ends before the other, or they differ.
    Differs,
    /// A star is reached.
    Star(Position<'a>),
}

/// Reads a pattern and a text side by side up to the next star of the pattern.
pub(crate) fn read_to_star<'a>(pattern: &'a str, text: &'a str) -> UpToStar<'a>
    ensures same { UpToStarMatches result ↔ IsMatch (chars pattern.now) (chars text.now) }
    ensures steps_to_star { StepsAs (chars pattern.now) (chars text.now) result }
    ensures text { UpToStarIsUtf8 result }
    ensures shorter { UpToStarIsShorter (length pattern.now + length text.now) result }
{
    let mut position = Position { pattern, text };
    while let Some((first, rest)) = split_char(position.pattern) {
        if first == '*' {
            return UpToStar::Star(Position {
                pattern: rest,
                text: position.text,
            });
        }
        let Some((c, text)) = split_char(position.text) else {
            return UpToStar::Differs;
        };
        let Some(pattern) = after_char(first, rest, c) else {
            return UpToStar::Differs;
        };
        position = Position { pattern, text };
    }
    if position.text.is_empty() {
        UpToStar::Matches
    } else {
        UpToStar::Differs
    }
}
