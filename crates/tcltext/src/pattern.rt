//! Patterns of texts, as `string match` has them (string(n), match).
//! Touches nothing, and takes no memory from the allocator.
#![tactic(auto)]

mod halves;
mod position;
mod reading;
mod star;
mod states;
mod sweep;
mod tail;

ghost use Rattle.std.specs.Prelude.{◌↔◌, IsTrue};
ghost use Rattle.std.specs.Str.{chars};
ghost use Rattle.tcltext.specs.pattern.Patterns.{IsMatch};

use position::{UpToStar, read_to_star};
use star::matches_from;

/// Whether the text matches the pattern, as `string match` of Tcl without options has it (string(n)): `*` matches any
/// text, `?` any character, `[...]` a character of a set, `\c` the character c, and another character itself.
///
/// The items of a set are read from the left; an item is a character or a range `c-d`, of which either end may be the
/// greater, and d may be `]`. At the first item that holds the character the set matches, and the pattern continues
/// after the next `]` that follows the item, or is at its end. So what follows a set depends on the character, where a
/// range up to a `]` is one of its items.
///
/// The time is in proportion to the product of the two lengths at most, where the pattern has no range up to a `]`, or
/// has at most 1,048,576 bytes. A longer pattern with such a range is searched by halves of the text, without a table:
/// the time then grows as a power of the pattern's length, whose exponent is the logarithm of the text's length, which
/// is far too slow for long texts.
pub fn glob_match(pattern: &str, text: &str) -> bool
    ensures { IsTrue result ↔ IsMatch (chars pattern.now) (chars text.now) }
{
    match read_to_star(pattern, text) {
        UpToStar::Matches => true,
        UpToStar::Differs => false,
        UpToStar::Star(position) => matches_from(position),
    }
}
