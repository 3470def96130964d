//! The search for a match by a set of bits, one for each rest of the pattern: whether that rest matches what follows in
//! the text. The text is read from its last character to its first, and each character makes the next set out of the
//! last one.
ghost use Rattle.std.specs.Prelude.{◌≡◌, ◌↔◌, ℕ, List, [], ◌∷◌, ◌*◌, ◌^◌, ◌<◌, length, IsTrue};
ghost use Rattle.std.specs.Str.{chars};
ghost use Rattle.tcltext.specs.pattern.Patterns.{star, IsMatch};
ghost use Rattle.tcltext.specs.pattern.Search.States.{StatesOf};

use crate::pattern::reading::split_last;
use crate::pattern::states::{has, put};
use crate::pattern::tail::Window;

/// Whether a rest of the pattern is nothing but stars, by its first character and by whether what follows is nothing
/// but stars.
fn are_stars(p: char, stars: bool) -> bool
    ensures { IsTrue result ↔ ((p ≡ star) × IsTrue stars) }
{
    p == '*' && stars
}

/// Makes the set for the end of the text, and answers whether the whole pattern matches there.
fn fill(pattern: &str, states: &mut [u64]) -> bool
    requires { length pattern.now < 64 * length states.old }
    ensures len { length states.new ≡ length states.old }
    ensures states { StatesOf (chars pattern.now) [] states.new }
    ensures whole { IsTrue result ↔ IsMatch (chars pattern.now) [] }
{
    let mut prefix = pattern;
    let mut at = 0;
    let mut stars = true;
    put(states, 0, true);
    while let Some((rest, p)) = split_last(prefix) {
        at += 1;
        stars = are_stars(p, stars);
        put(states, at, stars);
        prefix = rest;
    }
    stars
}

/// Makes the set for the text with one more character before it, and answers whether the whole pattern matches that.
fn sweep(pattern: &str, c: char, states: &mut [u64]) -> bool
    requires { length pattern.now < 64 * length states.old }
    ensures len { length states.new ≡ length states.old }
    ensures states { (cs : List ℕ) → StatesOf (chars pattern.now) cs states.old
        → StatesOf (chars pattern.now) (c ∷ cs) states.new }
    ensures whole { (cs : List ℕ) → StatesOf (chars pattern.now) cs states.old
        → IsTrue result ↔ IsMatch (chars pattern.now) (c ∷ cs) }
{
    let mut prefix = pattern;
    let mut at = 0;
    let ends = has(states, 0);
    let mut window = Window::at_end(ends);
    put(states, 0, false);
    while let Some((rest, p)) = split_last(prefix) {
        at += 1;
        let matches_without = has(states, at);
        window = window.before(p, c, matches_without);
        put(states, at, window.takes);
        prefix = rest;
    }
    window.takes
}

/// Whether a star and then the pattern match the text, with room for a bit for each rest of the pattern.
fn search(pattern: &str, text: &str, states: &mut [u64]) -> bool
    requires { length pattern.now < 64 * length states.old }
    ensures { IsTrue result ↔ IsMatch (star ∷ chars pattern.now) (chars text.now) }
{
    if fill(pattern, states) {
        return true;
    }
    let mut rest = text;
    while let Some((prefix, c)) = split_last(rest) {
        if sweep(pattern, c, states) {
            return true;
        }
        rest = prefix;
    }
    false
}

/// Whether a star and then the pattern match the text, with a set of `WORDS` words.
#[inline(never)]
pub(crate) fn matches_by_states<const WORDS: usize>(pattern: &str, text: &str) -> bool
    requires len { length pattern.now < 64 * WORDS }
    requires small { WORDS < 2 ^ 32 }
    ensures { IsTrue result ↔ IsMatch (star ∷ chars pattern.now) (chars text.now) }
{
    let mut states = [0u64; WORDS];
    search(pattern, text, &mut states)
}
