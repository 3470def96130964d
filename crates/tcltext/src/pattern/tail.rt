//! What the search knows of the rests of a pattern, at one character of the text.
ghost use Rattle.std.specs.Prelude.{◌≡◌, ◌↔◌, ℕ, List, [], ◌∷◌, Some, IsTrue};
ghost use Rattle.tcltext.specs.pattern.Patterns.{after_close, IsMatch};
ghost use Rattle.tcltext.specs.pattern.Search.Items.{Item, item_at};
ghost use Rattle.tcltext.specs.pattern.Search.Tails.{SetMatches};
ghost use Rattle.tcltext.specs.pattern.Search.Windows.{KnowsTail, Knows};

use crate::pattern::reading::is_between;

/// What is known of a rest of the pattern, at a character of the text.
#[derive(Clone, Copy)]
struct Tail {
    /// The character that the rest begins with.
    first: Option<char>,
    /// Whether the rest matches the text after the character.
    matches: bool,
    /// Whether what follows its next closing bracket does.
    matches_after_close: bool,
    /// Whether the rest, as the remainder of a set, holds the character, and what follows the set matches the text
    /// after the character.
    holds: bool,
}

/// What is known of a rest of the pattern, of the one without its first character, and of the one without its first
/// two.
#[derive(Clone, Copy)]
pub(crate) struct Window {
    /// The rest.
    here: Tail,
    /// The rest without its first character.
    next: Tail,
    /// The rest without its first two characters.
    after_next: Tail,
    /// Whether the rest matches the text from the character on.
    pub(crate) takes: bool,
}

impl Tail {
    /// Whether the rest begins with that character.
    fn begins_with(&self, c: char) -> bool
        ensures { IsTrue result ↔ (self.now.first ≡ Some c) }
    {
        match self.first {
            Some(first) => first == c,
            None => false,
        }
    }

    /// Whether a set that goes on with an item from `low` to `high`, and then with this rest, holds the character.
    fn holds_from(&self, low: char, high: char, c: char) -> bool
        ensures { (set rest cs : List ℕ) → item_at set ≡ Some (record { low = low; high = high; rest = rest })
            → KnowsTail rest c cs self.now → IsTrue result ↔ SetMatches c set cs }
    {
        if is_between(low, high, c) {
            self.matches_after_close
        } else {
            self.holds
        }
    }

    /// Whether what follows the next closing bracket matches, where `p` comes before this rest.
    fn closes(&self, p: char) -> bool
        ensures { (c : ℕ) (xs cs : List ℕ) → KnowsTail xs c cs self.now
            → IsTrue result ↔ IsMatch (after_close (p ∷ xs)) cs }
    {
        if p == ']' {
            self.matches
        } else {
            self.matches_after_close
        }
    }
}

impl Window {
    /// What is known of the empty rest; `ends` is whether the text ends after the character.
    pub(crate) fn at_end(ends: bool) -> Window
        ensures { (c : ℕ) (cs : List ℕ) → IsTrue ends ↔ IsMatch [] cs → Knows [] c cs result }
    {
        let tail = Tail {
            first: None,
            matches: ends,
            matches_after_close: ends,
            holds: false,
        };
        Window {
            here: tail,
            next: tail,
            after_next: tail,
            takes: false,
        }
    }

    /// Whether `p` and then the rest, as the remainder of a set, hold the character `c`, and what follows the set
    /// matches the text after it.
    fn holds(&self, p: char, c: char) -> bool
        ensures { (xs cs : List ℕ) → Knows xs c cs self.now → IsTrue result ↔ SetMatches c (p ∷ xs) cs }
    {
        if p == ']' {
            return false;
        }
        if !self.here.begins_with('-') {
            return self.here.holds_from(p, p, c);
        }
        match self.next.first {
            Some(high) => self.after_next.holds_from(p, high, c),
            None => false,
        }
    }

    /// Whether `p` and then the rest match the text from the character `c` on; `matches_without` is whether they
    /// match the text after it.
    fn takes(&self, p: char, c: char, matches_without: bool) -> bool
        ensures { (xs cs : List ℕ) → Knows xs c cs self.now → IsTrue matches_without ↔ IsMatch (p ∷ xs) cs
            → IsTrue result ↔ IsMatch (p ∷ xs) (c ∷ cs) }
    {
        match p {
            '*' => self.takes || matches_without,
            '?' => self.here.matches,
            '[' => self.here.holds,
            '\\' => self.here.begins_with(c) && self.next.matches,
            _ => p == c && self.here.matches,
        }
    }

    /// What is known of the rest with `p` before it; `matches_without` is whether that matches the text after the
    /// character `c`.
    pub(crate) fn before(&self, p: char, c: char, matches_without: bool) -> Window
        ensures { (xs cs : List ℕ) → Knows xs c cs self.now → IsTrue matches_without ↔ IsMatch (p ∷ xs) cs
            → Knows (p ∷ xs) c cs result }
    {
        Window {
            here: Tail {
                first: Some(p),
                matches: matches_without,
                matches_after_close: self.here.closes(p),
                holds: self.holds(p, c),
            },
            next: self.here,
            after_next: self.next,
            takes: self.takes(p, c, matches_without),
        }
    }
}
