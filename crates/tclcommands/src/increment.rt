//! By how much incr(n) increases its variable.
ghost use Rattle.std.specs.Prelude.{◌≡◌, IfSome, map, string_bytes};
ghost use Rattle.message.specs.Answers.{Gives};
ghost use Rattle.tclvalue.specs.operators.Faults.{reason_of};
ghost use Rattle.tcltext.specs.chars.Numerals.{numeral};
ghost use Rattle.tcltext.specs.declared.chars.number.Numeral.TheVariants.{Whole};
ghost use Rattle.tclrules.specs.Forms.{increase_of};
ghost use Rattle.tclcommands.specs.Increments.{increment_text};

use std::alloc::Global;
use tclvalue::operators::{ValueFault, whole_number, wrong_words};

/// By how much a variable is increased.
#[derive(Clone, Copy)]
pub(crate) enum Increment<'a> {
    /// By 1, since no word says by how much.
    One,
    /// By the number that a word spells.
    Word(&'a str),
}

impl<'a> Increment<'a> {
    /// The increment by the words after the variable.
    ///
    /// Errors: `TclError` for more than one word, `OutOfMemory`.
    pub(crate) fn of_words(alloc: Global, words: &'a [String]) -> Result<Increment<'a>, ValueFault>
        ensures { Gives reason_of increment_text result (increase_of (map string_bytes words.entry.now)) }
    {
        match words {
            [] => Ok(Increment::One),
            [number] => Ok(Increment::Word(number)),
            _ => Err(wrong_words(alloc, "incr")),
        }
    }

    /// The text of the number.
    pub(crate) fn text(self) -> &'a str
        ensures { result.now ≡ increment_text self.entry }
    {
        match self {
            Increment::One => "1",
            Increment::Word(word) => word,
        }
    }

    /// The whole number; None where the word spells none.
    pub(crate) fn whole_number(self) -> Option<i64>
        ensures { IfSome result (λ number. numeral (increment_text self.entry) ≡ Whole number) }
    {
        match self {
            Increment::One => Some(1),
            Increment::Word(word) => whole_number(word),
        }
    }
}
