//! What a variable holds: a text, of which may be known that it is a list, or which whole number it spells.
ghost use Rattle.std.specs.Prelude.{◌≡◌, length, nat_le, string_bytes, true, OnOk, IfSome};
ghost use Rattle.std.specs.Fmt.{signed_decimal};
ghost use Rattle.tcltext.specs.chars.Numerals.{numeral};
ghost use Rattle.tcltext.specs.declared.chars.number.Numeral.TheVariants.{Whole};
ghost use Rattle.tclforms.specs.variables.Contents.{IsListText};

use itoa::Buffer;
use std::alloc::AllocError;
use std::marker::Model;
use tclvalue::operators::whole_number;

/// The value of a variable. Of one that `lappend` wrote it is known that it is the text of a list as list(n) writes it,
/// so that the next `lappend` need not parse it again; of one that `incr` wrote, which number it is.
#[derive(Drop)]
pub struct Content {
    text: String,
    is_list: bool,
    number: Option<i64>,
}

impl Model for Content {
    ghost use Rattle.std.specs.Prelude.{◌≡◌, ℕ, List, string_bytes, true, IfSome};
    ghost use Rattle.tcltext.specs.chars.Numerals.{numeral};
    ghost use Rattle.tcltext.specs.declared.chars.number.Numeral.TheVariants.{Whole};
    ghost use Rattle.tclforms.specs.variables.Contents.{IsListText};

    ghost Value = { List ℕ };

    ghost view = { λ c. string_bytes c.text };

    ghost invariant = { λ c. (c.is_list ≡ true → IsListText (string_bytes c.text))
        × IfSome c.number (λ n. numeral (string_bytes c.text) ≡ Whole n) };
}

impl Content {
    /// A text of which nothing is known.
    pub fn of_text(text: String) -> Content
        ensures { result ≡ string_bytes text }
    {
        Content {
            text,
            is_list: false,
            number: None,
        }
    }

    /// The text of a list, as list(n) writes it.
    pub fn of_list(text: String) -> Content
        requires { IsListText (string_bytes text) }
        ensures { result ≡ string_bytes text }
    {
        Content {
            text,
            is_list: true,
            number: None,
        }
    }

    /// The text of the value.
    pub fn as_str(&self) -> &str
        ensures { result.now ≡ self.now }
    {
        self.text.as_str()
    }

    /// Whether it is known to be the text of a list, as list(n) writes it.
    pub fn is_list(&self) -> bool
        ensures { result ≡ true → IsListText self.now }
    {
        self.is_list
    }

    /// The whole number that the text spells, which is read where it isn't known; None for any other text.
    pub fn whole_number(&self) -> Option<i64>
        ensures { IfSome result (λ n. numeral self.now ≡ Whole n) }
    {
        match self.number {
            Some(number) => Some(number),
            None => whole_number(self.text.as_str()),
        }
    }

    /// Gives it another text, in the memory of the one that it has, and the number that the text is known to spell.
    ///
    /// Errors: memory runs out; then the text is empty.
    pub(crate) fn overwrite(&mut self, text: &str, number: Option<i64>) -> Result<(), AllocError>
        requires { IfSome number (λ n. numeral text.now ≡ Whole n) }
        ensures { OnOk result (self.new ≡ text.now) }
    {
        self.is_list = false;
        self.number = None;
        self.text.clear();
        self.text.push_str(text)?;
        self.number = number;
        Ok(())
    }

    /// The text of the value, owned.
    pub fn into_text(self) -> String
        ensures { string_bytes result ≡ self }
    {
        let Content { text, .. } = self;
        text
    }
}

/// So many bytes hold any whole number in decimal.
const NUMBER_BYTES: usize = 20;

/// Whether a number has so many bytes at most in decimal.
pub fn is_number_within(number: i64, limit: usize) -> bool
    ensures { result ≡ nat_le (length (signed_decimal number)) limit }
{
    limit >= NUMBER_BYTES || Buffer::new().format(number).len() <= limit
}
