//! Texts within the limit on the bytes of a value.
ghost use Rattle.std.specs.Prelude.{◌≡◌, [], string_bytes, encode_utf8};
ghost use Rattle.tclvalue.specs.operators.Faults.{GivesText};
ghost use Rattle.tclvalue.specs.Limits.{limited};
ghost use Rattle.tclvalue.specs.Growing.{Appends};

use crate::operators::ValueFault;
use std::alloc::Global;

/// The text, or `ValueTooLong` where it has more bytes than the limit.
pub(crate) fn limited(text: String, limit: usize) -> Result<String, ValueFault>
    ensures { GivesText result (limited limit (string_bytes text)) }
{
    if text.len() <= limit {
        Ok(text)
    } else {
        Err(ValueFault::ValueTooLong)
    }
}

/// A text that grows, and how many bytes it may have.
#[derive(Drop)]
pub(crate) struct BoundedText {
    pub(crate) text: String,
    pub(crate) limit: usize,
}

impl BoundedText {
    /// The empty text under this limit.
    pub(crate) fn new(alloc: Global, limit: usize) -> BoundedText
        ensures empty { string_bytes result.text ≡ [] }
        ensures limit { result.limit ≡ limit }
    {
        BoundedText {
            text: String::new(alloc),
            limit,
        }
    }

    /// Appends a text. Errors: `ValueTooLong` beyond the limit, `OutOfMemory`.
    pub(crate) fn push(&mut self, piece: &str) -> Result<(), ValueFault>
        ensures { Appends result self.old self.new piece.now }
    {
        if piece.len() > self.limit.saturating_sub(self.text.len()) {
            return Err(ValueFault::ValueTooLong);
        }
        self.text.push_str(piece)?;
        Ok(())
    }

    /// Appends a character. Errors: `ValueTooLong` beyond the limit, `OutOfMemory`.
    pub(crate) fn push_character(&mut self, character: char) -> Result<(), ValueFault>
        ensures { Appends result self.old self.new (encode_utf8 character) }
    {
        if character.len_utf8() > self.limit.saturating_sub(self.text.len()) {
            return Err(ValueFault::ValueTooLong);
        }
        self.text.push(character)?;
        Ok(())
    }
}
