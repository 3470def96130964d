//! The faults of texts, with their byte offsets.
ghost use Rattle.std.specs.Prelude.{◌≡◌, ◌≤◌, length, suc, Some};
ghost use Rattle.message.specs.Refusals.{numbered_text};
ghost use Rattle.tcltext.specs.chars.Faults.{refusal_of};
ghost use Rattle.tcltext.specs.chars.Reading.{remaining_of, with_offset};
ghost use Rattle.tcltext.specs.declared.chars.fault.ReadError.TheVariants.{Memory};

use message::{NumberedMessage, RefusalKind};
use std::alloc::{AllocError, AllocFailed};
use std::error::Error;
use std::fmt;
use std::fmt::Display;

/// What is wrong with a text. A byte offset counts from 0, at the text's first byte.
#[derive(Debug, Drop)]
pub enum TextFault {
    /// Memory ran out; this says nothing about the text.
    OutOfMemory,
    /// No brace closes the one at this offset.
    OpenBrace(usize),
    /// No quote closes the one at this offset.
    OpenQuote(usize),
    /// No bracket closes the one at this offset.
    OpenBracket(usize),
    /// The character at this offset follows a closing quote or brace directly.
    JoinedToClose(usize),
    /// Substitutions, parentheses and operators nest past the limit.
    TooDeep,
    /// The character at this offset is not allowed there.
    BadCharacter(usize),
    /// The expression is wrong at this offset.
    BadExpression(usize),
    /// The text has more than 1,048,576 bytes.
    TooLong,
}

impl TextFault {
    /// The number of the fault, from 1 to 9, and its text.
    pub fn numbered(&self) -> NumberedMessage<'static>
        ensures { numbered_text result ≡ refusal_of self.now }
    {
        match self {
            TextFault::OutOfMemory => RefusalKind::MemoryForText.plain(),
            TextFault::OpenBrace(at) => RefusalKind::OpenBrace.numbering(*at),
            TextFault::OpenQuote(at) => RefusalKind::OpenQuote.numbering(*at),
            TextFault::OpenBracket(at) => RefusalKind::OpenBracket.numbering(*at),
            TextFault::JoinedToClose(at) => RefusalKind::JoinedToClose.numbering(*at),
            TextFault::TooDeep => RefusalKind::TextTooDeep.plain(),
            TextFault::BadCharacter(at) => RefusalKind::BadCharacter.numbering(*at),
            TextFault::BadExpression(at) => RefusalKind::BadExpression.numbering(*at),
            TextFault::TooLong => RefusalKind::TooLong.plain(),
        }
    }

    /// The number of the fault, from 1 to 9.
    pub fn number(&self) -> u16
        ensures { result ≡ (refusal_of self.now).number }
    {
        self.numbered().number
    }
}

impl fmt::Display for TextFault {
    ghost output = { λ fault. Some (refusal_of fault).text };

    fn fmt<W: fmt::Write>(&self, f: &mut fmt::Formatter<W>) -> fmt::Result {
        self.numbered().message.fmt(f)
    }
}

impl Error for TextFault {}

/// What stops a reader. Each number is how many bytes remain from the mark that the fault is about to the end of the
/// text.
#[derive(Clone, Copy, Debug, PartialEq, Eq)]
pub enum Fault {
    /// No brace closes this one.
    OpenBrace(usize),
    /// No quote closes this one.
    OpenQuote(usize),
    /// No bracket closes this one.
    OpenBracket(usize),
    /// This character follows a closing quote or brace directly.
    JoinedToClose(usize),
    /// Substitutions, parentheses and operators nest past the limit.
    TooDeep,
    /// This character is not allowed here.
    BadCharacter(usize),
    /// The expression is wrong here.
    BadExpression(usize),
}

/// Why a reader stopped.
#[derive(Debug, Drop)]
pub enum ReadError {
    /// Memory ran out.
    Memory,
    /// The text is wrong.
    Fault(Fault),
}

impl From<AllocError> for ReadError {
    ghost from_gives = { λ _ e. e ≡ Memory };

    fn from(_e: AllocError) -> ReadError {
        ReadError::Memory
    }
}

impl<T: Drop> From<AllocFailed<T>> for ReadError {
    ghost from_gives = { λ _ e. e ≡ Memory };

    fn from(_e: AllocFailed<T>) -> ReadError {
        ReadError::Memory
    }
}

/// How many bytes remain from a mark of one byte on, of which `following` is what follows it.
pub fn remaining_with_mark(following: &str) -> usize
    ensures { result ≡ suc (length following.now) }
{
    following.len() + 1
}

/// The fault in a text of `len` bytes, with its offset from the beginning of the text.
pub fn with_offset(fault: Fault, len: usize) -> TextFault
    requires { remaining_of fault ≤ len }
    ensures { result ≡ with_offset len fault }
{
    match fault {
        Fault::OpenBrace(remaining) => TextFault::OpenBrace(len - remaining),
        Fault::OpenQuote(remaining) => TextFault::OpenQuote(len - remaining),
        Fault::OpenBracket(remaining) => TextFault::OpenBracket(len - remaining),
        Fault::JoinedToClose(remaining) => TextFault::JoinedToClose(len - remaining),
        Fault::TooDeep => TextFault::TooDeep,
        Fault::BadCharacter(remaining) => TextFault::BadCharacter(len - remaining),
        Fault::BadExpression(remaining) => TextFault::BadExpression(len - remaining),
    }
}
