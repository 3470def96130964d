//! What is wrong with the text of a collection.
ghost use Rattle.std.specs.Prelude.{◌≡◌, Some};
ghost use Rattle.module_collections.specs.texts.Views.{text_of, text_of_line, text_of_words};
ghost use Rattle.module_collections.specs.declared.texts.fault.LineFault.TheVariants as lines;
ghost use Rattle.module_collections.specs.declared.texts.fault.CollectionFault.TheVariants as wholes;

use crate::texts::words::WordFault;
use std::alloc::{AllocError, AllocFailed};
use std::error::Error;
use std::fmt;

impl fmt::Display for WordFault {
    ghost output = { λ fault. Some (text_of_words fault) };

    fn fmt<W: fmt::Write>(&self, f: &mut fmt::Formatter<W>) -> fmt::Result {
        match self {
            WordFault::Backslash => f.write_str("a backslash before what it gives no meaning"),
            WordFault::Evaluated(byte) => {
                let byte = *byte as char;
                write!(f, "the character {byte} without quotes")
            }
            WordFault::OpenQuote => f.write_str("a quote that isn't closed"),
            WordFault::JoinedToQuote => f.write_str(
                "a quote that isn't closed at the end of a word",
            ),
            WordFault::Braces => f.write_str(
                "braces that aren't closed at the end of a word, or a backslash in them",
            ),
        }
    }
}

/// What is wrong with a line.
#[derive(Debug, Drop)]
pub enum LineFault {
    /// An allocation was refused.
    OutOfMemory,
    /// It isn't `module use` or `module load` with words.
    Neither,
    /// This is wrong with its words.
    BadWords(WordFault),
    /// This word of `module use` is no absolute directory without a colon.
    NoDirectory(String),
    /// This word of `module load` is no name of a module.
    NoModule(String),
}

impl fmt::Display for LineFault {
    ghost output = { λ fault. Some (text_of_line fault) };

    fn fmt<W: fmt::Write>(&self, f: &mut fmt::Formatter<W>) -> fmt::Result {
        match self {
            LineFault::OutOfMemory => f.write_str("Out of memory"),
            LineFault::Neither => f.write_str(
                "it is neither `module use' nor `module load' with words",
            ),
            LineFault::BadWords(fault) => fault.fmt(f),
            LineFault::NoDirectory(word) => write!(
                f,
                "no absolute directory without a colon: '{word}'"
            ),
            LineFault::NoModule(word) => write!(f, "no name of a module: '{word}'"),
        }
    }
}

impl Error for LineFault {}

impl From<AllocError> for LineFault {
    ghost from_gives = { λ _ e. e ≡ lines.OutOfMemory };

    fn from(_refused: AllocError) -> LineFault {
        LineFault::OutOfMemory
    }
}

impl<T: Drop> From<AllocFailed<T>> for LineFault {
    ghost from_gives = { λ _ e. e ≡ lines.OutOfMemory };

    fn from(_refused: AllocFailed<T>) -> LineFault {
        LineFault::OutOfMemory
    }
}

/// What is wrong with the text of a collection.
#[derive(Debug, Drop)]
pub enum CollectionFault {
    /// An allocation was refused.
    OutOfMemory,
    /// The line of this number, from 1, is wrong.
    BadLine(usize, LineFault),
    /// No line names a module or a directory.
    SaysNothing,
    /// It has more than 65,536 bytes.
    TooLong,
    /// It has NUL, or bytes that are no UTF-8.
    NoText,
}

impl fmt::Display for CollectionFault {
    ghost output = { λ fault. Some (text_of fault) };

    fn fmt<W: fmt::Write>(&self, f: &mut fmt::Formatter<W>) -> fmt::Result {
        match self {
            CollectionFault::OutOfMemory => f.write_str("Out of memory"),
            CollectionFault::BadLine(number, fault) => write!(f, "line {number}: {fault}"),
            CollectionFault::SaysNothing => f.write_str("no line names a module or a directory"),
            CollectionFault::TooLong => f.write_str("it has more than 65536 bytes"),
            CollectionFault::NoText => f.write_str("it has a byte that is no text"),
        }
    }
}

impl Error for CollectionFault {}

impl From<AllocError> for CollectionFault {
    ghost from_gives = { λ _ e. e ≡ wholes.OutOfMemory };

    fn from(_refused: AllocError) -> CollectionFault {
        CollectionFault::OutOfMemory
    }
}

impl<T: Drop> From<AllocFailed<T>> for CollectionFault {
    ghost from_gives = { λ _ e. e ≡ wholes.OutOfMemory };

    fn from(_refused: AllocFailed<T>) -> CollectionFault {
        CollectionFault::OutOfMemory
    }
}
