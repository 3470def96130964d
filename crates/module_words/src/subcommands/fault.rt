//! Why a word means no subcommand, with the texts.
ghost use Rattle.std.specs.Prelude.{◌≡◌, Some};
ghost use Rattle.message.specs.Messages.{text_of};
ghost use Rattle.module_words.specs.subcommands.Faults.{message_of, reason_of};

use message::{Message, Subject};
use std::error::Error;
use std::fmt;
use std::fmt::Display;

/// Why a word means no subcommand.
#[derive(Clone, Copy, Debug, PartialEq, Eq)]
pub enum WordFault<'a> {
    /// No name is this word, begins with it or is near it.
    Unknown(&'a str),
    /// No name is the word or begins with it; this one is near it.
    Near(&'a str),
    /// Names of several subcommands begin with this word.
    Several(&'a str),
    /// This word is an option, and none that is known.
    NoOption(&'a str),
}

impl<'a> WordFault<'a> {
    /// The text of the fault.
    pub fn message<'b>(&'b self) -> Message<'b>
        ensures { text_of result ≡ message_of (reason_of self.now) }
    {
        match self {
            WordFault::Unknown(word) => {
                let word: &'b str = word;
                Message::quoting("Unknown subcommand '", word)
            }
            WordFault::Near(name) => {
                let name: &'b str = name;
                Message {
                    before: "Unknown subcommand: did you mean '",
                    subject: Subject::Name(name),
                    after: "'?",
                }
            }
            WordFault::Several(word) => {
                let word: &'b str = word;
                Message::quoting("Several subcommands begin with '", word)
            }
            WordFault::NoOption(word) => {
                let word: &'b str = word;
                Message {
                    before: "'",
                    subject: Subject::Name(word),
                    after: "' is no option here",
                }
            }
        }
    }
}

impl<'a> fmt::Display for WordFault<'a> {
    ghost output = { λ fault. Some (message_of (reason_of fault)) };

    fn fmt<W: fmt::Write>(&self, f: &mut fmt::Formatter<W>) -> fmt::Result {
        self.message().fmt(f)
    }
}

impl<'a> Error for WordFault<'a> {}
