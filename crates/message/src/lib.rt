//! The texts of faults, and the table of refusals: a message has parts, so that it is shown without taking memory.
//! Touches nothing but the text or writer that a message is shown on, or the buffer of digits. Only `texts`, which copies
//! lists, takes memory.
#![tactic(auto)]

mod laws;
mod refusals;
pub mod texts;

ghost use Rattle.std.specs.Prelude.{◌≡◌, Some};
ghost use Rattle.std.specs.List.{flat_map};
ghost use Rattle.message.specs.Messages as messages;
ghost use Rattle.message.specs.Messages.{text_of, subject_text};

use itoa::Buffer;
pub use laws::numbers_differ;
pub use refusals::{NumberedMessage, RefusalKind};
use std::fmt;

/// What a message is about: what is inserted between its two texts.
#[derive(Clone, Copy, Debug, PartialEq, Eq)]
pub enum Subject<'a> {
    /// Nothing is inserted.
    Nothing,
    /// A name, a path or a word of a command line.
    Name(&'a str),
    /// A number, in decimal digits.
    Number(usize),
    /// A line number, from 1, in decimal digits: ` (line N)`, after the text that is about this line.
    Line(usize),
}

impl<'a> Subject<'a> {
    /// The inserted text, in three parts. The digits of a number are written to the buffer.
    pub fn parts<'b>(&'b self, digits: &'b mut Buffer) -> [&'b str; 3]
        ensures { flat_map (λ part. part.now) result ≡ subject_text self.now }
    {
        match self {
            Subject::Nothing => ["", "", ""],
            Subject::Name(name) => {
                let name: &'b str = name;
                ["", name, ""]
            }
            Subject::Number(n) => ["", digits.format(*n), ""],
            Subject::Line(n) => [" (line ", digits.format(*n), ")"],
        }
    }
}

/// A message: two texts, and what is inserted between them.
#[derive(Clone, Copy, Debug, PartialEq, Eq)]
pub struct Message<'a> {
    /// The text before the inserted one.
    pub before: &'a str,
    /// What is inserted.
    pub subject: Subject<'a>,
    /// The text after the inserted one.
    pub after: &'a str,
}

impl<'a> Message<'a> {
    /// A message of one text, with nothing inserted.
    pub fn of_text(text: &'a str) -> Message<'a>
        ensures { text_of result ≡ text.now }
    {
        Message {
            before: text,
            subject: Subject::Nothing,
            after: "",
        }
    }

    /// A text, a name and a closing quote.
    pub fn quoting(before: &'a str, name: &'a str) -> Message<'a>
        ensures { text_of result ≡ messages.quoting before.now name.now }
    {
        Message {
            before,
            subject: Subject::Name(name),
            after: "'",
        }
    }

    /// A text and the line, from 1, that it is about.
    pub fn at_line(text: &'a str, line: usize) -> Message<'a>
        ensures { text_of result ≡ messages.at_line text.now line }
    {
        Message {
            before: text,
            subject: Subject::Line(line),
            after: "",
        }
    }

    /// The whole text, in five parts. The digits of a number are written to the buffer.
    pub fn parts<'b>(&'b self, digits: &'b mut Buffer) -> [&'b str; 5]
        ensures { flat_map (λ part. part.now) result ≡ text_of self.now }
    {
        let before: &'b str = self.before;
        let after: &'b str = self.after;
        let [left, subject, right] = self.subject.parts(digits);
        [before, left, subject, right, after]
    }
}

impl<'a> fmt::Display for Message<'a> {
    ghost output = { λ message. Some (text_of message) };

    fn fmt<W: fmt::Write>(&self, f: &mut fmt::Formatter<W>) -> fmt::Result {
        f.write_str(self.before)?;
        match self.subject {
            Subject::Nothing => {}
            Subject::Name(name) => f.write_str(name)?,
            Subject::Number(n) => write!(f, "{n}")?,
            Subject::Line(n) => write!(f, " (line {n})")?,
        }
        f.write_str(self.after)
    }
}
