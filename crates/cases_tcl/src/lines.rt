//! Lines that are written part by part.
use std::alloc::{AllocError, Global};

/// A line that is written part by part, and that remembers whether memory ran out.
#[derive(Drop)]
pub(crate) struct Line {
    /// What was written.
    pub(crate) text: String,
    /// Whether a part was lost for want of memory.
    is_cut: bool,
}

impl Line {
    /// An empty line.
    pub(crate) fn new(alloc: Global) -> Line {
        Line {
            text: String::new(alloc),
            is_cut: false,
        }
    }

    /// Remembers whether memory ran out for a part.
    pub(crate) fn note(&mut self, pushed: Result<(), AllocError>) {
        if pushed.is_err() {
            self.is_cut = true;
        }
    }

    /// Adds a text.
    pub(crate) fn push_str(&mut self, text: &str) {
        let pushed = self.text.push_str(text);
        self.note(pushed);
    }

    /// Adds a character.
    pub(crate) fn push(&mut self, character: char) {
        let pushed = self.text.push(character);
        self.note(pushed);
    }

    /// Adds a text that was made for this line.
    pub(crate) fn push_made(&mut self, made: Result<String, AllocError>) {
        match made {
            Ok(text) => self.push_str(&text),
            Err(_) => self.is_cut = true,
        }
    }

    /// The whole line; None where memory ran out.
    pub(crate) fn finish(self) -> Option<String> {
        let Line { text, is_cut } = self;
        if is_cut { None } else { Some(text) }
    }
}
