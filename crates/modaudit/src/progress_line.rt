//! A line on a terminal that says how far an audit has come.
use audit_site::WalkProgress;
use std::io::{IsTerminal, Stderr, Write};
use std::time::{Clock, Instant};

/// How many milliseconds an audit takes before a line is shown.
const PATIENCE: u128 = 1000;

/// How many milliseconds a line stands before it is written anew.
const REST: u128 = 100;

/// A line on standard error, where that is a terminal: once an audit takes more than a second, how many files are
/// evaluated, and how many are found.
#[derive(Drop)]
pub struct ProgressLine<C: Clock + Drop> {
    clock: C,
    err: Stderr,
    is_terminal: bool,
    /// When the audit began; none, where no clock says it.
    start: Option<Instant>,
    /// When the line was written last; none, where no line stands there.
    shown: Option<Instant>,
}

impl<C: Clock + Drop> ProgressLine<C> {
    /// The line of an audit that begins now.
    pub fn new(clock: C, err: Stderr) -> ProgressLine<C> {
        let is_terminal = err.is_terminal();
        let start = Instant::now(&clock).ok();
        ProgressLine {
            clock,
            err,
            is_terminal,
            start,
            shown: None,
        }
    }

    /// Whether more milliseconds than these have gone by since a moment.
    fn is_past(&self, moment: Option<Instant>, millis: u128) -> bool {
        let Some(moment) = moment else {
            return false;
        };
        match moment.elapsed(&self.clock) {
            Ok(time) => time.as_millis() > millis,
            Err(_) => false,
        }
    }

    /// Whether the line is to be written: first after a while, and then anew after a rest.
    fn is_due(&self) -> bool {
        if self.shown.is_some() {
            self.is_past(self.shown, REST)
        } else {
            self.is_past(self.start, PATIENCE)
        }
    }

    /// Writes the line in the place of the one that stands there. A failed write is of no matter.
    fn show(&mut self, done: usize, found: usize) {
        let _ = write!(self.err, "\r{done} of {found} files");
        self.shown = Instant::now(&self.clock).ok();
    }

    /// Takes the line away, where one stands there.
    fn erase(&mut self) {
        if self.shown.take().is_some() {
            let _ = write!(self.err, "\r{:60}\r", "");
        }
    }
}

impl<C: Clock + Drop> WalkProgress for ProgressLine<C> {
    /// Shows so many files, where a line is due; where none was found, nothing is under way, and the line is taken away.
    fn evaluated(&mut self, done: usize, found: usize) {
        if !self.is_terminal {
            return;
        }
        if found == 0 {
            self.erase();
        } else if self.is_due() {
            self.show(done, found);
        }
    }
}
