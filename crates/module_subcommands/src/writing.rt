//! What is written: where, under which condition, and which bytes.
ghost use Rattle.std.specs.Prelude.{◌≡◌};
ghost use Rattle.module_subcommands.specs.Writings as spec;

use module_words::protocol::{Asker, Place};

/// Where something is written.
#[derive(Clone, Copy, Debug, PartialEq, Eq)]
pub enum Stream {
    /// Standard output, which a function captures.
    Output,
    /// What standard input is open on: the user's standard output, where a function hands it on.
    Handed,
    /// Standard error.
    Error,
}

/// When something is written.
#[derive(Debug, Drop)]
pub enum Condition {
    /// Always.
    Always,
    /// Where no directory is at the path.
    UnlessDirectory(String),
    /// Where a file is at the path that can be run.
    IfProgram(String),
}

/// Something that is written.
#[derive(Debug, Drop)]
pub struct Writing {
    /// Where.
    pub stream: Stream,
    /// When.
    pub condition: Condition,
    /// The bytes.
    pub bytes: Vec<u8>,
}

/// Where a report is written that goes to a place.
pub(crate) fn stream_of(asker: Asker, place: Place) -> Stream
    ensures { result ≡ spec.stream_of asker place }
{
    match (place, asker) {
        (Place::Error, _) => Stream::Error,
        (_, Asker::Handing(_)) => Stream::Handed,
        _ => Stream::Output,
    }
}

/// What is always written.
pub fn always(stream: Stream, bytes: Vec<u8>) -> Writing
    ensures { spec.writing_view result ≡ spec.always_to stream bytes.items }
{
    Writing {
        stream,
        condition: Condition::Always,
        bytes,
    }
}
