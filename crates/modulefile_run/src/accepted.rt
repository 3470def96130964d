//! An accepted command of a modulefile.
use modulefile::Record;
use std::snapshot::Snapshot;

/// The words of a command, which contracts alone can see: snapshots take no memory.
#[derive(Drop)]
pub(crate) enum RememberedWords {
    /// No word.
    Empty,
    /// The words before the last, and the last.
    WithLast(Snapshot<RememberedWords>, Snapshot<String>),
}

/// An accepted command: its words, and its record.
#[derive(Drop)]
pub(crate) struct AcceptedCommand {
    pub words: RememberedWords,
    pub recorded: Record,
}
