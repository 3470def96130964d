//! Whether the result of a command is used.

/// Whether the result of a command is used. Where it isn't, an empty text may be answered instead.
#[derive(Clone, Copy)]
pub enum ResultUse {
    /// The result is needed.
    Needed,
    /// The result is dropped.
    Dropped,
}
