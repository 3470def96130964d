//! How a file wasn't put in its place.

/// How a file wasn't put in its place.
#[derive(Clone, Copy)]
pub(crate) enum Unwritten {
    /// Nothing differs.
    Failed,
    /// The new file beside it is there, and couldn't be removed.
    Left,
}
