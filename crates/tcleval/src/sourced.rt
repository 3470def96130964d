//! A piece of a tree beside the text that it was parsed from.

/// A piece of a tree, or several, beside the source text of which the pieces of the tree are ranges.
#[derive(Clone, Copy)]
pub struct SourcedTree<'s, T> {
    /// The text that was parsed.
    pub source: &'s str,
    /// The piece of its tree.
    pub tree: T,
}
