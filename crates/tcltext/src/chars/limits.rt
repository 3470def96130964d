//! The limits of a text that is parsed: its length, and how deep it nests.

/// The longest text that is parsed, in bytes.
pub const MAX_BYTES: usize = 1_048_576;

/// The deepest nesting of brackets, of the parentheses of indexes, and of an expression's operators and parentheses.
pub const MAX_NESTING: usize = 200;
