//! What each step of a substitution reads and doesn't change.

use crate::variables::Variables;
use std::alloc::Global;
use tclrules::Limits;

/// The variables, the limits, and the source text of which the pieces of the tree are byte ranges.
#[derive(Clone, Copy)]
pub struct SubstitutionContext<'a, 'v> {
    /// The allocator.
    pub alloc: Global,
    /// The limits on commands, depth and the bytes of a value; steps judge the last alone.
    pub limits: Limits,
    /// The text of which the pieces of a tree are ranges.
    pub source: &'a str,
    /// The variables as they are.
    pub variables: &'v Variables,
}
