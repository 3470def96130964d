//! The reports of the function module: listings, completions and descriptions.
//! Reads the tree of files that it is given; takes memory.
#![tactic(auto)]

pub mod completions;
pub mod descriptions;
pub mod listings;
