//! A tree of files without what stands at some paths, as at those that can't be read.
//! Takes memory; reads through the `Tree` that it is given.
#![tactic(auto)]

mod hiding;

pub use hiding::{HidingTree, MOST_HIDDEN};
