//! Refusals that say nothing of what is asked for: want of memory, and a device that failed.
//! Touches nothing.
#![tactic(auto)]

mod transient;

pub use transient::{is_search_transient, is_transient, unless_transient};
