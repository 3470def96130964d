//! What Tcl computes from constants: a folder over the tree of a command.
//! Takes memory and touches nothing else.
#![tactic(auto)]

mod answers;
mod folding;
mod knowledge;
mod paths;
mod values;

pub use answers::{MOST_BYTES, copied};
pub use folding::{Edit, computed_in, is_bare};
pub use knowledge::{Knowledge, KnownFile, KnownVariable, plain_name, value_among};
