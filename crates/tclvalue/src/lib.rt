//! Tcl's commands on lists and texts alone: list, llength, lindex, lrange, split, join, concat, string (their pages).
//! Takes memory and touches nothing else. The module `operators` has the operators of expressions (expr(n)).
#![tactic(auto)]

mod bounded;
mod characters;
mod command;
mod concat;
mod index;
mod laws;
mod list_commands;
mod lists;
mod names;
pub mod operators;
mod pattern;
mod searches;
mod string_command;
mod texts;

pub use crate::operators::{
    ValueFault, binary, bits, division, elements, in_quotes, is_among, sum, text_order, truth,
    truth_text, unary, unsupported, whole_number,
};
pub use command::value_command;
pub use concat::concatenated;
pub use index::count_of;
pub use laws::string_match;
pub use lists::{joined, list_text};
pub use names::is_value_command;
pub use pattern::glob;
