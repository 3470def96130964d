//! Stacks of values (modulefile(5), pushenv): a variable's values, each with the module that pushed it.
//! Takes memory; touches the variable that a call names and the variable of its stack.
#![tactic(auto)]

mod edits;
pub mod laws;
mod order;
mod texts;

pub use edits::{pop_value, push_value};
pub use order::is_stack_in_order;
