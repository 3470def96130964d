//! Environment variables: a map from names to texts, its edits, working copies, and the exact difference of two maps.
//! Takes memory; touches only the variables that a call names, and none of them where the call is refused.
#![tactic(auto)]

mod change;
mod difference;
mod env;
pub mod escapes;
mod fault;
pub mod fields;
mod given;
pub mod laws;
mod names;
mod table;
mod vars;
mod working;

pub use change::{Change, push_change};
pub use difference::changes;
pub use env::Env;
pub use fault::EnvFault;
pub use names::{is_nul_free, is_protected, is_variable_name, judge_name, share_name, stack_name};
pub use vars::{Vars, has_value};
pub use working::Working;
