//! What the words of Tcl's core commands ask for: forms, foreach items, switch bodies, parameters, reserved names.
//! Takes memory, keeps the variables and procedures of a script, and asks the host for elements of `env`.
#![tactic(auto)]

mod calls;
mod choice;
mod commands;
mod conditional;
mod foreach;
mod form;
mod items;
mod loops;
mod messages;
mod names;
mod procedures;
pub mod substitution;
mod switch;
pub mod variables;
mod words;

pub use calls::parameter_values;
pub use choice::chosen;
pub use commands::core_form;
pub use form::{Comparison, ForLoop, Form, Patterns, SimpleForm, WhenMissing, WhileLoop};
pub use loops::Loops;
pub use messages::{cannot_unset, no_command, outside_loop};
pub use names::{is_in, is_reserved, is_unsupported};
pub use procedures::parameters;
