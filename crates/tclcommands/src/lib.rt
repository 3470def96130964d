//! Tcl's commands without scripts, by their forms; what follows a script's completion in loops, catch(n) and calls.
//! Takes memory, changes the variables that it is given, and asks the host.
#![tactic(auto)]

mod command_words;
mod commands;
mod completion;
mod defining;
mod global_names;
mod host_commands;
mod increment;
mod initial;
mod lists;
mod reading;
mod result_use;
mod unsetting;
mod value;
mod writing;

pub use command_words::CommandWords;
pub use commands::{simple_command, unknown_command};
pub use completion::{
    CaughtCompletion, after_call, after_next, after_turn, catch_outcome, store_caught,
};
pub use defining::define;
pub use global_names::global;
pub use host_commands::{consult, put};
pub use initial::initial_variables;
pub use lists::list_append;
pub use reading::{exists, get};
pub use result_use::ResultUse;
pub use unsetting::unset;
pub use value::Value;
pub use writing::{append, assign, increase, set, write};
