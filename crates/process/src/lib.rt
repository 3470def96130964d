//! What a process is given: its arguments, its environment as a block of entries, the text that it reads; absolute paths.
//! Takes memory; reads what the system knows of the process, `/proc/self/environ` and a reader that is handed in.
#![tactic(auto)]

mod absolute_paths;
mod input;
mod not_utf8;
mod process;

pub use absolute_paths::absolute_path;
pub use input::{InputFault, read_input};
pub use not_utf8::{GivenEnvironment, given_environment};
pub use process::{arguments, environment_block};
