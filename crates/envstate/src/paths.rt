//! Path variables, as PATH is: a list of elements, and how often each was added, in two variables of an environment.
//! Takes memory; touches the path variable that a call names and the variable of its counters.
//! A drop is what remove-path does, and an unload of what was added.
#![tactic(auto)]

mod adding;
mod dropping;
mod edits;
pub mod laws;
mod one_element;
mod order;
mod path;
mod room;
mod texts;
mod writing;

pub use adding::End;
pub use edits::{add_path, drop_path, is_element};
pub use order::is_path_in_order;
pub use room::has_room;
