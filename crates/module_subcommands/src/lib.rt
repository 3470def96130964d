//! What each subcommand of the function `module` does and says (module(1)).
//! Takes memory; reads files and directories (`Tree`); reads, saves and removes collections (`Storage`); asks the system.
#![tactic(auto)]

pub mod after;
mod asking;
pub mod changing;
pub mod collections;
pub mod completing;
pub mod describing;
pub mod editing;
pub mod exchanging;
mod given;
pub mod lines;
pub mod listing;
pub mod moving;
mod program;
mod refusal;
pub mod reply;
pub mod reporting;
pub mod requesting;
mod site;
mod writing;

pub use asking::Asking;
pub use given::site_of;
pub use program::{Program, program_at};
pub use refusal::{Refusal, error_line};
pub use site::Site;
pub use writing::{Condition, Stream, Writing, always};
