//! The evaluation of a file (Tcl(n)): from its text and global variables to its result, or a fault with its line and its place.
//! Takes memory, and asks the host for puts(n), for commands that aren't Tcl's and for the environment.
#![tactic(auto)]

mod bounds;
pub mod cache;
mod evaluation;
mod evaluator;
mod file;
mod literals;
mod loop_body;
mod open_scripts;
mod places;
mod sourced;
mod trees;
mod turns;
mod words;

pub use crate::cache::Kept;
pub use file::{evaluate, evaluate_placed, evaluate_with};
pub use tclrules::{Ending, EvalFault, FaultPlace, Host, HostAnswer, Limits, PlacedFault};
