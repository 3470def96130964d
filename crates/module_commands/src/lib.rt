//! What the function `module` answers to its words: what is written where, and the status (module(1)).
//! Takes memory; reads files and directories (`Tree`); reads, saves and removes collections (`Storage`).
#![tactic(auto)]

mod answering;
mod command;
mod explaining;
mod forgetting;
mod scripts;

pub use answering::{Answer, answer_to, refusal_line};
pub use explaining::{Cause, cause_line};
