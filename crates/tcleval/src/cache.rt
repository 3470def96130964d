//! `Kept`, the parsed texts: scripts and expressions with their trees; within limits none is parsed twice.
//! Takes memory and touches nothing else.
#![tactic(auto)]

mod kept;
mod parsed;
mod texts;

pub use kept::Kept;
