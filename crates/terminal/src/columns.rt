//! Lines in columns: blanks in place of the tabs that part their fields.
//! Takes memory and touches nothing else.
#![tactic(auto)]

mod aligning;
pub mod laws;
mod parts;
mod widths;

pub use aligning::aligned;
