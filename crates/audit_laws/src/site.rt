//! A whole site judged: its directories, its modules, how each stands, and the law of sessions of certified modules.
//! Takes memory for the set of directories that a walk has found, and touches nothing: the rest is definitions and laws.
#![tactic(auto)]

pub mod directory_set;
pub mod laws;
pub mod rows;
