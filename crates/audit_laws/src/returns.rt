//! Why the way back is always open: what may refuse an unload, a `purge` or a load of certified modules, and what can't.
//! Touches nothing: these are definitions and laws, without code, and worked examples.
#![tactic(auto)]

pub mod laws;
pub mod rows;
