//! When modules are deterministic, what a certificate promises of sessions, and why the way back is always open.
//! Touches nothing; takes memory.
#![tactic(auto)]

pub mod determinism;
pub mod returns;
pub mod site;
