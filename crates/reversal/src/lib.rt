//! When unloads undo loads: those of modules that are reversible and apart give back the environment before them.
//! Touches nothing: these are definitions and laws, without code, and examples of why each premise is needed.
#![tactic(auto)]

pub mod examples;
pub mod laws;
