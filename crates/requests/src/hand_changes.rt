//! What hands change between commands: which changes may be made, and what the same change makes of the start.
//! Touches nothing: these are definitions and laws, without code, and examples of why each rule is needed.
#![tactic(auto)]

pub mod examples;
pub mod laws;
