//! Texts on terminals: what of a text may reach one, and how many columns it fills.
//! Touches nothing but a text that grows; takes memory for that alone.
#![tactic(auto)]

pub mod columns;
pub mod text;
