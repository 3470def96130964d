//! The words of the function module: its subcommands, their options, and the commands that it answers itself.
//! Touches nothing but the environment that it is given; takes memory.
#![tactic(auto)]

pub mod function;
pub mod modulepath;
pub mod protocol;
pub mod subcommands;
