//! Collections of modules: their texts and their files.
//! Touches the files of collections alone; takes memory.
#![tactic(auto)]

pub mod files;
pub mod texts;
