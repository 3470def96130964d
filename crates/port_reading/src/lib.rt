//! The reading of modulefiles that are translated: their text, and where words and scripts stand in it.
//! Touches nothing but a text or a list that grows; takes memory for that alone.
#![tactic(auto)]

mod ends;
pub mod file_text;
pub mod places;
pub mod roles;
