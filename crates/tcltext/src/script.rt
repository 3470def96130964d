//! Scripts of Tcl as trees, and what is wrong with a text that is none (Tcl(n)).
//! Takes memory and touches nothing else.
#![tactic(auto)]

mod context;
mod laws;
mod owned;
mod piece;
mod reading;
mod runs;
mod text;
mod tree;

pub use laws::{correct_prefix, one_fault, one_script, script_of_grammar};
pub use owned::{OwnedScript, own_script};
pub use piece::{ByteRange, Source, taken};
pub use reading::{read_bracket, read_dollar, read_quotes};
pub use text::{parse_pieces, parse_script};
pub use tree::{Command, Part, Script, Word, WordContent};
