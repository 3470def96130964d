//! Readers of Tcl's texts: scripts, expressions, lists, patterns and numbers (Tcl(n) and the page of each).
//! Takes memory for the trees and texts that it makes, and touches nothing else.
#![tactic(auto)]

pub mod chars;
pub mod expr;
mod laws;
pub mod list;
pub mod pattern;
pub mod script;

pub use crate::chars::{MAX_BYTES, MAX_NESTING, Numeral, TextFault, push_braced_text, read_number};
pub use crate::expr::{
    BinaryOperator, Expr, Operand, OwnedExpr, UnaryOperator, own_expr, parse_expr,
    parse_expr_pieces,
};
pub use crate::list::{parse_list, write_list};
pub use crate::pattern::glob_match;
pub use crate::script::{
    ByteRange, Command, OwnedScript, Part, Script, Source, Word, WordContent, own_script,
    parse_pieces, parse_script,
};
pub use laws::number_in_expression;
