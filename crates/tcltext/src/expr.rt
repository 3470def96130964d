//! Expressions of Tcl as trees, and what is wrong with a text that is none (expr(n)).
//! Takes memory and touches nothing else.
#![tactic(auto)]

mod laws;
mod marks;
mod nesting;
mod numbers;
mod operand;
mod operators;
mod owned;
mod reading;
mod text;
mod tree;

pub use laws::{correct_prefix, expr_of_grammar, one_expression, one_fault};
pub use numbers::Digits;
pub use operators::{BinaryOperator, Infix, Mark, UnaryOperator};
pub use owned::{OwnedExpr, own_expr};
pub use text::{parse_expr, parse_expr_pieces};
pub use tree::{Expr, Operand};
