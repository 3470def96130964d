//! An expression that owns its text.
ghost use Rattle.std.specs.Prelude.{◌≡◌, string_bytes, IfOk, IfErr, MatchResult};
ghost use Rattle.tcltext.specs.declared.chars.fault.TextFault.TheVariants.{OutOfMemory};
ghost use Rattle.tcltext.specs.chars.Whole.{Reads};
ghost use Rattle.tcltext.specs.expr.Tree as tree;
ghost use Rattle.tcltext.specs.expr.Operands as operands;
ghost use Rattle.tcltext.specs.expr.Text.{IsWithin, IsTextFault, expr_of};
ghost use Rattle.tcltext.specs.expr.Owned.{owned_view};

use crate::chars::TextFault;
use crate::expr::text::parse_expr_pieces;
use crate::expr::tree::Expr;
use crate::script::ByteRange;
use std::alloc::Global;

/// An expression with its text: the pieces of the tree are ranges of the text.
#[derive(Debug, Drop)]
pub struct OwnedExpr {
    /// The text.
    pub text: String,
    /// The tree, whose pieces are byte ranges of the text.
    pub expression: Expr<ByteRange>,
}

/// The tree of an expression, as `parse_expr` gives it, with the text, which is moved and not copied.
///
/// The errors are those of `parse_expr`; the text is then dropped.
pub fn own_expr(alloc: Global, text: String) -> Result<OwnedExpr, TextFault>
    // The text is unchanged.
    ensures same { IfOk result (λ o. string_bytes o.text ≡ string_bytes text) }

    // A tree that is returned is the text's, within the limits.
    ensures found { IfOk result (λ o. IsWithin (string_bytes text) (owned_view o)) }

    // A text that has a tree within the limits is read, unless memory runs out.
    ensures only { (e : tree.Expr operands.Operand) → IsWithin (string_bytes text) e
        → MatchResult result (λ o. owned_view o ≡ e) (λ f. f ≡ OutOfMemory) }

    // A fault is the first of the text, with its offset.
    ensures fault { IfErr result (IsTextFault (string_bytes text)) }

    // The tree or the fault is the one that the definition computes, unless memory runs out.
    ensures read { Reads owned_view result (expr_of (string_bytes text)) }
{
    match parse_expr_pieces(alloc, &text.as_str()) {
        Ok(expression) => Ok(OwnedExpr { text, expression }),
        Err(fault) => Err(fault),
    }
}
