//! Whole texts as expressions, within the limits of length and nesting.
ghost use Rattle.std.specs.Prelude.{◌≡◌, IfOk, IfErr, MatchResult};
ghost use Rattle.message.specs.Answers.{Gives};
ghost use Rattle.tcltext.specs.chars.Reading.{stopped_by};
ghost use Rattle.tcltext.specs.chars.Faults.{max_nesting};
ghost use Rattle.tcltext.specs.declared.chars.fault.TextFault.TheVariants.{OutOfMemory};
ghost use Rattle.tcltext.specs.chars.Whole.{Reads};
ghost use Rattle.tcltext.specs.expr.Tree as tree;
ghost use Rattle.tcltext.specs.expr.Operands as operands;
ghost use Rattle.tcltext.specs.expr.Operands.{operand_at};
ghost use Rattle.tcltext.specs.expr.Reading.{expr_at};
ghost use Rattle.tcltext.specs.expr.Text.{IsWithin, IsTextFault, expr_of};
ghost use Rattle.tcltext.specs.expr.View.{expr_view};

use crate::chars::{Fault, MAX_BYTES, MAX_NESTING, ReadError, TextFault, with_offset};
use crate::expr::marks::skip_white;
use crate::expr::reading::read_whole;
use crate::expr::tree::Expr;
use crate::script::Source;
use std::alloc::Global;

/// The tree of an expression (expr(n)), whose pieces are slices of the text. Takes memory in proportion to the length
/// of the text, and copies no text. The time is in proportion to the length too, and after each operand to how deep it
/// nests.
///
/// - `TooLong`: the text has more than 1,048,576 bytes, whatever else is wrong.
/// - `TooDeep`: operators, parentheses and brackets nest more than 200 deep.
/// - `BadExpression`: no expression has what is at this offset there; the end of the text, where it ends too early.
/// - `OpenBrace`, `OpenQuote`, `OpenBracket`, `JoinedToClose`, `BadCharacter`: an operand is wrong, as `parse_script`
///   has it.
/// - `OutOfMemory`: a growth was refused; this says nothing about the text.
///
/// A text with several faults is refused with the first that a reader from left to right meets.
pub fn parse_expr(alloc: Global, text: &str) -> Result<Expr<&str>, TextFault>
    // A tree that is returned is the text's, within the limits.
    ensures found { IfOk result (λ e. IsWithin text.now (expr_view (λ piece. piece.now) e)) }

    // A text that has a tree within the limits is read, unless memory runs out.
    ensures only { (e : tree.Expr operands.Operand) → IsWithin text.now e
        → MatchResult result (λ t. expr_view (λ piece. piece.now) t ≡ e) (λ f. f ≡ OutOfMemory) }

    // A fault is the first of the text, with its offset.
    ensures fault { IfErr result (IsTextFault text.now) }

    // The tree or the fault is the one that the definition computes, unless memory runs out.
    ensures read { Reads (expr_view (λ piece. piece.now)) result (expr_of text.now) }
{
    read_limited(alloc, &text)
}

/// The tree of an expression, as `parse_expr` gives it, with pieces of any kind.
pub fn parse_expr_pieces<S: Source<P>, P: Drop>(
    alloc: Global,
    source: &S,
) -> Result<Expr<P>, TextFault>
    ensures found { IfOk result (λ e. IsWithin (S.text source.now) (expr_view (S.shown source.now) e)) }
    ensures only { (e : tree.Expr operands.Operand) → IsWithin (S.text source.now) e
        → MatchResult result (λ t. expr_view (S.shown source.now) t ≡ e) (λ f. f ≡ OutOfMemory) }
    ensures fault { IfErr result (IsTextFault (S.text source.now)) }
    ensures read { Reads (expr_view (S.shown source.now)) result (expr_of (S.text source.now)) }
{
    read_limited(alloc, source)
}

/// The tree of a source within the limits, or its fault.
fn read_limited<S: Source<P>, P: Drop>(alloc: Global, source: &S) -> Result<Expr<P>, TextFault>
    ensures { Reads (expr_view (S.shown source.now)) result (expr_of (S.text source.now)) }
{
    let len = source.as_str().len();
    if len > MAX_BYTES {
        return Err(TextFault::TooLong);
    }
    match read_source(alloc, source) {
        Ok(expression) => Ok(expression),
        Err(ReadError::Memory) => Err(TextFault::OutOfMemory),
        Err(ReadError::Fault(fault)) => Err(with_offset(fault, len)),
    }
}

/// The tree of a source, after which nothing but white space follows.
fn read_source<S: Source<P>, P: Drop>(alloc: Global, source: &S) -> Result<Expr<P>, ReadError>
    ensures { Gives stopped_by (expr_view (S.shown source.now)) result
        (expr_at operand_at max_nesting (S.text source.now)) }
{
    let (expression, rest) = read_whole(alloc, source, source.as_str(), MAX_NESTING)?;
    let remaining = skip_white(rest).len();
    if remaining == 0 {
        Ok(expression.into_tree())
    } else {
        Err(ReadError::Fault(Fault::BadExpression(remaining)))
    }
}
