//! Expressions, read by precedence climbing: each operator takes what binds more tightly than itself (expr(n),
//! OPERATORS).
ghost use Rattle.std.specs.Prelude.{◌≡◌, ◌≤◌, ◌<◌, suc, nat_lt, if◌then◌else◌, ◌-◌, Some, Err, IfOk, MatchOption};
ghost use Rattle.tcltext.specs.chars.Runs.{Text};
ghost use Rattle.message.specs.Answers.{Gives};
ghost use Rattle.tcltext.specs.chars.Reading.{stopped_by, read_map};
ghost use Rattle.tcltext.specs.declared.chars.fault.Fault.TheVariants.{TooDeep};
ghost use Rattle.tcltext.specs.script.Pieces.{IsSuffixOf};
ghost use Rattle.tcltext.specs.declared.expr.operators.Mark.TheVariants as marks;
ghost use Rattle.tcltext.specs.expr.Grammar.{level};
ghost use Rattle.tcltext.specs.expr.Marks.{mark_at, after_white};
ghost use Rattle.tcltext.specs.expr.Faults.{Follows};
ghost use Rattle.tcltext.specs.expr.Operands.{operand_at};
ghost use Rattle.tcltext.specs.expr.Reading.{chain, is_close, is_colon, is_open, is_question_mark, expect, join, prefix_at};
ghost use Rattle.tcltext.specs.expr.Reading.{leaf_of, unary_of, choice_of, enclosed_at, branches_at, chain_at, whole_at};
ghost use Rattle.tcltext.specs.expr.Reading.{below_at};
ghost use Rattle.tcltext.specs.expr.View.{with_height_view, expr_view};

use crate::chars::{Fault, ReadError};
use crate::expr::marks::{level, read_mark, sign_of, skip_white};
use crate::expr::operand::read_operand;
use crate::expr::operators::{Infix, Mark, UnaryOperator};
use crate::expr::tree::{Expr, WithHeight};
use crate::script::Source;
use std::alloc::{AllocError, Global};

/// The level of the binary operator that binds least tightly; a choice binds less tightly still.
const LOOSEST: usize = 13;

/// The rest after the closing parenthesis, which must come next.
fn after_close(text: &str) -> Result<&str, ReadError>
    ensures { Gives stopped_by (λ rest. rest.now) result (expect is_close text.now) }
{
    let start = skip_white(text);
    match read_mark(start) {
        Some((Mark::Close, rest)) => Ok(rest),
        _ => Err(ReadError::Fault(Fault::BadExpression(start.len()))),
    }
}

/// The rest after the colon, which must come next.
fn after_colon(text: &str) -> Result<&str, ReadError>
    ensures { Gives stopped_by (λ rest. rest.now) result (expect is_colon text.now) }
{
    let start = skip_white(text);
    match read_mark(start) {
        Some((Mark::Colon, rest)) => Ok(rest),
        _ => Err(ReadError::Fault(Fault::BadExpression(start.len()))),
    }
}

/// Whether the mark opens a parenthesis.
fn is_open(mark: Mark) -> bool
    ensures { result ≡ is_open mark }
{
    matches!(mark, Mark::Open)
}

/// Whether the mark is the question mark of a choice.
fn is_question_mark(mark: Mark) -> bool
    ensures { result ≡ is_question_mark mark }
{
    matches!(mark, Mark::QuestionMark)
}

/// The operator that comes next, if it is one between two operands of that level at most, and the rest.
fn read_infix(text: &str, limit: usize) -> Option<(Infix, &str)>
    ensures { MatchOption result (Follows (suc limit) text.now)
        (λ p. (mark_at (after_white text.now) ≡ Some (marks.Infix p.0, p.1.now)) × (level p.0 ≤ limit)) }
{
    match read_mark(skip_white(text)) {
        Some((Mark::Infix(between), rest)) if level(between) <= limit => Some((between, rest)),
        _ => None,
    }
}

/// The highest level of the operators in a right operand: operators of one level group to the left.
fn right_level(between: Infix) -> usize
    ensures { result ≡ level between - 1 }
{
    level(between) - 1
}

fn unary<P: Drop>(
    alloc: Global,
    operator: UnaryOperator,
    operand: WithHeight<P>,
) -> Result<WithHeight<P>, AllocError>
    requires { operand.height < usize.MAX }
    ensures { (shown : P → Text)
        → IfOk result (λ t. with_height_view shown t ≡ unary_of operator (with_height_view shown operand)) }
{
    let height = operand.height + 1;
    Ok(WithHeight {
        tree: Expr::Unary(operator, Box::new(alloc, operand.into_tree())?),
        height,
    })
}

/// Two expressions, with an operator between them.
fn join<P: Drop>(
    alloc: Global,
    between: Infix,
    left: WithHeight<P>,
    right: WithHeight<P>,
) -> Result<WithHeight<P>, AllocError>
    requires left { left.height < usize.MAX }
    requires right { right.height < usize.MAX }
    ensures { (shown : P → Text)
        → IfOk result
        (λ t. with_height_view shown t ≡ join between (with_height_view shown left) (with_height_view shown right)) }
{
    let height = left.height.max(right.height) + 1;
    let left = Box::new(alloc, left.into_tree())?;
    let right = Box::new(alloc, right.into_tree())?;
    let tree = match between {
        Infix::Operator(operator) => Expr::Binary(operator, left, right),
        Infix::And => Expr::And(left, right),
        Infix::Or => Expr::Or(left, right),
    };
    Ok(WithHeight { tree, height })
}

/// A condition and the two expressions that it chooses from.
fn choice<P: Drop>(
    alloc: Global,
    condition: WithHeight<P>,
    yes: WithHeight<P>,
    no: WithHeight<P>,
) -> Result<WithHeight<P>, AllocError>
    requires condition { condition.height < usize.MAX }
    requires positive { yes.height < usize.MAX }
    requires negative { no.height < usize.MAX }
    ensures { (shown : P → Text)
        → IfOk result
        (λ t. with_height_view shown t ≡ choice_of (with_height_view shown condition) (with_height_view shown yes)
        (with_height_view shown no)) }
{
    let height = condition.height.max(yes.height.max(no.height)) + 1;
    let condition = Box::new(alloc, condition.into_tree())?;
    let yes = Box::new(alloc, yes.into_tree())?;
    let no = Box::new(alloc, no.into_tree())?;
    Ok(WithHeight {
        tree: Expr::Choice(condition, yes, no),
        height,
    })
}

/// An expression in parentheses, which add one to its height.
fn enclosed<P: Drop>(inner: WithHeight<P>) -> WithHeight<P>
    requires { inner.height < usize.MAX }
    ensures { (shown : P → Text) → with_height_view shown result ≡ (expr_view shown inner.tree, suc inner.height) }
{
    let height = inner.height + 1;
    WithHeight {
        tree: inner.into_tree(),
        height,
    }
}

/// The expression that the text begins with, and the rest; `depth` operators, parentheses and brackets may nest in it.
#[cycle(read)]
pub(crate) fn read_whole<'a, S: Source<P>, P: Drop>(
    alloc: Global,
    source: &S,
    text: &'a str,
    depth: usize,
) -> Result<(WithHeight<P>, &'a str), ReadError>
    requires { IsSuffixOf (S.text source.now) text.now }
    ensures { Gives stopped_by (λ x. (with_height_view (S.shown source.now) x.0, x.1.now)) result
        (whole_at operand_at depth (below_at operand_at depth) text.now) }
{
    let (condition, rest) = read_chain(alloc, source, text, depth, LOOSEST)?;
    let Some((mark, following)) = read_mark(skip_white(rest)) else {
        return Ok((condition, rest));
    };
    if is_question_mark(mark) {
        read_branches(alloc, source, condition, following, depth)
    } else {
        Ok((condition, rest))
    }
}

/// The choice of a condition, and the rest; `text` follows its question mark.
#[cycle(read)]
fn read_branches<'a, S: Source<P>, P: Drop>(
    alloc: Global,
    source: &S,
    condition: WithHeight<P>,
    text: &'a str,
    depth: usize,
) -> Result<(WithHeight<P>, &'a str), ReadError>
    requires { IsSuffixOf (S.text source.now) text.now }
    ensures { Gives stopped_by (λ x. (with_height_view (S.shown source.now) x.0, x.1.now)) result
        (if nat_lt condition.height depth
        then branches_at operand_at (below_at operand_at depth)
        (with_height_view (S.shown source.now) condition) text.now
        else Err TooDeep) }
{
    if condition.height >= depth {
        return Err(ReadError::Fault(Fault::TooDeep));
    }
    let (yes, rest) = read_whole(alloc, source, text, depth - 1)?;
    let following = after_colon(rest)?;
    let (no, end) = read_whole(alloc, source, following, depth - 1)?;
    Ok((choice(alloc, condition, yes, no)?, end))
}

/// Operands with operators of that level at most between them, and the rest.
#[cycle(read)]
fn read_chain<'a, S: Source<P>, P: Drop>(
    alloc: Global,
    source: &S,
    text: &'a str,
    depth: usize,
    limit: usize,
) -> Result<(WithHeight<P>, &'a str), ReadError>
    requires { IsSuffixOf (S.text source.now) text.now }
    ensures { Gives stopped_by (λ x. (with_height_view (S.shown source.now) x.0, x.1.now)) result
        (chain_at operand_at depth (below_at operand_at depth) limit text.now) }
{
    let (mut left, mut rest) = read_prefix(alloc, source, text, depth)?;
    loop {
        let Some((between, following)) = read_infix(rest, limit) else {
            return Ok((left, rest));
        };
        let (right, end) = read_right(alloc, source, following, depth, left.height, between)?;
        left = join(alloc, between, left, right)?;
        rest = end;
    }
}

/// The right operand of an operator, and the rest; `height` is how deep its left operand nests.
#[cycle(read)]
fn read_right<'a, S: Source<P>, P: Drop>(
    alloc: Global,
    source: &S,
    text: &'a str,
    depth: usize,
    height: usize,
    between: Infix,
) -> Result<(WithHeight<P>, &'a str), ReadError>
    requires { IsSuffixOf (S.text source.now) text.now }
    ensures { Gives stopped_by (λ x. (with_height_view (S.shown source.now) x.0, x.1.now)) result
        (if nat_lt height depth then below_at operand_at depth (chain (level between - 1)) text.now else Err TooDeep) }
{
    if height >= depth {
        return Err(ReadError::Fault(Fault::TooDeep));
    }
    read_chain(alloc, source, text, depth - 1, right_level(between))
}

/// An operand with the unary operators before it, or an expression in parentheses, and the rest.
#[cycle(read)]
fn read_prefix<'a, S: Source<P>, P: Drop>(
    alloc: Global,
    source: &S,
    text: &'a str,
    depth: usize,
) -> Result<(WithHeight<P>, &'a str), ReadError>
    requires { IsSuffixOf (S.text source.now) text.now }
    ensures { Gives stopped_by (λ x. (with_height_view (S.shown source.now) x.0, x.1.now)) result
        (prefix_at operand_at depth (below_at operand_at depth) text.now) }
{
    let start = skip_white(text);
    let Some((mark, following)) = read_mark(start) else {
        return read_leaf(alloc, source, start, depth);
    };
    if is_open(mark) {
        return read_enclosed(alloc, source, following, depth);
    }
    match sign_of(mark) {
        Some(operator) => read_signed(alloc, source, operator, following, depth),
        None => Err(ReadError::Fault(Fault::BadExpression(start.len()))),
    }
}

/// An operand as an expression, and the rest.
fn read_leaf<'a, S: Source<P>, P: Drop>(
    alloc: Global,
    source: &S,
    text: &'a str,
    depth: usize,
) -> Result<(WithHeight<P>, &'a str), ReadError>
    requires { IsSuffixOf (S.text source.now) text.now }
    ensures { Gives stopped_by (λ x. (with_height_view (S.shown source.now) x.0, x.1.now)) result
        (read_map leaf_of (operand_at depth text.now)) }
{
    let (operand, height, rest) = read_operand(alloc, source, text, depth)?;
    Ok((
        WithHeight {
            tree: Expr::Operand(operand),
            height,
        },
        rest,
    ))
}

/// An expression in parentheses, and the rest; `text` follows the opening one.
#[cycle(read)]
fn read_enclosed<'a, S: Source<P>, P: Drop>(
    alloc: Global,
    source: &S,
    text: &'a str,
    depth: usize,
) -> Result<(WithHeight<P>, &'a str), ReadError>
    requires { IsSuffixOf (S.text source.now) text.now }
    ensures { Gives stopped_by (λ x. (with_height_view (S.shown source.now) x.0, x.1.now)) result
        (enclosed_at operand_at (below_at operand_at depth) text.now) }
{
    if depth == 0 {
        return Err(ReadError::Fault(Fault::TooDeep));
    }
    let (inner, rest) = read_whole(alloc, source, text, depth - 1)?;
    let following = after_close(rest)?;
    Ok((enclosed(inner), following))
}

/// A unary operator with its operand, and the rest; `text` follows the operator.
#[cycle(read)]
fn read_signed<'a, S: Source<P>, P: Drop>(
    alloc: Global,
    source: &S,
    operator: UnaryOperator,
    text: &'a str,
    depth: usize,
) -> Result<(WithHeight<P>, &'a str), ReadError>
    requires { IsSuffixOf (S.text source.now) text.now }
    ensures { Gives stopped_by (λ x. (with_height_view (S.shown source.now) x.0, x.1.now)) result
        (read_map (unary_of operator) (below_at operand_at depth (chain 1) text.now)) }
{
    if depth == 0 {
        return Err(ReadError::Fault(Fault::TooDeep));
    }
    let (operand, rest) = read_chain(alloc, source, text, depth - 1, 1)?;
    Ok((unary(alloc, operator, operand)?, rest))
}
