//! Conditions of guards: that a module is loaded only where it isn't, or in a load.

use crate::symbols::constant_words;
use std::alloc::{AllocError, Global};
use tcltext::chars::TextFault;
use tcltext::expr::{Expr, Operand, UnaryOperator, parse_expr_pieces};
use tcltext::script::ByteRange;

/// What an `if` asks that does nothing but load modules.
#[derive(Clone, Copy, Debug)]
pub(crate) enum Condition<'t> {
    /// Whether the file is evaluated for a load.
    Loading,
    /// Whether the file is evaluated for an unload.
    Unloading,
    /// Whether this module isn't loaded.
    Unloaded(&'t str),
    /// Whether a variable is there, or isn't.
    Exists,
}

/// What a command in brackets asks, or one behind `!`.
fn question<'t>(
    alloc: Global,
    text: &'t str,
    expression: &Expr<ByteRange>,
) -> Result<Option<Condition<'t>>, AllocError> {
    let (operand, is_negated) = match expression {
        Expr::Unary(UnaryOperator::Not, inner) => (&**inner, true),
        _ => (expression, false),
    };
    let Expr::Operand(Operand::Bracket(script)) = operand else {
        return Ok(None);
    };
    let [command] = script.commands.as_slice() else {
        return Ok(None);
    };
    let words = constant_words(alloc, text, command)?;
    Ok(match (words.as_slice(), is_negated) {
        (["module-info", "mode", "load"], false) => Some(Condition::Loading),
        (["module-info", "mode", "remove"], false) => Some(Condition::Unloading),
        (["is-loaded", name], true) => Some(Condition::Unloaded(*name)),
        (["info", "exists", _], _) => Some(Condition::Exists),
        _ => None,
    })
}

/// What an expression asks.
fn condition_in<'t>(
    alloc: Global,
    text: &'t str,
    expression: &Expr<ByteRange>,
) -> Result<Option<Condition<'t>>, AllocError> {
    let Expr::Or(left, right) = expression else {
        return question(alloc, text, expression);
    };
    match (question(alloc, text, left)?, &**right) {
        (Some(Condition::Unloading), Expr::Unary(..)) => question(alloc, text, right),
        _ => Ok(None),
    }
}

/// What an expression that is a text asks.
pub(crate) fn condition_of<'t>(
    alloc: Global,
    text: &'t str,
) -> Result<Option<Condition<'t>>, AllocError> {
    match parse_expr_pieces(alloc, &text) {
        Ok(expression) => condition_in(alloc, text, &expression),
        Err(TextFault::OutOfMemory) => Err(AllocError),
        Err(_) => Ok(None),
    }
}
