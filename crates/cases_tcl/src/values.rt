//! `value` answers a call of tclvalue: `u OP OPERAND`, `b OP LEFT RIGHT`, `t WORD` for a truth value, `c LIMIT WORD...`
//! for a command, where LIMIT is how many bytes its value may have. An operator is written as a text too.
//!
//! The answer is `ok WORD`, `none`, or `err NUMBER WORD` with the text of the fault.
use crate::escapes::{shown, text_of, texts_of};
use std::alloc::Global;
use tcltext::{BinaryOperator, UnaryOperator};
use tclvalue::{ValueFault, binary, truth, unary, value_command};

/// All operators of one operand.
const UNARY: [UnaryOperator; 4] = [
    UnaryOperator::Minus,
    UnaryOperator::Plus,
    UnaryOperator::Complement,
    UnaryOperator::Not,
];

/// All operators of two operands, apart from those that may leave the second unevaluated.
const BINARY: [BinaryOperator; 20] = [
    BinaryOperator::Multiply,
    BinaryOperator::Divide,
    BinaryOperator::Remainder,
    BinaryOperator::Add,
    BinaryOperator::Subtract,
    BinaryOperator::ShiftLeft,
    BinaryOperator::ShiftRight,
    BinaryOperator::Less,
    BinaryOperator::Greater,
    BinaryOperator::LessEqual,
    BinaryOperator::GreaterEqual,
    BinaryOperator::Equal,
    BinaryOperator::NotEqual,
    BinaryOperator::TextEqual,
    BinaryOperator::TextNotEqual,
    BinaryOperator::In,
    BinaryOperator::NotIn,
    BinaryOperator::BitAnd,
    BinaryOperator::BitXor,
    BinaryOperator::BitOr,
];

/// The operator of one operand with this symbol.
fn unary_named(symbol: &str) -> Option<UnaryOperator> {
    for operator in &UNARY {
        if operator.symbol() == symbol {
            return Some(*operator);
        }
    }
    None
}

/// The operator of two operands with this symbol.
fn binary_named(symbol: &str) -> Option<BinaryOperator> {
    for operator in &BINARY {
        if operator.symbol() == symbol {
            return Some(*operator);
        }
    }
    None
}

/// A fault, as the answer of its line.
fn fault_text(alloc: Global, fault: ValueFault) -> Option<String> {
    let number = fault.number();
    let word = format!(in alloc; "err {number}").ok()?;
    let text = fault.to_string(alloc).ok()?;
    shown(alloc, &word, &text)
}

/// A value, none or a fault, as the answer of its line.
fn shown_answer(alloc: Global, answer: Result<Option<String>, ValueFault>) -> Option<String> {
    match answer {
        Ok(Some(value)) => shown(alloc, "ok", &value),
        Ok(None) => String::from_str(alloc, "none").ok(),
        Err(fault) => fault_text(alloc, fault),
    }
}

/// The truth value of a word, as 1 or 0.
fn truth_text(alloc: Global, word: &str) -> Result<Option<String>, ValueFault> {
    let text = if truth(alloc, word)? { "1" } else { "0" };
    Ok(Some(String::from_str(alloc, text)?))
}

/// The answer to `c LIMIT WORD...`.
fn command_answer(alloc: Global, rest: &str) -> Option<String> {
    let (limit, words) = rest.split_once(' ')?;
    let limit = limit.parse::<usize>().ok()?;
    let words = texts_of(alloc, words)?;
    shown_answer(alloc, value_command(alloc, &words, limit))
}

/// The answer to `u OP OPERAND`.
fn unary_answer(alloc: Global, symbol: &str, operand: &str) -> Option<String> {
    let operator = unary_named(symbol)?;
    shown_answer(alloc, unary(alloc, operator, operand).map(Some))
}

/// The answer to `b OP LEFT RIGHT`.
fn binary_answer(alloc: Global, symbol: &str, left: &str, right: &str) -> Option<String> {
    let operator = binary_named(symbol)?;
    shown_answer(alloc, binary(alloc, operator, left, right).map(Some))
}

/// The answer to `u` or `b`, by the count of the words.
fn operator_answer(alloc: Global, rest: &str) -> Option<String> {
    let words = texts_of(alloc, rest)?;
    match words.as_slice() {
        [symbol, operand] => unary_answer(alloc, symbol, operand),
        [symbol, left, right] => binary_answer(alloc, symbol, left, right),
        _ => None,
    }
}

/// The answer to a call; None where the line asks nothing, or memory ran out.
pub(crate) fn answer(alloc: Global, rest: &str) -> Option<String> {
    let (kind, rest) = rest.split_once(' ')?;
    match kind {
        "c" => command_answer(alloc, rest),
        "t" => shown_answer(alloc, truth_text(alloc, &text_of(alloc, rest)?)),
        "u" | "b" => operator_answer(alloc, rest),
        _ => None,
    }
}
