//! White space, and the operators and parentheses of an expression, read (expr(n), OPERATORS).
ghost use Rattle.std.specs.Prelude.{◌≡◌, ◌<◌, option_map, length, drop, slice_index};
ghost use Rattle.tcltext.specs.expr.Grammar.{operator_level, level, sign_of};
ghost use Rattle.tcltext.specs.expr.Marks.{after_white, two_bytes, one_byte, word_mark, symbol_at, mark_at, begins_white};

use crate::chars::{Class, begins_class, split_run};
use crate::expr::operators::{BinaryOperator, Infix, Mark, UnaryOperator};

/// The text without its first byte, which is ASCII.
pub(crate) fn after_first(text: &str) -> &str
    requires some { 0 < length text.now }
    requires ascii { slice_index text.now 0 < 128 }
    ensures { result.now ≡ drop 1 text.now }
{
    text.split_at(1).1
}

/// Whether the text begins with white space, or with a backslash before a newline.
fn begins_white(text: &str) -> bool
    ensures { result ≡ begins_white text.now }
{
    match text.as_bytes() {
        [b'\\', b'\n', ..] => true,
        _ => begins_class(text, Class::Space),
    }
}

/// The text without the white space that it begins with.
pub(crate) fn skip_white(text: &str) -> &str
    ensures { result.now ≡ after_white text.now }
{
    let mut rest = text;
    while begins_white(rest) {
        rest = after_first(rest);
    }
    rest
}

/// The operator of these two bytes.
fn two_bytes(b: u8, c: u8) -> Option<Mark>
    ensures { result ≡ two_bytes b c }
{
    match (b, c) {
        (b'<', b'<') => Some(Mark::Infix(Infix::Operator(BinaryOperator::ShiftLeft))),
        (b'>', b'>') => Some(Mark::Infix(Infix::Operator(BinaryOperator::ShiftRight))),
        (b'<', b'=') => Some(Mark::Infix(Infix::Operator(BinaryOperator::LessEqual))),
        (b'>', b'=') => Some(Mark::Infix(Infix::Operator(BinaryOperator::GreaterEqual))),
        (b'=', b'=') => Some(Mark::Infix(Infix::Operator(BinaryOperator::Equal))),
        (b'!', b'=') => Some(Mark::Infix(Infix::Operator(BinaryOperator::NotEqual))),
        (b'&', b'&') => Some(Mark::Infix(Infix::And)),
        (b'|', b'|') => Some(Mark::Infix(Infix::Or)),
        _ => None,
    }
}

fn one_byte(b: u8) -> Option<Mark>
    ensures { result ≡ one_byte b }
{
    match b {
        b'(' => Some(Mark::Open),
        b')' => Some(Mark::Close),
        b'?' => Some(Mark::QuestionMark),
        b':' => Some(Mark::Colon),
        b'~' => Some(Mark::Complement),
        b'!' => Some(Mark::Not),
        b'*' => Some(Mark::Infix(Infix::Operator(BinaryOperator::Multiply))),
        b'/' => Some(Mark::Infix(Infix::Operator(BinaryOperator::Divide))),
        b'%' => Some(Mark::Infix(Infix::Operator(BinaryOperator::Remainder))),
        b'+' => Some(Mark::Infix(Infix::Operator(BinaryOperator::Add))),
        b'-' => Some(Mark::Infix(Infix::Operator(BinaryOperator::Subtract))),
        b'<' => Some(Mark::Infix(Infix::Operator(BinaryOperator::Less))),
        b'>' => Some(Mark::Infix(Infix::Operator(BinaryOperator::Greater))),
        b'&' => Some(Mark::Infix(Infix::Operator(BinaryOperator::BitAnd))),
        b'^' => Some(Mark::Infix(Infix::Operator(BinaryOperator::BitXor))),
        b'|' => Some(Mark::Infix(Infix::Operator(BinaryOperator::BitOr))),
        _ => None,
    }
}

/// The operator that is this word: `eq`, `ne`, `in` or `ni`.
fn word_mark(word: &str) -> Option<Mark>
    ensures { result ≡ word_mark word.now }
{
    match word.as_bytes() {
        [b'e', b'q'] => Some(Mark::Infix(Infix::Operator(BinaryOperator::TextEqual))),
        [b'n', b'e'] => Some(Mark::Infix(Infix::Operator(BinaryOperator::TextNotEqual))),
        [b'i', b'n'] => Some(Mark::Infix(Infix::Operator(BinaryOperator::In))),
        [b'n', b'i'] => Some(Mark::Infix(Infix::Operator(BinaryOperator::NotIn))),
        _ => None,
    }
}

/// The longest mark of two bytes or one that the text begins with, and the rest; `**` is none.
fn read_symbol(text: &str) -> Option<(Mark, &str)>
    ensures { option_map (λ p. (p.0, p.1.now)) result ≡ symbol_at text.now }
{
    match text.as_bytes() {
        [] => None,
        [b] => Some((one_byte(*b)?, after_first(text))),
        [b'*', b'*', ..] => None,
        [b, c, ..] => match two_bytes(*b, *c) {
            Some(mark) => Some((mark, after_first(after_first(text)))),
            None => Some((one_byte(*b)?, after_first(text))),
        },
    }
}

/// The mark that the text begins with, and the rest.
pub(crate) fn read_mark(text: &str) -> Option<(Mark, &str)>
    ensures { option_map (λ p. (p.0, p.1.now)) result ≡ mark_at text.now }
{
    let (word, rest) = split_run(text, Class::Name);
    match word_mark(word) {
        Some(mark) => Some((mark, rest)),
        None => read_symbol(text),
    }
}

/// The level of precedence of an operator that evaluates both operands, from 2 to 11.
fn operator_level(operator: BinaryOperator) -> usize
    ensures { result ≡ operator_level operator }
{
    match operator {
        BinaryOperator::Multiply | BinaryOperator::Divide | BinaryOperator::Remainder => 2,
        BinaryOperator::Add | BinaryOperator::Subtract => 3,
        BinaryOperator::ShiftLeft | BinaryOperator::ShiftRight => 4,
        BinaryOperator::Less
        | BinaryOperator::Greater
        | BinaryOperator::LessEqual
        | BinaryOperator::GreaterEqual => 5,
        BinaryOperator::Equal | BinaryOperator::NotEqual => 6,
        BinaryOperator::TextEqual | BinaryOperator::TextNotEqual => 7,
        BinaryOperator::In | BinaryOperator::NotIn => 8,
        BinaryOperator::BitAnd => 9,
        BinaryOperator::BitXor => 10,
        BinaryOperator::BitOr => 11,
    }
}

/// The level of precedence, from 2, which binds most tightly, to 13.
pub(crate) fn level(between: Infix) -> usize
    ensures { result ≡ level between }
{
    match between {
        Infix::Operator(operator) => operator_level(operator),
        Infix::And => 12,
        Infix::Or => 13,
    }
}

/// The unary operator that a mark is where an operand could begin.
pub(crate) fn sign_of(mark: Mark) -> Option<UnaryOperator>
    ensures { result ≡ sign_of mark }
{
    match mark {
        Mark::Complement => Some(UnaryOperator::Complement),
        Mark::Not => Some(UnaryOperator::Not),
        Mark::Infix(Infix::Operator(BinaryOperator::Add)) => Some(UnaryOperator::Plus),
        Mark::Infix(Infix::Operator(BinaryOperator::Subtract)) => Some(UnaryOperator::Minus),
        _ => None,
    }
}
