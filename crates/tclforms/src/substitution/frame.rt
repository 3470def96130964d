//! The state of a substitution between two steps: what is evaluated next, and continuation frames, each of which waits
//! for the value of an inner part.

use tcltext::expr::{BinaryOperator, Expr, UnaryOperator};
use tcltext::script::{ByteRange, Part, Script};

/// A continuation frame: what is done with the next value once it is there.
#[derive(Drop)]
pub enum WaitingFrame<'a> {
    /// The value is the index of an element of the array of this name, which is read.
    Element(&'a str),
    /// The value is appended to this text of a word, and these parts of the word follow.
    Joined(String, &'a [Part<ByteRange>]),
    /// The value is an operand, which is judged by the limit on values.
    Operand,
    /// The value is the operand of this operator.
    Unary(UnaryOperator),
    /// The value is the left operand; the right one is evaluated next.
    Left(BinaryOperator, &'a Expr<ByteRange>),
    /// The value is the right operand; the left one has this value.
    Right(BinaryOperator, String),
    /// The value is the left operand of `&&`; the right one is evaluated where it is true.
    And(&'a Expr<ByteRange>),
    /// The value is the left operand of `||`; the right one is evaluated where it is false.
    Or(&'a Expr<ByteRange>),
    /// The value is the right operand of `&&` or `||`, and its truth is the result.
    Truth,
    /// The value is the condition of `? :`, before the operands for true and for false.
    Choice(&'a Expr<ByteRange>, &'a Expr<ByteRange>),
}

/// What the next step evaluates.
#[derive(Drop)]
pub enum Control<'a> {
    /// These parts of a word, whose values are appended to this text.
    Parts(String, &'a [Part<ByteRange>]),
    /// This expression.
    Expression(&'a Expr<ByteRange>),
    /// Nothing: this is the value for which the newest frame waits.
    Value(String),
}

/// What a step answers.
#[derive(Drop)]
pub enum Step<'a> {
    /// There are more steps.
    Next(Control<'a>),
    /// No frame waits: this is the value of the whole word or expression.
    Done(String),
    /// The caller evaluates the script of this bracket; its result is the value for the newest frame.
    Bracket(&'a Script<ByteRange>),
}
