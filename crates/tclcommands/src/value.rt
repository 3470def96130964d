//! The result of a command before it is copied into a text of its own.
ghost use Rattle.std.specs.Prelude.{◌≡◌, length, nat_le, IfOk, string_bytes};
ghost use Rattle.tclrules.specs.Rules.{value_or};
ghost use Rattle.tclcommands.specs.Continuations.{value_text};
ghost use Rattle.tclforms.specs.variables.Locations.{scalar_view};

use std::alloc::{AllocError, Global};
use tclforms::variables::{Scalar, Variables, is_number_within};

/// The result of a command. Most results are dropped by the script, so a copy is made only where one is needed.
#[derive(Drop)]
pub enum Value<'a> {
    /// A text of its own.
    Text(String),
    /// A word of the command.
    Word(&'a str),
    /// A whole number in decimal.
    Number(i64),
    /// The value of this variable.
    Variable(Scalar<'a>),
}

impl Value<'_> {
    /// The text of the result, where these are the variables after the command.
    ///
    /// Errors: memory runs out for the copy.
    pub fn into_text(self, alloc: Global, variables: &Variables) -> Result<String, AllocError>
        ensures { IfOk result (λ t. string_bytes t ≡ value_text self.entry variables.now) }
    {
        match self {
            Value::Text(text) => Ok(text),
            Value::Word(word) => String::from_str(alloc, word),
            Value::Number(number) => number.to_string(alloc),
            Value::Variable(variable) => {
                String::from_str(alloc, value_or(variables, variable, ""))
            }
        }
    }

    /// Whether the text has so many bytes at most.
    pub fn is_within(&self, variables: &Variables, limit: usize) -> bool
        ensures { result ≡ nat_le (length (value_text self.now variables.now)) limit }
    {
        match self {
            Value::Text(text) => text.len() <= limit,
            Value::Word(word) => word.len() <= limit,
            Value::Number(number) => is_number_within(*number, limit),
            Value::Variable(variable) => value_or(variables, *variable, "").len() <= limit,
        }
    }
}

/// The value of a variable, or this one where it has none.
pub(crate) fn value_or<'a>(
    variables: &'a Variables,
    variable: Scalar<'_>,
    default: &'a str,
) -> &'a str
    ensures { result.now ≡ value_or default.entry.now variables.entry.now (scalar_view variable.entry) }
{
    variables.get(variable).unwrap_or(default)
}
