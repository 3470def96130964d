//! The values that a call gives the parameters of a procedure (proc(n)).
ghost use Rattle.std.specs.Prelude.{◌≡◌, OnOk, map, string_bytes};
ghost use Rattle.message.specs.Answers.{Gives};
ghost use Rattle.tclvalue.specs.operators.Faults.{reason_of};
ghost use Rattle.tclrules.specs.Rules.{argument, parameter_value, parameter_values};
ghost use Rattle.tclforms.specs.variables.Views.{parameter_view};
ghost use Rattle.tclforms.specs.ArgumentViews.{named_values, parameter_value_view};
ghost use Rattle.tclforms.specs.Firsts.{AreNamesOf, with_first};

use crate::variables::Parameter;
use indexmap::IndexSet;
use std::alloc::{AllocError, Global};
use tclvalue::list_text;
use tclvalue::operators::{ValueFault, wrong_words};

/// The value of a parameter, and the words that remain for the others.
#[derive(Drop)]
struct ParameterValue<'w> {
    value: String,
    rest: &'w [String],
}

/// The value of a parameter that takes one word, or its default where no word remains.
fn argument<'w>(
    alloc: Global,
    name: &str,
    parameter: &Parameter,
    words: &'w [String],
) -> Result<ParameterValue<'w>, ValueFault>
    ensures { Gives reason_of parameter_value_view result
        (argument name.now (parameter_view parameter.now) (map string_bytes words.entry.now)) }
{
    match words {
        [word, rest @ ..] => Ok(ParameterValue {
            value: word.clone()?,
            rest,
        }),
        [] => match &parameter.default {
            Some(default) => Ok(ParameterValue {
                value: default.clone()?,
                rest: words,
            }),
            None => Err(wrong_words(alloc, name)),
        },
    }
}

/// The value of a parameter with these after it; `args`, where it is the last, takes all words that remain as a list.
fn parameter_value<'w>(
    alloc: Global,
    name: &str,
    parameter: &Parameter,
    following: &[Parameter],
    words: &'w [String],
) -> Result<ParameterValue<'w>, ValueFault>
    ensures { Gives reason_of parameter_value_view result
        (parameter_value name.now (parameter_view parameter.now) (map parameter_view following.now)
        (map string_bytes words.entry.now)) }
{
    if parameter.name.as_str() == "args" && following.is_empty() {
        return Ok(ParameterValue {
            value: list_text(alloc, words)?,
            rest: &[],
        });
    }
    argument(alloc, name, parameter, words)
}

/// Adds the value of a name, unless the name has one already.
fn push_first<'a>(
    names: &mut IndexSet<&'a str>,
    values: &mut Vec<(&'a str, String)>,
    name: &'a str,
    value: String,
) -> Result<(), AllocError>
    requires { AreNamesOf names.old.keys values.old.items }
    ensures names { OnOk result (AreNamesOf names.new.keys values.new.items) }
    ensures values { OnOk result (named_values values.new.items
        ≡ with_first (named_values values.old.items) name.entry.now (string_bytes value)) }
{
    if names.insert(name)? {
        values.push((name, value))?;
    }
    Ok(())
}

/// The parameters of the procedure of this name, each with its value for these words. Of a name that comes again the
/// first value counts.
///
/// Errors: `TclError` (13) where the words are too few or too many; `OutOfMemory` (11).
pub fn parameter_values<'a>(
    alloc: Global,
    name: &str,
    parameters: &'a [Parameter],
    words: &[String],
) -> Result<Vec<(&'a str, String)>, ValueFault>
    ensures { Gives reason_of (λ vs. named_values vs.items) result
        (parameter_values name.now (map parameter_view parameters.entry.now) (map string_bytes words.now)) }
{
    let mut names = IndexSet::new(alloc);
    let mut values = Vec::new(alloc);
    let mut rest = words;
    let mut parameters = parameters;
    while let [parameter, following @ ..] = parameters {
        let bound = parameter_value(alloc, name, parameter, following, rest)?;
        push_first(
            &mut names,
            &mut values,
            parameter.name.as_str(),
            bound.value,
        )?;
        rest = bound.rest;
        parameters = following;
    }
    if rest.is_empty() {
        Ok(values)
    } else {
        Err(wrong_words(alloc, name))
    }
}
