//! The parameters of procedures, as proc(n) is given them.
ghost use Rattle.std.specs.Prelude.{◌≡◌, map, string_bytes};
ghost use Rattle.message.specs.Answers.{Gives};
ghost use Rattle.tclvalue.specs.operators.Faults.{reason_of};
ghost use Rattle.tclrules.specs.Rules.{parameter, parameters};
ghost use Rattle.tclforms.specs.variables.Views.{parameter_view};
ghost use Rattle.tclforms.specs.Lists.{defined};

use crate::messages::cannot_redefine;
use crate::names::is_reserved;
use crate::variables::Parameter;
use std::alloc::Global;
use tclvalue::operators::{ValueFault, elements, not_a_list};

/// The parameter of these words: a name, and perhaps its default.
fn parameter(alloc: Global, words: &[String]) -> Result<Parameter, ValueFault>
    ensures { Gives reason_of parameter_view result (parameter (map string_bytes words.now)) }
{
    match words {
        [name] => Ok(Parameter {
            name: name.clone()?,
            default: None,
        }),
        [name, default] => Ok(Parameter {
            name: name.clone()?,
            default: Some(default.clone()?),
        }),
        _ => Err(not_a_list(alloc)),
    }
}

fn parameters_of(alloc: Global, lists: &[String]) -> Result<Vec<Parameter>, ValueFault>
    ensures { Gives reason_of (λ ps. map parameter_view ps.items) result (parameters (map string_bytes lists.now)) }
{
    let mut parameters = Vec::new(alloc);
    for list in lists {
        let words = elements(alloc, list)?;
        parameters.push(parameter(alloc, &words)?)?;
    }
    Ok(parameters)
}

/// The parameters of a procedure of this name, in the text that proc(n) has for them. `reserved` are the names that the
/// host reserves.
///
/// Errors: `TclError` (13) where the name is reserved or one of Tcl's commands, where the text or one of its elements is
/// no list, and where an element has no name or more than a name and a default; `Text` (12) where a list is too long;
/// `OutOfMemory` (11). The name is judged first, and then the parameters from left to right.
pub fn parameters(
    alloc: Global,
    reserved: &[&str],
    name: &str,
    lists: &str,
) -> Result<Vec<Parameter>, ValueFault>
    ensures { Gives reason_of (λ ps. map parameter_view ps.items) result
        (defined (map (λ n. n.now) reserved.now) name.now lists.now) }
{
    if is_reserved(reserved, name) {
        return Err(cannot_redefine(alloc, name));
    }
    let lists = elements(alloc, lists)?;
    parameters_of(alloc, &lists)
}
