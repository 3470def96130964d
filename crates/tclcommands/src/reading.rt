//! Commands that read variables: set(n) with one word, and `info exists` of info(n).
ghost use Rattle.std.specs.Prelude.{◌≡◌, string_bytes};
ghost use Rattle.tclvalue.specs.operators.Operators.{truth_text};
ghost use Rattle.tclrules.specs.Variables as rules;
ghost use Rattle.tclrules.specs.Variables.{State};
ghost use Rattle.tclrules.specs.Simulates.{point};
ghost use Rattle.tclrules.specs.Plans.{Next};
ghost use Rattle.tclrules.specs.Forms.{Get, Exists};
ghost use Rattle.tclrules.specs.Rules.{form, exists_at};
ghost use Rattle.tclcommands.specs.Continuations.{value_text, ContinuesWithResult};
ghost use Rattle.tclforms.specs.variables.Locations.{is_global};

use crate::value::Value;
use std::alloc::Global;
use tclforms::substitution::{Stop, read};
use tclforms::variables::{Location, Scalar, Scope, Variables, location_named};
use tclrules::Host;

/// set(n) with the name alone: the value of the variable.
///
/// Errors: as of `tclforms::substitution::read`.
#[tactic(none)]
pub fn get<'a, H: Host>(
    alloc: Global,
    variables: &Variables,
    host: &mut H,
    name: &'a str,
) -> Result<Value<'a>, Stop>
    ensures { ContinuesWithResult (λ b k. form b (Get name.now) variables.now k) result variables.now
        (point (H.oracle host.old) (H.trace host.old)) (point (H.oracle host.new) (H.trace host.new)) }
{
    Ok(Value::Text(read(alloc, variables, host, name)?))
}

/// A truth value as commands write it, `1` or `0`.
fn truth<'a>(holds: bool) -> Value<'a>
    ensures { (s : State) → value_text result s ≡ truth_text holds }
{
    if holds {
        Value::Word("1")
    } else {
        Value::Word("0")
    }
}

/// Whether a scalar variable is set; the array `env` always is.
fn is_set(variables: &Variables, variable: Scalar<'_>) -> bool
    ensures { (k : Next) → exists_at variables.now k (rules.Scalar (is_global variable.entry.scope) variable.entry.name.now)
        ≡ k (truth_text result) variables.now }
{
    if variable.is_env() {
        return true;
    }
    variables.get(variable).is_some()
}

/// `info exists` of info(n): `1` where the variable, or the element of `env`, is set, else `0`. Asking for an element
/// of `env` asks the host.
///
/// Errors: a halt where the name is unsupported or memory runs out.
pub fn exists<'a, H: Host>(
    alloc: Global,
    variables: &Variables,
    host: &mut H,
    name: &'a str,
) -> Result<Value<'a>, Stop>
    ensures { ContinuesWithResult (λ b k. form b (Exists name.now) variables.now k) result variables.now
        (point (H.oracle host.old) (H.trace host.old)) (point (H.oracle host.new) (H.trace host.new)) }
{
    let location = location_named(variables, alloc, name)?;
    match location {
        Location::Scalar(variable) => Ok(truth(is_set(variables, variable))),
        Location::Element(scope, index) => match scope {
            Scope::Global => {
                let value = host.read_env(index)?;
                Ok(truth(value.is_some()))
            }
            Scope::Procedure => Ok(truth(false)),
        },
    }
}
