//! The command unset(n).
ghost use Rattle.std.specs.Prelude.{map, string_bytes};
ghost use Rattle.tclrules.specs.Variables.{writable, value_at};
ghost use Rattle.tclrules.specs.Plans.{given};
ghost use Rattle.tclrules.specs.Forms.{Unset};
ghost use Rattle.tclrules.specs.Rules.{form, unset, unset_at};
ghost use Rattle.tclforms.specs.Views.{is_ignored};
ghost use Rattle.tclcommands.specs.Continuations.{ContinuesWithoutHost, ContinuesWithVariables};

use crate::value::Value;
use std::alloc::Global;
use tclforms::substitution::Stop;
use tclforms::variables::{Variables, writable};
use tclforms::{WhenMissing, cannot_unset};

/// Unsets one variable. What follows where it is unset already, `missing` says.
#[tactic(none)]
fn unset_one(
    alloc: Global,
    variables: &mut Variables,
    missing: WhenMissing,
    name: &str,
) -> Result<(), Stop>
    ensures { ContinuesWithVariables (λ k. given (writable variables.old name.now) variables.old
        (λ p. unset_at (is_ignored missing) name.now variables.old p k (value_at variables.old p)))
        result variables.new }
{
    let variable = writable(variables, alloc, name)?;
    if variables.get(variable).is_some() {
        variables.unset(variable);
        return Ok(());
    }
    match missing {
        WhenMissing::Ignored => Ok(()),
        WhenMissing::IsError => Err(Stop::from(cannot_unset(alloc, name))),
    }
}

/// Unsets variables in turn, up to the first error.
#[tactic(none)]
fn unset_each(
    alloc: Global,
    variables: &mut Variables,
    missing: WhenMissing,
    names: &[String],
) -> Result<(), Stop>
    ensures { ContinuesWithVariables (unset (is_ignored missing) (map string_bytes names.now) variables.old)
        result variables.new }
{
    for name in names {
        unset_one(alloc, variables, missing, name)?;
    }
    Ok(())
}

/// unset(n): unsets these variables in turn. Where one is unset already, that is an error or nothing, as `missing`
/// says. The result is empty.
///
/// Errors: that a variable doesn't exist, which catch(n) sees, and then the variables before it stay unset; a halt
/// where a variable is unsupported or memory runs out.
#[tactic(none)]
pub fn unset<'a>(
    alloc: Global,
    variables: &mut Variables,
    missing: WhenMissing,
    names: &'a [String],
) -> Result<Value<'a>, Stop>
    ensures { ContinuesWithoutHost (λ b. form b (Unset (is_ignored missing)
        (map string_bytes names.now)) variables.old) result variables.new }
{
    unset_each(alloc, variables, missing, names)?;
    Ok(Value::Word(""))
}
