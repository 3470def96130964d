//! The command global(n), by which names in a procedure mean global variables.
ghost use Rattle.std.specs.Prelude.{map, string_bytes};
ghost use Rattle.tclrules.specs.Forms.{Global as GlobalForm};
ghost use Rattle.tclrules.specs.Rules.{form, share, share_from};
ghost use Rattle.tclcommands.specs.Continuations.{ContinuesWithoutHost, ContinuesWithVariables};

use crate::value::Value;
use std::alloc::Global;
use tclforms::substitution::Stop;
use tclforms::variables::{Variables, sharable};

/// Makes names mean global variables in the procedure that runs, in turn.
#[tactic(none)]
fn share(alloc: Global, variables: &mut Variables, names: &[String]) -> Result<(), Stop>
    ensures { ContinuesWithVariables (share (map string_bytes names.now) variables.old) result variables.new }
{
    for name in names {
        let shared = sharable(variables, alloc, name)?;
        variables.share(alloc, shared)?;
    }
    Ok(())
}

/// Makes names mean global variables where a procedure runs. Outside of procedures it has no effect.
#[tactic(none)]
fn share_in_procedure(
    alloc: Global,
    variables: &mut Variables,
    names: &[String],
) -> Result<(), Stop>
    ensures { ContinuesWithVariables (share_from variables.old.frame
        (map string_bytes names.now) variables.old) result variables.new }
{
    if variables.is_in_procedure() {
        return share(alloc, variables, names);
    }
    Ok(())
}

/// global(n): from now on these names mean the global variables in the procedure that runs, also where a local variable
/// had the name. Without effect outside of procedures. The result is empty.
///
/// Errors: a halt where a name is unsupported or memory runs out.
#[tactic(none)]
pub fn global<'a>(
    alloc: Global,
    variables: &mut Variables,
    names: &'a [String],
) -> Result<Value<'a>, Stop>
    ensures { ContinuesWithoutHost
        (λ b. form b (GlobalForm (map string_bytes names.now)) variables.old) result variables.new }
{
    share_in_procedure(alloc, variables, names)?;
    Ok(Value::Word(""))
}
