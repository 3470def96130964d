//! The variables that an evaluation begins with.
ghost use Rattle.std.specs.Prelude.{◌≡◌, IfOk, map};
ghost use Rattle.tclrules.specs.Promise.{texts_of};
ghost use Rattle.tclrules.specs.Variables.{initial_state};

use std::alloc::{AllocError, Global};
use tclforms::variables::{Scalar, Scope, Variables};

/// Variables with these global ones, each a name and its value, and without procedures, none of which may have one of
/// the names `reserved`. Of a name that is repeated the last value counts.
///
/// Errors: memory runs out.
pub fn initial_variables(
    alloc: Global,
    reserved: &'static [&'static str],
    globals: Vec<(String, String)>,
) -> Result<Variables, AllocError>
    ensures { IfOk result (λ v. v ≡ initial_state (map (λ n. n.now) reserved.now) (texts_of globals.items)) }
{
    let mut variables = Variables::new(alloc, reserved);
    for (name, value) in globals {
        let variable = Scalar {
            scope: Scope::Global,
            name: name.as_str(),
        };
        variables.set(alloc, variable, value)?;
    }
    Ok(variables)
}
