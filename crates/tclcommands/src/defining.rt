//! The command proc(n), which defines a procedure.
ghost use Rattle.tclrules.specs.Forms.{Define};
ghost use Rattle.tclrules.specs.Rules.{form};
ghost use Rattle.tclcommands.specs.Continuations.{ContinuesWithoutHost};

use crate::value::Value;
use std::alloc::Global;
use tclforms::parameters;
use tclforms::substitution::Stop;
use tclforms::variables::{Procedure, Variables};

/// proc(n): defines the procedure `name` with the parameters of the list and this body, which isn't parsed yet. The
/// result is empty.
///
/// Errors: that the name is reserved, or that the parameters aren't such a list, both of which catch(n) sees; a halt
/// where memory runs out.
#[tactic(none)]
pub fn define<'a>(
    alloc: Global,
    variables: &mut Variables,
    name: &'a str,
    list: &'a str,
    body: &'a str,
) -> Result<Value<'a>, Stop>
    ensures { ContinuesWithoutHost
        (λ b k. form b (Define name.now list.now body.now) variables.old k) result variables.new }
{
    let parameters = parameters(alloc, variables.reserved(), name, list)?;
    let body = String::from_str(alloc, body)?;
    variables.define(alloc, name, Procedure { parameters, body })?;
    Ok(Value::Word(""))
}
