//! The values of a module on stacks.
ghost use Rattle.std.specs.Prelude.{◌≡◌, false, None, bytes_eq, map, string_bytes, IfOk, OnOk};
ghost use Rattle.std.specs.Option.{option_map};
ghost use Rattle.envvars.specs.Environment.{lookup};
ghost use Rattle.envvars.specs.Names.{stack_name};
ghost use Rattle.envvars.specs.Texts.{Text, has, slice_texts, texts_in};
ghost use Rattle.module_restore.specs.forgetting.Forgets.{without_value};
ghost use Rattle.module_restore.specs.forgetting.Views.{ArePopped, ArePoppedFrom, stacked_in};

use envstate::pop_value;
use envvars::{Env, EnvFault};
use std::alloc::{AllocError, Global};

/// The variable whose stack a variable of this name holds, where it is one of a stack.
fn stacked_in(name: &str) -> Option<&str>
    ensures { option_map (λ v. v.now) result ≡ stacked_in name.entry.now }
{
    name.strip_prefix("__MODULES_PUSHENV_")
}

/// Adds the variable whose stack a variable of this name holds, where it is one of a stack.
fn push_stacked(alloc: Global, variables: &mut Vec<String>, name: &str) -> Result<(), AllocError>
    ensures { OnOk result ((v : Text) → has v (texts_in variables.new) ≡ false
        → (has v (texts_in variables.old) ≡ false) × (bytes_eq (stack_name v) name.now ≡ false)) }
{
    if let Some(variable) = stacked_in(name) {
        variables.push(String::from_str(alloc, variable)?)?;
    }
    Ok(())
}

/// The variables whose stacks are among variables of these names.
fn stacked_among(alloc: Global, names: &[&str]) -> Result<Vec<String>, AllocError>
    ensures { IfOk result (λ variables. (v : Text) → has v (texts_in variables) ≡ false
        → has (stack_name v) (slice_texts names.now) ≡ false) }
{
    let mut variables = Vec::new(alloc);
    for name in names {
        push_stacked(alloc, &mut variables, *name)?;
    }
    Ok(variables)
}

/// All variables whose stacks are set, and perhaps others.
fn stacked_variables(alloc: Global, env: &Env) -> Result<Vec<String>, AllocError>
    ensures { IfOk result (λ variables. (v : Text) → has v (texts_in variables) ≡ false
        → lookup env.now (stack_name v) ≡ None) }
{
    let mut names = Vec::new(alloc);
    env.push_names(&mut names)?;
    stacked_among(alloc, names.as_slice())
}

/// Pops the value of a module from the stack of a variable, where it has one there. A stack that can't be read has none.
fn pop_if_pushed(
    alloc: Global,
    env: &mut Env,
    variable: &str,
    owner: &str,
) -> Result<(), AllocError>
    ensures { OnOk result (env.new ≡ without_value env.old variable.now owner.now) }
{
    match pop_value(alloc, env, variable, owner) {
        Err(EnvFault::OutOfMemory) => Err(AllocError),
        Ok(()) | Err(_) => Ok(()),
    }
}

/// Pops the values of a module from the stacks of these variables.
fn pop_from(
    alloc: Global,
    env: &mut Env,
    variables: &[String],
    owner: &str,
) -> Result<(), AllocError>
    ensures { OnOk result (ArePoppedFrom owner.now (map string_bytes variables.now) env.old env.new) }
{
    for variable in variables {
        pop_if_pushed(alloc, env, variable.as_str(), owner)?;
    }
    Ok(())
}

/// Pops the values of a module from all stacks.
pub(crate) fn pop_all(alloc: Global, env: &mut Env, owner: &str) -> Result<(), AllocError>
    ensures { OnOk result (ArePopped owner.now env.old env.new) }
{
    let variables = stacked_variables(alloc, env)?;
    pop_from(alloc, env, variables.as_slice(), owner)
}
