//! Variables that aren't UTF-8: those that an environment has after all.
ghost use Rattle.std.specs.Prelude.{◌≡◌, ◌++◌, map, IfOk, OnOk, string_bytes};
ghost use Rattle.envvars.specs.Texts.{texts_in};
ghost use Rattle.audit_dry_runs.specs.DryRuns as spec;

use envvars::Env;
use std::alloc::{AllocError, Global};

/// Adds a copy of the name of a variable that is set.
fn push_if_set(
    alloc: Global,
    names: &mut Vec<String>,
    env: &Env,
    name: &str,
) -> Result<(), AllocError>
    ensures { OnOk result (texts_in names.new ≡ texts_in names.old ++ spec.if_set env.now name.now) }
{
    if env.get(name).is_some() {
        names.push(String::from_str(alloc, name)?)?;
    }
    Ok(())
}

/// Adds a copy of the name of a variable that is unset.
fn push_if_unset(
    alloc: Global,
    names: &mut Vec<String>,
    env: &Env,
    name: &str,
) -> Result<(), AllocError>
    ensures { OnOk result (texts_in names.new ≡ texts_in names.old ++ spec.if_unset env.now name.now) }
{
    if env.get(name).is_none() {
        names.push(String::from_str(alloc, name)?)?;
    }
    Ok(())
}

/// Those of the variables that are set.
pub(crate) fn set_among(
    alloc: Global,
    env: &Env,
    names: &[String],
) -> Result<Vec<String>, AllocError>
    ensures { IfOk result (λ set. texts_in set ≡ spec.set_among env.now (map string_bytes names.now)) }
{
    let mut set = Vec::new(alloc);
    for name in names {
        push_if_set(alloc, &mut set, env, name.as_str())?;
    }
    Ok(set)
}

/// Those of the variables that are unset.
pub(crate) fn unset_among(
    alloc: Global,
    env: &Env,
    names: &[String],
) -> Result<Vec<String>, AllocError>
    ensures { IfOk result (λ unset. texts_in unset ≡ spec.unset_among env.now (map string_bytes names.now)) }
{
    let mut unset = Vec::new(alloc);
    for name in names {
        push_if_unset(alloc, &mut unset, env, name.as_str())?;
    }
    Ok(unset)
}
