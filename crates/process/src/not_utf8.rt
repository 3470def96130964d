//! The environment of a process, and its variables whose values aren't UTF-8, which the environment doesn't have.
ghost use Rattle.std.specs.Prelude.{◌≡◌, ◌≤◌, ◌++◌, [], ◌∷◌, length, IfOk, IfErr, OnOk};
ghost use Rattle.std.specs.List.{position_or_len};
ghost use Rattle.std.specs.Option.{option_map};
ghost use Rattle.envvars.specs.EnvironmentBlock.{entries_of, environment_of, is_equals};
ghost use Rattle.envvars.specs.Texts.{slice_texts, texts_in};
ghost use Rattle.envvars.specs.declared.fault.EnvFault.TheVariants.{OutOfMemory};
ghost use Rattle.process.specs.NotUtf8 as spec;

use envvars::{Env, EnvFault, is_variable_name};
use std::alloc::{AllocError, Global};
use std::str;

/// The environment of a process.
#[derive(Drop)]
pub struct GivenEnvironment {
    /// Its variables whose values are UTF-8.
    pub env: Env,
    /// The names of its variables whose values aren't, in their order: `env` doesn't have them.
    pub not_utf8: Vec<String>,
}

/// The entries of a block, each ended by NUL.
fn entries(alloc: Global, block: &[u8]) -> Result<Vec<&[u8]>, AllocError>
    ensures { IfOk result (λ entries. slice_texts entries.items ≡ entries_of block.now) }
{
    block.split(|byte| *byte == 0).collect(alloc)
}

/// How many bytes stand before the first `=` of an entry; all of them, where it has none.
fn name_length(entry: &[u8]) -> usize
    ensures value { result ≡ position_or_len is_equals entry.now }
    ensures bound { result ≤ length entry.now }
{
    entry
        .iter()
        .position(|byte| *byte == b'=')
        .unwrap_or(entry.len())
}

/// The bytes as the name of a variable; none where they are no such name.
fn as_name(bytes: &[u8]) -> Option<&str>
    ensures { option_map (λ name. name.now) result ≡ spec.as_name bytes.now }
{
    let Ok(name) = str::from_utf8(bytes) else {
        return None;
    };
    if is_variable_name(name) {
        Some(name)
    } else {
        None
    }
}

/// The variable that an entry is of; none where it has no `=`, or no name before it.
fn variable_in(entry: &[u8]) -> Option<&str>
    ensures { option_map (λ name. name.now) result ≡ spec.variable_in entry.now }
{
    let length = name_length(entry);
    if length < entry.len() {
        as_name(&entry[..length])
    } else {
        None
    }
}

/// Adds the variable that an entry is of, where an environment doesn't have it.
fn push_if_unset(
    alloc: Global,
    names: &mut Vec<String>,
    env: &Env,
    entry: &[u8],
) -> Result<(), AllocError>
    ensures { OnOk result (texts_in names.new
        ≡ texts_in names.old ++ spec.if_unset env.now (spec.variable_in entry.now)) }
{
    if let Some(name) = variable_in(entry) {
        if env.get(name).is_none() {
            names.push(String::from_str(alloc, name)?)?;
        }
    }
    Ok(())
}

/// The variables of entries that an environment doesn't have, in the order of the entries.
fn unset_in(alloc: Global, env: &Env, entries: &[&[u8]]) -> Result<Vec<String>, AllocError>
    ensures { IfOk result (λ names. texts_in names ≡ spec.unset_in env.now (slice_texts entries.now)) }
{
    let mut names = Vec::new(alloc);
    for entry in entries {
        push_if_unset(alloc, &mut names, env, *entry)?;
    }
    Ok(names)
}

/// The environment of a block of entries `NAME=VALUE`, each ended by NUL (environ(7)), as `Env::from_block` reads it,
/// and the names of the variables whose values aren't UTF-8. The only error is `OutOfMemory`.
pub fn given_environment(alloc: Global, block: Vec<u8>) -> Result<GivenEnvironment, EnvFault>
    ensures env { IfOk result (λ given. given.env ≡ environment_of block.items) }
    ensures not_utf8 { IfOk result (λ given. texts_in given.not_utf8 ≡ spec.not_utf8_in block.items) }
    ensures only { IfErr result (λ e. e ≡ OutOfMemory) }
{
    let env = Env::from_block(alloc, block.clone()?)?;
    let entries = entries(alloc, block.as_slice())?;
    let not_utf8 = unset_in(alloc, &env, entries.as_slice())?;
    Ok(GivenEnvironment { env, not_utf8 })
}
