//! How variables are named, which of them are protected, and which values a variable can have.
ghost use Rattle.std.specs.Prelude.{◌≡◌, ◌++◌, IfOk, string_bytes};
ghost use Rattle.std.specs.List.{list_all};
ghost use Rattle.envvars.specs.Names.{is_name_start, is_name_byte, is_variable_name, is_protected, is_nul_free};
ghost use Rattle.envvars.specs.Names.{name_reason, share_name, stack_name};
ghost use Rattle.envvars.specs.Reasons.{Judges};

use crate::fault::EnvFault;
use std::alloc::{AllocError, Global};

/// Whether a name can begin with this byte.
fn is_name_start(b: u8) -> bool
    ensures { result ≡ is_name_start b }
{
    b.is_ascii_alphabetic() || b == b'_'
}

/// Whether a name can hold this byte.
fn is_name_byte(b: u8) -> bool
    ensures { result ≡ is_name_byte b }
{
    is_name_start(b) || b.is_ascii_digit()
}

/// Whether a name can hold each of these bytes.
fn are_name_bytes(bytes: &[u8]) -> bool
    ensures { result ≡ list_all is_name_byte bytes.now }
{
    bytes.iter().all(|b| is_name_byte(*b))
}

/// Whether the text is spelled as the name of a variable: letters, digits and underscores, and no digit
/// first (POSIX XBD, "Name").
pub fn is_variable_name(name: &str) -> bool
    ensures { result ≡ is_variable_name name.now }
{
    match name.as_bytes() {
        [] => false,
        [first, rest @ ..] => is_name_start(*first) && are_name_bytes(rest),
    }
}

/// Whether the variable of this name holds the tool's own state, so that no modulefile may edit it.
#[tactic(auto, using(std::proofs::lemmas::Str::Pattern::starts_text))]
pub fn is_protected(name: &str) -> bool
    ensures { result ≡ is_protected name.now }
{
    name == "LOADEDMODULES" || name == "_LMFILES_" || name.starts_with("__MODULES_")
}

/// Accepts the name of a variable that modulefiles may edit. The errors, in this order: `BadVariable` where it isn't
/// spelled as a variable's name, and `Protected` where the variable holds the tool's own state; `OutOfMemory` too.
pub fn judge_name(alloc: Global, name: &str) -> Result<(), EnvFault>
    ensures { Judges result (name_reason name.now) }
{
    if !is_variable_name(name) {
        return Err(EnvFault::bad_variable(alloc, name));
    }
    if is_protected(name) {
        return Err(EnvFault::Protected(String::from_str(alloc, name)?));
    }
    Ok(())
}

/// Whether a variable can have the value: one without NUL (environ(7)).
pub fn is_nul_free(value: &str) -> bool
    ensures { result ≡ is_nul_free value.now }
{
    value.as_bytes().iter().all(|b| *b != 0)
}

/// The two texts, one behind the other.
fn joined(alloc: Global, front: &str, back: &str) -> Result<String, AllocError>
    ensures { IfOk result (λ s. string_bytes s ≡ front.now ++ back.now) }
{
    let mut text = String::with_capacity(alloc, front.len().saturating_add(back.len()))?;
    text.push_str(front)?;
    text.push_str(back)?;
    Ok(text)
}

/// The name of the variable that holds the counters of a path variable: `__MODULES_SHARE_` and its name.
pub fn share_name(alloc: Global, name: &str) -> Result<String, AllocError>
    ensures { IfOk result (λ s. string_bytes s ≡ share_name name.now) }
{
    joined(alloc, "__MODULES_SHARE_", name)
}

/// The name of the variable that holds the stack of a variable: `__MODULES_PUSHENV_` and its name.
pub fn stack_name(alloc: Global, name: &str) -> Result<String, AllocError>
    ensures { IfOk result (λ s. string_bytes s ≡ stack_name name.now) }
{
    joined(alloc, "__MODULES_PUSHENV_", name)
}
