//! Lines about what a process is given: its arguments and its environment.

use crate::shown::starved;
use crate::texts::{bytes_of, first_word};
use envstate::Env;
use process::{arguments, environment_block};
use std::alloc::{AllocError, Global};
use std::env;

/// The value of a variable of entries, of which the first of several counts.
fn value_text(alloc: Global, entries: Vec<u8>, name: &str) -> Result<String, AllocError> {
    let env = starved(Env::from_block(alloc, entries))?;
    match env.get(name) {
        Some(value) => format!(in alloc; "'{value}'"),
        None => String::from_str(alloc, "unset"),
    }
}

/// Whether this is the PATH that this process has.
fn is_own_path(rt: &HostRuntime, given: &str) -> bool {
    match env::var(rt, "PATH") {
        Ok(path) => path.as_str() == given,
        Err(_) => false,
    }
}

/// Whether this process is given the PATH that it has.
fn has_own_path(rt: &HostRuntime) -> Result<bool, AllocError> {
    let given = starved(Env::from_block(rt.alloc(), environment_block(rt)?))?;
    Ok(match given.get("PATH") {
        Some(path) => is_own_path(rt, path),
        None => false,
    })
}

/// Whether this process is given its arguments, and the PATH that it has.
fn own_text(rt: &HostRuntime) -> Result<&'static str, AllocError> {
    let is_own = has_own_path(rt)? && arguments(rt).is_ok();
    Ok(if is_own { "as it has them" } else { "others" })
}

/// The answer to `own`, `value` or `variable`.
pub(crate) fn answer(rt: &HostRuntime, line: &str) -> Result<String, AllocError> {
    let (kind, rest) = first_word(line);
    match kind {
        "own" => String::from_str(rt.alloc(), own_text(rt)?),
        "value" => value_text(rt.alloc(), environment_block(rt)?, rest),
        _ => value_text(rt.alloc(), bytes_of(rt.alloc(), b'\\', rest)?, "A"),
    }
}
