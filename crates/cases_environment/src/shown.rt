//! Environments and changes, as they are printed, and changes as they are written in lines.

use crate::texts::push_all;
use envstate::{Change, Env, EnvFault, Vars};
use std::alloc::{AllocError, Global};

/// The value, or want of memory, where that is the one fault that can come.
pub(crate) fn starved<T: Drop>(outcome: Result<T, EnvFault>) -> Result<T, AllocError> {
    match outcome {
        Ok(value) => Ok(value),
        Err(_) => Err(AllocError),
    }
}

/// Adds a variable, after a blank where it isn't the first.
fn push_value(text: &mut String, name: &str, mark: &str, value: &str) -> Result<(), AllocError> {
    let blank = if text.is_empty() { "" } else { " " };
    push_all(text, &[blank, name, mark, value])
}

/// The variables of these names, as `A=1 B=`.
fn shown_named(alloc: Global, env: &Env, names: &[String]) -> Result<String, AllocError> {
    let mut text = String::new(alloc);
    for name in names {
        push_value(&mut text, name, "=", env.get(name).unwrap_or(""))?;
    }
    Ok(text)
}

/// The variables in the order of their names, as `A=1 B=`.
pub(crate) fn shown(alloc: Global, env: &Env) -> Result<String, EnvFault> {
    Ok(shown_named(alloc, env, &env.names()?)?)
}

/// Adds a change: `A=1`, or `B-` where B is unset.
fn push_change(text: &mut String, change: &Change) -> Result<(), AllocError> {
    let (mark, value) = match &change.value {
        Some(value) => ("=", value.as_str()),
        None => ("-", ""),
    };
    push_value(text, &change.name, mark, value)
}

/// The changes as `A=1 B-`, where B is unset.
pub(crate) fn listed(alloc: Global, changes: &[Change]) -> Result<String, AllocError> {
    let mut text = String::new(alloc);
    for change in changes {
        push_change(&mut text, change)?;
    }
    Ok(text)
}

/// The change of a variable to this value, or to none.
fn change_to(alloc: Global, name: &str, value: Option<String>) -> Result<Change, AllocError> {
    let name = String::from_str(alloc, name)?;
    Ok(Change { name, value })
}

/// The change that a word asks for: `A=1`, or `A` or `A-` where it unsets the variable.
fn change_of(alloc: Global, word: &str) -> Result<Change, AllocError> {
    match word.split_once('=') {
        Some((name, value)) => change_to(alloc, name, Some(String::from_str(alloc, value)?)),
        None => change_to(alloc, word.trim_end_matches('-'), None),
    }
}

/// The changes that words ask for.
pub(crate) fn changes_of(alloc: Global, words: &[String]) -> Result<Vec<Change>, AllocError> {
    let mut changes = Vec::new(alloc);
    for word in words {
        changes.push(change_of(alloc, word)?)?;
    }
    Ok(changes)
}
