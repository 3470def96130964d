//! Calls that change nothing, each by its name and words.

use crate::texts::push_all;
use envstate::{
    EnvFault, Vars, conflicts_of, is_nul_free, is_protected, is_variable_name, loaded, prereqs_of,
    share_name,
};
use std::alloc::{AllocError, Global};

/// Adds the texts, each with a comma after it.
fn push_series(text: &mut String, series: &[String]) -> Result<(), AllocError> {
    for part in series {
        push_all(text, &[part, ","])?;
    }
    Ok(())
}

/// Each loaded module with its path.
fn entries<V: Vars>(alloc: Global, vars: &V) -> Result<String, EnvFault> {
    let mut text = String::new(alloc);
    for entry in &loaded(alloc, vars)? {
        push_all(&mut text, &[&entry.name, "=", &entry.path, ","])?;
    }
    Ok(text)
}

/// The names in conflict with a loaded module.
fn conflicts<V: Vars>(alloc: Global, vars: &V, name: &str) -> Result<String, EnvFault> {
    let mut text = String::new(alloc);
    push_series(&mut text, &conflicts_of(alloc, vars, name)?)?;
    Ok(text)
}

/// The alternatives of each prereq of a loaded module.
fn needs<V: Vars>(alloc: Global, vars: &V, name: &str) -> Result<String, EnvFault> {
    let mut text = String::new(alloc);
    for group in &prereqs_of(alloc, vars, name)? {
        push_series(&mut text, group)?;
        text.push('&')?;
    }
    Ok(text)
}

/// The name of the variable with a variable's counters.
fn counters_name(alloc: Global, name: &str) -> Result<String, EnvFault> {
    Ok(share_name(alloc, name)?)
}

/// A text as an answer.
fn text(alloc: Global, text: &str) -> Result<String, EnvFault> {
    Ok(String::from_str(alloc, text)?)
}

/// Whether something holds, as a digit.
fn digit(holds: bool) -> &'static str {
    if holds { "1" } else { "0" }
}

/// The answer to a call by its name and its word, empty where it has none; None where there is no such call.
fn answer_named<V: Vars>(
    alloc: Global,
    vars: &V,
    query: &str,
    word: &str,
) -> Option<Result<String, EnvFault>> {
    Some(match query {
        "get" => text(alloc, vars.get(word).unwrap_or("-")),
        "loaded" => entries(alloc, vars),
        "conflicts" => conflicts(alloc, vars, word),
        "prereqs" => needs(alloc, vars, word),
        "share_name" => counters_name(alloc, word),
        "is_name" => text(alloc, digit(is_variable_name(word))),
        "is_protected" => text(alloc, digit(is_protected(word))),
        "is_plain" => text(alloc, digit(is_nul_free(word))),
        _ => return None,
    })
}

/// The answer to a call that changes nothing; None where it is another.
pub(crate) fn answer_query<V: Vars>(
    alloc: Global,
    vars: &V,
    words: &[String],
) -> Option<Result<String, EnvFault>> {
    match words {
        [query] => answer_named(alloc, vars, query, ""),
        [query, word] => answer_named(alloc, vars, query, word),
        _ => None,
    }
}
