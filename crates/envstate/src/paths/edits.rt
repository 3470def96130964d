//! Edits of path variables (modulefile(5): prepend-path, append-path, remove-path).
ghost use Rattle.std.specs.Prelude.{◌≡◌, ◌<◌, IfOk, IfErr, OnOk, OnErr, true, is_some, string_bytes};
ghost use Rattle.std.specs.List.{list_all};
ghost use Rattle.std.specs.Option.{option_map};
ghost use Rattle.envvars.specs.Texts.{slice_texts};
ghost use Rattle.envvars.specs.Environment.{lookup, with_value};
ghost use Rattle.envvars.specs.Reasons.{Judges, Edits};
ghost use Rattle.envvars.specs.Names.{share_name};
ghost use Rattle.envvars.specs.declared.fault.EnvFault.TheVariants.{OutOfMemory};
ghost use Rattle.envstate.specs.paths.Paths.{add_all, drop_all};
ghost use Rattle.envstate.specs.paths.PathTexts.{is_delimiter, state_of};
ghost use Rattle.envstate.specs.paths.PathVariables.{is_element, path_reason, added_path, dropped_path};
ghost use Rattle.envstate.specs.paths.PathEdits.{AreTexts, IsWrittenOrFull};

use crate::paths::adding::{End, add_each};
use crate::paths::dropping::drop_from_path;
use crate::paths::one_element::{with_one_less, with_one_more};
use crate::paths::path::PathTexts;
use crate::paths::texts::read_path;
use crate::paths::writing::write_path;
use envvars::{EnvFault, Vars, judge_name, push_change, share_name};
use std::alloc::{AllocError, Global};

/// Whether the character can separate elements: a printable character of ASCII, from the space to the tilde.
fn is_delimiter(delim: char) -> bool
    ensures { result ≡ is_delimiter delim }
{
    ' ' <= delim && delim <= '~'
}

/// Whether a path variable with this delimiter can hold the element: one without the delimiter and without NUL.
pub fn is_element(delim: char, text: &str) -> bool
    requires { delim < 128 }
    ensures { result ≡ is_element delim text.now }
{
    let delim = delim as u8;
    text.as_bytes().iter().all(|b| !(*b == delim || *b == 0))
}

/// Whether a path variable with this delimiter can hold each of these elements.
fn are_elements(delim: char, texts: &[&str]) -> bool
    requires { delim < 128 }
    ensures { result ≡ list_all (is_element delim) (slice_texts texts.now) }
{
    texts.iter().all(|text| is_element(delim, text))
}

/// Accepts an edit by its words alone. The errors are those of the variable's name, then `BadValue` for the delimiter
/// or an element.
fn judge_path(alloc: Global, var: &str, delim: char, elements: &[&str]) -> Result<(), EnvFault>
    ensures judged { Judges result (path_reason var.now delim (slice_texts elements.now)) }
    ensures delimiter { OnOk result (delim < 128) }
    ensures elements { OnOk result (list_all (is_element delim) (slice_texts elements.now) ≡ true) }
{
    judge_name(alloc, var)?;
    if !is_delimiter(delim) || !are_elements(delim, elements) {
        return Err(EnvFault::bad_value(alloc, var));
    }
    Ok(())
}

/// The texts of a path variable after elements are added.
fn added(
    alloc: Global,
    var: &str,
    delim: char,
    text: Option<&str>,
    counts: Option<&str>,
    more: &[&str],
    end: End,
) -> Result<PathTexts, EnvFault>
    requires delimiter { delim < 128 }
    requires elements { list_all (is_element delim) (slice_texts more.now) ≡ true }
    ensures { IsWrittenOrFull result var.now delim (add_all (state_of delim (option_map (λ t. t.now) text.entry)
        (option_map (λ t. t.now) counts.entry)) (slice_texts more.now) end) }
{
    if let Some(texts) = with_one_more(alloc, delim, text, counts, more, end)? {
        return Ok(texts);
    }
    let mut path = read_path(alloc, delim, text, counts)?;
    add_each(alloc, var, &mut path, more, end)?;
    Ok(write_path(alloc, delim, &mut path)?)
}

/// Adds elements to a path variable whose elements are separated by `delim`: before its elements from the last to the
/// first, or after them from the first to the last.
///
/// An element that is there already stays where it is, and its counter rises by one.
///
/// The errors, in this order: `BadVariable` where `var` isn't spelled as a variable's name; `Protected` where the
/// variable holds the tool's own state; `BadValue` where the delimiter isn't a character from the space to the tilde,
/// or an element holds the delimiter or NUL; `CounterFull` where a counter would pass 4294967295. `OutOfMemory` can
/// come at any point. After each of these the environment is unchanged.
pub fn add_path<V: Vars>(
    alloc: Global,
    env: &mut V,
    var: &str,
    delim: char,
    elements: &[&str],
    end: End,
) -> Result<(), EnvFault>
    ensures edits { Edits result (V.vars env.old) (V.vars env.new) (added_path (V.vars env.old) var.now delim
        (slice_texts elements.now) end) }
    ensures base { V.base env.new ≡ V.base env.old }
{
    judge_path(alloc, var, delim, elements)?;
    let share = share_name(alloc, var)?;
    let text = env.get(var);
    let counts = env.get(share.as_str());
    let is_counted = counts.is_some();
    let texts = added(alloc, var, delim, text, counts, elements, end)?;
    write_both(alloc, env, var, share.as_str(), is_counted, texts)
}

/// The texts of a path variable after elements are dropped.
fn dropped(
    alloc: Global,
    delim: char,
    text: Option<&str>,
    counts: Option<&str>,
    less: &[&str],
) -> Result<PathTexts, AllocError>
    requires delimiter { delim < 128 }
    requires elements { list_all (is_element delim) (slice_texts less.now) ≡ true }
    ensures { IfOk result (λ t. AreTexts t delim (drop_all (state_of delim (option_map (λ t. t.now) text.entry)
        (option_map (λ t. t.now) counts.entry)) (slice_texts less.now))) }
{
    if let Some(texts) = with_one_less(alloc, delim, text, counts, less)? {
        return Ok(texts);
    }
    let mut path = read_path(alloc, delim, text, counts)?;
    drop_from_path(&mut path, less);
    write_path(alloc, delim, &mut path)
}

/// Writes a variable, or unsets it where there is no text.
fn write_one<V: Vars>(env: &mut V, var: &str, text: Option<String>) -> Result<(), EnvFault>
    ensures ok { OnOk result (V.vars env.new ≡ with_value (V.vars env.old) var.now (option_map string_bytes text)) }
    ensures err { OnErr result (V.vars env.new ≡ V.vars env.old) }
    ensures only { IfErr result (λ e. e ≡ OutOfMemory) }
    ensures base { V.base env.new ≡ V.base env.old }
{
    match text {
        Some(text) => env.put(var, text),
        None => env.unset(var),
    }
}

/// Writes a path variable and its counters, which may be written already; neither where memory is refused.
fn write_both<V: Vars>(
    alloc: Global,
    env: &mut V,
    var: &str,
    share: &str,
    is_counted: bool,
    texts: PathTexts,
) -> Result<(), EnvFault>
    requires share { share.now ≡ share_name var.now }
    requires counted { is_counted ≡ is_some (lookup (V.vars env.old) share.now) }
    ensures ok { OnOk result (V.vars env.new ≡ with_value (with_value (V.vars env.old) var.now
        (option_map string_bytes texts.elements)) (share_name var.now) (option_map string_bytes texts.counters)) }
    ensures err { OnErr result (V.vars env.new ≡ V.vars env.old) }
    ensures only { IfErr result (λ e. e ≡ OutOfMemory) }
    ensures base { V.base env.new ≡ V.base env.old }
{
    let PathTexts { elements, counters } = texts;
    if !is_counted && counters.is_none() {
        return write_one(env, var, elements);
    }
    let mut changes = Vec::new(alloc);
    push_change(alloc, &mut changes, var, elements)?;
    push_change(alloc, &mut changes, share, counters)?;
    env.apply(changes)
}

/// Drops elements from a path variable whose elements are separated by `delim`, from the first to the last.
///
/// The counter of an element falls by one, and at 0 every occurrence of the element leaves the list. An element that
/// isn't there changes nothing.
///
/// The errors are those of `add_path`, in the same order, without `CounterFull`.
pub fn drop_path<V: Vars>(
    alloc: Global,
    env: &mut V,
    var: &str,
    delim: char,
    elements: &[&str],
) -> Result<(), EnvFault>
    ensures edits { Edits result (V.vars env.old) (V.vars env.new) (dropped_path (V.vars env.old) var.now delim
        (slice_texts elements.now)) }
    ensures base { V.base env.new ≡ V.base env.old }
{
    judge_path(alloc, var, delim, elements)?;
    let share = share_name(alloc, var)?;
    let text = env.get(var);
    let counts = env.get(share.as_str());
    let is_counted = counts.is_some();
    let texts = dropped(alloc, delim, text, counts, elements)?;
    write_both(alloc, env, var, share.as_str(), is_counted, texts)
}
