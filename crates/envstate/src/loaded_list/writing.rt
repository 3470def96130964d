//! The four texts that the list of loaded modules is written as, and which entries can be written.
ghost use Rattle.std.specs.Prelude.{◌≡◌, ◌&&◌, ◌++◌, [], ◌∷◌, filter, map, flat_map, string_bytes, OnOk, IfOk, Some};
ghost use Rattle.std.specs.List.{list_all};
ghost use Rattle.std.specs.Option.{option_map};
ghost use Rattle.modulename.specs.ModuleName.{is_module_name};
ghost use Rattle.envvars.specs.Changes.{new_values_in};
ghost use Rattle.envvars.specs.Fields.{ampersand, without_repeats};
ghost use Rattle.envstate.specs.loaded_list.LoadedTexts.{group_text};
ghost use Rattle.envstate.specs.loaded_list.ElementTexts.{before_element, with_elements};
ghost use Rattle.envstate.specs.loaded_list.Loaded.{names_of, names_text, files_text, conflict_elements, conflicts_text};
ghost use Rattle.envstate.specs.loaded_list.Loaded.{prereq_elements, prereqs_text, is_path, is_group, is_entry};
ghost use Rattle.envstate.specs.loaded_list.Loaded.{can_be_added, with_conflicts_once};
ghost use Rattle.envstate.specs.loaded_list.LoadedEntries.{entry_view};
ghost use Rattle.envstate.specs.loaded_list.NeededChanges.{is_needed};
ghost use Rattle.envvars.specs.Texts.{has, slice_texts, texts_in};

use crate::loaded_list::entry::Loaded;
use envvars::fields::{deduplicated, join, owned, slices, text_of_elements};
use envvars::{Change, Vars, push_change};
use modulename::is_module_name;
use std::alloc::{AllocError, Global};

/// The names of the modules in a list, in load order.
pub fn names_of(alloc: Global, list: &[Loaded]) -> Result<Vec<&str>, AllocError>
    ensures { IfOk result (λ v. slice_texts v.items ≡ names_of (map entry_view list.entry.now)) }
{
    let mut names = Vec::with_capacity(alloc, list.len())?;
    for entry in list {
        names.push(entry.name.as_str())?;
    }
    Ok(names)
}

/// The text of `LOADEDMODULES`: the names, in load order; none for an empty list.
pub(crate) fn names_text(alloc: Global, list: &[Loaded]) -> Result<Option<String>, AllocError>
    ensures { IfOk result (λ t. option_map string_bytes t ≡ names_text (map entry_view list.now)) }
{
    let names = names_of(alloc, list)?;
    text_of_elements(alloc, names.as_slice())
}

/// The text of `_LMFILES_`: the paths, in load order; none for an empty list.
pub(crate) fn files_text(alloc: Global, list: &[Loaded]) -> Result<Option<String>, AllocError>
    ensures { IfOk result (λ t. option_map string_bytes t ≡ files_text (map entry_view list.now)) }
{
    let mut files = Vec::with_capacity(alloc, list.len())?;
    for entry in list {
        files.push(entry.path.as_str())?;
    }
    text_of_elements(alloc, files.as_slice())
}

/// The room that a text of elements gets at once: the conflicts of a list of twenty modules, about.
const USUAL_ROOM: usize = 256;

/// The text that an element is appended to: an empty one, or the text so far and a colon.
fn before_element(alloc: Global, text: Option<String>) -> Result<String, AllocError>
    ensures { IfOk result (λ t. string_bytes t ≡ before_element (option_map string_bytes text)) }
{
    match text {
        None => String::with_capacity(alloc, USUAL_ROOM),
        Some(mut text) => {
            text.push(':')?;
            Ok(text)
        }
    }
}

/// The text with one more element.
pub(crate) fn with_element(
    alloc: Global,
    text: Option<String>,
    element: &str,
) -> Result<String, AllocError>
    ensures { IfOk result (λ t. Some (string_bytes t)
        ≡ with_elements (option_map string_bytes text) (element.now ∷ [])) }
{
    let mut text = before_element(alloc, text)?;
    text.push_str(element)?;
    Ok(text)
}

/// Appends words, with `&` before each.
fn push_words(text: &mut String, words: &[String]) -> Result<(), AllocError>
    ensures { OnOk result (string_bytes text.new
        ≡ string_bytes text.old ++ flat_map (λ word. ampersand ∷ string_bytes word) words.now) }
{
    for word in words {
        text.push('&')?;
        text.push_str(word.as_str())?;
    }
    Ok(())
}

/// The text with the element of a module's conflicts, if it has some.
pub(crate) fn with_conflicts(
    alloc: Global,
    text: Option<String>,
    entry: &Loaded,
) -> Result<Option<String>, AllocError>
    ensures { IfOk result (λ t. option_map string_bytes t
        ≡ with_elements (option_map string_bytes text) (conflict_elements (entry_view entry.now ∷ []))) }
{
    if entry.conflicts.is_empty() {
        return Ok(text);
    }
    let mut text = before_element(alloc, text)?;
    text.push_str(entry.name.as_str())?;
    push_words(&mut text, entry.conflicts.as_slice())?;
    Ok(Some(text))
}

/// The text of `__MODULES_LMCONFLICT`: an element for each module with conflicts; none where no module has one.
pub(crate) fn conflicts_text(alloc: Global, list: &[Loaded]) -> Result<Option<String>, AllocError>
    ensures { IfOk result (λ t. option_map string_bytes t ≡ conflicts_text (map entry_view list.now)) }
{
    let mut text = None;
    for entry in list {
        text = with_conflicts(alloc, text, entry)?;
    }
    Ok(text)
}

/// The text of a group of names, with `|` between them.
fn group_text(alloc: Global, group: &[String]) -> Result<String, AllocError>
    ensures { IfOk result (λ t. string_bytes t ≡ group_text (map string_bytes group.now)) }
{
    let names = slices(alloc, group)?;
    join(alloc, names.as_slice(), '|')
}

/// The texts of groups of names.
fn group_texts(alloc: Global, groups: &[Vec<String>]) -> Result<Vec<String>, AllocError>
    ensures { IfOk result (λ v. texts_in v ≡ map group_text (map texts_in groups.now)) }
{
    let mut texts = Vec::new(alloc);
    for group in groups {
        texts.push(group_text(alloc, group.as_slice())?)?;
    }
    Ok(texts)
}

/// The text with the element of a module's prereqs, if it has some.
pub(crate) fn with_prereqs(
    alloc: Global,
    text: Option<String>,
    entry: &Loaded,
) -> Result<Option<String>, AllocError>
    ensures { IfOk result (λ t. option_map string_bytes t
        ≡ with_elements (option_map string_bytes text) (prereq_elements (entry_view entry.now ∷ []))) }
{
    if entry.prereqs.is_empty() {
        return Ok(text);
    }
    let groups = group_texts(alloc, entry.prereqs.as_slice())?;
    let mut text = before_element(alloc, text)?;
    text.push_str(entry.name.as_str())?;
    push_words(&mut text, groups.as_slice())?;
    Ok(Some(text))
}

/// The text of `__MODULES_LMPREREQ`: an element for each module with prereqs; none where no module has one.
pub(crate) fn prereqs_text(alloc: Global, list: &[Loaded]) -> Result<Option<String>, AllocError>
    ensures { IfOk result (λ t. option_map string_bytes t ≡ prereqs_text (map entry_view list.now)) }
{
    let mut text = None;
    for entry in list {
        text = with_prereqs(alloc, text, entry)?;
    }
    Ok(text)
}

/// Appends the change of a variable to a value, or to none. One that is unset and gets none stays as it is.
pub(crate) fn push_needed<V: Vars>(
    alloc: Global,
    changes: &mut Vec<Change>,
    env: &V,
    name: &str,
    value: Option<String>,
) -> Result<(), AllocError>
    ensures { OnOk result (new_values_in changes.new ≡ new_values_in changes.old
        ++ filter (is_needed (V.vars env.now)) ((name.now, option_map string_bytes value) ∷ [])) }
{
    if value.is_none() && env.get(name).is_none() {
        return Ok(());
    }
    push_change(alloc, changes, name, value)
}

/// Whether the path can be written in `_LMFILES_`: it isn't empty and has no colon.
fn is_path(path: &str) -> bool
    ensures { result ≡ is_path path.now }
{
    !path.is_empty() && !path.as_bytes().contains(&b':')
}

/// Whether each name is well spelled.
fn are_names(names: &[String]) -> bool
    ensures { result ≡ list_all (λ name. is_module_name (string_bytes name)) names.now }
{
    names.iter().all(|name| is_module_name(name.as_str()))
}

/// Whether the group can be written: it has names, and each is well spelled.
fn is_group(names: &[String]) -> bool
    ensures { result ≡ is_group (map string_bytes names.now) }
{
    !names.is_empty() && are_names(names)
}

/// Whether each group can be written.
fn are_groups(groups: &[Vec<String>]) -> bool
    ensures { result ≡ list_all (λ group. is_group (texts_in group)) groups.now }
{
    groups.iter().all(|group| is_group(group.as_slice()))
}

/// Whether the name and the path of the entry can be written.
fn can_write_name(entry: &Loaded) -> bool
    ensures { result ≡ (is_module_name (string_bytes entry.now.name) && is_path (string_bytes entry.now.path)) }
{
    is_module_name(entry.name.as_str()) && is_path(entry.path.as_str())
}

/// Whether the conflicts and the prereqs of the entry can be written.
fn can_write_requirements(entry: &Loaded) -> bool
    ensures { result ≡ (list_all (λ name. is_module_name (string_bytes name)) entry.now.conflicts.items
        && list_all (λ group. is_group (texts_in group)) entry.now.prereqs.items) }
{
    are_names(entry.conflicts.as_slice()) && are_groups(entry.prereqs.as_slice())
}

/// Whether the entry would be read again as it is written, apart from repeated conflicts.
fn is_entry(entry: &Loaded) -> bool
    ensures { result ≡ is_entry (entry_view entry.now) }
{
    can_write_name(entry) && can_write_requirements(entry)
}

/// Whether a module of this full name is in the list.
pub fn is_loaded(list: &[Loaded], name: &str) -> bool
    ensures { result ≡ has name.now (names_of (map entry_view list.now)) }
{
    list.iter().any(|entry| entry.name.as_str() == name)
}

/// Whether the entry can be written, and its module isn't loaded.
pub fn can_be_added(list: &[Loaded], entry: &Loaded) -> bool
    ensures { result ≡ can_be_added (map entry_view list.now) (entry_view entry.now) }
{
    is_entry(entry) && !is_loaded(list, entry.name.as_str())
}

fn once(alloc: Global, names: Vec<String>) -> Result<Vec<String>, AllocError>
    ensures { IfOk result (λ v. texts_in v ≡ without_repeats (texts_in names)) }
{
    if names.len() < 2 {
        return Ok(names);
    }
    let all = slices(alloc, names.as_slice())?;
    let firsts = deduplicated(alloc, all.as_slice())?;
    owned(alloc, firsts.as_slice())
}

/// The entry without repeated conflicts.
pub fn with_conflicts_once(alloc: Global, entry: Loaded) -> Result<Loaded, AllocError>
    ensures { IfOk result (λ x. entry_view x ≡ with_conflicts_once (entry_view entry)) }
{
    let Loaded {
        name,
        path,
        conflicts,
        prereqs,
    } = entry;
    Ok(Loaded {
        name,
        path,
        conflicts: once(alloc, conflicts)?,
        prereqs,
    })
}
