//! Calls that edit an environment, each by its name and words.

use crate::shown::changes_of;
use crate::texts::parts;
use envstate::{
    End, EnvFault, Loaded, Vars, add_loaded, add_path, drop_loaded, drop_path, pop_value,
    push_value,
};
use std::alloc::{AllocError, Global};

/// The end of a path variable at which an edit adds; None where it removes.
fn end_of(edit: &str) -> Option<End> {
    match edit {
        "prepend" => Some(End::Front),
        "append" => Some(End::Back),
        _ => None,
    }
}

/// Adds elements to a path variable, or removes them.
fn edit_elements<V: Vars>(
    alloc: Global,
    vars: &mut V,
    edit: &str,
    delimiter: char,
    name: &str,
    elements: &[&str],
) -> Result<(), EnvFault> {
    match end_of(edit) {
        Some(end) => add_path(alloc, vars, name, delimiter, elements, end),
        None => drop_path(alloc, vars, name, delimiter, elements),
    }
}

/// An edit of a path variable by elements.
fn edit_path<V: Vars>(
    alloc: Global,
    vars: &mut V,
    edit: &str,
    delimiter: char,
    words: &[String],
) -> Result<(), EnvFault> {
    match words.split_first() {
        Some((name, elements)) => {
            let elements: Vec<&str> = elements
                .iter()
                .map(|element| element.as_str())
                .collect(alloc)?;
            edit_elements(alloc, vars, edit, delimiter, name, &elements)
        }
        None => Ok(()),
    }
}

/// The first character of a word, and a blank of an empty one.
fn first_character(word: &str) -> char {
    word.chars().next().unwrap_or(' ')
}

/// The delimiter of `--delim C` before the name of a variable, and the words after it.
fn delimited(words: &[String]) -> (char, &[String]) {
    match words {
        [option, delimiter, words @ ..] if option.as_str() == "--delim" => {
            (first_character(delimiter), words)
        }
        words => (':', words),
    }
}

/// The groups of a list, which commas part, and each group's names, which bars part.
fn groups(alloc: Global, list: &str) -> Result<Vec<Vec<String>>, AllocError> {
    let mut groups = Vec::new(alloc);
    for group in &parts(alloc, list, ',')? {
        groups.push(parts(alloc, group, '|')?)?;
    }
    Ok(groups)
}

/// Adds a module: its name, its path, and the names in conflict and those that it needs, or `-` for none.
fn load<V: Vars>(alloc: Global, vars: &mut V, words: &[String]) -> Result<(), EnvFault> {
    let [name, path, conflicts, prereqs] = words else {
        return Ok(());
    };
    let entry = Loaded {
        name: name.clone()?,
        path: path.clone()?,
        conflicts: parts(alloc, conflicts, ',')?,
        prereqs: groups(alloc, prereqs)?,
    };
    add_loaded(alloc, vars, &entry)
}

/// Makes the changes of the words, all or none.
fn apply<V: Vars>(alloc: Global, vars: &mut V, words: &[String]) -> Result<(), EnvFault> {
    vars.apply(changes_of(alloc, words)?)
}

/// Unsets a variable, or drops a module from the loaded list.
fn edit_named<V: Vars>(
    alloc: Global,
    vars: &mut V,
    edit: &str,
    name: &str,
) -> Result<(), EnvFault> {
    match edit {
        "unset" => vars.unset(name),
        "unload" => drop_loaded(alloc, vars, name),
        _ => Ok(()),
    }
}

/// Sets a variable to a value, or pops the value that an owner pushed.
fn edit_by<V: Vars>(
    alloc: Global,
    vars: &mut V,
    edit: &str,
    name: &str,
    word: &str,
) -> Result<(), EnvFault> {
    match edit {
        "set" => vars.set(name, word),
        "pop" => pop_value(alloc, vars, name, word),
        _ => Ok(()),
    }
}

/// Makes an edit of one variable or of the loaded list.
fn edit_one<V: Vars>(
    alloc: Global,
    vars: &mut V,
    edit: &str,
    words: &[String],
) -> Result<(), EnvFault> {
    match words {
        [name] => edit_named(alloc, vars, edit, name),
        [name, word] => edit_by(alloc, vars, edit, name, word),
        [name, owner, value] if edit == "push" => push_value(alloc, vars, name, owner, value),
        _ => Ok(()),
    }
}

/// Makes an edit.
pub(crate) fn edit<V: Vars>(alloc: Global, vars: &mut V, words: &[String]) -> Result<(), EnvFault> {
    let Some((edit, words)) = words.split_first() else {
        return Ok(());
    };
    match edit.as_str() {
        "prepend" | "append" | "remove" => {
            let (delimiter, words) = delimited(words);
            edit_path(alloc, vars, edit, delimiter, words)
        }
        "load" => load(alloc, vars, words),
        "apply" => apply(alloc, vars, words),
        edit => edit_one(alloc, vars, edit, words),
    }
}
