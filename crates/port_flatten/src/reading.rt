//! The text that `load` of Environment Modules writes for sh, read: each line sets, unsets or exports a variable.
//!
//! Before the load each variable that it changes had the mark as its value, and PATH the mark and `:/usr/bin:/bin`. So what
//! is before the mark was prepended, what is behind it appended, and a value without the mark was set.

use crate::records::{LoadRecords, PathEnds, VariableChange};
use std::alloc::{AllocError, Global};

/// The value that a variable had before.
const MARK: &str = "modport-mark";

/// What PATH had behind the mark.
const PATH_END: &str = ":/usr/bin:/bin";

/// Why what a load wrote doesn't serve.
#[derive(Clone, Copy, Debug)]
pub struct Unserving(pub &'static str);

/// The value that the quoting of a shell stands for; none where it has quotes.
fn unquoted(alloc: Global, text: &str) -> Result<Option<String>, AllocError> {
    let mut value = String::new(alloc);
    let mut is_escaped = false;
    for character in text.chars() {
        if is_escaped {
            value.push(character)?;
            is_escaped = false;
        } else if character == '\\' {
            is_escaped = true;
        } else if matches!(character, '\'' | '"' | '`' | '$') {
            return Ok(None);
        } else {
            value.push(character)?;
        }
    }
    Ok(if is_escaped { None } else { Some(value) })
}

/// The name and the value that a line `NAME=VALUE; export NAME;` sets.
fn setting_of(alloc: Global, line: &str) -> Result<Option<(&str, String)>, AllocError> {
    let Some((name, rest)) = line.split_once('=') else {
        return Ok(None);
    };
    let end = format!(in alloc; "; export {name};")?;
    match rest.strip_suffix(end.as_str()) {
        Some(quoted) => Ok(unquoted(alloc, quoted)?.map(|value| (name, value))),
        None => Ok(None),
    }
}

/// What was added before a mark, with its delimiter.
fn front_of(before: &str) -> Option<(&str, char)> {
    let delimiter = before.chars().last()?;
    Some((before.strip_suffix(delimiter)?, delimiter))
}

/// What was added behind a mark, with its delimiter.
fn back_of(behind: &str) -> Option<(&str, char)> {
    let delimiter = behind.chars().next()?;
    Some((behind.strip_prefix(delimiter)?, delimiter))
}

/// What was added to a path that had the mark.
fn added(alloc: Global, before: &str, behind: &str) -> Result<Option<VariableChange>, AllocError> {
    let (front, back) = (front_of(before), back_of(behind));
    let delimiter = match (front, back) {
        (Some((_, one)), Some((_, other))) if one != other => return Ok(None),
        (Some((_, delimiter)), _) | (None, Some((_, delimiter))) => delimiter,
        (None, None) => return Ok(None),
    };
    Ok(Some(VariableChange::Added(PathEnds {
        front: front
            .map(|front| String::from_str(alloc, front.0))
            .transpose()?,
        back: back
            .map(|back| String::from_str(alloc, back.0))
            .transpose()?,
        delimiter,
    })))
}

/// What became of a variable that has this value now.
fn change_of(alloc: Global, name: &str, value: &str) -> Result<Option<VariableChange>, AllocError> {
    let Some((before, behind)) = value.split_once(MARK) else {
        return Ok(Some(VariableChange::Set(String::from_str(alloc, value)?)));
    };
    if name != "PATH" {
        return added(alloc, before, behind);
    }
    match behind.strip_prefix(PATH_END) {
        Some(behind) => added(alloc, before, behind),
        None => Ok(None),
    }
}

/// Adds the names between marks of a kind.
fn add_names(
    alloc: Global,
    names: &mut Vec<String>,
    text: &str,
    mark: char,
) -> Result<(), AllocError> {
    for name in text.split(mark) {
        names.push(String::from_str(alloc, name)?)?;
    }
    Ok(())
}

/// Adds the lists of modules of which one is needed.
fn add_needs(alloc: Global, needs: &mut Vec<Vec<String>>, text: &str) -> Result<(), AllocError> {
    for list in text.split('&') {
        let mut names = Vec::new(alloc);
        add_names(alloc, &mut names, list, '|')?;
        needs.push(names)?;
    }
    Ok(())
}

/// Whether a variable keeps what Environment Modules knows of what is loaded.
fn is_own(name: &str) -> bool {
    name.starts_with("__MODULES_") || matches!(name, "_LMFILES_" | "LOADEDMODULES")
}

impl LoadRecords {
    /// Adds what became of a variable.
    fn add_change(
        &mut self,
        alloc: Global,
        name: &str,
        change: VariableChange,
    ) -> Result<(), AllocError> {
        let name = String::from_str(alloc, name)?;
        self.variables.push((name, change))?;
        Ok(())
    }

    /// Adds what a variable says that keeps what Environment Modules knows, behind the name of the module and a mark.
    fn add_own(&mut self, alloc: Global, name: &str, rest: &str) -> Result<(), AllocError> {
        match name {
            "__MODULES_LMCONFLICT" => add_names(alloc, &mut self.conflicts, rest, '&'),
            "__MODULES_LMPREREQ" => add_needs(alloc, &mut self.needs, rest),
            _ => match name.strip_prefix("__MODULES_PUSHENV_") {
                Some(name) => {
                    // What was read of it so far doesn't count.
                    self.variables
                        .retain(|variable| variable.0.as_str() != name);
                    let value = String::from_str(alloc, rest)?;
                    self.add_change(alloc, name, VariableChange::Pushed(value))
                }
                None => Ok(()),
            },
        }
    }

    /// Whether a variable was pushed.
    fn is_pushed(&self, name: &str) -> bool {
        self.variables.iter().any(|variable| {
            variable.0.as_str() == name && matches!(variable.1, VariableChange::Pushed(_))
        })
    }

    /// Adds what a line says that sets a variable to a value; why it doesn't serve, where it doesn't.
    fn set(
        &mut self,
        alloc: Global,
        name: &str,
        value: &str,
    ) -> Result<Option<Unserving>, AllocError> {
        if name == "LOADEDMODULES" && value.contains(':') {
            return Ok(Some(Unserving("it loads other modules")));
        }
        if is_own(name) {
            if let Some((_, rest)) = value.split_once('&') {
                self.add_own(alloc, name, rest)?;
            }
        } else if !self.is_pushed(name) {
            match change_of(alloc, name, value)? {
                Some(change) => self.add_change(alloc, name, change)?,
                None => return Ok(Some(Unserving("a path has other elements than were added"))),
            }
        }
        Ok(None)
    }

    /// Adds what a line says; why it doesn't serve, where it doesn't.
    fn add(&mut self, alloc: Global, line: &str) -> Result<Option<Unserving>, AllocError> {
        if line.is_empty() || line == "test 0;" || line == "true;" {
            return Ok(None);
        }
        if line.starts_with("test 0 = 1") || line == "false;" {
            return Ok(Some(Unserving("the load failed")));
        }
        if let Some(rest) = line.strip_prefix("unset ") {
            let Some(name) = rest.strip_suffix(';') else {
                return Ok(Some(Unserving("a line of its records isn't read")));
            };
            self.add_change(alloc, name, VariableChange::Unset)?;
            return Ok(None);
        }
        match setting_of(alloc, line)? {
            Some((name, value)) => self.set(alloc, name, value.as_str()),
            None => Ok(Some(Unserving("it does something that is no variable"))),
        }
    }
}

/// What a load has done, by the text that it wrote; or why that doesn't serve.
pub fn records_of(alloc: Global, text: &str) -> Result<Result<LoadRecords, Unserving>, AllocError> {
    let mut records = LoadRecords {
        variables: Vec::new(alloc),
        conflicts: Vec::new(alloc),
        needs: Vec::new(alloc),
    };
    for line in text.split('\n') {
        if let Some(why) = records.add(alloc, line)? {
            return Ok(Err(why));
        }
    }
    Ok(Ok(records))
}
