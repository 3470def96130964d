//! What a load has done, written as a modulefile.

use crate::records::{LoadRecords, PathEnds, VariableChange};
use crate::values::UserValues;
use std::alloc::{AllocError, Global};
use tcltext::list::write_list;

/// A modulefile that is being written.
#[derive(Drop)]
struct Writing<'p> {
    alloc: Global,
    /// What is written so far.
    text: String,
    /// Whose values are asked for.
    person: UserValues<'p>,
}

/// Whether a text means itself in quotes.
fn is_plain(text: &str) -> bool {
    text.bytes().all(|byte| !matches!(byte, b'"' | b'\\' | b'$' | b'[' | b']' | b'\n'))
}

impl Writing<'_> {
    /// Adds a command of these words.
    fn push_command(&mut self, words: &[&str]) -> Result<(), AllocError> {
        self.text.push_str(write_list(self.alloc, words)?.as_str())?;
        self.text.push('\n')
    }

    /// Adds a command on a variable and a value, which asks for the person's home directory and name where these stand in it.
    fn push_value(&mut self, command: &str, name: &str, value: &str) -> Result<(), AllocError> {
        let value = match self.person.asking(self.alloc, value)? {
            Some(asking) if is_plain(value) => format!(in self.alloc; "\"{asking}\"")?,
            _ => write_list(self.alloc, &[value])?,
        };
        let name = write_list(self.alloc, &[name])?;
        let line = format!(in self.alloc; "{command} {name} {value}\n")?;
        self.text.push_str(line.as_str())
    }

    /// Adds the commands that add to a path.
    fn push_path(&mut self, name: &str, ends: &PathEnds) -> Result<(), AllocError> {
        let option = match ends.delimiter {
            ':' => String::new(self.alloc),
            delimiter => format!(in self.alloc; " -d {{{delimiter}}}")?,
        };
        for (command, added) in [("prepend-path", &ends.front), ("append-path", &ends.back)] {
            if let Some(added) = added {
                let command = format!(in self.alloc; "{command}{option}")?;
                self.push_value(command.as_str(), name, added.as_str())?;
            }
        }
        Ok(())
    }

    /// Adds a command with these names, where there are some.
    fn push_names(&mut self, command: &str, names: &[String]) -> Result<(), AllocError> {
        if names.is_empty() {
            return Ok(());
        }
        let mut words = Vec::new(self.alloc);
        words.push(command)?;
        for name in names {
            words.push(name.as_str())?;
        }
        self.push_command(words.as_slice())
    }

    /// Adds the commands for what became of a variable.
    fn push_change(&mut self, name: &str, change: &VariableChange) -> Result<(), AllocError> {
        match change {
            VariableChange::Set(value) => self.push_value("setenv", name, value.as_str()),
            VariableChange::Pushed(value) => self.push_value("pushenv", name, value.as_str()),
            VariableChange::Unset => self.push_command(&["unsetenv", name]),
            VariableChange::Added(ends) => self.push_path(name, ends),
        }
    }
}

/// Commands that do what a load has done, behind a text that ends in a newline.
pub fn written_records(
    alloc: Global,
    head: &str,
    person: UserValues,
    records: &LoadRecords,
) -> Result<String, AllocError> {
    let mut writing = Writing {
        alloc,
        text: String::from_str(alloc, head)?,
        person,
    };
    writing.push_names("conflict", records.conflicts.as_slice())?;
    for names in &records.needs {
        writing.push_names("prereq", names.as_slice())?;
    }
    for (name, change) in &records.variables {
        writing.push_change(name.as_str(), change)?;
    }
    Ok(writing.text)
}
