//! What is known while a file is read: of the host, of the file, and of variables that constants were put into.

use std::alloc::{AllocError, Global};

/// A variable, and its value.
#[derive(Debug, Drop)]
pub struct KnownVariable {
    /// The name, without colons before it.
    pub name: String,
    /// The value.
    pub value: String,
}

/// A modulefile of a tree.
#[derive(Clone, Copy, Debug)]
pub struct KnownFile<'f> {
    /// Its absolute path.
    pub path: &'f str,
    /// The name of its module.
    pub name: &'f str,
}

/// What is known at a place of a file.
#[derive(Debug, Drop)]
pub struct Knowledge<'k> {
    /// What `uname` says, by its words.
    host: &'k [KnownVariable],
    /// The file, where it is one of a tree.
    pub(crate) file: Option<KnownFile<'k>>,
    /// Variables of the file.
    variables: Vec<KnownVariable>,
    /// Variables of the environment that the file has set.
    pub(crate) environment: Vec<KnownVariable>,
    /// Whether the file defines a procedure of the name of a command, or sets what Tcl knows of the host.
    pub(crate) is_overridden: bool,
}

/// The name of a variable without the colons of the global namespace.
pub fn plain_name(name: &str) -> &str {
    name.strip_prefix("::").unwrap_or(name)
}

/// The value of a variable among some.
pub fn value_among<'v>(variables: &'v [KnownVariable], name: &str) -> Option<&'v str> {
    variables
        .iter()
        .find(|variable| variable.name.as_str() == name)
        .map(|variable| variable.value.as_str())
}

/// Sets a variable among some, or forgets it.
fn put(
    alloc: Global,
    variables: &mut Vec<KnownVariable>,
    name: &str,
    value: Option<String>,
) -> Result<(), AllocError> {
    variables.retain(|variable| variable.name.as_str() != name);
    if let Some(value) = value {
        variables.push(KnownVariable {
            name: String::from_str(alloc, name)?,
            value,
        })?;
    }
    Ok(())
}

impl<'k> Knowledge<'k> {
    /// What is known at the start of a file.
    pub fn new(
        alloc: Global,
        host: &'k [KnownVariable],
        file: Option<KnownFile<'k>>,
    ) -> Knowledge<'k> {
        Knowledge {
            host,
            file,
            variables: Vec::new(alloc),
            environment: Vec::new(alloc),
            is_overridden: false,
        }
    }

    /// The value of a variable of the file.
    pub(crate) fn variable(&self, name: &str) -> Option<&str> {
        let name = plain_name(name);
        match (value_among(self.variables.as_slice(), name), name) {
            (Some(value), _) => Some(value),
            (None, "tcl_version") => Some("8.6"),
            (None, "ModulesCurrentModulefile") => self.path(),
            _ => None,
        }
    }

    /// What `uname` says by a word.
    pub(crate) fn host(&self, word: &str) -> Option<&str> {
        let word = if word == "node" { "nodename" } else { word };
        value_among(self.host, word)
    }

    /// The path of the file.
    fn path(&self) -> Option<&str> {
        self.file.map(|file| file.path)
    }

    /// A variable of the file is set to a value, which is known or not.
    pub fn set(
        &mut self,
        alloc: Global,
        name: &str,
        value: Option<String>,
    ) -> Result<(), AllocError> {
        let name = plain_name(name);
        match name.split_once('(') {
            Some(("env", _)) => {
                self.environment.clear();
                Ok(())
            }
            Some(("tcl_platform", _)) => {
                self.is_overridden = true;
                Ok(())
            }
            Some(_) => Ok(()),
            None => put(alloc, &mut self.variables, name, value),
        }
    }

    /// A variable of the environment is set to a value, which is known or not.
    pub fn set_environment(
        &mut self,
        alloc: Global,
        name: &str,
        value: Option<String>,
    ) -> Result<(), AllocError> {
        put(alloc, &mut self.environment, name, value)
    }

    /// Any variable may have another value now.
    pub fn forget(&mut self) {
        self.variables.clear();
        self.environment.clear();
    }

    /// Any variable of the environment may have another value now.
    pub fn forget_environment(&mut self) {
        self.environment.clear();
    }

    /// A procedure is defined, which may have the name of a command.
    pub fn define(&mut self, name: &str) {
        if matches!(plain_name(name), "file" | "uname" | "info" | "module-info") {
            self.is_overridden = true;
        }
    }
}
