//! Values by names, as words `NAME=VALUE` say them: of a host, and of the person in whose environment files were loaded.

use crate::fault::PortFault;
use port_constants::{KnownVariable, value_among};
use port_flatten::UserValues;
use std::alloc::Global;

/// What the names are of.
#[derive(Clone, Copy)]
pub(crate) enum Named {
    /// The host that modulefiles are for: what `uname` of modulefile(5) answers.
    Host,
    /// The person in whose environment modulefiles were loaded.
    Person,
}

/// The values of names, each of which is there once.
#[derive(Debug, Drop)]
pub(crate) struct NamedValues {
    /// The names, with their values.
    pub said: Vec<KnownVariable>,
}

impl Named {
    /// Whether a name is one of them, and the value is one that it can have: of HOME a directory other than the root, by
    /// a path of which what is below it begins with a slash; of USER what can stand between slashes.
    fn fits(self, name: &str, value: &str) -> bool {
        match (self, name) {
            (Named::Host, "sysname" | "nodename" | "domain" | "release" | "version" | "machine") =>
                !value.is_empty(),
            (Named::Person, "HOME") => {
                value.starts_with('/') && !value.ends_with('/') && !value.contains(':')
            }
            (Named::Person, "USER") => {
                !value.is_empty() && !value.contains('/') && !value.contains(':')
            }
            _ => false,
        }
    }
}

impl NamedValues {
    /// None.
    pub fn new(alloc: Global) -> NamedValues {
        NamedValues {
            said: Vec::new(alloc),
        }
    }

    /// The value of a name.
    fn of(&self, name: &str) -> Option<&str> {
        value_among(self.said.as_slice(), name)
    }

    /// Adds what a word `NAME=VALUE` says.
    ///
    /// The errors: want of memory; the word says nothing, or its name is none of these, or is there.
    pub fn add(&mut self, alloc: Global, named: Named, word: &str) -> Result<(), PortFault> {
        match word.split_once('=') {
            Some((name, value)) if named.fits(name, value) && self.of(name).is_none() => {
                self.said.push(KnownVariable {
                    name: String::from_str(alloc, name)?,
                    value: String::from_str(alloc, value)?,
                })?;
                Ok(())
            }
            _ => Err(PortFault::Usage),
        }
    }

    /// The person in whose environment modulefiles were loaded.
    pub fn person(&self) -> UserValues<'_> {
        UserValues {
            home: self.of("HOME"),
            user: self.of("USER"),
        }
    }
}
