//! Values in which a person's home directory or name stands.

use std::alloc::{AllocError, Global};

/// HOME and USER of the person for whom a file was loaded, where they are known.
#[derive(Clone, Copy, Debug)]
pub struct UserValues<'p> {
    /// That of HOME.
    pub home: Option<&'p str>,
    /// That of USER.
    pub user: Option<&'p str>,
}

/// Whether an element begins with a directory, up to a slash or its end.
fn rest_below<'e>(element: &'e str, home: Option<&str>) -> Option<&'e str> {
    let rest = element.strip_prefix(home?)?;
    if rest.is_empty() || rest.starts_with('/') {
        Some(rest)
    } else {
        None
    }
}

impl UserValues<'_> {
    /// A path with what asks for the name in place of it.
    fn path(self, alloc: Global, path: &str) -> Result<String, AllocError> {
        let mut parts = Vec::new(alloc);
        for part in path.split('/') {
            let is_user = self.user == Some(part);
            parts.push(if is_user { "[getenv USER]" } else { part })?;
        }
        parts.as_slice().join(alloc, "/")
    }

    /// An element of a path with what asks for the home directory and the name in place of these.
    fn element(self, alloc: Global, element: &str) -> Result<String, AllocError> {
        match rest_below(element, self.home) {
            Some(rest) => {
                let rest = self.path(alloc, rest)?;
                Ok(format!(in alloc; "[getenv HOME]{rest}")?)
            }
            None => self.path(alloc, element),
        }
    }

    /// The value with what asks for the home directory and the name in place of these; none where neither is in it.
    pub(crate) fn asking(self, alloc: Global, value: &str) -> Result<Option<String>, AllocError> {
        let mut elements = Vec::new(alloc);
        for element in value.split(':') {
            elements.push(self.element(alloc, element)?)?;
        }
        let text = elements.as_slice().join(alloc, ":")?;
        Ok(if text.as_str() == value {
            None
        } else {
            Some(text)
        })
    }
}
