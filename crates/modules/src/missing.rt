//! The alternatives of a prereq of which none is loaded, with the text that its refusal shows.
ghost use Rattle.std.specs.Prelude.{◌≡◌, string_bytes};
ghost use Rattle.envvars.specs.Texts.{texts_in};
ghost use Rattle.modules.specs.Spaced.{spaced};

use envvars::fields::{join, slices};
use message::texts::copies;
use std::alloc::{AllocError, Global};

/// The alternatives of a prereq, of which none is loaded, and their text.
#[derive(Debug, Drop)]
pub struct MissingNames {
    /// The alternatives, as the modulefile names them.
    pub names: Vec<String>,
    text: String,
    pub ghost joined: { string_bytes text ≡ spaced (texts_in names) },
}

impl MissingNames {
    ghost use Rattle.std.specs.Prelude.{map, IfOk};

    /// These alternatives, copied.
    pub(crate) fn of(alloc: Global, group: &[String]) -> Result<MissingNames, AllocError>
        ensures { IfOk result (λ missing. texts_in missing.names ≡ map string_bytes group.now) }
    {
        let names = slices(alloc, group)?;
        Ok(MissingNames {
            names: copies(alloc, group)?,
            text: join(alloc, names.as_slice(), ' ')?,
        })
    }

    /// The names, with a space between two.
    pub fn text(&self) -> &str
        ensures { result.now ≡ spaced (texts_in self.entry.now.names) }
    {
        self.text.as_str()
    }
}
