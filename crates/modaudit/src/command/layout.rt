//! How the lines of a report are laid out.
ghost use Rattle.std.specs.Prelude.{◌≡◌, IfOk};
ghost use Rattle.modaudit.specs.command.Audits as spec;

use std::alloc::{AllocError, Global};

/// How the fields of a line of the report stand.
#[derive(Clone, Copy, Debug, PartialEq, Eq)]
pub enum Layout {
    /// With a tab between them.
    Tabs,
    /// In aligned columns, as a terminal shows them.
    Columns,
}

impl Layout {
    /// The lines of the report, laid out so.
    pub(crate) fn laid_out(self, alloc: Global, lines: Vec<u8>) -> Result<Vec<u8>, AllocError>
        ensures { IfOk result (λ report. report.items ≡ spec.laid_out self lines.items) }
    {
        match self {
            Layout::Tabs => Ok(lines),
            Layout::Columns => terminal::columns::aligned(alloc, lines.as_slice()),
        }
    }
}
