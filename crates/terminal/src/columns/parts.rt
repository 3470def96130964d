//! The lines of a text, and the fields of a line.
ghost use Rattle.std.specs.Prelude.{◌≡◌, IfOk};
ghost use Rattle.terminal.specs.columns.Columns as spec;
ghost use Rattle.terminal.specs.columns.Views.{texts};

use std::alloc::{AllocError, Global};

/// The lines of a text.
pub(crate) fn lines(alloc: Global, text: &[u8]) -> Result<Vec<&[u8]>, AllocError>
    ensures { IfOk result (λ lines. texts lines.items ≡ spec.lines text.now) }
{
    text.split(|byte| *byte == b'\n').collect(alloc)
}

/// The fields of a line.
pub(crate) fn fields(alloc: Global, line: &[u8]) -> Result<Vec<&[u8]>, AllocError>
    ensures { IfOk result (λ fields. texts fields.items ≡ spec.fields line.now) }
{
    line.split(|byte| *byte == b'\t').collect(alloc)
}
