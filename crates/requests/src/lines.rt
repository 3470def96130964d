//! Lines of reports.
ghost use Rattle.std.specs.Prelude.{◌≡◌, ◌++◌, OnOk, string_bytes};
ghost use Rattle.modulefile.specs.Reports.{line_of};

use std::alloc::AllocError;

/// Adds a text and a newline to a report.
pub(crate) fn push_line(report: &mut String, text: &str) -> Result<(), AllocError>
    ensures { OnOk result (string_bytes report.new ≡ string_bytes report.old ++ line_of text.now) }
{
    report.push_str(text)?;
    report.push('\n')
}
