//! Lines on the variables that aren't UTF-8.
ghost use Rattle.std.specs.Prelude.{◌≡◌, ◌++◌, map, IfOk, OnOk, string_bytes};
ghost use Rattle.modulecmd.specs.NotUtf8 as spec;

use std::alloc::{AllocError, Global};

/// The line of a variable that isn't UTF-8.
fn line_of(alloc: Global, name: &str) -> Result<String, AllocError>
    ensures { IfOk result (λ line. string_bytes line ≡ spec.line_of name.now) }
{
    format!(in alloc; "# environment: {name} isn't UTF-8\n")
}

/// Adds the line of a variable that isn't UTF-8.
fn push_line(alloc: Global, report: &mut String, name: &str) -> Result<(), AllocError>
    ensures { OnOk result (string_bytes report.new ≡ string_bytes report.old ++ spec.line_of name.now) }
{
    let line = line_of(alloc, name)?;
    report.push_str(line.as_str())
}

/// Adds a line for each of these variables.
pub(crate) fn push_not_utf8(
    alloc: Global,
    report: &mut String,
    names: &[String],
) -> Result<(), AllocError>
    ensures { OnOk result (string_bytes report.new
        ≡ string_bytes report.old ++ spec.lines_of (map string_bytes names.now)) }
{
    for name in names {
        push_line(alloc, report, name.as_str())?;
    }
    Ok(())
}
