//! The report of `whatis` (module(1)): the descriptions of a module.
ghost use Rattle.std.specs.Prelude.{◌≡◌, ◌++◌, ◌∷◌, [], map, string_bytes, IfOk, OnOk};
ghost use Rattle.modulefile.specs.RecordViews.{record_view};
ghost use Rattle.modulefile.specs.Reports.{whatis_text};

use crate::lines::push_line;
use modulefile::Record;
use std::alloc::{AllocError, Global};

/// Adds a description after the module's name, where the record is one.
fn push_description(report: &mut String, name: &str, recorded: &Record) -> Result<(), AllocError>
    ensures { OnOk result (string_bytes report.new
        ≡ string_bytes report.old ++ whatis_text name.now (record_view recorded.now ∷ [])) }
{
    let Some(text) = recorded.description() else {
        return Ok(());
    };
    report.push_str(name)?;
    report.push_str(": ")?;
    push_line(report, text)
}

/// The report of `whatis` on a file: its descriptions, each on a line after the module's name. It fails for want of
/// memory alone.
pub fn whatis_report(alloc: Global, name: &str, records: &[Record]) -> Result<String, AllocError>
    ensures { IfOk result (λ t. string_bytes t ≡ whatis_text name.now (map record_view records.now)) }
{
    let mut report = String::new(alloc);
    for recorded in records {
        push_description(&mut report, name, recorded)?;
    }
    Ok(report)
}
