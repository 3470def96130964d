//! The report of `list` (module(1)): the loaded modules.
ghost use Rattle.std.specs.Prelude.{◌≡◌, ◌++◌, map, flat_map, IfOk, OnOk, string_bytes};
ghost use Rattle.modulefile.specs.Reports.{line_of};
ghost use Rattle.requests.specs.Reports.{loaded_text};

use crate::lines::push_line;
use std::alloc::{AllocError, Global};

/// Adds a line for each text.
fn push_lines(report: &mut String, texts: &[String]) -> Result<(), AllocError>
    ensures { OnOk result (string_bytes report.new
        ≡ string_bytes report.old ++ flat_map line_of (map string_bytes texts.now)) }
{
    for text in texts {
        push_line(report, text.as_str())?;
    }
    Ok(())
}

/// The report of `list`: the names of the loaded modules, in load order, one a line. It fails for want of
/// memory alone.
#[tactic(auto, using(crate::proofs::ReportLemmas::loaded_none, crate::proofs::ReportLemmas::loaded_some))]
pub fn list_report(alloc: Global, names: &[String]) -> Result<String, AllocError>
    ensures { IfOk result (λ t. string_bytes t ≡ loaded_text (map string_bytes names.now)) }
{
    let mut report = String::new(alloc);
    if names.is_empty() {
        push_line(&mut report, "No Modulefiles Currently Loaded.")?;
        return Ok(report);
    }
    push_line(&mut report, "Currently Loaded Modulefiles:")?;
    push_lines(&mut report, names)?;
    Ok(report)
}
