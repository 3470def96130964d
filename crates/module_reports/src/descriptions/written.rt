//! What is shown of the outcomes of requests that describe modules.
ghost use Rattle.std.specs.Prelude.{◌≡◌, ◌++◌, flat_map, map, IfOk, OnOk, if◌then◌else◌, [], string_bytes};
ghost use Rattle.std.specs.Option.{option_map};
ghost use Rattle.module_reports.specs.descriptions.Written.{is_wanted, shown, written};

use crate::descriptions::mentions::mentions;
use modules::{Outcome, RequestResults};
use std::alloc::{AllocError, Global};

/// Whether a report is wanted: where a text is sought, given in small letters, if it is in the report.
fn is_wanted(alloc: Global, small: Option<&str>, report: &str) -> Result<bool, AllocError>
    ensures { IfOk result (λ b. b ≡ is_wanted (option_map (λ t. t.now) small.entry) report.now) }
{
    match small {
        None => Ok(true),
        Some(small) => mentions(alloc, small, report),
    }
}

/// Adds texts.
pub(crate) fn push_all(text: &mut String, others: &[String]) -> Result<(), AllocError>
    ensures { OnOk result (string_bytes text.new
        ≡ string_bytes text.old ++ flat_map (λ other. other) (map string_bytes others.now)) }
{
    for other in others {
        text.push_str(other.as_str())?;
    }
    Ok(())
}

/// Adds what `whatis NAME` writes: the messages of the file, and then the report.
pub(crate) fn push_written(text: &mut String, done: &RequestResults) -> Result<(), AllocError>
    ensures { OnOk result (string_bytes text.new ≡ string_bytes text.old ++ written done.now) }
{
    push_all(text, done.messages.as_slice())?;
    text.push_str(done.report.as_str())
}

/// Adds what is shown of an outcome.
fn push_shown(
    alloc: Global,
    text: &mut String,
    small: Option<&str>,
    outcome: &Outcome,
) -> Result<(), AllocError>
    ensures { OnOk result (string_bytes text.new
        ≡ string_bytes text.old ++ shown (option_map (λ t. t.now) small.entry) outcome.now) }
{
    let Outcome::Accepted(done) = outcome else {
        return Ok(());
    };
    if is_wanted(alloc, small, done.report.as_str())? {
        push_written(text, done)?;
    }
    Ok(())
}

/// What is shown of outcomes, where a text is sought, given in small letters, or none.
pub(crate) fn shown_text(
    alloc: Global,
    small: Option<&str>,
    outcomes: &[Outcome],
) -> Result<String, AllocError>
    ensures { IfOk result (λ text. string_bytes text
        ≡ flat_map (shown (option_map (λ t. t.now) small.entry)) outcomes.now) }
{
    let mut text = String::new(alloc);
    for outcome in outcomes {
        push_shown(alloc, &mut text, small, outcome)?;
    }
    Ok(text)
}
