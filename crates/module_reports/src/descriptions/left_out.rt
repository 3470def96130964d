//! Modules that are left out of a report, each with the reason.
ghost use Rattle.std.specs.Prelude.{◌≡◌, ◌==◌, ◌++◌, codes, map, IfOk, OnOk, string_bytes};
ghost use Rattle.std.specs.List.{list_any};
ghost use Rattle.modulefile.specs.Reports.{line_of};
ghost use Rattle.modules.specs.Messages.{message_of};
ghost use Rattle.module_reports.specs.descriptions.Descriptions.{is_want_of_memory, memory_numbers};
ghost use Rattle.module_reports.specs.descriptions.Written.{left_line, left_lines};

use modules::{Outcome, Refusal};
use std::alloc::{AllocError, Global};

/// Whether the number is one of want of memory: 11 in an evaluation, 31 in a request, 41 in the search.
fn is_number_of_memory(number: u16) -> bool
    ensures { result ≡ list_any (λ n. n == number) memory_numbers }
{
    match number {
        11 | 31 | 41 => true,
        _ => false,
    }
}

/// Whether memory ran out in a request.
fn is_want_of_memory(outcome: &Outcome) -> bool
    ensures { result ≡ is_want_of_memory outcome.now }
{
    match outcome {
        Outcome::Accepted(_) => false,
        Outcome::Refused(refusal) => is_number_of_memory(refusal.number()),
    }
}

/// Whether memory ran out in one of the requests.
pub(crate) fn has_want_of_memory(outcomes: &[Outcome]) -> bool
    ensures { result ≡ list_any is_want_of_memory outcomes.now }
{
    outcomes.iter().any(|outcome| is_want_of_memory(outcome))
}

/// Adds the line of a module that is left out.
fn push_refused(
    alloc: Global,
    text: &mut String,
    name: &str,
    refusal: &Refusal,
) -> Result<(), AllocError>
    ensures { OnOk result (string_bytes text.new
        ≡ string_bytes text.old ++ line_of (name.now ++ (codes ": " ++ message_of refusal.now))) }
{
    text.push_str(name)?;
    text.push_str(": ")?;
    text.push_str(refusal.to_string(alloc)?.as_str())?;
    text.push('\n')
}

/// Adds the line of a module, where it is left out.
fn push_left_line(
    alloc: Global,
    text: &mut String,
    name: &str,
    outcome: &Outcome,
) -> Result<(), AllocError>
    ensures { OnOk result (string_bytes text.new ≡ string_bytes text.old ++ left_line name.now outcome.now) }
{
    match outcome {
        Outcome::Accepted(_) => Ok(()),
        Outcome::Refused(refusal) => push_refused(alloc, text, name, refusal),
    }
}

/// The lines of the modules that are left out, by the names and outcomes of all.
pub(crate) fn left_lines(
    alloc: Global,
    names: &[String],
    outcomes: &[Outcome],
) -> Result<String, AllocError>
    ensures { IfOk result (λ text. string_bytes text ≡ left_lines (map string_bytes names.now) outcomes.now) }
{
    let mut text = String::new(alloc);
    for (name, outcome) in names.iter().zip(outcomes) {
        push_left_line(alloc, &mut text, name.as_str(), outcome)?;
    }
    Ok(text)
}
