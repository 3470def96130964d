//! Whether a report mentions a text, small letters of ASCII for capitals alike.
ghost use Rattle.std.specs.Prelude.{◌≡◌, ◌==◌, IfOk, string_bytes};
ghost use Rattle.std.specs.List.{after_first, before_first};
ghost use Rattle.module_reports.specs.descriptions.Mentions.{in_small_letters, is_in_line, is_mentioned, stands_in};

use std::alloc::{AllocError, Global};

/// Whether a text stands somewhere in another.
fn stands_in(text: &str, within: &str) -> bool
    ensures { result ≡ stands_in text.now within.now }
{
    within.contains(text)
}

/// The name in a line of a report, in front of its first colon, and the description behind that.
fn halves(line: &str) -> (&str, &str)
    ensures name { result.0.now ≡ before_first (λ b. b == 58) line.entry.now }
    ensures description { result.1.now ≡ after_first (λ b. b == 58) line.entry.now }
{
    match line.split_once(':') {
        Some(halves) => halves,
        None => (line, ""),
    }
}

/// Whether a text stands in the name in a line of a report, or in the description.
fn is_in_line(text: &str, line: &str) -> bool
    ensures { result ≡ is_in_line text.now line.now }
{
    let (name, description) = halves(line);
    stands_in(text, name) || stands_in(text, description)
}

/// Whether a text stands in a name or a description of a report.
fn is_mentioned(text: &str, report: &str) -> bool
    ensures { result ≡ is_mentioned text.now report.now }
{
    report.split('\n').any(|line| is_in_line(text, line))
}

/// The text with small letters for the capitals of ASCII.
pub(crate) fn in_small_letters(alloc: Global, text: &str) -> Result<String, AllocError>
    ensures { IfOk result (λ small. string_bytes small ≡ in_small_letters text.now) }
{
    text.to_ascii_lowercase(alloc)
}

/// Whether a report mentions a text, which is given in small letters, in a name or a description; capitals count as
/// small letters.
pub(crate) fn mentions(alloc: Global, small: &str, report: &str) -> Result<bool, AllocError>
    ensures { IfOk result (λ b. b ≡ is_mentioned small.now (in_small_letters report.now)) }
{
    let report = in_small_letters(alloc, report)?;
    Ok(is_mentioned(small, report.as_str()))
}
