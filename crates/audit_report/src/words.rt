//! What is said of a module: how it stands in one word, and why.
ghost use Rattle.std.specs.Prelude.{◌≡◌, ◌++◌, codes, flat_map, IfOk, OnOk, string_bytes};
ghost use Rattle.modulefile_run.specs.Questions.{question_view};
ghost use Rattle.audit_report.specs.Words as spec;

use audit_certificate::{Clash, VariableUse};
use audit_site::{AuditStanding, AuditedModule};
use envvars::fields::{join, slices};
use modulefile::Record;
use modulefile_run::Question;
use requests::show_report;
use std::alloc::{AllocError, Global};
use std::slice;

/// How a module stands, in one word.
pub(crate) fn standing_word(standing: &AuditStanding) -> &'static str
    ensures { result.now ≡ spec.standing_word standing.now }
{
    match standing {
        AuditStanding::Certified => "certified",
        AuditStanding::Unstable(_) => "unstable",
        AuditStanding::OneWay(_) => "one-way",
        AuditStanding::Inconsistent { .. } => "inconsistent",
        AuditStanding::Excluded => "excluded",
        AuditStanding::Clashes(_) => "clashes",
        AuditStanding::Refused(_) => "refused",
    }
}

/// A use of a variable, in words.
pub(crate) fn use_words(alloc: Global, used: &VariableUse) -> Result<String, AllocError>
    ensures { IfOk result (λ words. string_bytes words ≡ spec.use_words used.now) }
{
    match used {
        VariableUse::Fixed(None) => String::from_str(alloc, "set"),
        VariableUse::Fixed(Some(value)) => format!(in alloc; "unset of '{value}'"),
        VariableUse::Absent => String::from_str(alloc, "unset"),
        VariableUse::Pathed(delim) => {
            let character = delim.character;
            format!(in alloc; "path with '{character}'")
        }
        VariableUse::Stacked => String::from_str(alloc, "stack"),
        VariableUse::Read => String::from_str(alloc, "read"),
    }
}

/// The record as `show` writes it, without the newline.
pub(crate) fn record_words(alloc: Global, recorded: &Record) -> Result<String, AllocError>
    ensures { IfOk result (λ words. string_bytes words ≡ spec.record_words recorded.now) }
{
    let shown = show_report(alloc, "", slice::from_ref(recorded))?;
    let end = shown.len() - 1;
    String::from_str(alloc, &shown.as_str()[2..end])
}

/// The variable, and the two ways in which a module uses it.
fn two_uses(
    alloc: Global,
    variable: &str,
    one: &VariableUse,
    other: &VariableUse,
) -> Result<String, AllocError>
    ensures { IfOk result (λ words. string_bytes words ≡ spec.two_uses variable.now one.now other.now) }
{
    let one = use_words(alloc, one)?;
    let other = use_words(alloc, other)?;
    format!(in alloc; "{variable}: {one}, and {other}")
}

/// The variable of a clash, the module's own use of it, the other's, the other, and how many use it as that does.
fn clash_words(alloc: Global, clash: &Clash) -> Result<String, AllocError>
    ensures { IfOk result (λ words. string_bytes words ≡ spec.clash_words clash.now) }
{
    let variable = &clash.variable;
    let own = use_words(alloc, &clash.own)?;
    let theirs = use_words(alloc, &clash.theirs)?;
    let name = &clash.other_name;
    let path = &clash.other_path;
    let alike = clash.alike;
    format!(in alloc; "{variable}: {own} here, {theirs} in {name} ({path}); used so by {alike}")
}

/// What was asked, as a modulefile has it: the words of a command with a space between two, or a variable as `$env(VAR)`.
pub(crate) fn question_words(alloc: Global, question: &Question) -> Result<String, AllocError>
    ensures { IfOk result (λ words. string_bytes words ≡ spec.question_words (question_view question.now)) }
{
    match question {
        Question::Command(words, _answer) => {
            let words = slices(alloc, words.as_slice())?;
            join(alloc, words.as_slice(), ' ')
        }
        Question::Variable(name, _value) => format!(in alloc; "$env({name})"),
    }
}

/// Adds a name behind a comma and a space.
fn push_other_reasons(words: &mut String, name: &str) -> Result<(), AllocError>
    ensures { OnOk result (string_bytes words.new ≡ string_bytes words.old ++ (codes ", " ++ name.now)) }
{
    words.push_str(", ")?;
    words.push_str(name)
}

/// The names, each behind a comma and a space.
fn other_reasons_names(alloc: Global, names: &[String]) -> Result<String, AllocError>
    ensures { IfOk result (λ words. string_bytes words ≡ flat_map (λ n. codes ", " ++ string_bytes n) names.now) }
{
    let mut words = String::new(alloc);
    for name in names {
        push_other_reasons(&mut words, name.as_str())?;
    }
    Ok(words)
}

/// The names, with a comma and a space between two.
pub(crate) fn listed(alloc: Global, names: &[String]) -> Result<String, AllocError>
    ensures { IfOk result (λ words. string_bytes words ≡ spec.listed names.now) }
{
    match names {
        [] => Ok(String::new(alloc)),
        [first, others @ ..] => {
            let others = other_reasons_names(alloc, others)?;
            format!(in alloc; "{first}{others}")
        }
    }
}

/// The variables that a certified module reads; nothing where it reads none.
fn reads_words(alloc: Global, reads: &[String]) -> Result<String, AllocError>
    ensures { IfOk result (λ words. string_bytes words ≡ spec.reads_words reads.now) }
{
    match reads {
        [] => Ok(String::new(alloc)),
        [_, ..] => {
            let names = listed(alloc, reads)?;
            format!(in alloc; "reads {names}")
        }
    }
}

/// Why a module that reads these variables stands so. For a certified one it is what it reads.
pub(crate) fn reason_of(
    alloc: Global,
    reads: &[String],
    standing: &AuditStanding,
) -> Result<String, AllocError>
    ensures { IfOk result (λ words. string_bytes words ≡ spec.reason_of reads.now standing.now) }
{
    match standing {
        AuditStanding::Certified => reads_words(alloc, reads),
        AuditStanding::Unstable(first) => question_words(alloc, first),
        AuditStanding::OneWay(recorded) => record_words(alloc, recorded),
        AuditStanding::Inconsistent {
            variable,
            one,
            other,
        } => two_uses(alloc, variable.as_str(), one, other),
        AuditStanding::Excluded => String::from_str(alloc, "--without"),
        AuditStanding::Clashes(clash) => clash_words(alloc, clash),
        AuditStanding::Refused(refusal) => format!(in alloc; "{refusal}"),
    }
}

/// Why a module stands so.
pub(crate) fn reason(alloc: Global, module: &AuditedModule) -> Result<String, AllocError>
    ensures { IfOk result (λ words. string_bytes words ≡ spec.reason «module».now) }
{
    reason_of(alloc, module.reads.as_slice(), &module.standing)
}
