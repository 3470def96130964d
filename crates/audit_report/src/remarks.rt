//! The remarks after the lines of the modules: on directories, other reasons, files, names, the environment at hand.
ghost use Rattle.std.specs.Prelude.{◌≡◌, ◌++◌, OnOk, IfOk, map, string_bytes, flat_map};
ghost use Rattle.audit_report.specs.Remarks as spec;

use crate::fields::{push_field, push_text};
use crate::readable::is_unreadable;
use crate::words::{reason_of, standing_word};
use audit_certificate::Disagreement;
use audit_site::{AddedDirectory, AuditStanding, AuditedModule, UnknownNames};
use envvars::fields::{deduplicated, slices};
use modulefile::Delimiter;
use std::alloc::{AllocError, Global};

/// Adds a line for each directory that isn't there, but for those that can't be read.
pub(crate) fn push_missing(
    report: &mut Vec<u8>,
    unreadable: &[String],
    dirs: &[String],
) -> Result<(), AllocError>
    ensures { OnOk result (report.new.items
        ≡ report.old.items ++ flat_map (spec.missing_line unreadable.now) dirs.now) }
{
    for dir in dirs {
        push_missing_if(report, unreadable, dir)?;
    }
    Ok(())
}

/// Adds the line of a directory that isn't there, but nothing where it can't be read.
fn push_missing_if(
    report: &mut Vec<u8>,
    unreadable: &[String],
    dir: &String,
) -> Result<(), AllocError>
    ensures { OnOk result (report.new.items ≡ report.old.items ++ spec.missing_line unreadable.now dir.now) }
{
    if is_unreadable(unreadable, dir.as_str()) {
        return Ok(());
    }
    push_missing_directory(report, dir.as_str())
}

/// Adds the line of a directory that isn't there.
fn push_missing_directory(report: &mut Vec<u8>, dir: &str) -> Result<(), AllocError>
    ensures { OnOk result (report.new.items ≡ report.old.items ++ spec.missing dir.now) }
{
    push_text(report, "# no directory: ")?;
    push_field(report, dir)?;
    push_text(report, "\n")
}

/// Adds a line for each directory that can be reached only through a module that isn't deterministic.
pub(crate) fn push_unreachable_directories(
    report: &mut Vec<u8>,
    dirs: &[AddedDirectory],
) -> Result<(), AllocError>
    ensures { OnOk result (report.new.items ≡ report.old.items ++ flat_map spec.unreachable_line dirs.now) }
{
    for added in dirs {
        push_unreachable_directory(report, added)?;
    }
    Ok(())
}

/// Adds the line of a directory that can be reached only through a module that isn't deterministic.
fn push_unreachable_directory(
    report: &mut Vec<u8>,
    added: &AddedDirectory,
) -> Result<(), AllocError>
    ensures { OnOk result (report.new.items ≡ report.old.items ++ spec.unreachable_line added.now) }
{
    push_text(report, "# ")?;
    push_field(report, added.name.as_str())?;
    push_text(report, " (")?;
    push_field(report, added.path.as_str())?;
    push_text(report, "): isn't deterministic, and adds the directory ")?;
    push_field(report, added.directory.as_str())?;
    push_text(report, "\n")
}

/// Adds the line of another reason of a module.
fn push_other_reasons_standing(
    alloc: Global,
    report: &mut Vec<u8>,
    module: &AuditedModule,
    other_reasons: &AuditStanding,
) -> Result<(), AllocError>
    ensures { OnOk result (report.new.items ≡ report.old.items ++ spec.other_reasons_line «module».now other_reasons.now) }
{
    let why = reason_of(alloc, &[], other_reasons)?;
    push_text(report, "# ")?;
    push_field(report, module.name.as_str())?;
    push_text(report, " (")?;
    push_field(report, module.path.as_str())?;
    push_text(report, "): ")?;
    push_text(report, standing_word(&module.standing))?;
    push_text(report, ", and ")?;
    push_text(report, standing_word(other_reasons))?;
    push_text(report, ": ")?;
    push_field(report, why.as_str())?;
    push_text(report, "\n")
}

/// Adds a line for each other reason of a module.
fn push_other_reasons(
    alloc: Global,
    report: &mut Vec<u8>,
    module: &AuditedModule,
) -> Result<(), AllocError>
    ensures { OnOk result (report.new.items ≡ report.old.items ++ spec.other_reasons_lines «module».now) }
{
    for other_reasons in module.other_reasons.as_slice() {
        push_other_reasons_standing(alloc, report, module, other_reasons)?;
    }
    Ok(())
}

/// Adds a line for each other reason of each of the modules.
pub(crate) fn push_all_other_reasons(
    alloc: Global,
    report: &mut Vec<u8>,
    modules: &[AuditedModule],
) -> Result<(), AllocError>
    ensures { OnOk result (report.new.items ≡ report.old.items ++ flat_map spec.other_reasons_lines modules.now) }
{
    for module in modules {
        push_other_reasons(alloc, report, module)?;
    }
    Ok(())
}

/// Adds a line for each file that is no modulefile.
pub(crate) fn push_no_modulefiles(report: &mut Vec<u8>, paths: &[String]) -> Result<(), AllocError>
    ensures { OnOk result (report.new.items ≡ report.old.items ++ flat_map spec.no_modulefile_line paths.now) }
{
    for path in paths {
        push_no_modulefile(report, path.as_str())?;
    }
    Ok(())
}

/// Adds the line of a file that is no modulefile.
fn push_no_modulefile(report: &mut Vec<u8>, path: &str) -> Result<(), AllocError>
    ensures { OnOk result (report.new.items ≡ report.old.items ++ spec.no_modulefile path.now) }
{
    push_text(report, "# no modulefile: ")?;
    push_field(report, path)?;
    push_text(report, "\n")
}

/// Adds a line for each default file that isn't read.
pub(crate) fn push_unread_files(report: &mut Vec<u8>, paths: &[String]) -> Result<(), AllocError>
    ensures { OnOk result (report.new.items ≡ report.old.items ++ flat_map spec.unread_file_line paths.now) }
{
    for path in paths {
        push_unread_file(report, path.as_str())?;
    }
    Ok(())
}

/// Adds the line of a default file that isn't read.
fn push_unread_file(report: &mut Vec<u8>, path: &str) -> Result<(), AllocError>
    ensures { OnOk result (report.new.items ≡ report.old.items ++ spec.unread_file path.now) }
{
    push_text(report, "# default file that isn't read: ")?;
    push_field(report, path)?;
    push_text(report, "\n")
}

/// Adds a line for each default file that has a fault.
pub(crate) fn push_bad_files(report: &mut Vec<u8>, paths: &[String]) -> Result<(), AllocError>
    ensures { OnOk result (report.new.items ≡ report.old.items ++ flat_map spec.bad_file_line paths.now) }
{
    for path in paths {
        push_bad_file(report, path.as_str())?;
    }
    Ok(())
}

/// Adds the line of a default file that has a fault.
fn push_bad_file(report: &mut Vec<u8>, path: &str) -> Result<(), AllocError>
    ensures { OnOk result (report.new.items ≡ report.old.items ++ spec.bad_file path.now) }
{
    push_text(report, "# bad default file: ")?;
    push_field(report, path)?;
    push_text(report, "\n")
}

/// Adds a line for each variable that isn't UTF-8.
pub(crate) fn push_not_utf8(report: &mut Vec<u8>, names: &[String]) -> Result<(), AllocError>
    ensures { OnOk result (report.new.items ≡ report.old.items ++ flat_map spec.not_utf8_line names.now) }
{
    for name in names {
        push_not_utf8_variable(report, name.as_str())?;
    }
    Ok(())
}

/// Adds the line of a variable that isn't UTF-8.
fn push_not_utf8_variable(report: &mut Vec<u8>, name: &str) -> Result<(), AllocError>
    ensures { OnOk result (report.new.items ≡ report.old.items ++ spec.not_utf8 name.now) }
{
    push_text(report, "# environment: ")?;
    push_field(report, name)?;
    push_text(report, " isn't UTF-8\n")
}

/// Adds the names, each in quotes after a blank.
fn push_names(report: &mut Vec<u8>, names: &[String]) -> Result<(), AllocError>
    ensures { OnOk result (report.new.items ≡ report.old.items ++ flat_map spec.quoted_name names.now) }
{
    for name in names {
        push_name(report, name.as_str())?;
    }
    Ok(())
}

/// Adds a name in quotes after a blank.
pub(crate) fn push_name(report: &mut Vec<u8>, name: &str) -> Result<(), AllocError>
    ensures { OnOk result (report.new.items ≡ report.old.items ++ spec.quoted name.now) }
{
    push_text(report, " '")?;
    push_field(report, name)?;
    push_text(report, "'")
}

/// The command that has the names.
pub(crate) fn command_of(unknown: &UnknownNames) -> &'static str
    ensures { result.now ≡ spec.command_of unknown.now }
{
    if unknown.is_prereq {
        "prereq"
    } else {
        "conflict"
    }
}

/// Adds the line of a prereq whose names mean no module of the site whose evaluation isn't refused.
fn push_unknown(report: &mut Vec<u8>, unknown: &UnknownNames) -> Result<(), AllocError>
    ensures { OnOk result (report.new.items ≡ report.old.items ++ spec.unknown_line unknown.now) }
{
    push_text(report, "# ")?;
    push_field(report, unknown.name.as_str())?;
    push_text(report, " (")?;
    push_field(report, unknown.path.as_str())?;
    push_text(report, "): prereq names no module that isn't refused:")?;
    push_names(report, unknown.names.as_slice())?;
    push_text(report, "\n")
}

/// Adds that line of a prereq, and nothing of a conflict.
fn push_prereq(report: &mut Vec<u8>, unknown: &UnknownNames) -> Result<(), AllocError>
    ensures { OnOk result (report.new.items ≡ report.old.items ++ spec.prereq_line unknown.now) }
{
    if unknown.is_prereq {
        push_unknown(report, unknown)?;
    }
    Ok(())
}

/// Adds a line for each prereq whose names mean no module of the site whose evaluation isn't refused.
pub(crate) fn push_prereqs(
    report: &mut Vec<u8>,
    unknowns: &[UnknownNames],
) -> Result<(), AllocError>
    ensures { OnOk result (report.new.items ≡ report.old.items ++ flat_map spec.prereq_line unknowns.now) }
{
    for unknown in unknowns {
        push_prereq(report, unknown)?;
    }
    Ok(())
}

fn said_of(alloc: Global, variable: &str, what: &str) -> Result<String, AllocError>
    ensures { IfOk result (λ words. string_bytes words ≡ variable.now ++ what.now) }
{
    format!(in alloc; "{variable}{what}")
}

fn quoted_delimiter(alloc: Global, delim: Delimiter) -> Result<String, AllocError>
    ensures { IfOk result (λ words. string_bytes words ≡ spec.delimiter delim) }
{
    let character = delim.character;
    format!(in alloc; "'{character}'")
}

/// A variable, what is said of it, and a delimiter in quotes.
fn said_of_path(
    alloc: Global,
    variable: &str,
    what: &str,
    delim: Delimiter,
) -> Result<String, AllocError>
    ensures { IfOk result (λ words. string_bytes words ≡ variable.now ++ (what.now ++ spec.delimiter delim)) }
{
    let quoted = quoted_delimiter(alloc, delim)?;
    format!(in alloc; "{variable}{what}{quoted}")
}

/// Where the environment at hand doesn't agree with the certificate, in words.
fn disagreement_words(alloc: Global, reason: &Disagreement) -> Result<String, AllocError>
    ensures { IfOk result (λ words. string_bytes words ≡ spec.disagreement_words reason.now) }
{
    match reason {
        Disagreement::LoadedTexts => {
            String::from_str(alloc, "the loaded modules aren't in order")
        }
        Disagreement::IsSet(variable) => said_of(alloc, variable.as_str(), " is set"),
        Disagreement::IsNotAbsent(variable) => said_of(alloc, variable.as_str(), " is set"),
        Disagreement::HasNotValue { variable, value } => {
            format!(in alloc; "{variable} isn't '{value}'")
        }
        Disagreement::PathNotInOrder { variable, delim } => said_of_path(
            alloc,
            variable.as_str(),
            " isn't in order as a path with ",
            *delim,
        ),
        Disagreement::StackNotInOrder(variable) => {
            said_of(alloc, variable.as_str(), " isn't in order as a stack")
        }
    }
}

/// The disagreements of the environment at hand, each in words.
fn all_words(alloc: Global, reasons: &[Disagreement]) -> Result<Vec<String>, AllocError>
    ensures { IfOk result (λ words. map string_bytes words.items ≡ map spec.disagreement_words reasons.now) }
{
    let mut words = Vec::new(alloc);
    for reason in reasons {
        words.push(disagreement_words(alloc, reason)?)?;
    }
    Ok(words)
}

/// Adds the line of a disagreement of the environment at hand.
fn push_disagreement(report: &mut Vec<u8>, words: &str) -> Result<(), AllocError>
    ensures { OnOk result (report.new.items ≡ report.old.items ++ spec.environment_line words.now) }
{
    push_text(report, "# environment: ")?;
    push_field(report, words)?;
    push_text(report, "\n")
}

/// Adds such lines.
fn push_all_words(report: &mut Vec<u8>, words: &[&str]) -> Result<(), AllocError>
    ensures { OnOk result (report.new.items
        ≡ report.old.items ++ flat_map (λ text. spec.environment_line text.now) words.now) }
{
    for text in words {
        push_disagreement(report, text)?;
    }
    Ok(())
}

/// Adds a line for each disagreement of the environment at hand; for one that comes again, none.
pub(crate) fn push_disagreements(
    alloc: Global,
    report: &mut Vec<u8>,
    reasons: &[Disagreement],
) -> Result<(), AllocError>
    ensures { OnOk result (report.new.items ≡ report.old.items ++ spec.environment_lines reasons.now) }
{
    let words = all_words(alloc, reasons)?;
    let slices = slices(alloc, words.as_slice())?;
    let firsts = deduplicated(alloc, slices.as_slice())?;
    push_all_words(report, firsts.as_slice())
}
