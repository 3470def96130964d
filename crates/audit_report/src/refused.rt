//! Where a refused file stopped: its path, and the line of the command at which its evaluation ended.
ghost use Rattle.std.specs.Prelude.{◌≡◌, ◌∷◌, ◌++◌, option_and_then, option_map, OnOk};
ghost use Rattle.modulefile_run.specs.Running.{file_reason_of};
ghost use Rattle.audit_report.specs.Documents as documents;
ghost use Rattle.audit_report.specs.Refused as spec;
ghost use Rattle.audit_report.specs.Tokens.{AddsTokens, field_tokens, fields_tokens};

use crate::fields::push_text;
use crate::tokens::write_text;
use audit_site::AuditStanding;
use json::Writer;
use modulefile_run::wants_memory;
use modules::{Refusal, RunFault};
use std::alloc::{AllocError, Global};

/// A line of a file.
#[derive(Clone, Copy)]
struct FileLine<'a> {
    /// The path of the file.
    path: &'a str,
    /// The number of the line, from 1.
    line: usize,
}

/// Where a file stopped; `None` where no command of it had begun, or memory ran out.
fn stopped_at(fault: &RunFault) -> Option<FileLine<'_>>
    ensures { option_map spec.line_view result
        ≡ option_and_then spec.stopped_at (file_reason_of fault.entry.now) }
{
    if wants_memory(fault) {
        return None;
    }
    let file = fault.file.as_ref()?;
    let place = file.place?;
    Some(FileLine {
        path: file.path.as_str(),
        line: place.line,
    })
}

/// Where the file of a refusal stopped; `None` where no file is refused.
fn refused_at(refusal: &Refusal) -> Option<FileLine<'_>>
    ensures { option_map spec.line_view result ≡ spec.refused_at refusal.entry.now }
{
    match refusal {
        Refusal::Run(fault) => stopped_at(fault),
        Refusal::OutOfMemory
        | Refusal::Find(_)
        | Refusal::Env(_)
        | Refusal::BadArguments
        | Refusal::UnknownSubcommand(_)
        | Refusal::ConflictWith(_)
        | Refusal::PrereqMissing(_)
        | Refusal::StillNeededBy(_)
        | Refusal::FileGone(_)
        | Refusal::NotAModulefile(_) => None,
    }
}

/// The line at which the file of a refusal stopped.
fn refused_line(refusal: &Refusal) -> Option<usize>
    ensures { result ≡ spec.refused_line refusal.now }
{
    refused_at(refusal).map(|at| at.line)
}

/// Adds the line at which a file stopped as a field, behind a tab.
fn push_line_field(
    alloc: Global,
    report: &mut Vec<u8>,
    line: Option<usize>,
) -> Result<(), AllocError>
    ensures { OnOk result (report.new.items ≡ report.old.items ++ spec.line_field line) }
{
    match line {
        Some(line) => {
            let field = format!(in alloc; "\tline {line}")?;
            push_text(report, field.as_str())
        }
        None => Ok(()),
    }
}

/// Adds the line at which a module is refused as a field; nothing where it isn't refused.
pub(crate) fn push_refused_line(
    alloc: Global,
    report: &mut Vec<u8>,
    standing: &AuditStanding,
) -> Result<(), AllocError>
    ensures { OnOk result (report.new.items
        ≡ report.old.items ++ spec.line_field (spec.standing_line standing.now)) }
{
    match standing {
        AuditStanding::Refused(refusal) => push_line_field(alloc, report, refused_line(refusal)),
        AuditStanding::Certified
        | AuditStanding::Unstable(_)
        | AuditStanding::OneWay(_)
        | AuditStanding::Inconsistent { .. }
        | AuditStanding::Excluded
        | AuditStanding::Clashes(_) => Ok(()),
    }
}

/// Writes the text of a refusal as a member.
fn write_text_of(alloc: Global, writer: &mut Writer, refusal: &Refusal) -> Result<(), AllocError>
    ensures { OnOk result (AddsTokens writer.old writer.new
        (field_tokens (documents.refusal_field refusal.now))) }
{
    let text = format!(in alloc; "{refusal}")?;
    write_text(writer, "refusal", text.as_str())
}

/// Writes a line of a file as a member.
fn write_line(writer: &mut Writer, line: usize) -> Result<(), AllocError>
    ensures { OnOk result (AddsTokens writer.old writer.new (field_tokens (documents.line_member line))) }
{
    writer.key("line")?;
    writer.u64(line as u64)
}

/// Writes the line at which a file stopped as a member.
fn write_refused_line(writer: &mut Writer, refusal: &Refusal) -> Result<(), AllocError>
    ensures { OnOk result (AddsTokens writer.old writer.new
        (fields_tokens (documents.line_fields (spec.refused_line refusal.now)))) }
{
    match refused_line(refusal) {
        Some(line) => write_line(writer, line),
        None => Ok(()),
    }
}

/// Writes where a file stopped, the line and the path, as members.
fn write_refused_at(writer: &mut Writer, refusal: &Refusal) -> Result<(), AllocError>
    ensures { OnOk result (AddsTokens writer.old writer.new
        (fields_tokens (documents.place_fields (spec.refused_at refusal.now)))) }
{
    match refused_at(refusal) {
        Some(at) => {
            write_line(writer, at.line)?;
            write_text(writer, "path", at.path)
        }
        None => Ok(()),
    }
}

/// Writes why a module is refused as members: the text, and the line of its file.
pub(crate) fn write_refused_module(
    alloc: Global,
    writer: &mut Writer,
    refusal: &Refusal,
) -> Result<(), AllocError>
    ensures { OnOk result (AddsTokens writer.old writer.new
        (fields_tokens (documents.refused_module_fields refusal.now))) }
{
    write_text_of(alloc, writer, refusal)?;
    write_refused_line(writer, refusal)
}

/// Writes why a request is refused as members: the text, and the line and the path of the file, which needn't be that
/// of the module in question.
pub(crate) fn write_refused_request(
    alloc: Global,
    writer: &mut Writer,
    refusal: &Refusal,
) -> Result<(), AllocError>
    ensures { OnOk result (AddsTokens writer.old writer.new
        (fields_tokens (documents.refused_request_fields refusal.now))) }
{
    write_text_of(alloc, writer, refusal)?;
    write_refused_at(writer, refusal)
}
