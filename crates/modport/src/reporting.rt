//! The text of the report: for people, or each line a JSON object.
ghost use Rattle.std.specs.Prelude.{◌≡◌, ◌++◌, OnOk};
ghost use Rattle.modport.specs.Lines as spec;
ghost use Rattle.modport.specs.LineViews.{line_view, lines_view, now, AddsTokens};

use crate::fault::PortFault;
use itoa::Buffer;
use json::Writer;
use port_rewriting::{Note, Outcome};
use std::alloc::{AllocError, Global};

/// How the report says what became of a command; and what is written for it, or in which case that differs.
fn words_of(outcome: &Outcome) -> (&'static str, Option<&str>)
    ensures word { result.0.now ≡ spec.word_of outcome.now }
    ensures put { now result.1 ≡ spec.put_of outcome.now }
{
    match outcome {
        Outcome::Translated => ("translated", None),
        Outcome::Changed(case) => ("changed", Some(case.as_str())),
        Outcome::Computed(text) => ("computed", Some(text.as_str())),
        Outcome::Flattened => ("flattened", None),
        Outcome::Added => ("added", None),
        Outcome::Default => ("default", None),
        Outcome::Left => ("left out", None),
    }
}

/// Adds a place.
fn push_place(report: &mut Vec<u8>, place: Option<usize>) -> Result<(), AllocError>
    ensures { OnOk result (report.new.items ≡ report.old.items ++ spec.place_text place) }
{
    match place {
        Some(line) => {
            let mut buffer = Buffer::new();
            report.extend_from_slice(b":")?;
            report.extend_from_slice(buffer.format(line).as_bytes())
        }
        None => Ok(()),
    }
}

/// Adds what is written for what a line is about, where that is said.
fn push_put(report: &mut Vec<u8>, put: Option<&str>) -> Result<(), AllocError>
    ensures { OnOk result (report.new.items ≡ report.old.items ++ spec.put_text (now put.entry)) }
{
    match put {
        Some(text) => {
            report.extend_from_slice(b": ")?;
            report.extend_from_slice(text.as_bytes())
        }
        None => Ok(()),
    }
}

/// Adds what a line says.
fn push_said(report: &mut Vec<u8>, line: &Note) -> Result<(), AllocError>
    ensures { OnOk result (report.new.items ≡ report.old.items ++ spec.said_text (line_view line.now)) }
{
    let (word, put) = words_of(&line.outcome);
    report.extend_from_slice(word.as_bytes())?;
    report.extend_from_slice(b": ")?;
    report.extend_from_slice(line.what.as_bytes())?;
    push_put(report, put)
}

/// Adds a line on the file of this path, for people.
fn push_plain(report: &mut Vec<u8>, path: &str, line: &Note) -> Result<(), AllocError>
    ensures { OnOk result (report.new.items ≡ report.old.items ++ spec.plain path.now (line_view line.now)) }
{
    report.extend_from_slice(path.as_bytes())?;
    push_place(report, line.line)?;
    report.extend_from_slice(b": ")?;
    push_said(report, line)?;
    report.extend_from_slice(b"\n")
}

/// Writes a member that is a text.
#[tactic(auto, using(crate::proofs::Tokens::adds_one, crate::proofs::Tokens::adds_more))]
fn write_text(writer: &mut Writer, name: &str, text: &str) -> Result<(), AllocError>
    ensures { OnOk result (AddsTokens writer.old writer.new (spec.text_tokens name.now text.now)) }
{
    writer.key(name)?;
    writer.string(text)
}

/// Writes a place as a member.
fn write_place(writer: &mut Writer, place: Option<usize>) -> Result<(), AllocError>
    ensures { OnOk result (AddsTokens writer.old writer.new (spec.place_tokens place)) }
{
    match place {
        Some(line) => {
            writer.key("line")?;
            writer.u64(line as u64)
        }
        None => Ok(()),
    }
}

/// Writes what is written for what a line is about as a member, where that is said.
fn write_put(writer: &mut Writer, put: Option<&str>) -> Result<(), AllocError>
    ensures { OnOk result (AddsTokens writer.old writer.new (spec.put_tokens (now put.entry))) }
{
    match put {
        Some(text) => write_text(writer, "text", text),
        None => Ok(()),
    }
}

/// Writes the members of a line on the file of this path.
fn write_members(writer: &mut Writer, path: &str, line: &Note) -> Result<(), AllocError>
    ensures { OnOk result (AddsTokens writer.old writer.new (spec.members path.now (line_view line.now))) }
{
    let (word, put) = words_of(&line.outcome);
    write_text(writer, "file", path)?;
    write_place(writer, line.line)?;
    write_text(writer, "what", line.what.as_str())?;
    write_text(writer, "why", word)?;
    write_put(writer, put)
}

/// Adds a line on the file of this path, as JSON.
fn push_json(alloc: Global, report: &mut Vec<u8>, path: &str, line: &Note) -> Result<(), AllocError>
    ensures { OnOk result (report.new.items ≡ report.old.items ++ spec.as_json path.now (line_view line.now)) }
{
    let mut writer = Writer::new(Vec::new(alloc));
    writer.begin_object()?;
    write_members(&mut writer, path, line)?;
    writer.end_object()?;
    report.extend_from_slice(writer.into_inner().as_slice())?;
    report.extend_from_slice(b"\n")
}

/// Adds a line on the file of this path.
fn push_line(
    alloc: Global,
    report: &mut Vec<u8>,
    json: bool,
    path: &str,
    line: &Note,
) -> Result<(), AllocError>
    ensures { OnOk result (report.new.items ≡ report.old.items ++ spec.shown json path.now (line_view line.now)) }
{
    if json {
        push_json(alloc, report, path, line)
    } else {
        push_plain(report, path, line)
    }
}

/// Adds the report of these lines on the file of this path, where each line is JSON or is for people.
pub(crate) fn push_report(
    alloc: Global,
    report: &mut Vec<u8>,
    json: bool,
    path: &str,
    lines: &[Note],
) -> Result<(), AllocError>
    ensures { OnOk result (report.new.items
        ≡ report.old.items ++ spec.report json path.now (lines_view lines.now)) }
{
    for line in lines {
        push_line(alloc, report, json, path, line)?;
    }
    Ok(())
}

/// A line on the whole of what is at this path.
pub(crate) fn line_on(
    alloc: Global,
    json: bool,
    path: &str,
    outcome: Outcome,
    what: &str,
) -> Result<Vec<u8>, AllocError> {
    let line = Note {
        line: None,
        what: String::from_str(alloc, what)?,
        outcome,
    };
    let mut report = Vec::new(alloc);
    push_line(alloc, &mut report, json, path, &line)?;
    Ok(report)
}

/// The line that says of the file of this path why it isn't translated.
pub(crate) fn fault_line(
    alloc: Global,
    path: &str,
    fault: &PortFault,
) -> Result<String, AllocError> {
    Ok(format!(in alloc; "ERROR: {path}: {fault}\n")?)
}
