//! What happens here: what the load and then the unload of each module that is tried do in the environment at hand.
ghost use Rattle.std.specs.Prelude.{◌≡◌, ◌++◌, OnOk, IfOk, option_map, string_bytes};
ghost use Rattle.json.specs.Tree.{json_tokens};
ghost use Rattle.audit_report.specs.Documents.{found_fields, here_fields, dry_run_value, dry_run_word};
ghost use Rattle.audit_report.specs.Tokens.{AddsTokens, fields_tokens};
ghost use Rattle.audit_report.specs.Tried as spec;

use crate::fields::{push_field, push_text};
use crate::refused::write_refused_request;
use crate::tokens::{write_text, write_text_array};
use crate::words::listed;
use audit_dry_runs::DryRun;
use json::Writer;
use std::alloc::{AllocError, Global};

/// The first of the dry runs; `None` where there is none, or its module isn't tried.
pub(crate) fn first_dry_run(dry_runs: &[Option<DryRun>]) -> Option<&DryRun>
    ensures { option_map (λ dry_run. dry_run.now) result ≡ spec.first_dry_run dry_runs.now }
{
    match dry_runs {
        [Some(dry_run), ..] => Some(dry_run),
        _ => None,
    }
}

/// The dry runs behind the first.
pub(crate) fn later_dry_runs(dry_runs: &[Option<DryRun>]) -> &[Option<DryRun>]
    ensures { result.now ≡ spec.later_dry_runs dry_runs.now }
{
    match dry_runs {
        [] => dry_runs,
        [_, later @ ..] => later,
    }
}

/// What the load and the unload of a module do, in words.
fn dry_run_words(alloc: Global, dry_run: &DryRun) -> Result<String, AllocError>
    ensures { IfOk result (λ words. string_bytes words ≡ spec.dry_run_words dry_run.now) }
{
    match dry_run {
        DryRun::Returns => String::from_str(alloc, "returns"),
        DryRun::Leaves(names) => {
            let names = listed(alloc, names.as_slice())?;
            format!(in alloc; "leaves {names}")
        }
        DryRun::LoadRefused(refusal) => format!(in alloc; "its load is refused: {refusal}"),
        DryRun::UnloadRefused(refusal) => format!(in alloc; "its unload is refused: {refusal}"),
        DryRun::AlreadyLoaded => String::from_str(alloc, "is loaded"),
        DryRun::LoadsAnother { name, path } => {
            format!(in alloc; "{name} ({path}) is loaded in its place")
        }
    }
}

/// Adds what a dry run finds as a field, behind a tab.
fn push_dry_run(alloc: Global, report: &mut Vec<u8>, dry_run: &DryRun) -> Result<(), AllocError>
    ensures { OnOk result (report.new.items ≡ report.old.items ++ spec.dry_run_field dry_run.now) }
{
    let words = dry_run_words(alloc, dry_run)?;
    push_text(report, "\t")?;
    push_field(report, words.as_str())
}

/// Adds what happens here as a field, where the module is tried.
pub(crate) fn push_here(
    alloc: Global,
    report: &mut Vec<u8>,
    dry_run: Option<&DryRun>,
) -> Result<(), AllocError>
    ensures { OnOk result (report.new.items
        ≡ report.old.items ++ spec.here (option_map (λ t. t.now) dry_run.entry)) }
{
    match dry_run {
        Some(dry_run) => push_dry_run(alloc, report, dry_run),
        None => Ok(()),
    }
}

/// What a dry run finds, in one word.
fn dry_run_word(dry_run: &DryRun) -> &'static str
    ensures { result.now ≡ dry_run_word dry_run.now }
{
    match dry_run {
        DryRun::Returns => "returns",
        DryRun::Leaves(_) => "leaves",
        DryRun::LoadRefused(_) => "load-refused",
        DryRun::UnloadRefused(_) => "unload-refused",
        DryRun::AlreadyLoaded => "loaded",
        DryRun::LoadsAnother { .. } => "another",
    }
}

/// Writes the variables that are left, why a request is refused, or the other module, as members.
fn write_found(alloc: Global, writer: &mut Writer, dry_run: &DryRun) -> Result<(), AllocError>
    ensures { OnOk result (AddsTokens writer.old writer.new (fields_tokens (found_fields dry_run.now))) }
{
    match dry_run {
        DryRun::Returns | DryRun::AlreadyLoaded => Ok(()),
        DryRun::Leaves(names) => write_text_array(writer, "variables", names.as_slice()),
        DryRun::LoadRefused(refusal) | DryRun::UnloadRefused(refusal) => {
            write_refused_request(alloc, writer, refusal)
        }
        DryRun::LoadsAnother { name, path } => {
            write_text(writer, "name", name.as_str())?;
            write_text(writer, "path", path.as_str())
        }
    }
}

/// Writes what a dry run finds as an object.
fn write_dry_run(alloc: Global, writer: &mut Writer, dry_run: &DryRun) -> Result<(), AllocError>
    ensures { OnOk result (AddsTokens writer.old writer.new (json_tokens (dry_run_value dry_run.now))) }
{
    writer.begin_object()?;
    write_text(writer, "dry_run", dry_run_word(dry_run))?;
    write_found(alloc, writer, dry_run)?;
    writer.end_object()
}

/// Writes what happens here as a member, where the module is tried.
pub(crate) fn write_here(
    alloc: Global,
    writer: &mut Writer,
    dry_run: Option<&DryRun>,
) -> Result<(), AllocError>
    ensures { OnOk result (AddsTokens writer.old writer.new
        (fields_tokens (here_fields (option_map (λ t. t.now) dry_run.entry)))) }
{
    match dry_run {
        Some(dry_run) => {
            writer.key("here")?;
            write_dry_run(alloc, writer, dry_run)
        }
        None => Ok(()),
    }
}
