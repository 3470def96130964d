//! The report of an audit as one JSON document, written a token at a time.
ghost use Rattle.std.specs.Prelude.{◌≡◌, [], ◌∷◌, ◌++◌, codes, decimal, flat_map, length, OnOk, IfOk, option_map, string_bytes};
ghost use Rattle.json.specs.Json.{number};
ghost use Rattle.json.specs.Token.{key, string};
ghost use Rattle.json.specs.Tree.{json_tokens};
ghost use Rattle.audit_report.specs.Documents as spec;
ghost use Rattle.audit_report.specs.Tokens.{AddsTokens, fields_tokens, field_tokens, missing_tokens, named_tokens};
ghost use Rattle.audit_report.specs.Tried.{with_dry_runs};

use crate::readable::{ReadableAudit, is_unreadable};
use crate::refused::write_refused_module;
use crate::remarks::command_of;
use crate::selection::{Selection, certified_count};
use crate::tokens::{write_all_used, write_path_fields, write_text, write_text_array, write_use};
use crate::tried::{first_dry_run, later_dry_runs, write_here};
use crate::words::{question_words, record_words, standing_word};
use audit_certificate::{Clash, Disagreement, UsedVariable, VariableUse};
use audit_dry_runs::DryRun;
use audit_site::{AddedDirectory, AuditStanding, AuditedModule, UnknownNames};
use json::Writer;
use std::alloc::{AllocError, Global};

/// Writes a variable and two uses of it as members.
fn write_two_uses(
    alloc: Global,
    writer: &mut Writer,
    variable: &String,
    one: &VariableUse,
    other: &VariableUse,
) -> Result<(), AllocError>
    ensures { OnOk result (AddsTokens writer.old writer.new
        (fields_tokens (spec.two_uses_fields variable.now one.now other.now))) }
{
    write_text(writer, "variable", variable.as_str())?;
    writer.key("uses")?;
    writer.begin_array()?;
    write_use(alloc, writer, one)?;
    write_use(alloc, writer, other)?;
    writer.end_array()
}

/// Writes another module, by its name and the path of its file, as a member.
fn write_other(writer: &mut Writer, name: &String, path: &String) -> Result<(), AllocError>
    ensures { OnOk result (AddsTokens writer.old writer.new
        (field_tokens (codes "other", spec.place_value name.now path.now))) }
{
    writer.key("other")?;
    writer.begin_object()?;
    write_text(writer, "name", name.as_str())?;
    write_text(writer, "path", path.as_str())?;
    writer.end_object()
}

/// Writes how many modules use the variable of a clash as the other does, as a member.
fn write_alike(writer: &mut Writer, clash: &Clash) -> Result<(), AllocError>
    ensures { OnOk result (AddsTokens writer.old writer.new
        (field_tokens (codes "alike", number (decimal clash.now.alike)))) }
{
    let alike = clash.alike as u64;
    writer.key("alike")?;
    writer.u64(alike)
}

/// Writes the variables that a certified module reads as a member; nothing where it reads none.
fn write_reads(writer: &mut Writer, reads: &[String]) -> Result<(), AllocError>
    ensures { OnOk result (AddsTokens writer.old writer.new (fields_tokens (spec.reads_fields reads.now))) }
{
    match reads {
        [] => Ok(()),
        [_, ..] => write_text_array(writer, "reads", reads),
    }
}

/// Writes a clash, as members.
fn write_clash(alloc: Global, writer: &mut Writer, clash: &Clash) -> Result<(), AllocError>
    ensures { OnOk result (AddsTokens writer.old writer.new (fields_tokens (spec.clash_fields clash.now))) }
{
    write_two_uses(alloc, writer, &clash.variable, &clash.own, &clash.theirs)?;
    write_other(writer, &clash.other_name, &clash.other_path)?;
    write_alike(writer, clash)
}

/// Writes why a module that reads these variables stands so, as members.
fn write_standing(
    alloc: Global,
    writer: &mut Writer,
    reads: &[String],
    standing: &AuditStanding,
) -> Result<(), AllocError>
    ensures { OnOk result (AddsTokens writer.old writer.new
        (fields_tokens (spec.standing_fields reads.now standing.now))) }
{
    match standing {
        AuditStanding::Certified => write_reads(writer, reads),
        AuditStanding::Unstable(first) => {
            let words = question_words(alloc, first)?;
            write_text(writer, "question", words.as_str())
        }
        AuditStanding::OneWay(first) => {
            let words = record_words(alloc, first)?;
            write_text(writer, "record", words.as_str())
        }
        AuditStanding::Inconsistent {
            variable,
            one,
            other,
        } => write_two_uses(alloc, writer, variable, one, other),
        AuditStanding::Excluded => Ok(()),
        AuditStanding::Clashes(clash) => write_clash(alloc, writer, clash),
        AuditStanding::Refused(refusal) => write_refused_module(alloc, writer, refusal),
    }
}

/// Writes another reason of a module as an object.
fn write_other_reasons_standing(
    alloc: Global,
    writer: &mut Writer,
    other_reasons: &AuditStanding,
) -> Result<(), AllocError>
    ensures { OnOk result (AddsTokens writer.old writer.new (json_tokens (spec.other_reasons_value other_reasons.now))) }
{
    writer.begin_object()?;
    write_text(writer, "standing", standing_word(other_reasons))?;
    write_standing(alloc, writer, &[], other_reasons)?;
    writer.end_object()
}

/// Writes such standings, one after another.
fn write_all_other_reasons(
    alloc: Global,
    writer: &mut Writer,
    standings: &[AuditStanding],
) -> Result<(), AllocError>
    ensures { OnOk result (AddsTokens writer.old writer.new
        (flat_map (λ s. json_tokens (spec.other_reasons_value s)) standings.now)) }
{
    for other_reasons in standings {
        write_other_reasons_standing(alloc, writer, other_reasons)?;
    }
    Ok(())
}

/// Writes the array of such standings as a member.
fn write_other_reasons_array(
    alloc: Global,
    writer: &mut Writer,
    standings: &[AuditStanding],
) -> Result<(), AllocError>
    ensures { OnOk result (AddsTokens writer.old writer.new (field_tokens (spec.other_reasons_field standings.now))) }
{
    writer.key("other_reasons")?;
    writer.begin_array()?;
    write_all_other_reasons(alloc, writer, standings)?;
    writer.end_array()
}

/// Writes the other reasons of a module as a member; nothing where it has none.
fn write_other_reasons(
    alloc: Global,
    writer: &mut Writer,
    standings: &[AuditStanding],
) -> Result<(), AllocError>
    ensures { OnOk result (AddsTokens writer.old writer.new (fields_tokens (spec.other_reasons_fields standings.now))) }
{
    match standings {
        [] => Ok(()),
        [_, ..] => write_other_reasons_array(alloc, writer, standings),
    }
}

/// Writes a module as an object.
fn write_module(
    alloc: Global,
    writer: &mut Writer,
    module: &AuditedModule,
    dry_run: Option<&DryRun>,
) -> Result<(), AllocError>
    ensures { OnOk result (AddsTokens writer.old writer.new
        (json_tokens (spec.module_value (module.now, option_map (λ t. t.now) dry_run.entry)))) }
{
    writer.begin_object()?;
    write_text(writer, "name", module.name.as_str())?;
    write_text(writer, "path", module.path.as_str())?;
    write_text(writer, "standing", standing_word(&module.standing))?;
    write_standing(alloc, writer, module.reads.as_slice(), &module.standing)?;
    write_other_reasons(alloc, writer, module.other_reasons.as_slice())?;
    write_here(alloc, writer, dry_run)?;
    writer.end_object()
}

/// Writes a module, where the report names it.
fn write_named(
    alloc: Global,
    writer: &mut Writer,
    selection: Selection,
    module: &AuditedModule,
    dry_run: Option<&DryRun>,
) -> Result<(), AllocError>
    ensures { OnOk result (AddsTokens writer.old writer.new
        (named_tokens selection (module.now, option_map (λ t. t.now) dry_run.entry))) }
{
    if selection.names(&module.standing) {
        return write_module(alloc, writer, module, dry_run);
    }
    Ok(())
}

/// Writes the modules that the report names, each with its dry run, one after another.
fn write_all_named(
    alloc: Global,
    writer: &mut Writer,
    selection: Selection,
    modules: &[AuditedModule],
    dry_runs: &[Option<DryRun>],
) -> Result<(), AllocError>
    ensures { OnOk result (AddsTokens writer.old writer.new
        (flat_map (named_tokens selection) (with_dry_runs modules.now dry_runs.now))) }
{
    let mut dry_runs = dry_runs;
    for module in modules {
        write_named(alloc, writer, selection, module, first_dry_run(dry_runs))?;
        dry_runs = later_dry_runs(dry_runs);
    }
    Ok(())
}

/// Writes a directory that can be reached only through a module that isn't deterministic, with the module, as an
/// object.
fn write_added(writer: &mut Writer, added: &AddedDirectory) -> Result<(), AllocError>
    ensures { OnOk result (AddsTokens writer.old writer.new (json_tokens (spec.added_value added.now))) }
{
    writer.begin_object()?;
    write_text(writer, "name", added.name.as_str())?;
    write_text(writer, "path", added.path.as_str())?;
    write_text(writer, "directory", added.directory.as_str())?;
    writer.end_object()
}

/// Writes such directories, one after another.
fn write_all_added(writer: &mut Writer, dirs: &[AddedDirectory]) -> Result<(), AllocError>
    ensures { OnOk result (AddsTokens writer.old writer.new
        (flat_map (λ added. json_tokens (spec.added_value added)) dirs.now)) }
{
    for added in dirs {
        write_added(writer, added)?;
    }
    Ok(())
}

/// Writes such directories as a member.
fn write_unreachable(writer: &mut Writer, dirs: &[AddedDirectory]) -> Result<(), AllocError>
    ensures { OnOk result (AddsTokens writer.old writer.new (field_tokens (spec.unreachable_field dirs.now))) }
{
    writer.key("unreachable_directories")?;
    writer.begin_array()?;
    write_all_added(writer, dirs)?;
    writer.end_array()
}

/// Writes a command whose names mean no module of the site, as an object.
fn write_unknown(writer: &mut Writer, unknown: &UnknownNames) -> Result<(), AllocError>
    ensures { OnOk result (AddsTokens writer.old writer.new (json_tokens (spec.unknown_value unknown.now))) }
{
    writer.begin_object()?;
    write_text(writer, "name", unknown.name.as_str())?;
    write_text(writer, "path", unknown.path.as_str())?;
    write_text(writer, "command", command_of(unknown))?;
    write_text_array(writer, "names", unknown.names.as_slice())?;
    writer.end_object()
}

/// Writes such commands, one after another.
fn write_unknowns(writer: &mut Writer, unknowns: &[UnknownNames]) -> Result<(), AllocError>
    ensures { OnOk result (AddsTokens writer.old writer.new
        (flat_map (λ u. json_tokens (spec.unknown_value u)) unknowns.now)) }
{
    for unknown in unknowns {
        write_unknown(writer, unknown)?;
    }
    Ok(())
}

/// Writes the members of a disagreement of the environment at hand.
fn write_disagreement_fields(
    alloc: Global,
    writer: &mut Writer,
    reason: &Disagreement,
) -> Result<(), AllocError>
    ensures { OnOk result (AddsTokens writer.old writer.new (fields_tokens (spec.disagreement_fields reason.now))) }
{
    match reason {
        Disagreement::LoadedTexts => write_text(writer, "use", "loaded"),
        Disagreement::IsSet(variable) => {
            write_text(writer, "variable", variable.as_str())?;
            write_text(writer, "use", "set")
        }
        Disagreement::HasNotValue { variable, value } => {
            write_text(writer, "variable", variable.as_str())?;
            write_text(writer, "use", "unset")?;
            write_text(writer, "value", value.as_str())
        }
        Disagreement::IsNotAbsent(variable) => {
            write_text(writer, "variable", variable.as_str())?;
            write_text(writer, "use", "unset")
        }
        Disagreement::PathNotInOrder { variable, delim } => {
            write_text(writer, "variable", variable.as_str())?;
            write_path_fields(alloc, writer, *delim)
        }
        Disagreement::StackNotInOrder(variable) => {
            write_text(writer, "variable", variable.as_str())?;
            write_text(writer, "use", "stack")
        }
    }
}

/// Writes a disagreement of the environment at hand as an object.
fn write_disagreement(
    alloc: Global,
    writer: &mut Writer,
    reason: &Disagreement,
) -> Result<(), AllocError>
    ensures { OnOk result (AddsTokens writer.old writer.new (json_tokens (spec.disagreement_value reason.now))) }
{
    writer.begin_object()?;
    write_disagreement_fields(alloc, writer, reason)?;
    writer.end_object()
}

/// Writes such disagreements, one after another.
fn write_disagreements(
    alloc: Global,
    writer: &mut Writer,
    reasons: &[Disagreement],
) -> Result<(), AllocError>
    ensures { OnOk result (AddsTokens writer.old writer.new
        (flat_map (λ d. json_tokens (spec.disagreement_value d)) reasons.now)) }
{
    for reason in reasons {
        write_disagreement(alloc, writer, reason)?;
    }
    Ok(())
}

/// Writes the modules that the report names, each with its dry run, as a member.
fn write_modules(
    alloc: Global,
    writer: &mut Writer,
    selection: Selection,
    modules: &[AuditedModule],
    dry_runs: &[Option<DryRun>],
) -> Result<(), AllocError>
    ensures { OnOk result (AddsTokens writer.old writer.new
        (field_tokens (spec.modules_field selection modules.now dry_runs.now))) }
{
    writer.key("modules")?;
    writer.begin_array()?;
    write_all_named(alloc, writer, selection, modules, dry_runs)?;
    writer.end_array()
}

/// Writes how many of the modules are certified, and how many there are, with the paths that can't be read, as members.
fn write_counts(
    writer: &mut Writer,
    unreadable: &[String],
    modules: &[AuditedModule],
) -> Result<(), AllocError>
    ensures { OnOk result (AddsTokens writer.old writer.new
        (fields_tokens (spec.count_fields (length unreadable.now) modules.now))) }
{
    let certified = certified_count(modules) as u64;
    let count = (modules.len() + unreadable.len()) as u64;
    writer.key("certified")?;
    writer.u64(certified)?;
    writer.key("count")?;
    writer.u64(count)
}

/// Writes the certificate as a member.
fn write_certificate(
    alloc: Global,
    writer: &mut Writer,
    certificate: &[UsedVariable],
) -> Result<(), AllocError>
    ensures { OnOk result (AddsTokens writer.old writer.new (field_tokens (spec.certificate_field certificate.now))) }
{
    writer.key("certificate")?;
    writer.begin_array()?;
    write_all_used(alloc, writer, certificate)?;
    writer.end_array()
}

/// Writes the names that mean no module of the site, and the disagreements, as members.
fn write_rest(
    alloc: Global,
    writer: &mut Writer,
    unknowns: &[UnknownNames],
    reasons: &[Disagreement],
) -> Result<(), AllocError>
    ensures { OnOk result (AddsTokens writer.old writer.new
        (fields_tokens (spec.rest_fields unknowns.now reasons.now))) }
{
    writer.key("unknown_names")?;
    writer.begin_array()?;
    write_unknowns(writer, unknowns)?;
    writer.end_array()?;
    writer.key("disagreements")?;
    writer.begin_array()?;
    write_disagreements(alloc, writer, reasons)?;
    writer.end_array()
}

/// Writes a directory that isn't there, but nothing where it can't be read.
fn write_missing_directory(
    writer: &mut Writer,
    unreadable: &[String],
    dir: &String,
) -> Result<(), AllocError>
    ensures { OnOk result (AddsTokens writer.old writer.new (missing_tokens unreadable.now dir.now)) }
{
    if is_unreadable(unreadable, dir.as_str()) {
        return Ok(());
    }
    writer.string(dir.as_str())
}

/// Writes such directories, one after another.
fn write_all_missing(
    writer: &mut Writer,
    unreadable: &[String],
    dirs: &[String],
) -> Result<(), AllocError>
    ensures { OnOk result (AddsTokens writer.old writer.new (flat_map (missing_tokens unreadable.now) dirs.now)) }
{
    for dir in dirs {
        write_missing_directory(writer, unreadable, dir)?;
    }
    Ok(())
}

/// Writes the directories that aren't there, but for those that can't be read, as a member.
fn write_missing(
    writer: &mut Writer,
    unreadable: &[String],
    dirs: &[String],
) -> Result<(), AllocError>
    ensures { OnOk result (AddsTokens writer.old writer.new
        (field_tokens (spec.missing_field unreadable.now dirs.now))) }
{
    writer.key("missing_directories")?;
    writer.begin_array()?;
    write_all_missing(writer, unreadable, dirs)?;
    writer.end_array()
}

/// Writes the paths of directories and files of which there are remarks, as members.
fn write_paths(writer: &mut Writer, audit: &ReadableAudit) -> Result<(), AllocError>
    ensures { OnOk result (AddsTokens writer.old writer.new (fields_tokens (spec.paths_fields audit.now))) }
{
    let found = &audit.found;
    write_missing(
        writer,
        audit.unreadable.as_slice(),
        found.missing_directories.as_slice(),
    )?;
    write_text_array(writer, "no_modulefiles", found.no_modulefiles.as_slice())?;
    write_text_array(
        writer,
        "unread_default_files",
        found.unread_default_files.as_slice(),
    )?;
    write_text_array(
        writer,
        "bad_default_files",
        found.bad_default_files.as_slice(),
    )
}

/// Writes the whole document.
fn write_document(
    alloc: Global,
    writer: &mut Writer,
    selection: Selection,
    audit: &ReadableAudit,
) -> Result<(), AllocError>
    ensures { OnOk result (AddsTokens writer.old writer.new (json_tokens (spec.document selection audit.now))) }
{
    let found = &audit.found;
    let unreadable = audit.unreadable.as_slice();
    writer.begin_object()?;
    write_modules(
        alloc,
        writer,
        selection,
        found.modules.as_slice(),
        audit.dry_runs.as_slice(),
    )?;
    write_text_array(writer, "unreadable", unreadable)?;
    write_counts(writer, unreadable, found.modules.as_slice())?;
    write_certificate(alloc, writer, found.certificate.as_slice())?;
    write_paths(writer, audit)?;
    write_unreachable(writer, found.unreachable_directories.as_slice())?;
    write_text_array(writer, "not_utf8", audit.not_utf8.as_slice())?;
    write_rest(
        alloc,
        writer,
        found.unknown_names.as_slice(),
        found.disagreements.as_slice(),
    )?;
    writer.end_object()
}

/// The report of an audit as one JSON document, on a line of its own. It fails for want of memory alone.
pub fn json_report(
    alloc: Global,
    selection: Selection,
    audit: &ReadableAudit,
) -> Result<Vec<u8>, AllocError>
    ensures { IfOk result (λ report. report.items ≡ spec.document_text selection audit.now) }
{
    let mut writer = Writer::new(Vec::new(alloc));
    write_document(alloc, &mut writer, selection, audit)?;
    let mut report = writer.into_inner();
    report.push(b'\n')?;
    Ok(report)
}
