//! The report of an audit as lines, of which each has its newline.
ghost use Rattle.std.specs.Prelude.{◌≡◌, ◌++◌, OnOk, IfOk, length, option_map};
ghost use Rattle.audit_report.specs.Reports as spec;

use crate::conflicts::push_conflicts;
use crate::fields::{push_field, push_text};
use crate::readable::{ReadableAudit, push_unreadable};
use crate::refused::push_refused_line;
use crate::remarks::{
    push_all_other_reasons, push_bad_files, push_disagreements, push_missing, push_no_modulefiles,
    push_not_utf8, push_prereqs, push_unreachable_directories, push_unread_files,
};
use crate::selection::{Selection, certified_count, standing_count};
use crate::tried::{first_dry_run, later_dry_runs, push_here};
use crate::words::{reason, standing_word};
use audit_dry_runs::DryRun;
use audit_site::AuditedModule;
use std::alloc::{AllocError, Global};

/// Adds the line of a module: its name, how it stands, why, its path, at which line it is refused, and what happens
/// here.
fn push_line(
    alloc: Global,
    report: &mut Vec<u8>,
    module: &AuditedModule,
    dry_run: Option<&DryRun>,
) -> Result<(), AllocError>
    ensures { OnOk result (report.new.items
        ≡ report.old.items ++ spec.module_line module.now (option_map (λ t. t.now) dry_run.entry)) }
{
    let why = reason(alloc, module)?;
    push_field(report, module.name.as_str())?;
    push_text(report, "\t")?;
    push_text(report, standing_word(&module.standing))?;
    push_text(report, "\t")?;
    push_field(report, why.as_str())?;
    push_text(report, "\t")?;
    push_field(report, module.path.as_str())?;
    push_refused_line(alloc, report, &module.standing)?;
    push_here(alloc, report, dry_run)?;
    push_text(report, "\n")
}

/// Adds the line of a module, where the report names it.
fn push_module(
    alloc: Global,
    report: &mut Vec<u8>,
    selection: Selection,
    module: &AuditedModule,
    dry_run: Option<&DryRun>,
) -> Result<(), AllocError>
    ensures { OnOk result (report.new.items
        ≡ report.old.items ++ spec.named_line selection (module.now, option_map (λ t. t.now) dry_run.entry)) }
{
    if selection.names(&module.standing) {
        push_line(alloc, report, module, dry_run)?;
    }
    Ok(())
}

/// Adds the lines of the modules that the report names, each with its dry run.
fn push_modules(
    alloc: Global,
    report: &mut Vec<u8>,
    selection: Selection,
    modules: &[AuditedModule],
    dry_runs: &[Option<DryRun>],
) -> Result<(), AllocError>
    ensures { OnOk result (report.new.items
        ≡ report.old.items ++ spec.named_lines selection modules.now dry_runs.now) }
{
    let mut dry_runs = dry_runs;
    for module in modules {
        push_module(alloc, report, selection, module, first_dry_run(dry_runs))?;
        dry_runs = later_dry_runs(dry_runs);
    }
    Ok(())
}

/// Adds the line that says how many modules are certified, of them and the paths that can't be read.
fn push_count(
    alloc: Global,
    report: &mut Vec<u8>,
    unreadable: &[String],
    modules: &[AuditedModule],
) -> Result<(), AllocError>
    ensures { OnOk result (report.new.items ≡ report.old.items ++ spec.count_line (length unreadable.now) modules.now) }
{
    let certified = certified_count(modules);
    let count = modules.len() + unreadable.len();
    let line = format!(in alloc; "# {certified} certified of {count}\n")?;
    push_text(report, line.as_str())
}

/// Adds the line that says that so many modules stand as the word says, if any does.
fn push_number(
    alloc: Global,
    report: &mut Vec<u8>,
    count: usize,
    word: &str,
) -> Result<(), AllocError>
    ensures { OnOk result (report.new.items ≡ report.old.items ++ spec.number_line count word.now) }
{
    if count == 0 {
        return Ok(());
    }
    let line = format!(in alloc; "# {count} {word}\n")?;
    push_text(report, line.as_str())
}

/// Adds the line that says how many of the modules stand as the word says, with those of these paths, if any does.
fn push_sum(
    alloc: Global,
    report: &mut Vec<u8>,
    word: &str,
    others: &[String],
    modules: &[AuditedModule],
) -> Result<(), AllocError>
    ensures { OnOk result (report.new.items ≡ report.old.items ++ spec.sum_line word.now (length others.now) modules.now) }
{
    let count = standing_count(word, modules) + others.len();
    push_number(alloc, report, count, word)
}

/// Adds such a line for each standing but certified: the paths that can't be read are refused.
fn push_sums(
    alloc: Global,
    report: &mut Vec<u8>,
    unreadable: &[String],
    modules: &[AuditedModule],
) -> Result<(), AllocError>
    ensures { OnOk result (report.new.items ≡ report.old.items ++ spec.sum_lines (length unreadable.now) modules.now) }
{
    push_sum(alloc, report, "unstable", &[], modules)?;
    push_sum(alloc, report, "one-way", &[], modules)?;
    push_sum(alloc, report, "inconsistent", &[], modules)?;
    push_sum(alloc, report, "excluded", &[], modules)?;
    push_sum(alloc, report, "clashes", &[], modules)?;
    push_sum(alloc, report, "refused", unreadable, modules)
}

/// Adds the lines of the modules that the report names, and of what can't be read.
fn push_lines(
    alloc: Global,
    report: &mut Vec<u8>,
    selection: Selection,
    audit: &ReadableAudit,
) -> Result<(), AllocError>
    ensures { OnOk result (report.new.items ≡ report.old.items ++ spec.lines_of selection audit.now) }
{
    push_modules(
        alloc,
        report,
        selection,
        audit.found.modules.as_slice(),
        audit.dry_runs.as_slice(),
    )?;
    push_unreadable(report, audit.unreadable.as_slice())
}

/// Adds the line that says how many modules are certified, and those of the other standings.
fn push_counts(alloc: Global, report: &mut Vec<u8>, audit: &ReadableAudit) -> Result<(), AllocError>
    ensures { OnOk result (report.new.items ≡ report.old.items ++ spec.counts_of audit.now) }
{
    let modules = audit.found.modules.as_slice();
    let unreadable = audit.unreadable.as_slice();
    push_count(alloc, report, unreadable, modules)?;
    push_sums(alloc, report, unreadable, modules)
}

/// The report of an audit as lines: one for each module that it names, one for each path that can't be read, one that
/// says how many modules are certified, one for each other standing that says how many stand so, and the remarks. It
/// fails for want of memory alone.
pub fn line_report(
    alloc: Global,
    selection: Selection,
    audit: &ReadableAudit,
) -> Result<Vec<u8>, AllocError>
    ensures { IfOk result (λ report. report.items ≡ spec.report_of selection audit.now) }
{
    let found = &audit.found;
    let unreadable = audit.unreadable.as_slice();
    let mut report = Vec::new(alloc);
    push_lines(alloc, &mut report, selection, audit)?;
    push_counts(alloc, &mut report, audit)?;
    push_missing(
        &mut report,
        unreadable,
        found.missing_directories.as_slice(),
    )?;
    push_unreachable_directories(&mut report, found.unreachable_directories.as_slice())?;
    push_all_other_reasons(alloc, &mut report, found.modules.as_slice())?;
    push_no_modulefiles(&mut report, found.no_modulefiles.as_slice())?;
    push_unread_files(&mut report, found.unread_default_files.as_slice())?;
    push_bad_files(&mut report, found.bad_default_files.as_slice())?;
    push_conflicts(alloc, &mut report, found.unknown_names.as_slice())?;
    push_prereqs(&mut report, found.unknown_names.as_slice())?;
    push_disagreements(alloc, &mut report, found.disagreements.as_slice())?;
    push_not_utf8(&mut report, audit.not_utf8.as_slice())?;
    Ok(report)
}
