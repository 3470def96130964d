//! Runs an audit (modaudit(1)): its arguments, what it finds, and what it writes.
ghost use Rattle.std.specs.Prelude.{◌≡◌, ◌<◌, ◌≤◌, map, IfOk, IfErr, string_bytes};
ghost use Rattle.std.specs.List.{list_all};
ghost use Rattle.audit_site.specs.Audits.{is_certified};
ghost use Rattle.modaudit.specs.command.ArgumentViews.{wanted_view};
ghost use Rattle.modaudit.specs.command.Audits as spec;
ghost use Rattle.modaudit.specs.command.Audits.{EndsAudit, EndsJudged, HasFailedOften, IsAuditFault, IsSiteFault};
ghost use Rattle.modaudit.specs.command.Audits.{WritesAudit, WritesFault, WritesHelp, judged_env};
ghost use Rattle.modaudit.specs.command.Looked.{AuditCommandLooksAt, ReadsUnlessFails, JudgedLooksAt};
ghost use Rattle.modaudit.specs.command.Steps.{IsPrepared, IsPreparedAudit};

use crate::command::arguments::{AuditArguments, Format, asks_help, wanted_of};
use crate::command::audit_exit::AuditExit;
use crate::command::audit_fault::{AuditFault, write_fault};
use crate::command::directories::judged_env;
use crate::command::layout::Layout;
use crate::command::there::is_nothing_there;
use crate::command::trying::audit_tried;
use audit_report::{ReadableAudit, json_report, line_report};
use audit_site::{AuditStanding, AuditedModule, WalkProgress};
use envvars::Env;
use filetree::Tree;
use filetree::hiding::HidingTree;
use modulecmd::write_bytes;
use std::alloc::{AllocError, Global};
use std::io::Write;

/// How the program is called, and what its options do.
const HELP: &str =
    "Usage: modaudit [--quiet] [--json] [--without NAME]... [DIR...]\n--quiet names no certified module; --json writes a document; --without certifies none that NAME means\n";

/// What an audit is to write, and whether each module is certified and all can be read.
#[derive(Drop)]
struct PreparedAudit {
    /// Whether each module is certified, and all can be read.
    is_all_certified: bool,
    /// The report, for standard output.
    report: Vec<u8>,
}

/// The report that is asked for.
fn report_of(
    alloc: Global,
    wanted: &AuditArguments,
    layout: Layout,
    audit: &ReadableAudit,
) -> Result<Vec<u8>, AllocError>
    ensures { IfOk result (λ report. report.items ≡ spec.report_text layout (wanted_view wanted.now) audit.now) }
{
    match wanted.format {
        Format::Lines => layout.laid_out(alloc, line_report(alloc, wanted.selection, audit)?),
        Format::Document => json_report(alloc, wanted.selection, audit),
    }
}

fn are_all_certified(modules: &[AuditedModule]) -> bool
    ensures { result ≡ list_all (λ m. is_certified m.standing) modules.now }
{
    modules.iter().all(|module| matches!(module.standing, AuditStanding::Certified))
}

/// Whether each module is certified, and all can be read.
fn is_all_certified(audit: &ReadableAudit) -> bool
    ensures { result ≡ spec.all_certified audit.now }
{
    audit.unreadable.is_empty() && are_all_certified(audit.found.modules.as_slice())
}

/// The audit of the site that is asked for, without what can't be read, and what is to be written of it; nothing is
/// written yet.
fn prepare<T: Tree + Drop, P: WalkProgress>(
    alloc: Global,
    wanted: &AuditArguments,
    layout: Layout,
    env: Env,
    not_utf8: &[String],
    tree: &mut HidingTree<T>,
    progress: &mut P,
) -> Result<PreparedAudit, AuditFault>
    ensures reads { ReadsUnlessFails T.agrees T.failures T.failed tree.old.tree tree.new.tree
        (JudgedLooksAt (judged_env env (wanted_view wanted.now).directories) (wanted_view wanted.now).directories) }
    ensures answered { IfOk result (IsPrepared layout (T.agrees tree.new.tree) (T.failed tree.new.tree)
        (T.failures tree.old.tree) (T.failures tree.new.tree) env (map string_bytes not_utf8.now)
        (wanted_view wanted.now)) }
    ensures refused { IfErr result (IsSiteFault (T.agrees tree.new.tree)
        (T.failed tree.new.tree)
        ((T.failures tree.old.tree < T.failures tree.new.tree)
        × HasFailedOften (T.failed tree.new.tree) (T.failures tree.new.tree))
        (judged_env env (wanted_view wanted.now).directories) (wanted_view wanted.now).directories) }
{
    let directories = wanted.directories.as_slice();
    let judged = judged_env(alloc, env, directories)?;
    let audit = audit_tried(
        alloc,
        directories,
        wanted.without.as_slice(),
        &judged,
        not_utf8,
        tree,
        progress,
    )?;
    let is_nothing = is_nothing_there(alloc, &judged, &audit)?;
    if is_nothing {
        return Err(AuditFault::EmptyModulepath);
    }
    let report = report_of(alloc, wanted, layout, &audit)?;
    Ok(PreparedAudit {
        is_all_certified: is_all_certified(&audit),
        report,
    })
}

/// Audits the site that the arguments ask for, as `prepare` does.
fn answer_of<T: Tree + Drop, P: WalkProgress>(
    alloc: Global,
    args: &[String],
    layout: Layout,
    env: Env,
    not_utf8: &[String],
    tree: &mut HidingTree<T>,
    progress: &mut P,
) -> Result<PreparedAudit, AuditFault>
    ensures reads { ReadsUnlessFails T.agrees T.failures T.failed tree.old.tree tree.new.tree
        (AuditCommandLooksAt env (map string_bytes args.now)) }
    ensures answered { IfOk result (IsPreparedAudit layout (T.agrees tree.new.tree) (T.failed tree.new.tree)
        (T.failures tree.old.tree) (T.failures tree.new.tree) env (map string_bytes not_utf8.now)
        (map string_bytes args.now)) }
    ensures refused { IfErr result (IsAuditFault (T.agrees tree.new.tree)
        (T.failed tree.new.tree)
        ((T.failures tree.old.tree < T.failures tree.new.tree)
        × HasFailedOften (T.failed tree.new.tree) (T.failures tree.new.tree)) env
        (map string_bytes args.now)) }
{
    match wanted_of(alloc, args)? {
        None => Err(AuditFault::BadArguments),
        Some(wanted) => prepare(alloc, &wanted, layout, env, not_utf8, tree, progress),
    }
}

/// Writes the line that says why there is no audit, or that its report isn't written.
fn report_fault<E: Write>(fault: &AuditFault, err: &mut E) -> AuditExit
    ensures { WritesFault result (E.contents err.old) (E.contents err.new) fault.now }
{
    if write_fault(fault, err).is_ok() {
        AuditExit::Reported
    } else {
        AuditExit::CutShort
    }
}

/// Writes the report. After a failed write the line that says so is tried once.
fn write_report<W: Write, E: Write>(answer: &PreparedAudit, out: &mut W, err: &mut E) -> AuditExit
    ensures { WritesAudit result answer.now.is_all_certified answer.now.report.items
        (W.contents out.old) (W.contents out.new) (E.contents err.old) (E.contents err.new) }
{
    if write_bytes(out, answer.report.as_slice()).is_err() {
        return report_fault(&AuditFault::WriteFailed, err);
    }
    if answer.is_all_certified {
        AuditExit::AllCertified
    } else {
        AuditExit::SomeNotCertified
    }
}

/// Writes a text of help. After a failed write the line that says so is tried once.
fn write_help<W: Write, E: Write>(text: &str, out: &mut W, err: &mut E) -> AuditExit
    ensures { WritesHelp result text.now
        (W.contents out.old) (W.contents out.new) (E.contents err.old) (E.contents err.new) }
{
    if write_bytes(out, text.as_bytes()).is_err() {
        return report_fault(&AuditFault::WriteFailed, err);
    }
    AuditExit::Helped
}

/// Audits the site that the arguments ask for, writes what is to be written, and answers how it ended.
fn run_judged<T: Tree + Drop, P: WalkProgress, W: Write, E: Write>(
    alloc: Global,
    args: &[String],
    layout: Layout,
    env: Env,
    not_utf8: &[String],
    tree: &mut HidingTree<T>,
    progress: &mut P,
    out: &mut W,
    err: &mut E,
) -> AuditExit
    ensures reads { ReadsUnlessFails T.agrees T.failures T.failed tree.old.tree tree.new.tree
        (AuditCommandLooksAt env (map string_bytes args.now)) }
    ensures ended { EndsJudged result layout (T.agrees tree.new.tree) (T.failed tree.new.tree)
        (T.failures tree.old.tree) (T.failures tree.new.tree) env (map string_bytes not_utf8.now)
        (map string_bytes args.now) (W.contents out.old) (W.contents out.new) (E.contents err.old) (E.contents err.new) }
{
    let answer = answer_of(alloc, args, layout, env, not_utf8, tree, progress);
    // Nothing is under way any more, and the streams are free for what is written.
    progress.evaluated(0, 0);
    match answer {
        Ok(answer) => write_report(&answer, out, err),
        Err(fault) => report_fault(&fault, err),
    }
}

/// Audits a site over an environment and a tree of modulefiles, and answers how it ended.
///
/// The arguments are the options `--quiet` and `--json`, and directories, which are the MODULEPATH of the audit; where
/// there are none, it is that of the environment. Where `--help` is among the options, standard output says how the
/// program is called, and nothing else is done. A word that begins with `-` and is no such option is refused (56), but
/// not after the word `--`; after that the first word that names no directory is a fault of its own, before anything of
/// the site is read, and so is one at which the device fails (43), and a MODULEPATH without a directory. Each file of
/// the site is read once, and the report goes to standard output, its lines laid out as is said. It names the other
/// files and directories that can't be read, each once: the device failed at each of them, and the audit is one of what
/// stands elsewhere. There is none (43) only where the device failed in this call, and at a thousand paths in all; nor
/// where no directory of MODULEPATH is there. The process has the given variables besides, which aren't UTF-8, so that
/// the environment hasn't them: the report names those that concern the certificate, and no dry run that loses one
/// returns.
///
/// Where there is a fault before the report is made, nothing is written but the line that says why, to standard error.
pub fn run_audit<T: Tree + Drop, P: WalkProgress, W: Write, E: Write>(
    alloc: Global,
    args: &[String],
    layout: Layout,
    env: Env,
    not_utf8: &[String],
    tree: &mut HidingTree<T>,
    progress: &mut P,
    out: &mut W,
    err: &mut E,
) -> AuditExit
    ensures reads { ReadsUnlessFails T.agrees T.failures T.failed tree.old.tree tree.new.tree
        (AuditCommandLooksAt env (map string_bytes args.now)) }
    ensures ended { EndsAudit result layout (tree.new ≡ tree.old) (T.agrees tree.new.tree)
        (T.failed tree.new.tree) (T.failures tree.old.tree) (T.failures tree.new.tree) env
        (map string_bytes not_utf8.now) (map string_bytes args.now) (W.contents out.old) (W.contents out.new)
        (E.contents err.old) (E.contents err.new) }
{
    if asks_help(args) {
        return write_help(HELP, out, err);
    }
    run_judged(alloc, args, layout, env, not_utf8, tree, progress, out, err)
}
