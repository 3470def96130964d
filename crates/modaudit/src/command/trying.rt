//! What happens with the modules of an audit in the environment that is judged.
ghost use Rattle.std.specs.Prelude.{◌≡◌, ◌+◌, ◌<◌, ◌≤◌, map, IfOk, IfErr, string_bytes};
ghost use Rattle.modaudit.specs.command.Audits.{HasFailedOften, IsSiteFault};
ghost use Rattle.filetree.specs.Agreement.{FailsIf, InEachPair, ReadsOn};
ghost use Rattle.filetree.specs.Causes.{memory};
ghost use Rattle.modules.specs.Answers.{cause_of};
ghost use Rattle.modules.specs.Verdicts.{in_sh};
ghost use Rattle.modulecmd.specs.Command.{standard};
ghost use Rattle.audit_dry_runs.specs.DryRuns.{DryRunLooksAt};
ghost use Rattle.modaudit.specs.command.Looked.{JudgedLooksAt, KeepsFailed, ReadsUnlessFails, DryRunsLookAt};
ghost use Rattle.modaudit.specs.command.Steps.{IsTriedAudit, is_failed_dry_run};
ghost use Rattle.modaudit.specs.command.Tried as spec;
ghost use Rattle.modaudit.specs.command.Tried.{AreDryRuns, IsDryRunOf, count_dry_run, failed_in};

use crate::command::audit_fault::AuditFault;
use crate::command::not_utf8::concerned;
use crate::command::readable::{SeenAudit, audit_readable};
use audit_dry_runs::{DryRun, dry_run_module};
use audit_report::ReadableAudit;
use audit_site::{AuditStanding, AuditedModule, WalkProgress};
use envvars::Env;
use filetree::Tree;
use filetree::hiding::HidingTree;
use modules::{Refusal, STANDARD_LIMITS};
use std::alloc::Global;

/// Whether a module that stands so is tried: it isn't certified, and its evaluation isn't refused.
fn is_tried(standing: &AuditStanding) -> bool
    ensures { result ≡ spec.is_tried standing.now }
{
    match standing {
        AuditStanding::Unstable(_)
        | AuditStanding::OneWay(_)
        | AuditStanding::Inconsistent { .. }
        | AuditStanding::Excluded
        | AuditStanding::Clashes(_) => true,
        AuditStanding::Certified | AuditStanding::Refused(_) => false,
    }
}

/// The dry run of a module; `None` where it isn't tried.
///
/// The only error is want of memory.
fn dry_run_of<T: Tree>(
    alloc: Global,
    judged: &Env,
    not_utf8: &[String],
    tree: &mut T,
    module: &AuditedModule,
) -> Result<Option<DryRun>, Refusal>
    ensures reads { ReadsOn T.agrees T.failures tree.old tree.new }
    ensures tried { IfOk result (λ dry_run. InEachPair (T.agrees tree.new) (λ files listings.
        IsDryRunOf (in_sh standard files listings) (map string_bytes not_utf8.now) judged.now «module».now dry_run)) }
    ensures failures { IfOk result (λ dry_run. T.failures tree.old + count_dry_run dry_run ≤ T.failures tree.new) }
    ensures cause { IfErr result (λ refusal. cause_of refusal ≡ memory) }
    ensures failed { FailsIf (is_failed_dry_run result) (T.failed tree.old) (T.failed tree.new) (λ at.
        InEachPair (T.agrees tree.new) (λ files listings. DryRunLooksAt (in_sh standard files listings) judged.now
        (string_bytes «module».now.name) (string_bytes «module».now.path) at)) }
{
    if !is_tried(&module.standing) {
        return Ok(None);
    }
    let dry_run = dry_run_module(
        alloc,
        judged,
        not_utf8,
        tree,
        STANDARD_LIMITS,
        module.name.as_str(),
        module.path.as_str(),
    )?;
    Ok(Some(dry_run))
}

/// The dry runs of the modules, in their order. What the device fails to read ends the dry run of a module alone.
///
/// The only error is want of memory.
fn dry_runs_of<T: Tree>(
    alloc: Global,
    judged: &Env,
    not_utf8: &[String],
    tree: &mut T,
    modules: &[AuditedModule],
) -> Result<Vec<Option<DryRun>>, Refusal>
    ensures reads { ReadsOn T.agrees T.failures tree.old tree.new }
    ensures tried { IfOk result (λ dry_runs. InEachPair (T.agrees tree.new) (λ files listings.
        AreDryRuns (in_sh standard files listings) (map string_bytes not_utf8.now) judged.now modules.now dry_runs.items)) }
    ensures failures { IfOk result (λ dry_runs. T.failures tree.old + failed_in dry_runs.items ≤ T.failures tree.new) }
    ensures cause { IfErr result (λ refusal. cause_of refusal ≡ memory) }
    ensures kept { KeepsFailed (T.failed tree.old) (T.failed tree.new) }
    ensures failed { ReadsUnlessFails T.agrees T.failures T.failed tree.old tree.new
        (DryRunsLookAt judged.now modules.now) }
{
    let mut dry_runs = Vec::new(alloc);
    for module in modules {
        dry_runs.push(dry_run_of(alloc, judged, not_utf8, tree, module)?)?;
    }
    Ok(dry_runs)
}

/// The audit of the site of an environment, without what can't be read, and what happens there with the modules that
/// aren't certified; with those of these variables, which aren't UTF-8, that concern the certificate.
///
/// Where a word names a directory that can't be read there is none (43), nor where the device failed at more than a
/// thousand paths.
pub(crate) fn audit_tried<T: Tree + Drop, P: WalkProgress>(
    alloc: Global,
    directories: &[String],
    without: &[String],
    judged: &Env,
    not_utf8: &[String],
    tree: &mut HidingTree<T>,
    progress: &mut P,
) -> Result<ReadableAudit, AuditFault>
    ensures reads { ReadsUnlessFails T.agrees T.failures T.failed tree.old.tree tree.new.tree
        (JudgedLooksAt judged.now (map string_bytes directories.now)) }
    ensures found { IfOk result (IsTriedAudit (T.agrees tree.new.tree)
        (T.failed tree.new.tree) (T.failures tree.old.tree) (T.failures tree.new.tree) judged.now
        (map string_bytes not_utf8.now) (map string_bytes directories.now) (map string_bytes without.now)) }
    ensures refused { IfErr result (IsSiteFault (T.agrees tree.new.tree)
        (T.failed tree.new.tree)
        ((T.failures tree.old.tree < T.failures tree.new.tree)
        × HasFailedOften (T.failed tree.new.tree) (T.failures tree.new.tree)) judged.now
        (map string_bytes directories.now)) }
{
    audit_laws::site::laws::walks();
    let SeenAudit { found, unreadable } = audit_readable(
        alloc,
        directories,
        without,
        judged,
        tree,
        progress,
    )?;
    let kept = concerned(alloc, found.certificate.as_slice(), not_utf8)?;
    match dry_runs_of(
        alloc,
        judged,
        not_utf8,
        &mut tree.tree,
        found.modules.as_slice(),
    ) {
        Ok(dry_runs) => Ok(ReadableAudit {
            found,
            unreadable,
            dry_runs,
            not_utf8: kept,
        }),
        Err(refusal) => Err(AuditFault::Refused(refusal)),
    }
}
