//! The audit of the site that is asked for, without what can't be read.
ghost use Rattle.std.specs.Prelude.{◌≡◌, ◌<◌, ◌≤◌, true, length, map, IfOk, IfErr, IfSome, string_bytes};
ghost use Rattle.filetree.specs.Agreement.{FailsWhere, ReadsOn};
ghost use Rattle.filetree.specs.declared.tree.TreeFault.TheVariants as faults;
ghost use Rattle.filetree.specs.hiding.Hidden as hidden;
ghost use Rattle.modules.specs.Answers.{is_failure};
ghost use Rattle.modaudit.specs.command.Audits.{HasFailedOften, IsSiteFault};
ghost use Rattle.modaudit.specs.command.Faults as spec;
ghost use Rattle.modaudit.specs.command.Looked.{ReadsUnlessFails, SiteLooksAt};
ghost use Rattle.modaudit.specs.command.Steps as steps;
ghost use Rattle.modaudit.specs.command.Steps.{IsFound, IsFoundFault, IsFoundWithout, IsTransient, IsReadable};

use crate::command::audit_fault::AuditFault;
use crate::command::directories::{is_no_element, judge_directories, judge_modulepath};
use crate::command::unreadable::in_order;
use audit_site::{SiteAudit, WalkProgress, audit};
use envvars::Env;
use filetree::hiding::{HidingTree, MOST_HIDDEN};
use filetree::{Tree, TreeFault};
use modules::{Refusal, STANDARD_LIMITS};
use search::FindFault;
use std::alloc::Global;

/// What an audit finds of a site without what can't be read, and what that is.
#[derive(Drop)]
pub(crate) struct SeenAudit {
    /// What is found elsewhere than at these paths.
    pub(crate) found: SiteAudit,
    /// The paths of the files and directories that can't be read.
    pub(crate) unreadable: Vec<String>,
}

/// Judges the words that name directories, and audits the site of an environment, where the modules that further words
/// mean are excluded.
fn audit_wanted<T: Tree, P: WalkProgress>(
    alloc: Global,
    directories: &[String],
    without: &[String],
    judged: &Env,
    tree: &mut T,
    progress: &mut P,
) -> Result<SiteAudit, AuditFault>
    ensures reads { ReadsOn T.agrees T.failures tree.old tree.new }
    ensures found { IfOk result (IsFound (T.agrees tree.new) judged.now (map string_bytes directories.now)
        (map string_bytes without.now)) }
    ensures refused { IfErr result (IsFoundFault (T.agrees tree.new) (T.failures tree.old < T.failures tree.new)
        judged.now (map string_bytes directories.now)) }
    ensures failed { FailsWhere spec.is_failure T.agrees T.failed tree.old tree.new result
        (SiteLooksAt judged.now (map string_bytes directories.now)) }
{
    judge_directories(alloc, tree, directories)?;
    judge_modulepath(alloc, judged)?;
    Ok(audit(alloc, judged, tree, STANDARD_LIMITS, without, progress)?)
}

/// Whether a refusal is that of a device that failed.
#[tactic(auto, using(crate::proofs::command::ReadableLemmas::by_no_device))]
fn is_of_device(refusal: &Refusal) -> bool
    ensures { result ≡ is_failure refusal.now }
{
    match refusal {
        Refusal::Find(fault) => matches!(fault, FindFault::Device),
        Refusal::OutOfMemory
        | Refusal::Run(_)
        | Refusal::Env(_)
        | Refusal::BadArguments
        | Refusal::UnknownSubcommand(_)
        | Refusal::ConflictWith(_)
        | Refusal::PrereqMissing(_)
        | Refusal::StillNeededBy(_)
        | Refusal::FileGone(_)
        | Refusal::NotAModulefile(_) => false,
    }
}

/// Whether it is a device that failed.
fn is_failure(fault: &AuditFault) -> bool
    ensures { result ≡ spec.is_failure fault.now }
{
    match fault {
        AuditFault::Refused(refusal) => is_of_device(refusal),
        AuditFault::BadArguments
        | AuditFault::EmptyModulepath
        | AuditFault::TooManyDirectories
        | AuditFault::NotADirectory(_)
        | AuditFault::WriteFailed => false,
    }
}

/// Whether the path is one of these.
pub(crate) fn is_among(paths: &[String], path: &str) -> bool
    ensures { result ≡ hidden.is_among (map string_bytes paths.now) path.now }
{
    paths.iter().any(|other| path == other.as_str())
}

/// Whether the path of a directory, which MODULEPATH can hold, is one of these.
fn is_hidden(hidden: &[String], dir: &str) -> bool
    ensures { result ≡ steps.is_hidden (map string_bytes hidden.now) dir.now }
{
    !is_no_element(dir) && is_among(hidden, dir)
}

/// The fault of a word that names no directory that is seen: that of the device where it is hidden.
fn gone_or_hidden(hidden: &[String], dir: String) -> AuditFault
    ensures { result ≡ steps.gone_or_hidden (map string_bytes hidden.now) dir }
{
    if is_hidden(hidden, dir.as_str()) {
        AuditFault::from(TreeFault::Device)
    } else {
        AuditFault::NotADirectory(dir)
    }
}

/// A fault over a tree in which these paths are hidden, as one over the whole tree.
fn unless_hidden(hidden: &[String], fault: AuditFault) -> AuditFault
    ensures { result ≡ steps.unless_hidden (map string_bytes hidden.now) fault }
{
    match fault {
        AuditFault::NotADirectory(dir) => gone_or_hidden(hidden, dir),
        AuditFault::Refused(refusal) => AuditFault::Refused(refusal),
        AuditFault::BadArguments => AuditFault::BadArguments,
        AuditFault::EmptyModulepath => AuditFault::EmptyModulepath,
        AuditFault::TooManyDirectories => AuditFault::TooManyDirectories,
        AuditFault::WriteFailed => AuditFault::WriteFailed,
    }
}

/// Whether these are as many paths as are hidden at most.
fn are_most(paths: &[String]) -> bool
    ensures { result ≡ true → 1000 ≤ length paths.now }
{
    paths.len() >= MOST_HIDDEN
}

/// Why nothing is seen at a path that can't be hidden: the device failed at a thousand others, or else memory didn't
/// suffice to keep it.
fn fault_in_the_end<T: Tree + Drop>(alloc: Global, tree: &HidingTree<T>) -> TreeFault
    ensures { result ≡ faults.Device → HasFailedOften (T.failed tree.now.tree) (T.failures tree.now.tree) }
{
    let Ok(paths) = in_order(alloc, tree.hidden.as_slice()) else {
        return TreeFault::OutOfMemory;
    };
    if are_most(paths.as_slice()) {
        TreeFault::Device
    } else {
        TreeFault::OutOfMemory
    }
}

/// Why there is no audit where the device failed at a path that can't be hidden.
fn in_the_end<T: Tree + Drop>(alloc: Global, tree: &HidingTree<T>) -> AuditFault
    ensures { IsTransient (HasFailedOften (T.failed tree.now.tree) (T.failures tree.now.tree)) result }
{
    AuditFault::from(fault_in_the_end(alloc, tree))
}

/// The audit of the site of an environment without what is hidden; `None` where the device fails at a path that isn't
/// hidden at once.
fn audit_seen<T: Tree + Drop, P: WalkProgress>(
    alloc: Global,
    directories: &[String],
    without: &[String],
    judged: &Env,
    tree: &mut HidingTree<T>,
    progress: &mut P,
) -> Result<Option<SiteAudit>, AuditFault>
    ensures counts { T.failures tree.old.tree ≤ T.failures tree.new.tree }
    ensures found { IfOk result (λ found. IfSome found (IsFoundWithout (T.agrees tree.new.tree)
        (map string_bytes tree.new.hidden.items) judged.now (map string_bytes directories.now)
        (map string_bytes without.now))) }
    ensures refused { IfErr result (IsSiteFault (T.agrees tree.new.tree)
        (T.failed tree.new.tree) (HasFailedOften (T.failed tree.new.tree) (T.failures tree.new.tree)) judged.now
        (map string_bytes directories.now)) }
{
    match audit_wanted(alloc, directories, without, judged, tree, progress) {
        Ok(found) => Ok(Some(found)),
        Err(fault) => {
            if is_failure(&fault) {
                Ok(None)
            } else {
                Err(unless_hidden(tree.hidden.as_slice(), fault))
            }
        }
    }
}

/// The audit of the site of an environment without what can't be read: one, and another where what was seen before can't
/// be read any more, without all of that.
fn audit_without<T: Tree + Drop, P: WalkProgress>(
    alloc: Global,
    directories: &[String],
    without: &[String],
    judged: &Env,
    tree: &mut HidingTree<T>,
    progress: &mut P,
) -> Result<SeenAudit, AuditFault>
    ensures counts { T.failures tree.old.tree ≤ T.failures tree.new.tree }
    ensures found { IfOk result (IsReadable (T.agrees tree.new.tree)
        (T.failed tree.new.tree)
        (T.failures tree.old.tree ≤ T.failures tree.new.tree) (T.failures tree.new.tree) judged.now
        (map string_bytes directories.now) (map string_bytes without.now)) }
    ensures refused { IfErr result (IsSiteFault (T.agrees tree.new.tree)
        (T.failed tree.new.tree) (HasFailedOften (T.failed tree.new.tree) (T.failures tree.new.tree)) judged.now
        (map string_bytes directories.now)) }
{
    for _ in 0..MOST_HIDDEN {
        if let Some(found) = audit_seen(alloc, directories, without, judged, tree, progress)? {
            return Ok(SeenAudit {
                found,
                unreadable: in_order(alloc, tree.hidden.as_slice())?,
            });
        }
        if !tree.hide_all_failed()? {
            return Err(in_the_end(alloc, tree));
        }
    }
    Err(in_the_end(alloc, tree))
}

/// The audit of the site of an environment; where something can't be read, without that.
///
/// Where a word names a directory that can't be read there is none (43), nor where the device failed at more than a
/// thousand paths.
pub(crate) fn audit_readable<T: Tree + Drop, P: WalkProgress>(
    alloc: Global,
    directories: &[String],
    without: &[String],
    judged: &Env,
    tree: &mut HidingTree<T>,
    progress: &mut P,
) -> Result<SeenAudit, AuditFault>
    ensures reads { ReadsUnlessFails T.agrees T.failures T.failed tree.old.tree tree.new.tree
        (SiteLooksAt judged.now (map string_bytes directories.now)) }
    ensures found { IfOk result (IsReadable (T.agrees tree.new.tree)
        (T.failed tree.new.tree)
        (T.failures tree.old.tree < T.failures tree.new.tree) (T.failures tree.new.tree) judged.now
        (map string_bytes directories.now) (map string_bytes without.now)) }
    ensures refused { IfErr result (IsSiteFault (T.agrees tree.new.tree)
        (T.failed tree.new.tree)
        ((T.failures tree.old.tree < T.failures tree.new.tree)
        × HasFailedOften (T.failed tree.new.tree) (T.failures tree.new.tree)) judged.now
        (map string_bytes directories.now)) }
{
    match audit_wanted(
        alloc,
        directories,
        without,
        judged,
        &mut tree.tree,
        progress,
    ) {
        Ok(found) => Ok(SeenAudit {
            found,
            unreadable: Vec::new(alloc),
        }),
        Err(fault) => {
            if is_failure(&fault) {
                audit_without(alloc, directories, without, judged, tree, progress)
            } else {
                Err(fault)
            }
        }
    }
}
