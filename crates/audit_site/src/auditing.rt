//! The audit of a whole site.
ghost use Rattle.std.specs.Prelude.{◌<◌, map, string_bytes, IfOk, IfErr};
ghost use Rattle.filetree.specs.Agreement.{FailsWhere, InEachPair, ReadsOn};
ghost use Rattle.filetree.specs.Causes.{Applies};
ghost use Rattle.modules.specs.Answers as steps;
ghost use Rattle.modules.specs.Answers.{cause_of};
ghost use Rattle.audit_laws.specs.site.Sites.{site_of};
ghost use Rattle.audit_site.specs.Walks.{HasCause};
ghost use Rattle.audit_site.specs.Audits.{IsAudit, CertificateStands};
ghost use Rattle.audit_site.specs.Looked.{AuditLooksAt, is_failure};
ghost use Rattle.audit_site.specs.Parts.{AreParts, PartsAreAudits, WalkedLookAt};

use crate::defaults::bad_default_files;
use crate::fault::WalkFault;
use crate::judgement::{SiteStandings, judge_modules};
use crate::missing::missing_among;
use crate::names::unknown_names;
use crate::no_modulefiles::no_modulefiles;
use crate::progress::WalkProgress;
use crate::standing::AuditStanding;
use crate::unreachable::unreachable_directories;
use crate::unread::unread_default_files;
use crate::walk::{SiteWalk, walk_site};
use audit_certificate::{Disagreement, UsedVariable, disagreements};
use envvars::Env;
use filetree::Tree;
use modules::Refusal;
use requests::modulepath;
use std::alloc::Global;
use tclrules::Limits;

/// A module of a site, and how it stands.
#[derive(Debug, Drop)]
pub struct AuditedModule {
    /// Its full name, as `foo/1.0`.
    pub name: String,
    /// The path of its file.
    pub path: String,
    /// The variables that the evaluation of its file reads, each once, in the order in which it first reads them.
    pub reads: Vec<String>,
    /// How it stands.
    pub standing: AuditStanding,
    /// The other reasons, by the records of its first evaluation and what its file reads: what else would keep it from
    /// being certified, in the order of the standings, and then a clash with a certified module.
    pub other_reasons: Vec<AuditStanding>,
}

/// A directory that a module adds to MODULEPATH.
#[derive(Debug, Drop)]
pub struct AddedDirectory {
    /// The full name of the module.
    pub name: String,
    /// The path of its file.
    pub path: String,
    /// The directory.
    pub directory: String,
}

/// A name in a `conflict` of a module that means no module of the site; or the names in a `prereq`, of which none means one
/// that isn't refused.
#[derive(Debug, Drop)]
pub struct UnknownNames {
    /// The full name of the module.
    pub name: String,
    /// The path of its file.
    pub path: String,
    /// Whether they are those of a `prereq`, which wants one of them; else one name of a `conflict`.
    pub is_prereq: bool,
    /// The names.
    pub names: Vec<String>,
}

/// What an audit of a site finds.
#[derive(Debug, Drop)]
pub struct SiteAudit {
    /// Each module, in the order of the directories and of `avail`.
    pub modules: Vec<AuditedModule>,
    /// What the certified modules use and read, each use once.
    pub certificate: Vec<UsedVariable>,
    /// The directories of the site that aren't there, in the order of the walk.
    pub missing_directories: Vec<String>,
    /// What modules add to MODULEPATH that neither that at hand has nor a deterministic module adds, so that it can be
    /// reached only through modules that aren't deterministic: module by module, each directory of one once.
    pub unreachable_directories: Vec<AddedDirectory>,
    /// The paths of the files in the places of modules that don't begin with the cookie, in the order of their bytes.
    pub no_modulefiles: Vec<String>,
    /// The paths of the default files that stand in a directory of the site itself, and so aren't read, in the order of the
    /// walk.
    pub unread_default_files: Vec<String>,
    /// The paths of the default files that have a fault, so that a search for their folder is refused; or name no version
    /// in it.
    pub bad_default_files: Vec<String>,
    /// Conflicts that name no module of the site, and prereqs that name none that isn't refused.
    pub unknown_names: Vec<UnknownNames>,
    /// Where the environment at hand doesn't agree with the certificate.
    pub disagreements: Vec<Disagreement>,
}

/// The parts of an audit, by the directories and the evaluations of a walk, are an audit.
fn parts_are_audits()
    ensures { PartsAreAudits }
{
    modulefile::files();
    audit_laws::site::laws::walks();
    audit_laws::site::laws::sessions_return();
}

/// The parts of an audit, by the directories and the evaluations of a walk.
fn audit_walk<T: Tree>(
    alloc: Global,
    env: &Env,
    tree: &mut T,
    limits: Limits,
    without: &[String],
    walk: SiteWalk,
) -> Result<SiteAudit, Refusal>
    ensures reads { ReadsOn T.agrees T.failures tree.old tree.new }
    ensures parts { IfOk result (λ found. InEachPair (T.agrees tree.new) (λ files listings.
        AreParts (site_of limits env.now files listings) (map string_bytes without.now) walk found)) }
    ensures cause { IfErr result (λ refusal.
        Applies (cause_of refusal) (T.failures tree.old < T.failures tree.new) (λ reason. ⊥)) }
    ensures failed { FailsWhere steps.is_failure T.agrees T.failed tree.old tree.new result (λ files listings.
        WalkedLookAt limits files listings walk) }
{
    let SiteWalk {
        directories,
        evaluations,
    } = walk;
    let unknown_names = unknown_names(alloc, evaluations.as_slice())?;
    let unreachable_directories = unreachable_directories(
        alloc,
        modulepath(env),
        evaluations.as_slice(),
    )?;
    let no_modulefiles = no_modulefiles(alloc, tree, directories.as_slice())?;
    let unread_default_files = unread_default_files(alloc, tree, directories.as_slice())?;
    let missing_directories = missing_among(alloc, tree, directories)?;
    let bad_default_files = bad_default_files(alloc, tree, limits, evaluations.as_slice())?;
    let SiteStandings {
        modules,
        certificate,
    } = judge_modules(alloc, evaluations, without)?;
    let disagreements = disagreements(alloc, env, certificate.as_slice())?;
    Ok(SiteAudit {
        modules,
        certificate,
        missing_directories,
        unreachable_directories,
        no_modulefiles,
        unread_default_files,
        bad_default_files,
        unknown_names,
        disagreements,
    })
}

/// Judges a whole site: that of the MODULEPATH of an environment, over a tree and within limits. Each file is read
/// once, and evaluated for loading in sh, and in each other context that it asks for; the environment doesn't change.
/// Modules that one of the given names means aren't certified: those that would be judged with the others are excluded.
///
/// What is found is an audit of the site (`exact`). Its certificate stands (`holds`): a session that begins in an
/// environment whose loaded list is in order, and loads only modules that stand as certified, with whose uses this
/// environment agrees and whose reads have in it the values of the audit, returns to its start.
///
/// Errors: loaded lists that don't fit together (35); a device that failed in this call, at a path that the audit looks
/// at (43); want of memory (11, 31, 41); more than `MAX_DIRECTORIES` directories.
pub fn audit<T: Tree, P: WalkProgress>(
    alloc: Global,
    env: &Env,
    tree: &mut T,
    limits: Limits,
    without: &[String],
    progress: &mut P,
) -> Result<SiteAudit, WalkFault>
    ensures reads { ReadsOn T.agrees T.failures tree.old tree.new }
    ensures exact { IfOk result (λ found. InEachPair (T.agrees tree.new) (λ files listings.
        IsAudit (site_of limits env.now files listings) (map string_bytes without.now) found)) }
    ensures holds { IfOk result (λ found. InEachPair (T.agrees tree.new) (λ files listings.
        CertificateStands (site_of limits env.now files listings) found)) }
    ensures cause { IfErr result (HasCause (T.agrees tree.new) (T.failures tree.old < T.failures tree.new) limits env.now) }
    ensures failed { FailsWhere is_failure T.agrees T.failed tree.old tree.new result (λ files listings.
        AuditLooksAt (site_of limits env.now files listings)) }
{
    parts_are_audits();
    audit_laws::site::laws::walks();
    let walk = walk_site(alloc, env, tree, limits, progress)?;
    Ok(audit_walk(alloc, env, tree, limits, without, walk)?)
}
