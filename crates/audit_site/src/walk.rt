//! Each directory of a site once, in the order in which they are found, and each module in them, evaluated in each
//! context that it asks for.
ghost use Rattle.std.specs.Prelude.{◌≡◌, ◌<◌, [], ◌∷◌, IfOk, IfErr, OnOk, map, string_bytes};
ghost use Rattle.filetree.specs.Agreement.{FailsWhere, InEachPair, ReadsOn};
ghost use Rattle.filetree.specs.Modulefiles.{directories};
ghost use Rattle.modules.specs.Answers as steps;
ghost use Rattle.requests.specs.Steps.{modulepath as modulepath_of};
ghost use Rattle.audit_laws.specs.site.Sites.{site_of};
ghost use Rattle.audit_site.specs.WalkLooked.{DirectoryLooksAt, WalkLooksAt, is_failure};
ghost use Rattle.audit_site.specs.Walks.{IsWalkAnswer, HasCause};
ghost use Rattle.audit_site.specs.WalkParts.{HasLoaded, GivesUp, GoesThrough};

use crate::below::evaluate_below;
use crate::directories::push_found;
use crate::fault::WalkFault;
use crate::files::{SiteSettings, check_loaded};
use crate::progress::WalkProgress;
use crate::unlike::UnlikeUses;
use audit_laws::site::directory_set::{Directories, directory_at, in_order, push_directories};
use envvars::Env;
use filetree::Tree;
use indexmap::IndexSet;
use modulefile::Record;
use modulefile_run::Question;
use modules::Refusal;
use requests::modulepath;
use std::alloc::Global;
use tclrules::Limits;

/// The most directories that a walk goes through. A module may add its own directory under ever longer spellings, so
/// that a site can have more than any number of them.
pub const MAX_DIRECTORIES: usize = 65_536;

/// What the evaluations of a module's file show: the first, for loading in sh with nothing loaded, and those in the
/// other contexts that it asks for.
#[derive(Drop)]
pub struct EvaluatedFile {
    /// The records of the first.
    pub records: Vec<Record>,
    /// The first question of the first that doesn't have a stable answer.
    pub unkept: Option<Question>,
    /// Two ways in which the file uses one variable, of which the second may be a read where each question has a stable
    /// answer; or MODULEPATH otherwise than as a path with colons; `None` where it is consistent.
    pub unlike: Option<UnlikeUses>,
}

/// A module of a site, with what the evaluations of its file show, or why the first is refused.
#[derive(Drop)]
pub struct Evaluation {
    /// The module's full name, as `foo/1.0`.
    pub name: String,
    /// The path of its file.
    pub path: String,
    /// What its evaluations show, or why the first is refused.
    pub outcome: Result<EvaluatedFile, Refusal>,
    /// The variables that its evaluations read, each once.
    pub reads: Vec<String>,
}

/// What a walk over a site finds.
#[derive(Drop)]
pub struct SiteWalk {
    /// The directories of the site, each once: those of MODULEPATH, and then those that its modules add, as they are
    /// found.
    pub directories: Vec<String>,
    /// The modules in each directory in turn, in the order of `avail`.
    pub evaluations: Vec<Evaluation>,
}

/// Evaluates each module below a directory, and adds to the directories those that these add.
///
/// Errors: a device that failed; want of memory.
fn walk_directory<T: Tree, P: WalkProgress>(
    settings: SiteSettings<'_>,
    tree: &mut T,
    dir: &str,
    dirs: &mut Directories,
    evaluations: &mut Vec<Evaluation>,
    progress: &mut P,
) -> Result<(), Refusal>
    requires { HasLoaded settings.env.now }
    ensures reads { ReadsOn T.agrees T.failures tree.old tree.new }
    ensures walked { directories dir.now ≡ dir.now ∷ [] → OnOk result (InEachPair (T.agrees tree.new) (λ files listings.
        GoesThrough (site_of settings.entry.limits settings.entry.env.now files listings) dir.now
        (map string_bytes dirs.old.keys) (map string_bytes dirs.new.keys) evaluations.old.items evaluations.new.items)) }
    ensures cause { IfErr result (GivesUp (T.failures tree.old < T.failures tree.new)) }
    ensures failed { FailsWhere steps.is_failure T.agrees T.failed tree.old tree.new result (λ files listings at.
        directories dir.now ≡ dir.now ∷ []
        → DirectoryLooksAt (site_of settings.entry.limits settings.entry.env.now files listings) dir.now at) }
{
    let mut below = evaluate_below(settings, tree, dir, evaluations.len(), progress)?;
    push_found(settings.alloc, dirs, below.as_slice())?;
    evaluations.append(&mut below)?;
    Ok(())
}

/// Walks over the site of a MODULEPATH.
fn walk_from<T: Tree, P: WalkProgress>(
    settings: SiteSettings<'_>,
    tree: &mut T,
    modulepath: &str,
    progress: &mut P,
) -> Result<SiteWalk, WalkFault>
    requires loaded { HasLoaded settings.env.now }
    requires begins { modulepath.now ≡ modulepath_of settings.env.now }
    ensures reads { ReadsOn T.agrees T.failures tree.old tree.new }
    ensures walked { IfOk result (λ found. InEachPair (T.agrees tree.new) (λ files listings.
        IsWalkAnswer (site_of settings.entry.limits settings.entry.env.now files listings) found)) }
    ensures cause { IfErr result (HasCause (T.agrees tree.new) (T.failures tree.old < T.failures tree.new)
        settings.entry.limits settings.entry.env.now) }
    ensures failed { FailsWhere is_failure T.agrees T.failed tree.old tree.new result (λ files listings.
        WalkLooksAt (site_of settings.entry.limits settings.entry.env.now files listings)) }
{
    audit_laws::site::laws::walks();
    modulefile::files();
    let mut dirs = IndexSet::new(settings.alloc);
    let mut evaluations = Vec::new(settings.alloc);
    push_directories(settings.alloc, &mut dirs, modulepath)?;
    let mut place = 0;
    while let Some(dir) = directory_at(settings.alloc, &dirs, place)? {
        if dirs.len() > MAX_DIRECTORIES {
            return Err(WalkFault::TooManyDirectories);
        }
        walk_directory(
            settings,
            tree,
            dir.as_str(),
            &mut dirs,
            &mut evaluations,
            progress,
        )?;
        place += 1;
    }
    Ok(SiteWalk {
        directories: in_order(settings.alloc, dirs)?,
        evaluations,
    })
}

/// Walks over a site, that of the MODULEPATH of an environment over a tree and within limits: each file is read once,
/// and evaluated in that environment, which doesn't change, for loading, in sh, with nothing loaded, and in each other
/// context that it asks for.
///
/// Errors: loaded lists that don't fit together (35); a device that failed in this call, at a path that the walk looks at
/// (43); want of memory (11, 31, 41); more than `MAX_DIRECTORIES` directories.
pub fn walk_site<T: Tree, P: WalkProgress>(
    alloc: Global,
    env: &Env,
    tree: &mut T,
    limits: Limits,
    progress: &mut P,
) -> Result<SiteWalk, WalkFault>
    ensures reads { ReadsOn T.agrees T.failures tree.old tree.new }
    ensures walked { IfOk result (λ found. InEachPair (T.agrees tree.new) (λ files listings.
        IsWalkAnswer (site_of limits env.now files listings) found)) }
    ensures cause { IfErr result (HasCause (T.agrees tree.new) (T.failures tree.old < T.failures tree.new) limits env.now) }
    ensures failed { FailsWhere is_failure T.agrees T.failed tree.old tree.new result (λ files listings.
        WalkLooksAt (site_of limits env.now files listings)) }
{
    check_loaded(alloc, env)?;
    let settings = SiteSettings { alloc, env, limits };
    walk_from(settings, tree, modulepath(env), progress)
}
