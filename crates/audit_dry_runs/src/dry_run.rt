//! The dry run of a module: its load and then its unload, over an environment that stays as it is.
ghost use Rattle.std.specs.Prelude.{◌≡◌, ◌≤◌, ◌+◌, ◌&&◌, [], ◌∷◌, map, IfOk, IfErr, bytes_eq, string_bytes};
ghost use Rattle.envvars.specs.Changes.{new_values_in};
ghost use Rattle.envvars.specs.Texts.{texts_in};
ghost use Rattle.filetree.specs.Agreement.{FailsIf, InEachPair, ReadsOn};
ghost use Rattle.filetree.specs.Causes.{memory};
ghost use Rattle.modules.specs.Answers.{cause_of};
ghost use Rattle.modules.specs.Verdicts.{in_sh};
ghost use Rattle.requests.specs.Looked.{RequestLooksAt};
ghost use Rattle.requests.specs.Requests.{unload};
ghost use Rattle.audit_dry_runs.specs.Parts.{EndsDryRun, IsDifference, names_left};
ghost use Rattle.audit_dry_runs.specs.DryRuns.{HasDryRun, DryRunLooksAt};
ghost use Rattle.audit_dry_runs.specs.Views.{count_failed, is_failed, dry_run_view};

use crate::loading::joined;
use crate::lost::{set_among, unset_among};
use crate::requesting::{do_in_sh, load_of, unload_of};
use envstate::loaded_list::Loaded;
use envvars::{Change, Env, changes};
use filetree::Tree;
use modules::Refusal;
use std::alloc::{AllocError, Global};
use tclrules::Limits;

/// What the load of a module and then its unload do in an environment.
#[derive(Debug, Drop)]
pub enum DryRun {
    /// The environment is again what it was, byte for byte.
    Returns,
    /// These variables are otherwise than before, each once, in the order of their bytes; and then those that weren't
    /// UTF-8, whose values are lost.
    Leaves(Vec<String>),
    /// The load is refused.
    LoadRefused(Refusal),
    /// The unload is refused.
    UnloadRefused(Refusal),
    /// The load changes nothing, since what the name means is loaded already; nothing is tried.
    AlreadyLoaded,
    /// The name means another module in this environment, which is loaded in place of this one; its unload isn't tried.
    LoadsAnother {
        /// The other's full name.
        name: String,
        /// The path of its file.
        path: String,
    },
}

/// The names of changed variables.
fn names_of(alloc: Global, changes: Vec<Change>) -> Result<Vec<String>, AllocError>
    ensures { IfOk result (λ names. texts_in names ≡ map (λ c. c.0) (new_values_in changes)) }
{
    let mut names = Vec::with_capacity(alloc, changes.len())?;
    for change in changes {
        names.push(change.name)?;
    }
    Ok(names)
}

/// The names of changed variables, and then these.
fn names_left(
    alloc: Global,
    changes: Vec<Change>,
    lost: Vec<String>,
) -> Result<Vec<String>, AllocError>
    ensures { IfOk result (λ names. texts_in names ≡ names_left (new_values_in changes) (texts_in lost)) }
{
    let mut names = names_of(alloc, changes)?;
    let mut lost = lost;
    names.append(&mut lost)?;
    Ok(names)
}

/// The dry run after which these variables are otherwise.
fn dry_run_of(names: Vec<String>) -> DryRun
    ensures { IsDifference (texts_in names) (dry_run_view result) }
{
    if names.is_empty() {
        DryRun::Returns
    } else {
        DryRun::Leaves(names)
    }
}

/// Whether it is the module of this name and path.
fn is_module(entry: &Loaded, name: &str, path: &str) -> bool
    ensures { result ≡ (bytes_eq (string_bytes entry.now.name) name.now
        && bytes_eq (string_bytes entry.now.path) path.now) }
{
    entry.name.as_str() == name && entry.path.as_str() == path
}

/// Unloads the name in the environment that its load made, and compares what that leaves with the environment from
/// before the load. Of these variables, which aren't UTF-8, those are lost that the load has set.
fn try_unload<T: Tree>(
    alloc: Global,
    name: &str,
    not_utf8: &[String],
    start: &Env,
    env: &mut Env,
    tree: &mut T,
    limits: Limits,
) -> Result<DryRun, Refusal>
    ensures reads { ReadsOn T.agrees T.failures tree.old tree.new }
    ensures ended { IfOk result (λ dry_run. InEachPair (T.agrees tree.new) (λ files listings.
        EndsDryRun (in_sh limits files listings) (map string_bytes not_utf8.now) start.now env.old name.now
        (dry_run_view dry_run))) }
    ensures failures { IfOk result (λ dry_run. T.failures tree.old + count_failed dry_run ≤ T.failures tree.new) }
    ensures cause { IfErr result (λ refusal. cause_of refusal ≡ memory) }
    ensures failed { FailsIf (is_failed result) (T.failed tree.old) (T.failed tree.new) (λ at.
        InEachPair (T.agrees tree.new) (λ files listings.
        RequestLooksAt (in_sh limits files listings) env.old (unload (name.now ∷ [])) at)) }
{
    envvars::laws::changes();
    let set = set_among(alloc, env, not_utf8)?;
    let action = unload_of(alloc, name)?;
    if let Err(refusal) = do_in_sh(alloc, action, env, tree, limits)? {
        return Ok(DryRun::UnloadRefused(refusal));
    }
    let lost = unset_among(alloc, env, set.as_slice())?;
    let changes = changes(alloc, start, env)?;
    let names = names_left(alloc, changes, lost)?;
    Ok(dry_run_of(names))
}

/// Tries a module in an environment, which doesn't change, over a tree of modulefiles: its full name is loaded for sh,
/// as a request of its own, and where that loads the module of this name and path, and no other, the name is unloaded
/// again. The process has other variables besides, which aren't UTF-8, so that no environment has them: the value of one
/// that the load sets is lost.
///
/// In each pair of maps that agrees with the tree the answer is the dry run of the module. A refusal in it has its
/// reason in the step of the request; or it is by 43, where the device failed in this call, at a path that the dry run
/// looks at. So a failed device is a refusal of this dry run alone, and whoever tries many modules can go on.
///
/// Errors: want of memory (11, 31, 41).
pub fn dry_run_module<T: Tree>(
    alloc: Global,
    env: &Env,
    not_utf8: &[String],
    tree: &mut T,
    limits: Limits,
    name: &str,
    path: &str,
) -> Result<DryRun, Refusal>
    ensures reads { ReadsOn T.agrees T.failures tree.old tree.new }
    ensures tried { IfOk result (λ dry_run. InEachPair (T.agrees tree.new) (λ files listings.
        HasDryRun (in_sh limits files listings) (map string_bytes not_utf8.now) env.now name.now path.now
        (dry_run_view dry_run))) }
    ensures failures { IfOk result (λ dry_run. T.failures tree.old + count_failed dry_run ≤ T.failures tree.new) }
    ensures cause { IfErr result (λ refusal. cause_of refusal ≡ memory) }
    ensures failed { FailsIf (is_failed result) (T.failed tree.old) (T.failed tree.new) (λ at.
        InEachPair (T.agrees tree.new) (λ files listings.
        DryRunLooksAt (in_sh limits files listings) env.now name.now path.now at)) }
{
    requests::outcomes();
    envstate::loaded_list::laws::loaded_edits();
    let mut after = env.copy()?;
    let action = load_of(alloc, name)?;
    let done = match do_in_sh(alloc, action, &mut after, tree, limits)? {
        Ok(done) => done,
        Err(refusal) => return Ok(DryRun::LoadRefused(refusal)),
    };
    let Some(entry) = joined(alloc, &done, &after)? else {
        return Ok(DryRun::AlreadyLoaded);
    };
    if !is_module(&entry, name, path) {
        return Ok(DryRun::LoadsAnother {
            name: entry.name,
            path: entry.path,
        });
    }
    try_unload(alloc, name, not_utf8, env, &mut after, tree, limits)
}
