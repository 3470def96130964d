//! The requests of a restore, made one after another in a copy of an environment.
ghost use Rattle.std.specs.Prelude.{◌≡◌, ◌<◌, map, string_bytes, IfErr, OnOk};
ghost use Rattle.filetree.specs.Agreement.{FailsAt, InEachPair, ReadsOn};
ghost use Rattle.filetree.specs.Causes.{memory};
ghost use Rattle.requests.specs.Steps.{request_context_in};
ghost use Rattle.requests.specs.RequestViews.{action_view};
ghost use Rattle.modules.specs.Answers.{StepAnswersOverTree, cause_of, is_failure};
ghost use Rattle.module_restore.specs.Restores.{LoadStep, LoadStepLooksAt, ReplacingLooksAt, ReplacingStep, searching};
ghost use Rattle.module_restore.specs.Views.{loading_view, run_view};

use envvars::fields::{slices, text_of_elements};
use envvars::{Env, Vars};
use filetree::Tree;
use message::texts::copies;
use modules::{Action, Refusal, Request, RequestResults, make_changes};
use shelltext::Shell;
use std::alloc::Global;
use tclrules::Limits;

/// The variable with the directories that are searched.
pub(crate) const MODULEPATH: &str = "MODULEPATH";

/// What the requests of a restore have made of an environment, and done besides.
#[derive(Drop)]
pub(crate) struct RestoreRun {
    /// The environment that results.
    pub(crate) env: Env,
    /// What the first request did besides.
    pub(crate) unloads: RequestResults,
    /// What the load did besides, where there was one.
    pub(crate) loads: Option<RequestResults>,
}

/// MODULEPATH becomes these directories; without directories it stays.
fn search_in(alloc: Global, env: &mut Env, directories: &[String]) -> Result<(), Refusal>
    ensures made { OnOk result (env.new ≡ searching (map string_bytes directories.now) env.old) }
    ensures only { IfErr result (λ refusal. cause_of refusal ≡ memory) }
{
    let directories = slices(alloc, directories)?;
    match text_of_elements(alloc, directories.as_slice())? {
        None => Ok(()),
        Some(text) => Ok(env.put(MODULEPATH, text)?),
    }
}

/// Loads these modules, if there are some.
fn load_modules<T: Tree>(
    alloc: Global,
    shell: Shell,
    modules: &[String],
    env: &mut Env,
    tree: &mut T,
    limits: Limits,
) -> Result<Option<RequestResults>, Refusal>
    ensures reads { ReadsOn T.agrees T.failures tree.old tree.new }
    ensures over_tree { StepAnswersOverTree (T.agrees tree.new) (T.failures tree.old < T.failures tree.new)
        (loading_view env.new) result
        (λ files listings. LoadStep (request_context_in limits shell files listings) (map string_bytes modules.now)
        env.old) }
    ensures failed { FailsAt is_failure (T.failed tree.old) (T.failed tree.new) result (λ at.
        InEachPair (T.agrees tree.new) (λ files listings.
        LoadStepLooksAt (request_context_in limits shell files listings) (map string_bytes modules.now) env.old at)) }
{
    let [_, ..] = modules else {
        return Ok(None);
    };
    let request = Request {
        shell,
        action: Action::Load(copies(alloc, modules)?),
    };
    Ok(Some(make_changes(alloc, &request, env, tree, limits)?))
}

/// Makes a first request, has these directories searched, and loads these modules, in a copy of the environment.
pub(crate) fn run_restore<T: Tree>(
    alloc: Global,
    first: &Request,
    directories: &[String],
    modules: &[String],
    env: &Env,
    tree: &mut T,
    limits: Limits,
) -> Result<RestoreRun, Refusal>
    ensures reads { ReadsOn T.agrees T.failures tree.old tree.new }
    ensures over_tree { StepAnswersOverTree (T.agrees tree.new) (T.failures tree.old < T.failures tree.new)
        run_view result
        (λ files listings. ReplacingStep (request_context_in limits first.now.shell files listings) env.now
        (action_view first.now.action) (map string_bytes directories.now) (map string_bytes modules.now)) }
    ensures failed { FailsAt is_failure (T.failed tree.old) (T.failed tree.new) result (λ at.
        InEachPair (T.agrees tree.new) (λ files listings.
        ReplacingLooksAt (request_context_in limits first.now.shell files listings) env.now
        (action_view first.now.action) (map string_bytes directories.now) (map string_bytes modules.now) at)) }
{
    let mut after = env.copy()?;
    let unloads = make_changes(alloc, first, &mut after, tree, limits)?;
    search_in(alloc, &mut after, directories)?;
    let loads = load_modules(alloc, first.shell, modules, &mut after, tree, limits)?;
    Ok(RestoreRun {
        env: after,
        unloads,
        loads,
    })
}
