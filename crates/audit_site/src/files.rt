//! The evaluation of the file of a module of a site.
ghost use Rattle.std.specs.Prelude.{◌≡◌, ◌<◌, IfOk, IfErr, OnOk, string_bytes};
ghost use Rattle.filetree.specs.Agreement.{FailsAt, InEachPair, ReadsOn};
ghost use Rattle.modules.specs.Answers.{is_failure};
ghost use Rattle.audit_laws.specs.site.Sites.{EvaluatesTo, site_of, module_below};
ghost use Rattle.audit_site.specs.WalkParts.{HasLoaded, HasListCause, ComesToOverTree, GivesUp, IsEvaluationWith};
ghost use Rattle.audit_site.specs.WalkParts.{IsEvaluationOf};

use crate::scripts::{FileEvaluation, ModuleScript, evaluate_script};
use crate::walk::Evaluation;
use envstate::loaded_list::loaded;
use envvars::Env;
use filetree::Tree;
use modules::transient_failures::unless_transient;
use modules::{Refusal, script_at};
use search::path_of;
use std::alloc::Global;
use tclrules::Limits;

/// What each file of a site is evaluated in.
#[derive(Clone, Copy)]
pub(crate) struct SiteSettings<'a> {
    pub(crate) alloc: Global,
    pub(crate) env: &'a Env,
    pub(crate) limits: Limits,
}

/// Sees that the loaded lists of an environment fit together.
///
/// Errors: loaded lists that don't (35); want of memory.
pub(crate) fn check_loaded(alloc: Global, env: &Env) -> Result<(), Refusal>
    ensures fit { OnOk result (HasLoaded env.now) }
    ensures cause { IfErr result (HasListCause env.now) }
{
    loaded(alloc, env)?;
    Ok(())
}

/// What the evaluations of a module's file show, or why the first is refused.
fn evaluate_file<T: Tree>(
    settings: SiteSettings<'_>,
    tree: &mut T,
    name: &str,
    path: &str,
) -> Result<FileEvaluation, Refusal>
    requires { HasLoaded settings.env.now }
    ensures reads { ReadsOn T.agrees T.failures tree.old tree.new }
    ensures over_tree { ComesToOverTree (T.agrees tree.new) (T.failures tree.old < T.failures tree.new) result
        (λ files listings. EvaluatesTo (site_of settings.entry.limits settings.entry.env.now files listings)
        (record { name = name.now; path = path.now })) }
    ensures failed { FailsAt is_failure (T.failed tree.old) (T.failed tree.new) result (λ at. at ≡ path.now) }
{
    let text = script_at(settings.alloc, tree, path)?;
    let text = text.as_str();
    evaluate_script(settings, ModuleScript { name, path, text })
}

/// The module of this name and file, with what its evaluations show.
fn evaluation_of(
    alloc: Global,
    name: String,
    path: String,
    outcome: Result<FileEvaluation, Refusal>,
) -> Evaluation
    ensures { IsEvaluationWith (string_bytes name) (string_bytes path) outcome result }
{
    match outcome {
        Ok(shown) => Evaluation {
            name,
            path,
            outcome: Ok(shown.file),
            reads: shown.reads,
        },
        Err(refusal) => Evaluation {
            name,
            path,
            outcome: Err(refusal),
            reads: Vec::new(alloc),
        },
    }
}

/// The module of this name below a directory, with what the evaluations of its file show.
///
/// Errors: a device that failed, at the path of the file; want of memory.
pub(crate) fn evaluate_module<T: Tree>(
    settings: SiteSettings<'_>,
    tree: &mut T,
    dir: &str,
    name: &str,
) -> Result<Evaluation, Refusal>
    requires { HasLoaded settings.env.now }
    ensures reads { ReadsOn T.agrees T.failures tree.old tree.new }
    ensures evaluated { IfOk result (λ evaluation. InEachPair (T.agrees tree.new) (λ files listings.
        IsEvaluationOf (site_of settings.entry.limits settings.entry.env.now files listings)
        (module_below dir.now name.now) evaluation)) }
    ensures cause { IfErr result (GivesUp (T.failures tree.old < T.failures tree.new)) }
    ensures failed { FailsAt is_failure (T.failed tree.old) (T.failed tree.new) result (λ at.
        at ≡ (module_below dir.now name.now).path) }
{
    let alloc = settings.alloc;
    let path = path_of(alloc, dir, name)?;
    let full_name = String::from_str(alloc, name)?;
    let outcome = unless_transient(evaluate_file(settings, tree, name, path.as_str()))?;
    Ok(evaluation_of(alloc, full_name, path, outcome))
}
