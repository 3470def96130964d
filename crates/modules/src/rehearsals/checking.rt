//! Checks the lines of a text: runs their requests as a session, and judges the modules that they loaded.
ghost use Rattle.std.specs.Prelude.{◌≡◌, ◌<◌, ◌≤◌, ◌+◌, IfOk, IfErr};
ghost use Rattle.std.specs.List.{flat_map};
ghost use Rattle.envvars.specs.Fields.{without_repeats};
ghost use Rattle.filetree.specs.Agreement.{FailsOnlyAt, ReadsOn};
ghost use Rattle.modules.specs.declared.refusal.Refusal.TheVariants as refusals;
ghost use Rattle.modules.specs.Verdicts.{in_sh};
ghost use Rattle.requests.specs.Steps.{request_context_in};
ghost use Rattle.modules.specs.rehearsals.Lines.{lines_in};
ghost use Rattle.modules.specs.rehearsals.Judgments.{AreJudgments, NamesLookAt, count_failed_judgments};
ghost use Rattle.modules.specs.rehearsals.Parts.{loaded_in};
ghost use Rattle.modules.specs.rehearsals.Checks.{CheckLooksAt, IsCheck, all_accepted, was_accepted};

use crate::rehearsals::judging::{ModuleVerdict, give_verdicts};
use crate::rehearsals::lines::lines_in;
use crate::rehearsals::loading::names_loaded;
use crate::rehearsals::running::run_lines;
use crate::{Outcome, Refusal};
use envvars::Env;
use filetree::Tree;
use shelltext::Shell;
use std::alloc::{AllocError, Global};
use tclrules::Limits;

/// What the check of lines found: an outcome for each line, and a verdict for each module.
#[derive(Drop)]
pub struct CheckFindings {
    /// The environment that results of the requests.
    pub env: Env,
    /// The outcome of each line with words, in order.
    pub outcomes: Vec<Outcome>,
    /// The verdicts on the modules that they loaded, in the order of the first load.
    pub judgments: Vec<ModuleVerdict>,
}

/// Whether the request was accepted.
fn was_accepted(outcome: &Outcome) -> bool
    ensures { result ≡ was_accepted outcome.now }
{
    matches!(outcome, Outcome::Accepted(_))
}

impl CheckFindings {
    /// Whether each request was accepted.
    pub fn is_accepted(&self) -> bool
        ensures { result ≡ all_accepted self.now }
    {
        self.outcomes.iter().all(|outcome| was_accepted(outcome))
    }
}

/// Judges the modules that the requests loaded, each once, in an environment.
fn judge_loaded<T: Tree>(
    alloc: Global,
    outcomes: &[Outcome],
    env: &Env,
    tree: &mut T,
    limits: Limits,
) -> Result<Vec<ModuleVerdict>, AllocError>
    ensures reads { ReadsOn T.agrees T.failures tree.old tree.new }
    ensures judged { IfOk result (λ judgments.
        AreJudgments (T.agrees tree.new) (T.failures tree.old < T.failures tree.new) limits env.now
        (without_repeats (flat_map loaded_in outcomes.now)) judgments.items) }
    ensures failures { IfOk result (λ judgments.
        T.failures tree.old + count_failed_judgments judgments.items ≤ T.failures tree.new) }
    ensures failed { FailsOnlyAt T.agrees T.failed tree.old tree.new (λ files listings at.
        NamesLookAt (in_sh limits files listings) env.now
        (without_repeats (flat_map loaded_in outcomes.now)) at) }
{
    let names = names_loaded(alloc, outcomes)?;
    give_verdicts(alloc, names.as_slice(), env, tree, limits)
}

/// Runs the requests of lines one after another from an environment, which doesn't change, over a tree of modulefiles,
/// and judges the modules that they load in that environment.
///
/// The words of a line, between spaces and tabs, make its request, for this shell. A line without words is passed over;
/// one that makes no request is refused (56, 57), and so is a request that its step refuses. A refused line changes
/// nothing, and the next line is run. No more lines and verdicts are refused by 43 than the device failed, and it
/// failed only at paths that a line or the search for a module to be judged looks at.
///
/// Errors: want of memory (31), apart from that of a single request or verdict, which is the outcome of its line or
/// module.
pub fn check<T: Tree>(
    alloc: Global,
    shell: Shell,
    text: &str,
    env: &Env,
    tree: &mut T,
    limits: Limits,
) -> Result<CheckFindings, Refusal>
    ensures reads { ReadsOn T.agrees T.failures tree.old tree.new }
    ensures checked { IfOk result (IsCheck (T.agrees tree.new) (T.failures tree.old) (T.failures tree.new)
        limits shell env.now text.now) }
    ensures only { IfErr result (λ refusal. refusal ≡ refusals.OutOfMemory) }
    ensures failed { FailsOnlyAt T.agrees T.failed tree.old tree.new (λ files listings at.
        CheckLooksAt (request_context_in limits shell files listings) env.now (lines_in text.now) at) }
{
    let lines = lines_in(alloc, text)?;
    let Ok(mut after) = env.copy() else {
        return Err(Refusal::OutOfMemory);
    };
    let outcomes = run_lines(alloc, shell, lines.as_slice(), &mut after, tree, limits)?;
    let judgments = judge_loaded(alloc, outcomes.as_slice(), env, tree, limits)?;
    Ok(CheckFindings {
        env: after,
        outcomes,
        judgments,
    })
}
