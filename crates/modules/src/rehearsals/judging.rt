//! The verdicts on modules by their names, or why there is none.
ghost use Rattle.std.specs.Prelude.{◌<◌, ◌≤◌, ◌+◌, IfOk};
ghost use Rattle.envvars.specs.Texts.{slice_texts};
ghost use Rattle.filetree.specs.Agreement.{FailsOnlyAt, ReadsOn};
ghost use Rattle.modules.specs.Verdicts.{in_sh};
ghost use Rattle.modules.specs.rehearsals.Judgments.{AreJudgments, NamesLookAt, count_failed_judgments};

use crate::{Refusal, Verdict, verdict};
use envvars::Env;
use filetree::Tree;
use std::alloc::{AllocError, Global};
use tclrules::Limits;

/// A module with the verdict on it, or why there is none.
#[derive(Debug, Drop)]
pub struct ModuleVerdict {
    /// The module's full name.
    pub name: String,
    /// The verdict, in the environment in which it was judged; or why there is none.
    pub verdict: Result<Verdict, Refusal>,
}

/// The verdicts on the modules of these names, in an environment.
pub(crate) fn give_verdicts<T: Tree>(
    alloc: Global,
    names: &[&str],
    env: &Env,
    tree: &mut T,
    limits: Limits,
) -> Result<Vec<ModuleVerdict>, AllocError>
    ensures reads { ReadsOn T.agrees T.failures tree.old tree.new }
    ensures judged { IfOk result (λ judgments.
        AreJudgments (T.agrees tree.new) (T.failures tree.old < T.failures tree.new) limits env.now
        (slice_texts names.now)
        judgments.items) }
    ensures failures { IfOk result (λ judgments.
        T.failures tree.old + count_failed_judgments judgments.items ≤ T.failures tree.new) }
    ensures failed { FailsOnlyAt T.agrees T.failed tree.old tree.new (λ files listings at.
        NamesLookAt (in_sh limits files listings) env.now (slice_texts names.now) at) }
{
    let mut judgments = Vec::new(alloc);
    for name in names {
        let answer = verdict(alloc, name, env, tree, limits);
        let full_name = String::from_str(alloc, name)?;
        judgments.push(ModuleVerdict {
            name: full_name,
            verdict: answer,
        })?;
    }
    Ok(judgments)
}
