//! The verdict on the module that a name means: whether its file is plain.
ghost use Rattle.std.specs.Prelude.{◌<◌, [], ◌∷◌, IfOk, IfErr};
ghost use Rattle.filetree.specs.Agreement.{FailsAt, InEachPair, ReadsOn};
ghost use Rattle.search.specs.Answers.{found_view};
ghost use Rattle.requests.specs.Looked.{SearchLooksAt};
ghost use Rattle.requests.specs.Verdicts.{HasVerdict};
ghost use Rattle.modules.specs.Answers.{GivesOrRefuses, StepAnswersOverTree, is_failure};
ghost use Rattle.modules.specs.Messages.{MemoryNumberAmong};
ghost use Rattle.modules.specs.Parts.{TreeAnswer, JudgesFound, entries_view};
ghost use Rattle.modules.specs.Verdicts.{verdict_view, in_sh, PlainVerdictHolds};

use crate::entries::entries_of;
use crate::judged::{Verdict, verdict_on};
use crate::one_name::{ModuleFile, NameRequest, evaluate, find_module};
use crate::refusal::Refusal;
use crate::settings::EvaluationSettings;
use envstate::loaded_list::{Loaded, LoadedList};
use envvars::{Env, Vars, Working};
use filetree::Tree;
use modulefile::Mode;
use search::LocatedModule;
use shelltext::Shell;
use std::alloc::Global;
use tclrules::Limits;

/// The verdict on the module that was found; its file is evaluated over these variables, and has its effects on them.
fn judge_found<V: Vars>(
    alloc: Global,
    name_request: NameRequest<'_>,
    entries: Vec<Loaded>,
    found: &LocatedModule,
    env: &mut V,
) -> Result<Verdict, Refusal>
    ensures { GivesOrRefuses verdict_view result
        (JudgesFound name_request.entry (found_view found.now) (entries_view entries) (V.vars env.old)) }
{
    let list = LoadedList::of(alloc, entries)?;
    let file = ModuleFile::of(found);
    let ran = evaluate(alloc, name_request, Mode::Load, &list, file, env)?;
    Ok(verdict_on(&ran))
}

/// The verdict on the module that a name means, with the effects of its file on these variables.
fn give_verdict<T: Tree, V: Vars>(
    alloc: Global,
    typed: &str,
    env: &mut V,
    tree: &mut T,
    limits: Limits,
) -> Result<Verdict, Refusal>
    ensures { TreeAnswer T.agrees T.failures T.failed tree.old tree.new verdict_view result
        (λ files listings. HasVerdict (in_sh limits files listings) (V.vars env.old) typed.now)
        (λ files listings. SearchLooksAt (in_sh limits files listings) (V.vars env.old) typed.now) }
{
    let settings = EvaluationSettings {
        limits,
        shell: Shell::Sh,
    };
    let name_request = NameRequest {
        settings,
        in_switch: false,
        typed,
    };
    let entries = entries_of(alloc, env)?;
    let found = find_module(alloc, name_request, env, tree)?;
    judge_found(alloc, name_request, entries, &found, env)
}

/// Judges the module that a name means: its file is evaluated for loading in sh, with this name as the one that was
/// typed. The environment doesn't change; conflicts and prereqs aren't judged.
///
/// A module that is `Plain` makes the same records wherever it is loaded or unloaded, or is refused there, and
/// unloading undoes each of them.
///
/// Errors: loaded lists that are inconsistent (35); what the search for the name answers (42, 44, 45, 46, and 43 where
/// the device failed in this call, at a path that the search looks at); what the evaluation of the file is refused by;
/// want of memory (11, 31, 41).
pub fn verdict<T: Tree>(
    alloc: Global,
    name: &str,
    env: &Env,
    tree: &mut T,
    limits: Limits,
) -> Result<Verdict, Refusal>
    ensures reads { ReadsOn T.agrees T.failures tree.old tree.new }
    ensures judged { StepAnswersOverTree (T.agrees tree.new)
        (T.failures tree.old < T.failures tree.new) verdict_view result
        (λ files listings. HasVerdict (in_sh limits files listings) env.now name.now) }
    ensures plain { IfOk result (λ verdict. InEachPair (T.agrees tree.new) (λ files listings.
        PlainVerdictHolds (in_sh limits files listings) env.now name.now verdict)) }
    ensures failed { FailsAt is_failure (T.failed tree.old) (T.failed tree.new) result (λ at.
        InEachPair (T.agrees tree.new) (λ files listings.
        SearchLooksAt (in_sh limits files listings) env.now name.now at)) }
    ensures out_of_memory { IfErr result (MemoryNumberAmong (11 ∷ 31 ∷ 41 ∷ [])) }
{
    requests::verdicts();
    give_verdict(alloc, name, &mut Working::over(env), tree, limits)
}
