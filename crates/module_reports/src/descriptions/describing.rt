//! What `whatis` reports of all modules, and `keyword` of those whose report mentions a text.
ghost use Rattle.std.specs.Prelude.{◌≡◌, ◌<◌, map, flat_map, IfOk, IfErr, false, string_bytes};
ghost use Rattle.std.specs.List.{list_any};
ghost use Rattle.std.specs.Option.{option_map};
ghost use Rattle.filetree.specs.Agreement.{FailsOnlyAt, InEachPair, Narrows};
ghost use Rattle.filetree.specs.Causes.{Applies, memory};
ghost use Rattle.requests.specs.RequestViews.{request_view};
ghost use Rattle.requests.specs.Steps.{request_context_in};
ghost use Rattle.modules.specs.Answers.{cause_of};
ghost use Rattle.module_reports.specs.descriptions.Descriptions.{AreDescribed, DescribingLooksAt, IsDescription, OneLooksAt};
ghost use Rattle.module_reports.specs.descriptions.Descriptions.{describing, is_want_of_memory};
ghost use Rattle.module_reports.specs.descriptions.Mentions.{in_small_letters};
ghost use Rattle.module_reports.specs.descriptions.Written.{left_lines, shown};

use crate::descriptions::all_names::all_names;
use crate::descriptions::left_out::{has_want_of_memory, left_lines};
use crate::descriptions::mentions::in_small_letters;
use crate::descriptions::written::shown_text;
use envvars::Env;
use filetree::Tree;
use modules::{Action, Outcome, Refusal, Request, session};
use shelltext::Shell;
use std::alloc::{AllocError, Global};
use tclrules::Limits;

/// What is reported of modules.
#[derive(Debug, Drop)]
pub struct Description {
    /// What `whatis NAME` writes of each, in the order of `avail`.
    pub text: String,
    /// A line `NAME: REASON` for each whose own `whatis NAME` is refused.
    pub left_out: String,
}

/// The request `whatis NAME`.
pub(crate) fn describing(alloc: Global, shell: Shell, name: &str) -> Result<Request, AllocError>
    ensures { IfOk result (λ request. request_view request ≡ describing shell name.now) }
{
    let name = String::from_str(alloc, name)?;
    Ok(Request {
        shell,
        action: Action::Whatis(vec![in alloc; name]?),
    })
}

/// The request `whatis NAME` for each name.
fn requests_for(alloc: Global, shell: Shell, names: &[String]) -> Result<Vec<Request>, AllocError>
    ensures { IfOk result (λ v. map request_view v.items ≡ map (describing shell) (map string_bytes names.now)) }
{
    let mut requests = Vec::with_capacity(alloc, names.len())?;
    for name in names {
        requests.push(describing(alloc, shell, name.as_str())?)?;
    }
    Ok(requests)
}

/// The outcome of `whatis NAME` for each name, each in the environment, which doesn't change. It fails for want of memory
/// alone (31).
fn outcomes_of<T: Tree>(
    alloc: Global,
    shell: Shell,
    names: &[String],
    env: &Env,
    tree: &mut T,
    limits: Limits,
) -> Result<Vec<Outcome>, Refusal>
    ensures narrows { Narrows (T.agrees tree.old) (T.agrees tree.new) }
    ensures described { IfOk result (λ outcomes. InEachPair (T.agrees tree.new) (λ files listings.
        AreDescribed (request_context_in limits shell files listings) env.now (map string_bytes names.now)
        outcomes.items)) }
    ensures fault { IfErr result (λ refusal. cause_of refusal ≡ memory) }
    ensures failed { FailsOnlyAt T.agrees T.failed tree.old tree.new (λ files listings.
        OneLooksAt (request_context_in limits shell files listings) env.now (map string_bytes names.now)) }
{
    requests::reports();
    let requests = requests_for(alloc, shell, names)?;
    let (_, outcomes) = session(alloc, requests.as_slice(), env.copy()?, tree, limits)?;
    Ok(outcomes)
}

/// The text that is sought, in small letters.
fn small_text(alloc: Global, sought: Option<&str>) -> Result<Option<String>, AllocError>
    ensures { IfOk result (λ small. option_map string_bytes small
        ≡ option_map in_small_letters (option_map (λ t. t.now) sought.entry)) }
{
    match sought {
        None => Ok(None),
        Some(text) => Ok(Some(in_small_letters(alloc, text)?)),
    }
}

/// What is reported of modules by their names and outcomes. It fails for want of memory alone (31), in one of the
/// outcomes too.
fn description_of(
    alloc: Global,
    sought: Option<&str>,
    names: &[String],
    outcomes: &[Outcome],
) -> Result<Description, Refusal>
    ensures remembered { IfOk result (λ d. list_any is_want_of_memory outcomes.now ≡ false) }
    ensures shows { IfOk result (λ d. string_bytes d.text
        ≡ flat_map (shown (option_map in_small_letters (option_map (λ t. t.now) sought.entry))) outcomes.now) }
    ensures leaves_out { IfOk result (λ d.
        string_bytes d.left_out ≡ left_lines (map string_bytes names.now) outcomes.now) }
    ensures fault { IfErr result (λ refusal. cause_of refusal ≡ memory) }
{
    if has_want_of_memory(outcomes) {
        return Err(Refusal::OutOfMemory);
    }
    let small = small_text(alloc, sought)?;
    Ok(Description {
        text: shown_text(alloc, small.as_deref(), outcomes)?,
        left_out: left_lines(alloc, names, outcomes)?,
    })
}

/// Describes all modules that can be loaded, or those whose report mentions a text, small letters of ASCII and capitals
/// alike. Of each module it is what `whatis NAME` writes; one whose own `whatis NAME` is refused is left out, with its
/// reason. The environment doesn't change.
///
/// Errors: want of memory (31, 41), in one of the requests too; 43 where the device failed in the listing. The device
/// failed only at paths that the listing or one of the requests looks at.
pub fn describe<T: Tree>(
    alloc: Global,
    shell: Shell,
    sought: Option<&str>,
    env: &Env,
    tree: &mut T,
    limits: Limits,
) -> Result<Description, Refusal>
    ensures narrows { Narrows (T.agrees tree.old) (T.agrees tree.new) }
    ensures described { IfOk result (λ d. IsDescription (T.agrees tree.new) limits shell env.now
        (option_map (λ t. t.now) sought.entry) (string_bytes d.text) (string_bytes d.left_out)) }
    ensures fault { IfErr result (λ refusal.
        Applies (cause_of refusal) (T.failures tree.old < T.failures tree.new) (λ reason. ⊥)) }
    ensures failed { FailsOnlyAt T.agrees T.failed tree.old tree.new (λ files listings.
        DescribingLooksAt (request_context_in limits shell files listings) env.now) }
{
    let names = all_names(alloc, env, tree, limits)?;
    let outcomes = outcomes_of(alloc, shell, names.as_slice(), env, tree, limits)?;
    description_of(alloc, sought, names.as_slice(), outcomes.as_slice())
}
