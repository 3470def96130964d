//! `load --auto`: what is needed first is loaded with it.
ghost use Rattle.std.specs.Prelude.{◌≡◌, ◌<◌, map, string_bytes, Ok, IfErr, IfOk};
ghost use Rattle.envvars.specs.Changes.{new_values_in};
ghost use Rattle.envvars.specs.Texts.{texts_in};
ghost use Rattle.shelltext.specs.Reading.{TextSays};
ghost use Rattle.filetree.specs.Agreement.{FailsOnlyAt, InEachPair, ReadsOn};
ghost use Rattle.requests.specs.Requests as actions;
ghost use Rattle.requests.specs.Steps.{Done, RequestStep, request_context_in};
ghost use Rattle.module_auto.specs.Answers.{IsAnswer, IsRequestFault};
ghost use Rattle.module_auto.specs.Loads.{AutomaticLoad, AutomaticLoadLooksAt, AutomaticNames};
ghost use Rattle.module_auto.specs.Loads.{CompletedLoad, Completes};

use crate::answer::{AutomaticAnswer, answer_of};
use crate::fault::RequestFault;
use crate::plan::Plan;
use crate::requesting::load;
use envvars::Env;
use filetree::Tree;
use message::texts::copies;
use modules::Refusal;
use shelltext::Shell;
use std::alloc::Global;
use tclrules::Limits;

/// Loads the names with all that they need.
fn load_completed<T: Tree>(
    alloc: Global,
    shell: Shell,
    names: &[String],
    env: &Env,
    tree: &mut T,
    limits: Limits,
) -> Result<AutomaticAnswer, RequestFault>
    ensures reads { ReadsOn T.agrees T.failures tree.old tree.new }
    ensures loaded { IfOk result (λ a. IsAnswer (T.agrees tree.new) shell env.now
        (λ files listings. RequestStep (request_context_in limits shell files listings) env.now
        (actions.load (texts_in a.names))) a) }
    ensures completed { IfOk result (λ a. InEachPair (T.agrees tree.new) (λ files listings.
        Completes (request_context_in limits shell files listings) env.now (map string_bytes names.now)
        (texts_in a.added) (texts_in a.names))) }
    ensures changes { IfOk result (λ a. TextSays shell (string_bytes a.text) (new_values_in a.changes)) }
    ensures refused { IfErr result (
        IsRequestFault (T.agrees tree.new) (T.failures tree.old < T.failures tree.new) shell env.now
        (λ files listings. CompletedLoad (request_context_in limits shell files listings) env.now
        (map string_bytes names.now))) }
    ensures failed { FailsOnlyAt T.agrees T.failed tree.old tree.new (λ files listings.
        AutomaticLoadLooksAt (request_context_in limits shell files listings) env.now (map string_bytes names.now)) }
{
    requests::outcomes();
    let plan = Plan::completed(alloc, shell, names, env, tree, limits)?;
    let changed = load(alloc, shell, plan.names.as_slice(), env, tree, limits)?;
    answer_of(alloc, shell, env, plan.names, plan.added, changed)
}

/// Does what `load --auto` does: loads the names, and with them what they need. Where a name is refused since none of
/// the alternatives of a prereq is loaded (52), the first of these that the search finds goes right before it, and so
/// on; where the load of the names is accepted, nothing is put in. The environment doesn't change.
///
/// The answer is that of the load of all these names, in this order. No name is put in twice, and 1,000 at most are. The
/// device failed only at paths that one of the loads looks at, or the search for an alternative.
///
/// Errors: `Refused`, the load is refused by another reason; or by 52, and no alternative is found, or the first that is
/// was put in already; or by 43 where the device failed in this call, or for want of memory; `Unprinted`, the changes
/// have no text for the shell (62), or want of memory (61).
pub fn load_automatically<T: Tree>(
    alloc: Global,
    shell: Shell,
    names: &[String],
    env: &Env,
    tree: &mut T,
    limits: Limits,
) -> Result<AutomaticAnswer, RequestFault>
    ensures reads { ReadsOn T.agrees T.failures tree.old tree.new }
    ensures loaded { IfOk result (λ a. IsAnswer (T.agrees tree.new) shell env.now
        (λ files listings. RequestStep (request_context_in limits shell files listings) env.now
        (actions.load (texts_in a.names))) a) }
    ensures named { IfOk result (λ a. InEachPair (T.agrees tree.new) (λ files listings.
        AutomaticNames (request_context_in limits shell files listings) env.now (map string_bytes names.now)
        (texts_in a.added) (texts_in a.names))) }
    ensures as_asked { IfOk result (λ a. InEachPair (T.agrees tree.new) (λ files listings. (d : Done)
        → RequestStep (request_context_in limits shell files listings) env.now
        (actions.load (map string_bytes names.now)) (Ok d) → texts_in a.names ≡ map string_bytes names.now)) }
    ensures changes { IfOk result (λ a. TextSays shell (string_bytes a.text) (new_values_in a.changes)) }
    ensures refused { IfErr result (
        IsRequestFault (T.agrees tree.new) (T.failures tree.old < T.failures tree.new) shell env.now
        (λ files listings. AutomaticLoad (request_context_in limits shell files listings) env.now
        (map string_bytes names.now))) }
    ensures failed { FailsOnlyAt T.agrees T.failed tree.old tree.new (λ files listings.
        AutomaticLoadLooksAt (request_context_in limits shell files listings) env.now (map string_bytes names.now)) }
{
    requests::outcomes();
    match load(alloc, shell, names, env, tree, limits) {
        Ok(changed) => {
            let own = copies(alloc, names)?;
            answer_of(alloc, shell, env, own, Vec::new(alloc), changed)
        }
        Err(refusal) => match refusal {
            Refusal::PrereqMissing(_) => load_completed(alloc, shell, names, env, tree, limits),
            refusal => Err(RequestFault::Refused(refusal)),
        },
    }
}
