//! `unload --auto`: what needs it is unloaded with it.
ghost use Rattle.std.specs.Prelude.{◌≡◌, ◌<◌, ◌+◌, map, string_bytes, vec_len, IfErr, IfOk, OnOk};
ghost use Rattle.envvars.specs.Changes.{new_values_in};
ghost use Rattle.envvars.specs.Texts.{texts_in};
ghost use Rattle.shelltext.specs.Reading.{TextSays};
ghost use Rattle.filetree.specs.Agreement.{FailsOnlyAt, InEachPair, ReadsOn};
ghost use Rattle.modules.specs.Answers.{cause_of};
ghost use Rattle.requests.specs.Requests as actions;
ghost use Rattle.requests.specs.Steps.{RequestStep, request_context_in};
ghost use Rattle.module_auto.specs.Adding.{most_added};
ghost use Rattle.module_auto.specs.Answers.{IsAnswer, IsRequestFault};
ghost use Rattle.module_auto.specs.Unloads.{AutomaticUnload, AutomaticUnloadLooksAt, StillNeed, in_front};
ghost use Rattle.module_auto.specs.Views.{IsNotPut, PutsInFront};

use crate::answer::{AutomaticAnswer, answer_of};
use crate::fault::RequestFault;
use crate::requesting::unload;
use crate::spent::is_spent;
use envvars::Env;
use filetree::Tree;
use message::texts::copies;
use modules::Refusal;
use shelltext::Shell;
use std::alloc::Global;
use tclrules::Limits;

/// Puts the module that still needs something in front of the names, where the refusal names one.
pub(crate) fn put_in_front(
    names: &mut Vec<String>,
    added: &mut Vec<String>,
    refusal: Refusal,
) -> Result<(), Refusal>
    ensures put { OnOk result (PutsInFront (cause_of refusal) (texts_in names.old) (texts_in added.old)
        (texts_in names.new) (texts_in added.new)) }
    ensures bound { OnOk result (vec_len added.old < most_added) }
    ensures longer { OnOk result (vec_len added.new ≡ vec_len added.old + 1) }
    ensures refused { IfErr result (λ other. IsNotPut (cause_of refusal) (texts_in added.old) (cause_of other)) }
{
    match refusal {
        Refusal::StillNeededBy(name) => {
            if is_spent(name.as_str(), added.as_slice()) {
                return Err(Refusal::StillNeededBy(name));
            }
            added.push(name.clone()?)?;
            names.insert(0, name)?;
            Ok(())
        }
        refusal => Err(refusal),
    }
}

/// Does what `unload --auto` does: unloads the names, and with them the modules that need what they are. Where the
/// unload is refused since a module still needs something (53), that module goes in front of all names, and so on. The
/// environment doesn't change.
///
/// The answer is that of the unload of all these names, in this order. No module is put in twice, and 1,000 at most are.
/// The device failed only at paths that one of the unloads looks at.
///
/// Errors: `Refused`, the unload is refused by another reason; or by 53, and that module was put in already; or by 43
/// where the device failed in this call, or for want of memory; `Unprinted`, the changes have no text for the shell
/// (62), or want of memory (61).
pub fn unload_automatically<T: Tree>(
    alloc: Global,
    shell: Shell,
    asked: &[String],
    env: &Env,
    tree: &mut T,
    limits: Limits,
) -> Result<AutomaticAnswer, RequestFault>
    ensures reads { ReadsOn T.agrees T.failures tree.old tree.new }
    ensures unloaded { IfOk result (λ a. IsAnswer (T.agrees tree.new) shell env.now
        (λ files listings. RequestStep (request_context_in limits shell files listings) env.now
        (actions.unload (texts_in a.names))) a) }
    ensures needing { IfOk result (λ a. InEachPair (T.agrees tree.new) (λ files listings.
        StillNeed (request_context_in limits shell files listings) env.now (map string_bytes asked.now)
        (texts_in a.added))) }
    ensures names { IfOk result (λ a. texts_in a.names ≡ in_front (texts_in a.added) (map string_bytes asked.now)) }
    ensures changes { IfOk result (λ a. TextSays shell (string_bytes a.text) (new_values_in a.changes)) }
    ensures refused { IfErr result (
        IsRequestFault (T.agrees tree.new) (T.failures tree.old < T.failures tree.new) shell env.now
        (λ files listings. AutomaticUnload (request_context_in limits shell files listings) env.now
        (map string_bytes asked.now))) }
    ensures failed { FailsOnlyAt T.agrees T.failed tree.old tree.new (λ files listings.
        AutomaticUnloadLooksAt (request_context_in limits shell files listings) env.now
        (map string_bytes asked.now)) }
{
    let mut names = copies(alloc, asked)?;
    let mut added = Vec::new(alloc);
    loop {
        match unload(alloc, shell, names.as_slice(), env, tree, limits) {
            Ok(changed) => return answer_of(alloc, shell, env, names, added, changed),
            Err(refusal) => put_in_front(&mut names, &mut added, refusal)?,
        }
    }
}
