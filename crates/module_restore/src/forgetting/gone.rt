//! The way out where the files of loaded modules are gone.
ghost use Rattle.std.specs.Prelude.{◌≡◌, ◌<◌, ◌∷◌, ◌++◌, [], map, IfErr, IfNone, IfOk, IfSome, OnOk};
ghost use Rattle.envvars.specs.Texts.{texts_in};
ghost use Rattle.envstate.specs.loaded_list.LoadedEntries.{entry_view};
ghost use Rattle.filetree.specs.Agreement.{InEachPair, ReadsOn};
ghost use Rattle.filetree.specs.Causes.{Applies};
ghost use Rattle.module_restore.specs.forgetting.Answers.{IsNoWayOut, IsWayOut, NoneIsGone, cause_of};
ghost use Rattle.module_restore.specs.forgetting.Forgets.{gone};

use crate::forgetting::fault::{ForgetFault, ForgetRefusal};
use crate::forgetting::names::{can_go, forget};
use envstate::loaded_list::{Loaded, loaded};
use envvars::Env;
use filetree::Tree;
use shelltext::Shell;
use std::alloc::Global;

/// Adds the name of a loaded module, if its file is gone.
fn push_if_gone<T: Tree>(
    names: &mut Vec<String>,
    entry: &Loaded,
    tree: &mut T,
) -> Result<(), ForgetRefusal>
    ensures reads { ReadsOn T.agrees T.failures tree.old tree.new }
    ensures pushed { OnOk result (InEachPair (T.agrees tree.new) (λ files listings.
        texts_in names.new ≡ texts_in names.old ++ gone files (entry_view entry.now ∷ []))) }
    ensures only { IfErr result (λ refusal.
        Applies (cause_of refusal) (T.failures tree.old < T.failures tree.new) (λ reason. ⊥)) }
{
    if can_go(false, entry.path.as_str(), tree)? {
        names.push(entry.name.clone()?)?;
    }
    Ok(())
}

/// The names of those loaded modules whose files are gone.
fn gone<T: Tree>(
    alloc: Global,
    entries: &[Loaded],
    tree: &mut T,
) -> Result<Vec<String>, ForgetRefusal>
    ensures reads { ReadsOn T.agrees T.failures tree.old tree.new }
    ensures gone { IfOk result (λ names. InEachPair (T.agrees tree.new) (λ files listings.
        texts_in names ≡ gone files (map entry_view entries.now))) }
    ensures only { IfErr result (λ refusal.
        Applies (cause_of refusal) (T.failures tree.old < T.failures tree.new) (λ reason. ⊥)) }
{
    let mut names = Vec::new(alloc);
    for entry in entries {
        push_if_gone(&mut names, entry, tree)?;
    }
    Ok(names)
}

/// The names of the loaded modules whose files are gone, where there are some: `forget` would be accepted with them.
///
/// It fails as `forget` does.
pub fn way_out<T: Tree>(
    alloc: Global,
    shell: Shell,
    env: &Env,
    tree: &mut T,
) -> Result<Option<Vec<String>>, ForgetFault>
    ensures reads { ReadsOn T.agrees T.failures tree.old tree.new }
    ensures accepted { IfOk result (λ found. IfSome found (λ names.
        IsWayOut (T.agrees tree.new) shell env.now (texts_in names))) }
    ensures none { IfOk result (λ found. IfNone found (NoneIsGone (T.agrees tree.new) env.now)) }
    ensures refused { IfErr result (IsNoWayOut (T.agrees tree.new) (T.failures tree.old < T.failures tree.new) shell
        env.now) }
{
    let entries = loaded(alloc, env)?;
    let names = gone(alloc, entries.as_slice(), tree)?;
    if names.is_empty() {
        return Ok(None);
    }
    let _ = forget(alloc, shell, false, names.as_slice(), env, tree)?;
    Ok(Some(names))
}
