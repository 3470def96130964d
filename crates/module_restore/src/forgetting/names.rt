//! `forget`: the text for the shell, and what was forgotten.
ghost use Rattle.std.specs.Prelude.{◌≡◌, ◌<◌, ◌++◌, ◌∷◌, [], List, is_some, map, Err, IfErr, IfOk, IfSome, OnOk};
ghost use Rattle.std.specs.Prelude.{string_bytes};
ghost use Rattle.envvars.specs.Reasons.{reason_of};
ghost use Rattle.envvars.specs.Texts.{Text};
ghost use Rattle.envstate.specs.loaded_list.Loaded.{dropped_loaded};
ghost use Rattle.filetree.specs.Agreement.{FailsAt, FailsOnlyByDevice, FailsOnlyWhere, InEachPair, ReadsOn, is_device};
ghost use Rattle.filetree.specs.Causes.{AnswersOverTree};
ghost use Rattle.module_restore.specs.forgetting.Answers.{IsAnswer, IsForgetFault, cause_of, is_failure};
ghost use Rattle.module_restore.specs.forgetting.Forgets.{Forgets, ForgetsName, IsForgotten, can_go};
ghost use Rattle.module_restore.specs.forgetting.Looked.{IsRecorded};
ghost use Rattle.module_restore.specs.forgetting.Views.{forgetting_in};

use crate::forgetting::fault::{ForgetFault, ForgetRefusal};
use crate::forgetting::stacks::pop_all;
use envstate::loaded_list::{drop_loaded, loaded};
use envvars::{Change, Env, EnvFault, changes};
use filetree::{Tree, TreeFault};
use requests::last_meant;
use shelltext::{Shell, print_changes};
use std::alloc::Global;

/// What was forgotten.
#[derive(Debug, Drop)]
pub struct Forgotten {
    /// The full names of the modules, in turn.
    pub names: Vec<String>,
    /// The text for the shell.
    pub text: String,
    /// The changes that the text says.
    pub changes: Vec<Change>,
}

/// Whether a file is at the path.
fn is_file<T: Tree>(tree: &mut T, path: &str) -> Result<bool, TreeFault>
    ensures reads { ReadsOn T.agrees T.failures tree.old tree.new }
    ensures there { IfOk result (λ is. InEachPair (T.agrees tree.new) (λ files listings.
        is_some (files path.now) ≡ is)) }
    ensures cause { FailsOnlyByDevice (T.failures tree.old) (T.failures tree.new) result }
    ensures failed { FailsAt is_device (T.failed tree.old) (T.failed tree.new) result (λ at. at ≡ path.now) }
{
    tree.begins_with(path, b"")
}

/// Whether a module with its file at this path can be forgotten: the file is gone, or settings are to stay. No file is
/// looked at then.
pub(crate) fn can_go<T: Tree>(
    settings_stay: bool,
    path: &str,
    tree: &mut T,
) -> Result<bool, TreeFault>
    ensures reads { ReadsOn T.agrees T.failures tree.old tree.new }
    ensures can { IfOk result (λ can. InEachPair (T.agrees tree.new) (λ files listings.
        can_go settings_stay files path.now ≡ can)) }
    ensures cause { FailsOnlyByDevice (T.failures tree.old) (T.failures tree.new) result }
    ensures failed { FailsAt is_device (T.failed tree.old) (T.failed tree.new) result (λ at. at ≡ path.now) }
{
    if settings_stay {
        return Ok(true);
    }
    Ok(!is_file(tree, path)?)
}

/// Forgets a module.
fn forget_module(alloc: Global, env: &mut Env, name: &str) -> Result<(), EnvFault>
    ensures forgotten { OnOk result (IsForgotten name.now env.old env.new) }
    ensures refused { IfErr result (λ fault. IfSome (reason_of fault) (λ reason.
        dropped_loaded env.old name.now ≡ Err reason)) }
{
    drop_loaded(alloc, env, name)?;
    pop_all(alloc, env, name)?;
    Ok(())
}

/// Forgets the last loaded module that a name means, and answers its full name.
fn forget_name<T: Tree>(
    alloc: Global,
    settings_stay: bool,
    name: &str,
    env: &mut Env,
    tree: &mut T,
) -> Result<String, ForgetRefusal>
    ensures reads { ReadsOn T.agrees T.failures tree.old tree.new }
    ensures forgotten { (names : List Text) → AnswersOverTree cause_of (T.agrees tree.new)
        (T.failures tree.old < T.failures tree.new)
        (λ owner. record { env = env.new; names = names ++ string_bytes owner ∷ [] }) result
        (λ files listings. ForgetsName settings_stay files name.now (record { env = env.old; names = names })) }
    ensures failed { FailsAt is_failure (T.failed tree.old) (T.failed tree.new) result (IsRecorded env.old) }
    ensures recorded { OnOk result ((at : Text) → IsRecorded env.new at → IsRecorded env.old at) }
{
    let entries = loaded(alloc, env)?;
    let Some(entry) = last_meant(entries.as_slice(), name) else {
        return Err(ForgetRefusal::NotLoaded(String::from_str(alloc, name)?));
    };
    let path = entry.path.as_str();
    if !can_go(settings_stay, path, tree)? {
        return Err(ForgetRefusal::FileThere(String::from_str(alloc, path)?));
    }
    let owner = entry.name.as_str();
    forget_module(alloc, env, owner)?;
    Ok(String::from_str(alloc, owner)?)
}

/// Forgets the module of each name in turn, and answers their full names.
fn forget_each<T: Tree>(
    alloc: Global,
    settings_stay: bool,
    names: &[String],
    env: &mut Env,
    tree: &mut T,
) -> Result<Vec<String>, ForgetRefusal>
    ensures reads { ReadsOn T.agrees T.failures tree.old tree.new }
    ensures forgotten { AnswersOverTree cause_of (T.agrees tree.new) (T.failures tree.old < T.failures tree.new)
        (forgetting_in env.new) result
        (λ files listings. Forgets settings_stay files env.old (map string_bytes names.now)) }
    ensures failed { FailsAt is_failure (T.failed tree.old) (T.failed tree.new) result (IsRecorded env.old) }
{
    let mut forgotten = Vec::new(alloc);
    for name in names {
        forgotten.push(forget_name(alloc, settings_stay, name.as_str(), env, tree)?)?;
    }
    Ok(forgotten)
}

/// Does what `forget` does: for each name the last loaded module that it means is dropped from the loaded lists, and its
/// values are popped from all stacks. The environment doesn't change.
///
/// The text says exactly, as the shell reads it, what this makes of the environment. It is all or nothing. Whether the
/// file of a module is there isn't looked at where settings are to stay. The device failed only at recorded paths of
/// loaded modules.
///
/// Errors: `Refused`, the loaded lists don't fit together (35), a name means no loaded module, or the file of one is there
/// and settings aren't to stay; or by 43 where the device failed in this call, or for want of memory; `Unprinted`, the
/// changes have no text for the shell (62), or want of memory (61).
pub fn forget<T: Tree>(
    alloc: Global,
    shell: Shell,
    settings_stay: bool,
    names: &[String],
    env: &Env,
    tree: &mut T,
) -> Result<Forgotten, ForgetFault>
    ensures reads { ReadsOn T.agrees T.failures tree.old tree.new }
    ensures forgotten { IfOk result (IsAnswer (T.agrees tree.new) shell settings_stay env.now
        (map string_bytes names.now)) }
    ensures refused { IfErr result (IsForgetFault (T.agrees tree.new) (T.failures tree.old < T.failures tree.new) shell
        settings_stay env.now (map string_bytes names.now)) }
    ensures failed { FailsOnlyWhere (T.failed tree.old) (T.failed tree.new) (IsRecorded env.now) }
{
    let mut after = env.copy()?;
    let names = forget_each(alloc, settings_stay, names, &mut after, tree)?;
    let changes = changes(alloc, env, &after)?;
    let text = print_changes(alloc, shell, changes.as_slice())?;
    Ok(Forgotten {
        names,
        text,
        changes,
    })
}
