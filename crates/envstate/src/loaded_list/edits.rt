//! Adding a module to the loaded ones, and dropping one.
ghost use Rattle.std.specs.Prelude.{◌≡◌, ◌++◌, [], ◌∷◌, Some, map, OnOk, OnErr, IfErr, true};
ghost use Rattle.envstate.specs.loaded_list.Loaded.{with_loaded, with_conflicts_once, added_to, added_loaded, without_entry};
ghost use Rattle.envstate.specs.loaded_list.Loaded.{dropped_from, dropped_loaded};
ghost use Rattle.envstate.specs.loaded_list.LoadedEntries.{entry_view};
ghost use Rattle.envvars.specs.Reasons.{Edits};
ghost use Rattle.envvars.specs.declared.fault.EnvFault.TheVariants.{OutOfMemory};

use crate::loaded_list::entry::Loaded;
use crate::loaded_list::list::{copy_entry, loaded};
use crate::loaded_list::writing::{can_be_added, is_loaded, with_conflicts_once};
use crate::loaded_list::written_list::LoadedList;
use envvars::{EnvFault, Vars};
use std::alloc::Global;
use std::mem;

/// Writes the list to its four variables; to none where memory is refused.
fn write<V: Vars>(alloc: Global, env: &mut V, list: &LoadedList) -> Result<(), EnvFault>
    requires { list.now.is_written ≡ true }
    ensures ok { OnOk result (V.vars env.new ≡ with_loaded (V.vars env.old) (map entry_view list.now.entries.items)) }
    ensures err { OnErr result (V.vars env.new ≡ V.vars env.old) }
    ensures only { IfErr result (λ e. e ≡ OutOfMemory) }
    ensures base { V.base env.new ≡ V.base env.old }
{
    let changes = list.changes(alloc, &*env)?;
    env.apply(changes)
}

/// Adds a module after those of the list, and writes the four variables. A conflict that the entry has twice is written
/// once.
///
/// The error is `Inconsistent` where the entry can't be written: its module is in the list, a name in it is ill spelled,
/// its path is empty or holds a colon, or one of its groups has no names; or it is `OutOfMemory`. After an error the
/// environment is unchanged, and the list may hold anything.
pub fn add_to_list<V: Vars>(
    alloc: Global,
    env: &mut V,
    list: &mut LoadedList,
    entry: Loaded,
) -> Result<(), EnvFault>
    ensures edits { Edits result (V.vars env.old) (V.vars env.new)
        (added_to (V.vars env.old) (entry_view entry) (Some (map entry_view list.old.entries.items))) }
    ensures list { OnOk result (map entry_view list.new.entries.items
        ≡ map entry_view list.old.entries.items ++ with_conflicts_once (entry_view entry) ∷ []) }
    ensures base { V.base env.new ≡ V.base env.old }
{
    if !can_be_added(list.entries(), &entry) {
        return Err(EnvFault::Inconsistent);
    }
    let entry = with_conflicts_once(alloc, entry)?;
    let old = mem::replace(list, LoadedList::new(alloc));
    *list = old.with(alloc, entry)?.written(alloc)?;
    write(alloc, env, list)
}

/// Drops a module from the list, and writes the four variables. Where it isn't in the list, nothing changes.
///
/// The only error is `OutOfMemory`. After an error the environment is unchanged, and the list may hold anything.
pub fn drop_from_list<V: Vars>(
    alloc: Global,
    env: &mut V,
    list: &mut LoadedList,
    name: &str,
) -> Result<(), EnvFault>
    ensures edits { Edits result (V.vars env.old) (V.vars env.new)
        (dropped_from (V.vars env.old) name.now (Some (map entry_view list.old.entries.items))) }
    ensures list { OnOk result (map entry_view list.new.entries.items
        ≡ without_entry name.now (map entry_view list.old.entries.items)) }
    ensures base { V.base env.new ≡ V.base env.old }
{
    if !is_loaded(list.entries(), name) {
        return Ok(());
    }
    let old = mem::replace(list, LoadedList::new(alloc));
    *list = old.without(alloc, name)?.written(alloc)?;
    write(alloc, env, list)
}

/// Adds a module after the loaded ones, and writes the four variables. A conflict that the entry has twice is written
/// once.
///
/// The error is `Inconsistent` where `loaded` answers so, and where the entry can't be written: its module is loaded, a
/// name in it is ill spelled, its path is empty or holds a colon, or one of its groups has no names; or it is
/// `OutOfMemory`. After an error the environment is unchanged.
pub fn add_loaded<V: Vars>(alloc: Global, env: &mut V, entry: &Loaded) -> Result<(), EnvFault>
    ensures edits { Edits result (V.vars env.old) (V.vars env.new)
        (added_loaded (V.vars env.old) (entry_view entry.now)) }
    ensures base { V.base env.new ≡ V.base env.old }
{
    let mut list = LoadedList::of(alloc, loaded(alloc, env)?)?;
    add_to_list(alloc, env, &mut list, copy_entry(alloc, entry)?)
}

/// Drops a module from the loaded ones, and writes the four variables. Where it isn't loaded, nothing changes.
///
/// The error is `Inconsistent` where `loaded` answers so, or `OutOfMemory`. After an error the environment is
/// unchanged.
pub fn drop_loaded<V: Vars>(alloc: Global, env: &mut V, name: &str) -> Result<(), EnvFault>
    ensures edits { Edits result (V.vars env.old) (V.vars env.new) (dropped_loaded (V.vars env.old) name.now) }
    ensures base { V.base env.new ≡ V.base env.old }
{
    let mut list = LoadedList::of(alloc, loaded(alloc, env)?)?;
    drop_from_list(alloc, env, &mut list, name)
}
