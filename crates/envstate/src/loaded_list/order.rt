//! Whether the list of loaded modules is in order.
ghost use Rattle.std.specs.Prelude.{◌≡◌, ◌↔◌, map, IfOk, IsTrue};
ghost use Rattle.std.specs.List.{list_all};
ghost use Rattle.envvars.specs.Environment.{lookup};
ghost use Rattle.envvars.specs.Changes.{new_value_of, same_value};
ghost use Rattle.envstate.specs.loaded_list.Loaded.{AreLoadedInOrder};

use crate::loaded_list::list::loaded_if_consistent;
use crate::loaded_list::written_list::LoadedList;
use envvars::{Change, Env, has_value};
use std::alloc::{AllocError, Global};

/// Whether each variable has the value already that its change gives it.
fn are_made(env: &Env, changes: &[Change]) -> bool
    ensures { result ≡ list_all (λ change. same_value (lookup env.now change.0) change.1)
        (map new_value_of changes.now) }
{
    changes.iter().all(|change| has_value(env, change.name.as_str(), change.value.as_deref()))
}

/// Whether the list of loaded modules is in order: whether what its four texts are read as is written as these texts.
pub fn are_loaded_in_order(alloc: Global, env: &Env) -> Result<bool, AllocError>
    ensures { IfOk result (λ b. IsTrue b ↔ AreLoadedInOrder env.now) }
{
    let Some(list) = loaded_if_consistent(alloc, env)? else {
        return Ok(false);
    };
    let changes = LoadedList::of(alloc, list)?
        .written(alloc)?
        .changes(alloc, env)?;
    Ok(are_made(env, changes.as_slice()))
}
