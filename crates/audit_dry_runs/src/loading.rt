//! The module that a load put into the list of loaded modules.
ghost use Rattle.std.specs.Prelude.{IfOk};
ghost use Rattle.std.specs.Option.{option_map};
ghost use Rattle.envvars.specs.Texts.{texts_in};
ghost use Rattle.envstate.specs.loaded_list.Loaded.{loaded_in};
ghost use Rattle.envstate.specs.loaded_list.LoadedEntries.{entry_view};
ghost use Rattle.audit_dry_runs.specs.Parts.{IsJoined, IsLastLoaded};

use envstate::loaded_list::{Loaded, loaded_if_consistent};
use envvars::Env;
use modules::RequestResults;
use std::alloc::{AllocError, Global};

/// The last of the loaded modules.
fn last_loaded(alloc: Global, env: &Env) -> Result<Option<Loaded>, AllocError>
    ensures { IfOk result (λ found. IsLastLoaded (loaded_in env.now) (option_map entry_view found)) }
{
    match loaded_if_consistent(alloc, env)? {
        Some(mut entries) => Ok(entries.pop()),
        None => Ok(None),
    }
}

/// The module that a load with these results put at the end of the list of loaded modules; none where it loaded
/// nothing.
pub(crate) fn joined(
    alloc: Global,
    done: &RequestResults,
    env: &Env,
) -> Result<Option<Loaded>, AllocError>
    ensures { IfOk result (λ found. IsJoined (texts_in done.now.loaded) env.now (option_map entry_view found)) }
{
    if done.loaded.is_empty() {
        return Ok(None);
    }
    last_loaded(alloc, env)
}
