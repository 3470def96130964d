//! The names of the modules that are loaded.
ghost use Rattle.std.specs.Prelude.{◌≡◌};
ghost use Rattle.envvars.specs.Texts.{texts_in};
ghost use Rattle.filetree.specs.Relations.{Is};
ghost use Rattle.modules.specs.Answers.{GivesOrRefuses};
ghost use Rattle.module_restore.specs.Views.{loaded_names};

use envstate::loaded_list::{loaded, names_of};
use envvars::Env;
use envvars::fields::owned;
use modules::Refusal;
use std::alloc::Global;

/// The names of the modules that are loaded, in load order; 35 where the loaded lists don't fit together.
pub(crate) fn loaded_names(alloc: Global, env: &Env) -> Result<Vec<String>, Refusal>
    ensures { GivesOrRefuses texts_in result (Is (loaded_names env.now)) }
{
    let entries = loaded(alloc, env)?;
    let names = names_of(alloc, entries.as_slice())?;
    Ok(owned(alloc, names.as_slice())?)
}
