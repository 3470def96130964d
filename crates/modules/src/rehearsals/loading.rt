//! Which modules the requests loaded.
ghost use Rattle.std.specs.Prelude.{◌≡◌, ◌++◌, map, IfOk, OnOk, string_bytes};
ghost use Rattle.std.specs.List.{flat_map};
ghost use Rattle.envvars.specs.Fields.{without_repeats};
ghost use Rattle.envvars.specs.Texts.{slice_texts};
ghost use Rattle.modules.specs.rehearsals.Parts.{loaded_in};

use crate::Outcome;
use envvars::fields::deduplicated;
use std::alloc::{AllocError, Global};

/// Adds the names that one request loaded.
fn push_names<'a>(names: &mut Vec<&'a str>, loaded: &'a [String]) -> Result<(), AllocError>
    ensures { OnOk result (slice_texts names.new.items ≡ slice_texts names.old.items ++ map string_bytes loaded.now) }
{
    for name in loaded {
        names.push(name.as_str())?;
    }
    Ok(())
}

/// The full names of the modules that accepted requests loaded, each once, in the order of the first load.
pub(crate) fn names_loaded(alloc: Global, outcomes: &[Outcome]) -> Result<Vec<&str>, AllocError>
    ensures { IfOk result (λ names. slice_texts names.items ≡ without_repeats (flat_map loaded_in outcomes.now)) }
{
    let mut names = Vec::new(alloc);
    for outcome in outcomes {
        if let Outcome::Accepted(done) = outcome {
            push_names(&mut names, &done.loaded)?;
        }
    }
    deduplicated(alloc, names.as_slice())
}
