//! The names of some kinds.
ghost use Rattle.std.specs.Prelude.{◌≡◌, ◌≤◌, map, string_bytes, true, IfErr, IfOk, IsErrOf};
ghost use Rattle.std.specs.List.{flat_map, list_any};
ghost use Rattle.envvars.specs.Texts.{slice_texts, texts_in};
ghost use Rattle.module_reports.specs.completions.Kinds.{is_available};
ghost use Rattle.module_reports.specs.completions.Names as spec;

use crate::completions::kind::NameKind;
use crate::completions::names::names_of;
use envvars::Env;
use envvars::fields::{deduplicated, owned, slices};
use message::texts::with_copies;
use std::alloc::{AllocError, Global};

/// Whether the modules that can be loaded are among these kinds.
pub(crate) fn ask_for_modules(kinds: &[NameKind]) -> bool
    ensures { result ≡ list_any is_available kinds.now }
{
    kinds.iter().any(|kind| kind.is_available())
}

/// The names of all kinds, in turn.
fn all_names(
    alloc: Global,
    env: &Env,
    available: &[String],
    kinds: &[NameKind],
) -> Result<Vec<String>, AllocError>
    ensures { IfOk result (λ v. texts_in v
        ≡ flat_map (spec.names_of env.now (map string_bytes available.now)) kinds.now) }
{
    let mut names = Vec::new(alloc);
    for kind in kinds {
        names = with_copies(alloc, names, &names_of(alloc, env, available, *kind)?)?;
    }
    Ok(names)
}

/// The names of all kinds, in turn, each once.
pub(crate) fn offered(
    alloc: Global,
    env: &Env,
    available: &[String],
    kinds: &[NameKind],
) -> Result<Vec<String>, AllocError>
    ensures { IfOk result (λ v. texts_in v ≡ spec.offered env.now (map string_bytes available.now) kinds.now) }
{
    let names = all_names(alloc, env, available, kinds)?;
    let names = slices(alloc, &names)?;
    let names = deduplicated(alloc, &names)?;
    owned(alloc, &names)
}
