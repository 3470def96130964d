//! `is-loaded`: whether names mean loaded modules.
ghost use Rattle.std.specs.Prelude.{◌≡◌, map, string_bytes};
ghost use Rattle.std.specs.List.{list_any};
ghost use Rattle.modulename.specs.ModuleName.{means};
ghost use Rattle.envstate.specs.loaded_list.LoadedEntries.{entry_view};
ghost use Rattle.module_words.specs.function.Answers as spec;
ghost use Rattle.module_words.specs.function.Views.{Answers};

use crate::function::answer::Answer;
use crate::function::fault::FunctionFault;
use envstate::loaded_list::{Loaded, loaded};
use envvars::Env;
use modulename::means;
use std::alloc::Global;

/// Whether the name means a loaded module.
fn means_some(name: &str, entries: &[Loaded]) -> bool
    ensures { result ≡ list_any (λ x. means name.now x.name) (map entry_view entries.now) }
{
    entries.iter().any(|entry| means(name, entry.name.as_str()))
}

/// Whether one of the names means a loaded module.
fn mean_one(names: &[String], entries: &[Loaded]) -> bool
    ensures { result ≡ spec.mean_one (map string_bytes names.now) (map entry_view entries.now) }
{
    names.iter().any(|name| means_some(name.as_str(), entries))
}

/// The same; without names, whether a module is loaded.
fn is_one_loaded(names: &[String], entries: &[Loaded]) -> bool
    ensures { result ≡ spec.is_one_loaded (map string_bytes names.now) (map entry_view entries.now) }
{
    if names.is_empty() {
        return !entries.is_empty();
    }
    mean_one(names, entries)
}

/// The answer whether one of the names means a module that is loaded in the environment.
pub(crate) fn answer_of_loaded<'a>(
    alloc: Global,
    names: &'a [String],
    env: &Env,
) -> Result<Answer, FunctionFault<'a>>
    ensures { Answers result (spec.answer_of_loaded env.now (map string_bytes names.entry.now)) }
{
    let entries = loaded(alloc, env)?;
    Ok(Answer::Truth(is_one_loaded(names, entries.as_slice())))
}
