//! How far a request has come: which modules are loaded now, and what it has done.
ghost use Rattle.std.specs.Prelude.{◌≡◌, map, IfOk};
ghost use Rattle.envvars.specs.Environment.{Environment};
ghost use Rattle.envstate.specs.loaded_list.LoadedEntries.{entry_view};
ghost use Rattle.requests.specs.Steps.{nothing_done, EndsRequest};
ghost use Rattle.modules.specs.Answers.{GivesOrRefuses};
ghost use Rattle.modules.specs.Views.{done_view};
ghost use Rattle.modules.specs.Parts.{IsListedIn, entries_view};

use crate::done::RequestResults;
use crate::refusal::Refusal;
use envstate::loaded_list::{Loaded, LoadedList, copy_list};
use requests::first_lost;
use std::alloc::{AllocError, Global};

/// How far a request has come.
#[derive(Drop)]
pub(crate) struct RequestProgress {
    /// The modules that are loaded now, in load order.
    pub(crate) list: LoadedList,
    /// What was done.
    pub(crate) done: RequestResults,
}

impl RequestProgress {
    /// Nothing done yet, where these modules are loaded.
    pub(crate) fn of(alloc: Global, entries: Vec<Loaded>) -> Result<RequestProgress, AllocError>
        ensures entries { IfOk result (λ progress. entries_view progress.list.entries ≡ entries_view entries) }
        ensures done { IfOk result (λ progress. (env : Environment) → done_view progress.done env ≡ nothing_done env) }
    {
        Ok(RequestProgress {
            list: LoadedList::of(alloc, entries)?,
            done: RequestResults::new(alloc),
        })
    }

    /// Nothing done yet, where modules as these are loaded.
    pub(crate) fn new(alloc: Global, before: &[Loaded]) -> Result<RequestProgress, AllocError>
        ensures entries { IfOk result (λ progress. entries_view progress.list.entries ≡ map entry_view before.now) }
        ensures done { IfOk result (λ progress. (env : Environment) → done_view progress.done env ≡ nothing_done env) }
    {
        RequestProgress::of(alloc, copy_list(alloc, before)?)
    }

    /// What was done, unless a module that was loaded before, and is now, has lost what it needs (53).
    pub(crate) fn end(self, alloc: Global, before: &[Loaded]) -> Result<RequestResults, Refusal>
        ensures { (env : Environment) → IsListedIn self env
            → GivesOrRefuses (λ done. done_view done env) result
            (EndsRequest (map entry_view before.now) (done_view self.done env)) }
    {
        match first_lost(before, self.list.entries()) {
            None => Ok(self.done),
            Some(entry) => Err(Refusal::StillNeededBy(String::from_str(
                alloc,
                entry.name.as_str(),
            )?)),
        }
    }
}
