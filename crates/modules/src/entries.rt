//! The loaded modules of an environment, and the entry with which a module joins them.
ghost use Rattle.std.specs.Prelude.{◌≡◌, ◌++◌, [], ◌∷◌, map, IfOk, IfErr, OnOk, Ok, string_bytes};
ghost use Rattle.envvars.specs.Texts.{slice_texts, texts_in};
ghost use Rattle.envvars.specs.Fields.{without_repeats};
ghost use Rattle.envstate.specs.loaded_list.Loaded.{names_of};
ghost use Rattle.envstate.specs.loaded_list.LoadedEntries.{entry_view};
ghost use Rattle.filetree.specs.Relations.{Is};
ghost use Rattle.modulefile.specs.Records.{conflict_names, prereq_groups};
ghost use Rattle.modulefile.specs.RecordViews.{record_view};
ghost use Rattle.requests.specs.Refusals.{unless};
ghost use Rattle.requests.specs.Steps.{entries_of};
ghost use Rattle.modules.specs.MoveViews.{module_view};
ghost use Rattle.modules.specs.Answers.{GivesOrRefuses};
ghost use Rattle.modules.specs.Messages.{MemoryNumberAmong};
ghost use Rattle.modules.specs.Parts.{AreEntriesOf, entries_view, objection, allowed_entry, added};

use crate::done::Module;
use crate::missing::MissingNames;
use crate::refusal::Refusal;
use envstate::loaded_list::{Loaded, LoadedList, add_to_list, loaded};
use envvars::Vars;
use envvars::fields::{deduplicated, owned, slices};
use message::texts::copies;
use modulefile::Record;
use requests::{missing_group, own_conflict, recorded_conflict};
use std::alloc::{AllocError, Global};

/// The loaded modules, in load order; 35 where the loaded lists don't fit together.
pub(crate) fn entries_of<V: Vars>(alloc: Global, env: &V) -> Result<Vec<Loaded>, Refusal>
    ensures given { GivesOrRefuses entries_view result (Is (entries_of (V.vars env.now))) }
    ensures out_of_memory { IfErr result (MemoryNumberAmong (31 ∷ [])) }
{
    Ok(loaded(alloc, env)?)
}

/// The full names of the loaded modules, in load order.
pub(crate) fn names_of(alloc: Global, entries: &[Loaded]) -> Result<Vec<String>, AllocError>
    ensures { IfOk result (λ v. texts_in v ≡ names_of (map entry_view entries.now)) }
{
    let mut names = Vec::new(alloc);
    for entry in entries {
        names.push(String::from_str(alloc, entry.name.as_str())?)?;
    }
    Ok(names)
}

/// Adds the names of a `conflict`; other records have none.
fn push_conflicts<'a>(
    alloc: Global,
    all: &mut Vec<&'a str>,
    recorded: &'a Record,
) -> Result<(), AllocError>
    ensures { OnOk result (slice_texts all.new.items
        ≡ slice_texts all.old.items ++ conflict_names (record_view recorded.entry.now ∷ [])) }
{
    let mut names = slices(alloc, recorded.conflicts())?;
    all.append(&mut names)?;
    Ok(())
}

/// The names of all conflicts of the records, in order.
fn conflict_names(alloc: Global, records: &[Record]) -> Result<Vec<&str>, AllocError>
    ensures { IfOk result (λ v. slice_texts v.items ≡ conflict_names (map record_view records.entry.now)) }
{
    let mut all = Vec::new(alloc);
    for record in records {
        push_conflicts(alloc, &mut all, record)?;
    }
    Ok(all)
}

/// Adds the alternatives of a `prereq`; other records have none.
fn push_group(
    alloc: Global,
    groups: &mut Vec<Vec<String>>,
    recorded: &Record,
) -> Result<(), AllocError>
    ensures { OnOk result (map texts_in groups.new.items
        ≡ map texts_in groups.old.items ++ prereq_groups (record_view recorded.now ∷ [])) }
{
    if let Some(names) = recorded.prereqs() {
        groups.push(copies(alloc, names)?)?;
    }
    Ok(())
}

/// The alternatives of each `prereq` of the records, in order.
fn prereq_groups(alloc: Global, records: &[Record]) -> Result<Vec<Vec<String>>, AllocError>
    ensures { IfOk result (λ v. map texts_in v.items ≡ prereq_groups (map record_view records.now)) }
{
    let mut groups = Vec::new(alloc);
    for record in records {
        push_group(alloc, &mut groups, record)?;
    }
    Ok(groups)
}

/// Refuses a module that is in conflict with a loaded one (51), or of whose prereqs one isn't met (52).
fn judge(
    alloc: Global,
    entries: &[Loaded],
    name: &str,
    conflicts: &[&str],
    prereqs: &[Vec<String>],
) -> Result<(), Refusal>
    ensures { GivesOrRefuses (λ u. u) result (Is (unless
        (objection name.now (slice_texts conflicts.now) (map texts_in prereqs.now) (map entry_view entries.now))
        (Ok tt))) }
{
    if let Some(entry) = recorded_conflict(name, entries) {
        return Err(Refusal::ConflictWith(String::from_str(alloc, entry.name.as_str())?));
    }
    if let Some(entry) = own_conflict(conflicts, entries) {
        return Err(Refusal::ConflictWith(String::from_str(alloc, entry.name.as_str())?));
    }
    match missing_group(prereqs, entries) {
        Some(group) => Err(Refusal::PrereqMissing(MissingNames::of(alloc, group.as_slice())?)),
        None => Ok(()),
    }
}

fn once(alloc: Global, names: &[&str]) -> Result<Vec<String>, AllocError>
    ensures { IfOk result (λ v. texts_in v ≡ without_repeats (slice_texts names.now)) }
{
    if names.len() < 2 {
        return owned(alloc, names);
    }
    let firsts = deduplicated(alloc, names)?;
    owned(alloc, firsts.as_slice())
}

/// The entry of a module in the loaded list: each name in conflict once.
fn entry_for(
    alloc: Global,
    loading: &Module,
    conflicts: &[&str],
    prereqs: Vec<Vec<String>>,
) -> Result<Loaded, AllocError>
    ensures { IfOk result (λ x. entry_view x ≡ record {
      name = string_bytes loading.now.name;
      path = string_bytes loading.now.path;
      conflicts = without_repeats (slice_texts conflicts.now);
      prereqs = map texts_in prereqs.items;
    }) }
{
    Ok(Loaded {
        name: String::from_str(alloc, loading.name.as_str())?,
        path: String::from_str(alloc, loading.path.as_str())?,
        conflicts: once(alloc, conflicts)?,
        prereqs,
    })
}

/// The entry of a module, unless a conflict (51) or a prereq (52) forbids it beside the loaded ones.
fn allowed_entry(alloc: Global, entries: &[Loaded], loading: &Module) -> Result<Loaded, Refusal>
    ensures { GivesOrRefuses entry_view result
        (Is (allowed_entry (map entry_view entries.now) (module_view loading.now))) }
{
    let conflicts = conflict_names(alloc, loading.records.as_slice())?;
    let prereqs = prereq_groups(alloc, loading.records.as_slice())?;
    judge(
        alloc,
        entries,
        loading.name.as_str(),
        conflicts.as_slice(),
        prereqs.as_slice(),
    )?;
    Ok(entry_for(alloc, loading, conflicts.as_slice(), prereqs)?)
}

/// Adds the entry of a module at the end of the loaded list and writes the list, unless a conflict (51) or a prereq
/// (52) forbids it.
pub(crate) fn join_loaded<V: Vars>(
    alloc: Global,
    list: &mut LoadedList,
    loading: &Module,
    env: &mut V,
) -> Result<(), Refusal>
    requires { AreEntriesOf (entries_view list.old.entries) (V.vars env.old) }
    ensures given { GivesOrRefuses (λ u. V.vars env.new) result
        (Is (added (entries_view list.old.entries) (module_view loading.now) (V.vars env.old))) }
    ensures listed { OnOk result (AreEntriesOf (entries_view list.new.entries) (V.vars env.new)) }
    ensures base { V.base env.new ≡ V.base env.old }
{
    let entry = allowed_entry(alloc, list.entries(), loading)?;
    add_to_list(alloc, env, list, entry)?;
    Ok(())
}
