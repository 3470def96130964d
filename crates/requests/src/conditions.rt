//! Conflicts and prereqs of loaded modules: which of them forbid a load, and which have lost what they need (module(1)).
ghost use Rattle.std.specs.Prelude.{◌≡◌, ◌&&◌, not, map, find, string_bytes};
ghost use Rattle.std.specs.List.{list_any};
ghost use Rattle.std.specs.Option.{option_map};
ghost use Rattle.modulename.specs.ModuleName.{means};
ghost use Rattle.envvars.specs.Texts.{slice_texts, texts_in};
ghost use Rattle.envstate.specs.loaded_list.LoadedEntries.{entry_view};
ghost use Rattle.requests.specs.Conditions.{is_met, recorded_conflict, own_conflict, missing_group, has_lost};
ghost use Rattle.requests.specs.Steps.{last_meant};

use envstate::loaded_list::{Loaded, is_loaded};
use modulename::means;

/// The last loaded module that the name means.
pub fn last_meant<'a>(entries: &'a [Loaded], name: &str) -> Option<&'a Loaded>
    ensures { option_map (λ x. entry_view x.now) result
        ≡ last_meant name.now (map entry_view entries.entry.now) }
{
    entries
        .iter()
        .rev()
        .find(|entry| means(name, entry.name.as_str()))
}

/// The first loaded module that the name means.
fn first_meant<'a>(entries: &'a [Loaded], name: &str) -> Option<&'a Loaded>
    ensures { option_map (λ x. entry_view x.now) result
        ≡ find (λ x. means name.now x.name) (map entry_view entries.entry.now) }
{
    entries
        .iter()
        .find(|entry| means(name, entry.name.as_str()))
}

/// Whether the name means a loaded module.
fn means_some(name: &str, entries: &[Loaded]) -> bool
    ensures { result ≡ list_any (λ x. means name.now x.name) (map entry_view entries.now) }
{
    entries.iter().any(|entry| means(name, entry.name.as_str()))
}

/// Whether one of the names means a loaded module.
fn is_met(entries: &[Loaded], group: &[String]) -> bool
    ensures { result ≡ is_met (map entry_view entries.now) (map string_bytes group.now) }
{
    group.iter().any(|name| means_some(name.as_str(), entries))
}

fn means_module(names: &[String], full_name: &str) -> bool
    ensures { result ≡ list_any (λ c. means c full_name.now) (map string_bytes names.now) }
{
    names.iter().any(|name| means(name.as_str(), full_name))
}

/// The first loaded module, in load order, whose own conflicts name this one.
pub fn recorded_conflict<'a>(name: &str, entries: &'a [Loaded]) -> Option<&'a Loaded>
    ensures { option_map (λ x. entry_view x.now) result
        ≡ recorded_conflict name.now (map entry_view entries.entry.now) }
{
    entries
        .iter()
        .find(|entry| means_module(entry.conflicts.as_slice(), name))
}

/// The first loaded module that one of the names means: the names in order, and for each the modules in load order.
pub fn own_conflict<'a>(names: &[&str], entries: &'a [Loaded]) -> Option<&'a Loaded>
    ensures { option_map (λ x. entry_view x.now) result
        ≡ own_conflict (slice_texts names.now) (map entry_view entries.entry.now) }
{
    for name in names {
        if let Some(entry) = first_meant(entries, name) {
            return Some(entry);
        }
    }
    None
}

/// The first group of which no name means a loaded module.
pub fn missing_group<'a>(groups: &'a [Vec<String>], entries: &[Loaded]) -> Option<&'a Vec<String>>
    ensures { option_map (λ x. texts_in x.now) result
        ≡ missing_group (map texts_in groups.entry.now) (map entry_view entries.now) }
{
    groups
        .iter()
        .find(|group| !is_met(entries, group.as_slice()))
}

/// Whether one of the groups was met before and isn't now.
fn has_lost_group(groups: &[Vec<String>], before: &[Loaded], after: &[Loaded]) -> bool
    ensures { result ≡ list_any (λ group. is_met (map entry_view before.now) group
        && not (is_met (map entry_view after.now) group)) (map texts_in groups.now) }
{
    groups.iter().any(|group| is_met(before, group.as_slice()) && !is_met(after, group.as_slice()))
}

/// Whether the module was loaded before, and a group that it needs was met then and isn't now.
fn has_lost(before: &[Loaded], after: &[Loaded], entry: &Loaded) -> bool
    ensures { result ≡ has_lost (map entry_view before.now) (map entry_view after.now) (entry_view entry.now) }
{
    has_lost_group(entry.prereqs.as_slice(), before, after)
        && is_loaded(before, entry.name.as_str())
}

/// The first module in load order that has lost what it needs.
pub fn first_lost<'a>(before: &[Loaded], after: &'a [Loaded]) -> Option<&'a Loaded>
    ensures { option_map (λ x. entry_view x.now) result
        ≡ find (has_lost (map entry_view before.now) (map entry_view after.entry.now)) (map entry_view after.entry.now) }
{
    after.iter().find(|entry| has_lost(before, after, entry))
}
