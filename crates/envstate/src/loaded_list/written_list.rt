//! The list of loaded modules as a value, with the texts that it is written as: what is added is appended to them.
ghost use Rattle.std.specs.Prelude.{◌≡◌, ◌++◌, [], ◌∷◌, map, string_bytes, IfOk, IfSome, IsTrue, true};
ghost use Rattle.std.specs.Option.{option_map};
ghost use Rattle.envvars.specs.Changes.{new_values_in};
ghost use Rattle.envvars.specs.Fields.{colon};
ghost use Rattle.envvars.specs.Texts.{texts_in};
ghost use Rattle.envstate.specs.loaded_list.Loaded.{names_of, names_text, files_text, conflicts_text, prereqs_text};
ghost use Rattle.envstate.specs.loaded_list.Loaded.{without_entry};
ghost use Rattle.envstate.specs.loaded_list.LoadedEntries.{entry_view};
ghost use Rattle.envstate.specs.loaded_list.NeededChanges.{needed_changes};
ghost use Rattle.envstate.specs.loaded_list.Shortened.{IsShortened};

use crate::loaded_list::entry::Loaded;
use crate::loaded_list::list::{CONFLICTS, FILES, NAMES, PREREQS};
use crate::loaded_list::writing::{
    conflicts_text, files_text, is_loaded, names_of, names_text, prereqs_text, push_needed,
    with_conflicts, with_element, with_prereqs,
};
use envvars::fields::{copy, owned};
use envvars::{Change, Vars, push_change};
use std::alloc::{AllocError, Global};

/// The loaded modules, in load order, with their names. Once the list was written, it has the values of the four variables.
#[derive(Drop)]
pub struct LoadedList {
    entries: Vec<Loaded>,
    names: Vec<String>,
    /// Whether the values are those of this list.
    is_written: bool,
    names_value: Option<String>,
    files_value: Option<String>,
    conflicts_value: Option<String>,
    prereqs_value: Option<String>,
    ghost named: { texts_in names ≡ names_of (map entry_view entries.items) },
    ghost has_names: { is_written ≡ true
        → option_map string_bytes names_value ≡ names_text (map entry_view entries.items) },
    ghost has_files: { is_written ≡ true
        → option_map string_bytes files_value ≡ files_text (map entry_view entries.items) },
    ghost has_conflicts: { is_written ≡ true
        → option_map string_bytes conflicts_value ≡ conflicts_text (map entry_view entries.items) },
    ghost has_prereqs: { is_written ≡ true
        → option_map string_bytes prereqs_value ≡ prereqs_text (map entry_view entries.items) },
}

/// A copy of a value of a variable.
fn same_value(alloc: Global, value: &Option<String>) -> Result<Option<String>, AllocError>
    ensures { IfOk result (λ t. option_map string_bytes t ≡ option_map string_bytes value.now) }
{
    copy(alloc, value.as_deref())
}

/// What stands before the last element of a text, and before the colon there; none where the text doesn't end so.
fn before_last<'a>(text: &'a str, element: &str) -> Option<&'a str>
    ensures { IfSome result (λ rest. text.entry.now ≡ (rest.now ++ colon ∷ []) ++ element.now) }
{
    text.strip_suffix(element)?.strip_suffix(':')
}

/// Whether a module has no conflicts, and needs no others.
fn asks_nothing(entry: &Loaded) -> bool
    ensures { IsTrue result → (entry.now.conflicts.items ≡ []) × (entry.now.prereqs.items ≡ []) }
{
    entry.conflicts.is_empty() && entry.prereqs.is_empty()
}

impl LoadedList {
    /// The list of modules with these names, which wasn't written.
    fn unwritten(entries: Vec<Loaded>, names: Vec<String>) -> LoadedList
        requires { texts_in names ≡ names_of (map entry_view entries.items) }
        ensures { result.entries ≡ entries }
    {
        LoadedList {
            entries,
            names,
            is_written: false,
            names_value: None,
            files_value: None,
            conflicts_value: None,
            prereqs_value: None,
        }
    }

    /// No module.
    pub fn new(alloc: Global) -> LoadedList
        ensures { result.entries.items ≡ [] }
    {
        LoadedList::unwritten(Vec::new(alloc), Vec::new(alloc))
    }

    /// The modules of these entries.
    pub fn of(alloc: Global, entries: Vec<Loaded>) -> Result<LoadedList, AllocError>
        ensures { IfOk result (λ list. list.entries ≡ entries) }
    {
        let names = owned(alloc, names_of(alloc, entries.as_slice())?.as_slice())?;
        Ok(LoadedList::unwritten(entries, names))
    }

    /// The modules' entries, in load order.
    pub fn entries(&self) -> &[Loaded]
        ensures { result.now ≡ self.entry.now.entries.items }
    {
        self.entries.as_slice()
    }

    /// The modules' full names, in load order.
    pub fn names(&self) -> &[String]
        ensures { map string_bytes result.now ≡ names_of (map entry_view self.entry.now.entries.items) }
    {
        self.names.as_slice()
    }

    /// A list that wasn't written, with one more module at its end.
    fn with_unwritten(self, alloc: Global, entry: Loaded) -> Result<LoadedList, AllocError>
        ensures { IfOk result (λ list. list.entries.items ≡ self.entries.items ++ entry ∷ []) }
    {
        let LoadedList {
            mut entries,
            mut names,
            ..
        } = self;
        names.push(String::from_str(alloc, entry.name.as_str())?)?;
        entries.push(entry)?;
        Ok(LoadedList::unwritten(entries, names))
    }

    /// A list that was written, with one more module at its end, which is appended to the values.
    fn with_appended(self, alloc: Global, entry: Loaded) -> Result<LoadedList, AllocError>
        requires { self.is_written ≡ true }
        ensures { IfOk result (λ list. list.entries.items ≡ self.entries.items ++ entry ∷ []) }
    {
        let LoadedList {
            mut entries,
            mut names,
            is_written,
            names_value,
            files_value,
            conflicts_value,
            prereqs_value,
        } = self;
        let names_value = with_element(alloc, names_value, entry.name.as_str())?;
        let files_value = with_element(alloc, files_value, entry.path.as_str())?;
        let conflicts_value = with_conflicts(alloc, conflicts_value, &entry)?;
        let prereqs_value = with_prereqs(alloc, prereqs_value, &entry)?;
        names.push(String::from_str(alloc, entry.name.as_str())?)?;
        entries.push(entry)?;
        Ok(LoadedList {
            entries,
            names,
            is_written,
            names_value: Some(names_value),
            files_value: Some(files_value),
            conflicts_value,
            prereqs_value,
        })
    }

    /// The list with one more module at its end.
    pub(crate) fn with(self, alloc: Global, entry: Loaded) -> Result<LoadedList, AllocError>
        ensures { IfOk result (λ list. list.entries.items ≡ self.entries.items ++ entry ∷ []) }
    {
        if self.is_written {
            self.with_appended(alloc, entry)
        } else {
            self.with_unwritten(alloc, entry)
        }
    }

    /// What is left of the names and of the paths, where the last module alone has this name, and asks nothing of others;
    /// none elsewhere.
    fn shortened(&self, name: &str) -> Option<(&str, &str)>
        requires { self.now.is_written ≡ true }
        ensures { IfSome result (λ left. IsShortened self.entry.now.entries.items name.now left.0.now left.1.now) }
    {
        let [others @ .., last] = self.entries.as_slice() else {
            return None;
        };
        if last.name.as_str() != name || !asks_nothing(last) || is_loaded(others, name) {
            return None;
        }
        let names = before_last(self.names_value.as_deref()?, name)?;
        let files = before_last(self.files_value.as_deref()?, last.path.as_str())?;
        Some((names, files))
    }

    /// The list without its last module, which alone has this name, with what is left of the names and of the paths.
    fn without_last(self, name: &str, names: String, files: String) -> LoadedList
        requires written { self.is_written ≡ true }
        requires shortened { IsShortened self.entries.items name.now (string_bytes names) (string_bytes files) }
        ensures { map entry_view result.entries.items ≡ without_entry name.now (map entry_view self.entries.items) }
    {
        let mut list = self;
        let _ = list.entries.pop();
        let _ = list.names.pop();
        list.names_value = Some(names);
        list.files_value = Some(files);
        list
    }

    /// The list without the modules of a name, to be written anew.
    fn without_any(self, name: &str) -> LoadedList
        ensures { map entry_view result.entries.items ≡ without_entry name.now (map entry_view self.entries.items) }
    {
        let LoadedList {
            mut entries,
            mut names,
            ..
        } = self;
        entries.retain(|entry| entry.name.as_str() != name);
        names.retain(|other| other.as_str() != name);
        LoadedList::unwritten(entries, names)
    }

    /// The list without a module.
    pub(crate) fn without(self, alloc: Global, name: &str) -> Result<LoadedList, AllocError>
        ensures { IfOk result (λ list. map entry_view list.entries.items
            ≡ without_entry name.now (map entry_view self.entries.items)) }
    {
        if !self.is_written {
            return Ok(self.without_any(name));
        }
        let Some((names, files)) = self.shortened(name) else {
            return Ok(self.without_any(name));
        };
        let names = String::from_str(alloc, names)?;
        let files = String::from_str(alloc, files)?;
        Ok(self.without_last(name, names, files))
    }

    /// The list with the values of the four variables.
    pub(crate) fn written(self, alloc: Global) -> Result<LoadedList, AllocError>
        ensures { IfOk result (λ list. (list.entries ≡ self.entries) × (list.is_written ≡ true)) }
    {
        if self.is_written {
            return Ok(self);
        }
        let list = self.entries.as_slice();
        let names_value = names_text(alloc, list)?;
        let files_value = files_text(alloc, list)?;
        let conflicts_value = conflicts_text(alloc, list)?;
        let prereqs_value = prereqs_text(alloc, list)?;
        Ok(LoadedList {
            entries: self.entries,
            names: self.names,
            is_written: true,
            names_value,
            files_value,
            conflicts_value,
            prereqs_value,
        })
    }

    /// The changes of the four variables that write the list to these variables.
    pub(crate) fn changes<V: Vars>(&self, alloc: Global, env: &V) -> Result<Vec<Change>, AllocError>
        requires { self.now.is_written ≡ true }
        ensures { IfOk result (λ v. new_values_in v
            ≡ needed_changes (V.vars env.now) (map entry_view self.now.entries.items)) }
    {
        let names = same_value(alloc, &self.names_value)?;
        let files = same_value(alloc, &self.files_value)?;
        let conflicts = same_value(alloc, &self.conflicts_value)?;
        let prereqs = same_value(alloc, &self.prereqs_value)?;
        let mut changes = Vec::new(alloc);
        push_change(alloc, &mut changes, NAMES, names)?;
        push_change(alloc, &mut changes, FILES, files)?;
        push_needed(alloc, &mut changes, env, CONFLICTS, conflicts)?;
        push_needed(alloc, &mut changes, env, PREREQS, prereqs)?;
        Ok(changes)
    }
}
