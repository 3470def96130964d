//! A table of names, each with the value that it was given, or with none where it was unset: the variables of an
//! environment, and the edits of a working one.
ghost use Rattle.std.specs.Prelude.{◌≡◌, ◌+◌, ◌<◌, ◌≤◌, ◌++◌, map, Some, OnOk, OnErr, string_bytes, bytes_eq, vec_len};
ghost use Rattle.std.specs.Prelude.{if◌then◌else◌};
ghost use Rattle.std.specs.Ordering.{nat_cmp};
ghost use Rattle.std.specs.Cmp.Lexicographic.{slice_cmp};
ghost use Rattle.std.specs.List.Sorted.{IsStrictlySortedBy};
ghost use Rattle.std.specs.Option.{option_map};
ghost use Rattle.indexmap.specs.IndexMap.{spare};
ghost use Rattle.envvars.specs.Texts.{Text, has, slice_texts};
ghost use Rattle.envvars.specs.Environment.{Environment};
ghost use Rattle.envvars.specs.Changes.{applied, new_values_in};
ghost use Rattle.envvars.specs.Tables.{slot, names_of, written_over};

use crate::change::Change;
use crate::fields::copy;
use indexmap::IndexMap;
use std::alloc::{AllocError, Global};

/// Names, each with the value that it was given, or with none where it was unset.
pub type Table = IndexMap<String, Option<String>>;

/// The entry of a name: no entry, or an entry with or without a value.
pub fn found<'a>(table: &'a Table, name: &str) -> Option<Option<&'a str>>
    ensures { option_map (option_map (λ t. t.now)) result ≡ slot table.entry.now name.now }
{
    // An environment that was given mostly stays without edits: its names need no hash then.
    if table.is_empty() {
        return None;
    }
    match table.get(name) {
        None => None,
        Some(None) => Some(None),
        Some(Some(value)) => Some(Some(value.as_str())),
    }
}

/// Appends the names in the table.
pub(crate) fn push_names_of<'a>(
    names: &mut Vec<&'a str>,
    table: &'a Table,
) -> Result<(), AllocError>
    ensures { OnOk result (slice_texts names.new.items
        ≡ slice_texts names.old.items ++ names_of table.entry.now.entries) }
{
    names.reserve(table.len())?;
    for (name, _) in table {
        names.push(name.as_str())?;
    }
    Ok(())
}

/// The names without repetitions, in the order of their bytes.
pub fn sorted_once<'a>(mut names: Vec<&'a str>) -> Vec<&'a str>
    ensures ordered { IsStrictlySortedBy (slice_cmp nat_cmp) (slice_texts result.items) }
    ensures same { (x : Text) → has x (slice_texts result.items) ≡ has x (slice_texts names.entry.items) }
{
    names.sort_unstable();
    names.dedup();
    names
}

/// Enters a name with a value or with none, in place of its older entry. The name is copied where it has none.
pub fn write_value(
    alloc: Global,
    table: &mut Table,
    name: &str,
    value: Option<String>,
) -> Result<(), AllocError>
    ensures ok { OnOk result ((x : Text) → slot table.new x
        ≡ (if bytes_eq x name.now then Some (option_map string_bytes value) else slot table.old x)) }
    ensures err { OnErr result ((x : Text) → slot table.new x ≡ slot table.old x) }
{
    if let Some(older) = table.get_mut(name) {
        *older = value;
        return Ok(());
    }
    let key = String::from_str(alloc, name)?;
    table.insert(key, value)?;
    Ok(())
}

/// Enters a name with a copy of a value or with none, in place of its older entry.
pub fn write_entry(
    alloc: Global,
    table: &mut Table,
    name: &str,
    value: Option<&str>,
) -> Result<(), AllocError>
    ensures ok { OnOk result ((x : Text) → slot table.new x
        ≡ (if bytes_eq x name.now then Some (option_map (λ t. t.now) value.entry) else slot table.old x)) }
    ensures err { OnErr result ((x : Text) → slot table.new x ≡ slot table.old x) }
{
    let value = copy(alloc, value)?;
    write_value(alloc, table, name, value)?;
    Ok(())
}

/// Makes one change, for which memory is reserved.
fn make_reserved_change(table: &mut Table, name: String, value: Option<String>)
    requires { 0 < spare table.old }
    ensures written { (x : Text) → slot table.new x
        ≡ (if bytes_eq x (string_bytes name) then Some (option_map string_bytes value) else slot table.old x) }
    ensures room { spare table.old ≤ spare table.new + 1 }
{
    let _ = table.insert(name, value);
}

/// Makes changes, from the first to the last, for which memory is reserved.
fn make_reserved_changes(table: &mut Table, changes: Vec<Change>)
    requires { vec_len changes ≤ spare table.old }
    ensures { (base : Environment) → written_over base table.new.entries
        ≡ applied (new_values_in changes) (written_over base table.old.entries) }
{
    for change in changes {
        let Change { name, value } = change;
        make_reserved_change(table, name, value);
    }
}

/// Makes all the changes, from the first to the last, or none of them where memory can't be reserved.
pub fn make_changes(table: &mut Table, changes: Vec<Change>) -> Result<(), AllocError>
    ensures ok { OnOk result ((base : Environment) → written_over base table.new.entries
        ≡ applied (new_values_in changes) (written_over base table.old.entries)) }
    ensures err { OnErr result (table.new.entries ≡ table.old.entries) }
{
    table.reserve(changes.len())?;
    make_reserved_changes(table, changes);
    Ok(())
}
