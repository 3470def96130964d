//! The difference of two environments, as a list of changes that turns the first into the second.
ghost use Rattle.std.specs.Prelude.{◌≡◌, not, false, map, filter, bytes_eq, IfOk, IfErr, OnOk};
ghost use Rattle.std.specs.Ordering.{nat_cmp};
ghost use Rattle.std.specs.Cmp.Lexicographic.{slice_cmp};
ghost use Rattle.std.specs.List.{IsDistinct};
ghost use Rattle.std.specs.List.Sorted.{IsStrictlySortedBy};
ghost use Rattle.std.specs.Option.{option_map};
ghost use Rattle.envvars.specs.Texts.{Text, has, slice_texts};
ghost use Rattle.envvars.specs.Environment.{lookup};
ghost use Rattle.envvars.specs.declared.fault.EnvFault.TheVariants.{OutOfMemory};
ghost use Rattle.envvars.specs.Changes.{AreChanges, new_value_at, new_value_of, new_values_in, same_value};
ghost use Rattle.envvars.specs.Tables.{differs_from, names_of, new_values_of, written_over};

use crate::change::Change;
use crate::env::Env;
use crate::fault::EnvFault;
use crate::fields::copy;
use crate::table::{Table, sorted_once};
use crate::vars::Vars;
use std::alloc::{AllocError, Global};

/// Whether the variable has another value in `old`, or only one of the two is a value.
fn differs<B: Vars>(old: &B, name: &str, value: Option<&str>) -> bool
    ensures { result ≡ not (same_value (lookup (B.vars old.now) name.now) (option_map (λ x. x.now) value.entry)) }
{
    old.get(name) != value
}

/// Retains the names whose values differ.
fn keep_differing<B: Vars, V: Vars>(names: &mut Vec<&str>, old: &B, new: &V)
    ensures { slice_texts names.new.items
        ≡ filter (λ n. not (same_value (lookup (B.vars old.now) n) (lookup (V.vars new.now) n)))
        (slice_texts names.old.items) }
{
    names.retain(|name| differs(old, *name, new.get(*name)));
}

/// The change of one variable to its value in `new`.
fn change_to<V: Vars>(alloc: Global, new: &V, name: &str) -> Result<Change, AllocError>
    ensures { IfOk result (λ c. new_value_of c ≡ (name.now, lookup (V.vars new.now) name.now)) }
{
    let value = copy(alloc, new.get(name))?;
    let name = String::from_str(alloc, name)?;
    Ok(Change { name, value })
}

/// The change of each of these variables to its value in `new`, in the same order.
fn changes_to<V: Vars>(alloc: Global, new: &V, names: &[&str]) -> Result<Vec<Change>, AllocError>
    ensures { IfOk result (λ v. new_values_in v ≡ map (λ n. (n, lookup (V.vars new.now) n)) (slice_texts names.now)) }
{
    let mut changes = Vec::new(alloc);
    for name in names {
        changes.push(change_to(alloc, new, *name)?)?;
    }
    Ok(changes)
}

/// What differs, where the values of all other names are the same.
pub(crate) fn changes_among<B: Vars, V: Vars>(
    alloc: Global,
    old: &B,
    new: &V,
    names: Vec<&str>,
) -> Result<Vec<Change>, AllocError>
    requires { (n : Text) → has n (slice_texts names.items) ≡ false
        → lookup (B.vars old.now) n ≡ lookup (V.vars new.now) n }
    ensures { IfOk result (λ v. AreChanges (B.vars old.now) (V.vars new.now) (new_values_in v)) }
{
    let mut names = names;
    keep_differing(&mut names, old, new);
    let names = sorted_once(names);
    changes_to(alloc, new, names.as_slice())
}

/// The entries of a table as changes, each of another variable, in no certain order.
pub(crate) fn edits(alloc: Global, table: Table) -> Result<Vec<Change>, AllocError>
    ensures edits { IfOk result (λ v. new_values_in v ≡ new_values_of table.entries) }
    ensures distinct { OnOk result (IsDistinct bytes_eq (names_of table.entries)) }
{
    let mut edits = Vec::with_capacity(alloc, table.len())?;
    for (name, value) in table {
        edits.push(Change { name, value })?;
    }
    Ok(edits)
}

/// Retains the changes that give their variables other values than those in `old`.
fn keep_differences<B: Vars>(changes: &mut Vec<Change>, old: &B)
    ensures { new_values_in changes.new ≡ filter (differs_from (B.vars old.now)) (new_values_in changes.old) }
{
    changes.retain(|change| differs(old, change.name.as_str(), change.value.as_deref()));
}

/// Sorts changes of different variables by the bytes of their names.
fn sort_by_name(changes: &mut Vec<Change>)
    requires { IsDistinct bytes_eq (map (λ c. c.0) (new_values_in changes.old)) }
    ensures ordered { IsStrictlySortedBy (slice_cmp nat_cmp) (map (λ c. c.0) (new_values_in changes.new)) }
    ensures same { (q : Text) → new_value_at (new_values_in changes.new) q ≡ new_value_at (new_values_in changes.old) q }
{
    changes.sort_unstable_by(|left, right| left.name.cmp(&right.name));
}

/// What differs, once the entries of a table are written over `old`.
pub(crate) fn changes_over<B: Vars>(
    alloc: Global,
    old: &B,
    table: Table,
) -> Result<Vec<Change>, AllocError>
    ensures { IfOk result (λ v. AreChanges (B.vars old.now) (written_over (B.vars old.now) table.entries)
        (new_values_in v)) }
{
    let mut changes = edits(alloc, table)?;
    keep_differences(&mut changes, old);
    sort_by_name(&mut changes);
    Ok(changes)
}

/// The names that either environment has, of which some may come twice.
fn names_of_both<'a>(alloc: Global, old: &'a Env, new: &'a Env) -> Result<Vec<&'a str>, AllocError>
    ensures { IfOk result (λ v. (n : Text) → has n (slice_texts v.items) ≡ false
        → lookup old.entry.now n ≡ lookup new.entry.now n) }
{
    let mut names = Vec::new(alloc);
    old.push_names(&mut names)?;
    new.push_names(&mut names)?;
    Ok(names)
}

/// The difference of two environments: each name whose value differs, once, in the order of bytes, with its value in
/// `new`. The only error is `OutOfMemory`.
pub fn changes(alloc: Global, old: &Env, new: &Env) -> Result<Vec<Change>, EnvFault>
    ensures ok { IfOk result (λ v. AreChanges old.now new.now (new_values_in v)) }
    ensures only { IfErr result (λ e. e ≡ OutOfMemory) }
{
    let names = names_of_both(alloc, old, new)?;
    Ok(changes_among(alloc, old, new, names)?)
}
