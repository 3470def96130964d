//! Records as unloads see them, and whether unloads by some records do what unloads by others do.
ghost use Rattle.std.specs.Prelude.{◌≡◌, ◌++◌, [], bytes_eq, map, string_bytes, IfOk, OnOk};
ghost use Rattle.std.specs.List.{cons_option};
ghost use Rattle.std.specs.Option.{option_map};
ghost use Rattle.modulefile.specs.RecordViews.{record_view};
ghost use Rattle.reversal.specs.Undone as reversal;
ghost use Rattle.audit_laws.specs.determinism.Contexts as spec;
ghost use Rattle.audit_laws.specs.determinism.Contexts.{same_by, same_record};
ghost use Rattle.audit_laws.specs.determinism.ContextViews.{undone_view};

use modulefile::{Delimiter, PathEdit, Record};
use std::alloc::{AllocError, Global};

/// A record as its unload sees it.
#[derive(Clone, Copy)]
pub(crate) enum UndoneRecord<'r> {
    /// The variable is set, to whatever value.
    Set(&'r str),
    /// The variable is unset, which has this value else.
    Unset(&'r str, &'r str),
    /// A value is pushed on the stack of the variable, whichever.
    Push(&'r str),
    /// The elements are added to the path, at whatever end.
    Path(Delimiter, &'r str, &'r [String]),
}

/// Whether both have the same texts in the same order.
pub fn same_texts(one: &[String], other: &[String]) -> bool
    ensures { result ≡ same_by bytes_eq (map string_bytes one.now) (map string_bytes other.now) }
{
    if one.len() != other.len() {
        return false;
    }
    for (text, another) in one.iter().zip(other) {
        if text.as_str() != another.as_str() {
            return false;
        }
    }
    true
}

/// The record as its unload sees it; `None` where the unload does nothing.
fn undone_as(recorded: &Record) -> Option<UndoneRecord<'_>>
    ensures { option_map undone_view result ≡ reversal.undone_as (record_view recorded.entry.now) }
{
    match recorded {
        Record::Set { var, .. } => Some(UndoneRecord::Set(var.as_str())),
        Record::Unset {
            var,
            value: Some(value),
        } => Some(UndoneRecord::Unset(var.as_str(), value.as_str())),
        Record::Push { var, .. } => Some(UndoneRecord::Push(var.as_str())),
        Record::Path {
            edit: PathEdit::Remove,
            ..
        } => None,
        Record::Path {
            delim,
            var,
            elements,
            ..
        } => Some(UndoneRecord::Path(*delim, var.as_str(), elements.as_slice())),
        Record::Unset { value: None, .. }
        | Record::Conflict(_)
        | Record::Prereq(_)
        | Record::Whatis(_) => None,
    }
}

/// Adds the record as its unload sees it, where the unload does something.
fn push_undone<'r>(
    undone: &mut Vec<UndoneRecord<'r>>,
    recorded: &'r Record,
) -> Result<(), AllocError>
    ensures { OnOk result (map undone_view undone.new.items ≡ map undone_view undone.old.items
        ++ cons_option (reversal.undone_as (record_view recorded.entry.now)) []) }
{
    if let Some(seen) = undone_as(recorded) {
        undone.push(seen)?;
    }
    Ok(())
}

/// The records as their unload sees them, in their order.
fn undo_of(alloc: Global, records: &[Record]) -> Result<Vec<UndoneRecord<'_>>, AllocError>
    ensures { IfOk result (λ seen. map undone_view seen.items ≡ reversal.undo_of (map record_view records.entry.now)) }
{
    let mut seen = Vec::new(alloc);
    for recorded in records {
        push_undone(&mut seen, recorded)?;
    }
    Ok(seen)
}

/// Whether two records are undone equivalently.
fn same_undone(one: UndoneRecord<'_>, other: UndoneRecord<'_>) -> bool
    ensures { result ≡ same_record (undone_view one.entry) (undone_view other.entry) }
{
    match (one, other) {
        (UndoneRecord::Set(one), UndoneRecord::Set(other)) => one == other,
        (UndoneRecord::Unset(one, value), UndoneRecord::Unset(other, another)) => {
            value == another && one == other
        }
        (UndoneRecord::Push(one), UndoneRecord::Push(other)) => one == other,
        (
            UndoneRecord::Path(delim, one, elements),
            UndoneRecord::Path(other_delim, other, others),
        ) => {
            delim.character == other_delim.character
                && (one == other && same_texts(elements, others))
        }
        _ => false,
    }
}

/// Whether both have the same in the same order.
fn are_same(one: &[UndoneRecord<'_>], other: &[UndoneRecord<'_>]) -> bool
    ensures { result ≡ same_by same_record (map undone_view one.entry.now) (map undone_view other.entry.now) }
{
    if one.len() != other.len() {
        return false;
    }
    for (seen, another) in one.iter().zip(other) {
        if !same_undone(*seen, *another) {
            return false;
        }
    }
    true
}

/// Whether an unload by the ones does what an unload by the others does.
///
/// The only error is want of memory.
pub(crate) fn do_undo_equivalently(
    alloc: Global,
    ones: &[Record],
    others: &[Record],
) -> Result<bool, AllocError>
    ensures { IfOk result (λ alike.
        alike ≡ spec.do_undo_equivalently (map record_view ones.now) (map record_view others.now)) }
{
    let one = undo_of(alloc, ones)?;
    let other = undo_of(alloc, others)?;
    Ok(are_same(one.as_slice(), other.as_slice()))
}
