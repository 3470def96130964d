//! Whether what an evaluation in another context leaves is like what the first leaves.
ghost use Rattle.std.specs.Prelude.{◌≡◌, ◌||◌, not, ◌++◌, ◌∷◌, [], bytes_eq, map, IfOk, OnOk};
ghost use Rattle.envvars.specs.Environment.{Environment};
ghost use Rattle.envvars.specs.Texts.{slice_texts};
ghost use Rattle.modulefile.specs.Effects.{load};
ghost use Rattle.modulefile.specs.Records as modulefiles;
ghost use Rattle.modulefile.specs.Records.{conflicts_of};
ghost use Rattle.modulefile.specs.RecordViews.{mode_view, record_view};
ghost use Rattle.modulefile_run.specs.Questions.{questions_in};
ghost use Rattle.modulefile_run.specs.Running.{ran_view};
ghost use Rattle.reversal.specs.VariableUses.{absent_in};
ghost use Rattle.audit_laws.specs.determinism.Contexts as spec;
ghost use Rattle.audit_laws.specs.determinism.Contexts.{same_by};

use crate::determinism::asking::asked_of_context;
use crate::determinism::loaded_answers::{are_all_among, distinct_questions};
use crate::determinism::returning::all_can_return;
use crate::determinism::stable_input::are_stable_inputs;
use crate::determinism::undone::do_undo_equivalently;
use modulefile::{Mode, Record};
use modulefile_run::{FileRun, Question};
use std::alloc::{AllocError, Global};

/// Adds the names of a `conflict`.
fn push_names<'r>(names: &mut Vec<&'r str>, recorded: &'r Record) -> Result<(), AllocError>
    ensures { OnOk result (slice_texts names.new.items
        ≡ slice_texts names.old.items ++ conflicts_of (record_view recorded.entry.now)) }
{
    for name in recorded.conflicts() {
        names.push(name.as_str())?;
    }
    Ok(())
}

/// The names that records are in conflict with, in the order of their mention.
fn conflict_names(alloc: Global, records: &[Record]) -> Result<Vec<&str>, AllocError>
    ensures { IfOk result (λ names. slice_texts names.items
        ≡ modulefiles.conflict_names (map record_view records.entry.now)) }
{
    let mut names = Vec::new(alloc);
    for recorded in records {
        push_names(&mut names, recorded)?;
    }
    Ok(names)
}

/// Whether both are the same names in the same order.
fn same_names(one: &[&str], other: &[&str]) -> bool
    ensures { result ≡ same_by bytes_eq (slice_texts one.entry.now) (slice_texts other.entry.now) }
{
    if one.len() != other.len() {
        return false;
    }
    for (name, another) in one.iter().zip(other) {
        if *name != *another {
            return false;
        }
    }
    true
}

/// Adds the name of a variable that a record keeps absent.
fn push_absent<'r>(names: &mut Vec<&'r str>, recorded: &'r Record) -> Result<(), AllocError>
    ensures { OnOk result (slice_texts names.new.items
        ≡ slice_texts names.old.items ++ absent_in (record_view recorded.entry.now ∷ [])) }
{
    if let Record::Unset { var, value: None } = recorded {
        names.push(var.as_str())?;
    }
    Ok(())
}

/// The variables that records keep absent, in the order of their mention.
fn absent_names(alloc: Global, records: &[Record]) -> Result<Vec<&str>, AllocError>
    ensures { IfOk result (λ names. slice_texts names.items ≡ absent_in (map record_view records.entry.now)) }
{
    let mut names = Vec::new(alloc);
    for recorded in records {
        push_absent(&mut names, recorded)?;
    }
    Ok(names)
}

/// Whether records keep the same variables absent as those of the first evaluation.
fn are_absent_equivalent(
    alloc: Global,
    first: &[Record],
    records: &[Record],
) -> Result<bool, AllocError>
    ensures { IfOk result (λ alike. alike
        ≡ same_by bytes_eq (absent_in (map record_view first.now)) (absent_in (map record_view records.now))) }
{
    let one = absent_names(alloc, first)?;
    let other = absent_names(alloc, records)?;
    Ok(same_names(one.as_slice(), other.as_slice()))
}

/// Whether records are in conflict with the same names as those of the first evaluation.
fn are_conflicts_equivalent(
    alloc: Global,
    first: &[Record],
    records: &[Record],
) -> Result<bool, AllocError>
    ensures { IfOk result (λ alike. alike ≡ same_by bytes_eq
        (modulefiles.conflict_names (map record_view first.now))
        (modulefiles.conflict_names (map record_view records.now))) }
{
    let one = conflict_names(alloc, first)?;
    let other = conflict_names(alloc, records)?;
    Ok(same_names(one.as_slice(), other.as_slice()))
}

/// Whether records are of kinds after which the start can be back, keep the same variables absent as those of the first
/// evaluation, and are in conflict with the same names.
fn do_load_equivalently(
    alloc: Global,
    first: &[Record],
    records: &[Record],
) -> Result<bool, AllocError>
    ensures { IfOk result (λ alike. alike
        ≡ spec.loads_equivalently load (map record_view first.now) (map record_view records.now)) }
{
    if !all_can_return(records) {
        return Ok(false);
    }
    if !are_absent_equivalent(alloc, first, records)? {
        return Ok(false);
    }
    are_conflicts_equivalent(alloc, first, records)
}

/// Whether records load equivalently to those of the first evaluation; nothing is asked of an evaluation for unloading.
fn load_equivalently(
    alloc: Global,
    mode: Mode,
    first: &[Record],
    records: &[Record],
) -> Result<bool, AllocError>
    ensures { IfOk result (λ alike. alike
        ≡ spec.loads_equivalently (mode_view mode) (map record_view first.now) (map record_view records.now)) }
{
    match mode {
        Mode::Load => do_load_equivalently(alloc, first, records),
        Mode::Unload | Mode::Display | Mode::Whatis => Ok(true),
    }
}

/// Whether what is asked now, if it is, was asked before.
fn was_asked(now: bool, before: bool) -> bool
    ensures { result ≡ (not now || before) }
{
    !now || before
}

/// Whether questions ask nothing of the context that the first ones don't ask.
fn ask_no_more(
    alloc: Global,
    first: &[Question],
    questions: &[Question],
) -> Result<bool, AllocError>
    ensures { IfOk result (λ alike. alike
        ≡ spec.asks_no_more (questions_in first.now) (questions_in questions.now)) }
{
    let before = asked_of_context(alloc, first)?;
    let now = asked_of_context(alloc, questions)?;
    let one = distinct_questions(alloc, first)?;
    let other = distinct_questions(alloc, questions)?;
    let known = are_all_among(other.as_slice(), one.as_slice());
    Ok(was_asked(now.mode, before.mode) & (was_asked(now.shell, before.shell) & known))
}

/// Whether the records of an evaluation for this mode undo what those of the first undo, and load equivalently.
fn are_records_equivalent(
    alloc: Global,
    mode: Mode,
    first: &[Record],
    records: &[Record],
) -> Result<bool, AllocError>
    ensures { IfOk result (λ alike. alike
        ≡ spec.are_records_equivalent (mode_view mode) (map record_view first.now) (map record_view records.now)) }
{
    if !do_undo_equivalently(alloc, first, records)? {
        return Ok(false);
    }
    load_equivalently(alloc, mode, first, records)
}

/// Whether what an evaluation for this mode left is like what the first left: each of its questions has a stable input,
/// it asks no more of the context, and its records undo the same; where it is for loading, they are of kinds after
/// which the start can be back, keep the same variables absent, and are in conflict with the same names.
///
/// The only error is want of memory.
pub fn is_run_equivalent(
    alloc: Global,
    first: &FileRun,
    mode: Mode,
    ran: &FileRun,
) -> Result<bool, AllocError>
    ensures { IfOk result (λ alike. (e f : Environment)
        → alike ≡ spec.is_run_equivalent (ran_view first.now e) (mode_view mode) (ran_view ran.now f)) }
{
    if !are_stable_inputs(alloc, ran)? {
        return Ok(false);
    }
    if !ask_no_more(alloc, first.asked.as_slice(), ran.asked.as_slice())? {
        return Ok(false);
    }
    are_records_equivalent(
        alloc,
        mode,
        first.records.as_slice(),
        ran.records.as_slice(),
    )
}
