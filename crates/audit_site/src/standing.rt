//! How each module of a site stands: whether it is certified, and else why it is not.
ghost use Rattle.std.specs.Prelude.{◌≡◌, not, ◌++◌, cond, find, map, option_to_list, Some, None, IfOk, OnOk};
ghost use Rattle.std.specs.Option.{option_map};
ghost use Rattle.modulefile.specs.RecordViews.{record_view};
ghost use Rattle.reversal.specs.VariableUses as variable_uses;
ghost use Rattle.audit_site.specs.Audits as audits;
ghost use Rattle.audit_site.specs.Findings.{AreStandingsOf, IsFindingBy, IsFindingOf, IsFinding};

use crate::unlike::UnlikeUses;
use crate::walk::EvaluatedFile;
use audit_certificate::{Clash, VariableUse};
use audit_laws::determinism::can_return;
use message::texts::copies;
use modulefile::{PathEdit, Record};
use modulefile_run::Question;
use modules::Refusal;
use std::alloc::{AllocError, Global};

/// How a module of a site stands.
#[derive(Debug, Drop)]
pub enum AuditStanding {
    /// It is deterministic, consistent, and without a clash: its loads and unloads need no judgement.
    Certified,
    /// Its evaluation asked this, the first question that doesn't have a stable answer, so that its records may differ
    /// elsewhere, or do.
    Unstable(Question),
    /// Each question has a stable answer, and this is the first of its records after which the start can't be back.
    OneWay(Record),
    /// It is deterministic, and uses the variable in these two ways, of which the second may be a read; or the variable
    /// is MODULEPATH, and the second way is that of a path with colons.
    Inconsistent {
        variable: String,
        one: VariableUse,
        other: VariableUse,
    },
    /// It is deterministic and consistent, and is excluded by hand.
    Excluded,
    /// It is deterministic and consistent, and clashes with a certified module in a variable.
    Clashes(Clash),
    /// Its evaluation is refused.
    Refused(Refusal),
}

/// What a module shows by itself.
#[derive(Drop)]
pub(crate) enum ModuleFinding {
    /// Its evaluation is refused.
    Refused(Refusal),
    /// It stands so, and for these other reasons, and its first evaluation left these records.
    Stands(AuditStanding, Vec<AuditStanding>, Vec<Record>),
    /// It is deterministic and consistent, with these records: the other modules decide.
    Consistent(Vec<Record>),
}

/// The first record after which the start can't be back.
fn first_one_way(records: &[Record]) -> Option<&Record>
    ensures { option_map (λ r. record_view r.now) result
        ≡ find (λ r. not (variable_uses.can_return r)) (map record_view records.entry.now) }
{
    records.iter().find(|recorded| !can_return(recorded))
}

/// A copy of a record after which the start can't be back, which is a `remove-path`; `None` of another.
fn copy_of_removal(alloc: Global, recorded: &Record) -> Result<Option<Record>, AllocError>
    ensures { IfOk result (λ copy. option_map record_view copy
        ≡ cond (variable_uses.can_return (record_view recorded.now)) None (Some (record_view recorded.now))) }
{
    match recorded {
        Record::Path {
            edit: PathEdit::Remove,
            delim,
            var,
            elements,
        } => Ok(Some(Record::Path {
            edit: PathEdit::Remove,
            delim: *delim,
            var: String::from_str(alloc, var.as_str())?,
            elements: copies(alloc, elements.as_slice())?,
        })),
        _ => Ok(None),
    }
}

/// A copy of the first record after which the start can't be back.
fn one_way_in(alloc: Global, records: &[Record]) -> Result<Option<Record>, AllocError>
    ensures { IfOk result (λ found. option_map record_view found
        ≡ find (λ r. not (variable_uses.can_return r)) (map record_view records.now)) }
{
    match first_one_way(records) {
        Some(recorded) => copy_of_removal(alloc, recorded),
        None => Ok(None),
    }
}

/// Two uses of one variable that differ, as a standing.
fn inconsistent_module(unlike: UnlikeUses) -> AuditStanding
    ensures { result ≡ audits.inconsistent_module unlike }
{
    let UnlikeUses {
        variable,
        one,
        other,
    } = unlike;
    AuditStanding::Inconsistent {
        variable,
        one,
        other,
    }
}

/// Adds a standing, if there is one.
pub(crate) fn push_standing(
    standings: &mut Vec<AuditStanding>,
    standing: Option<AuditStanding>,
) -> Result<(), AllocError>
    ensures { OnOk result (standings.new.items ≡ standings.old.items ++ option_to_list standing) }
{
    if let Some(standing) = standing {
        standings.push(standing)?;
    }
    Ok(())
}

/// How a module with these records stands by itself, in each way in which it does, where it asks this, and uses a variable
/// in these two ways.
fn standings_of(
    alloc: Global,
    records: &[Record],
    unkept: Option<Question>,
    unlike: Option<UnlikeUses>,
) -> Result<Vec<AuditStanding>, AllocError>
    ensures { IfOk result (λ standings.
        AreStandingsOf unkept (map record_view records.now) unlike standings.items) }
{
    let one_way = one_way_in(alloc, records)?;
    let mut standings = Vec::new(alloc);
    push_standing(&mut standings, unkept.map(AuditStanding::Unstable))?;
    push_standing(&mut standings, one_way.map(AuditStanding::OneWay))?;
    push_standing(&mut standings, unlike.map(inconsistent_module))?;
    Ok(standings)
}

/// What a module shows by itself that stands in these ways: it stands in the first, or it is consistent if there is
/// none.
fn finding_by(standings: Vec<AuditStanding>, records: Vec<Record>) -> ModuleFinding
    ensures { IsFindingBy standings.items (map record_view records.items) result }
{
    if standings.is_empty() {
        return ModuleFinding::Consistent(records);
    }
    let mut other_reasons = standings;
    let first = other_reasons.remove(0);
    ModuleFinding::Stands(first, other_reasons, records)
}

/// What a module shows by itself, whose evaluation is accepted.
fn judge_file(alloc: Global, file: EvaluatedFile) -> Result<ModuleFinding, AllocError>
    ensures { IfOk result (IsFindingOf file.unkept (map record_view file.records.items) file.unlike) }
{
    let EvaluatedFile {
        records,
        unkept,
        unlike,
    } = file;
    let standings = standings_of(alloc, records.as_slice(), unkept, unlike)?;
    Ok(finding_by(standings, records))
}

/// What a module shows by itself, by the outcome of its evaluations.
pub(crate) fn judge(
    alloc: Global,
    outcome: Result<EvaluatedFile, Refusal>,
) -> Result<ModuleFinding, AllocError>
    ensures { IfOk result (IsFinding outcome) }
{
    match outcome {
        Ok(file) => judge_file(alloc, file),
        Err(refusal) => Ok(ModuleFinding::Refused(refusal)),
    }
}
