//! The directories that evaluated modules add to those of a site.
ghost use Rattle.std.specs.Prelude.{◌≡◌, map, flat_map, Some, OnOk, string_bytes};
ghost use Rattle.filetree.specs.Modulefiles.{directories};
ghost use Rattle.modulefile.specs.RecordViews.{record_view};
ghost use Rattle.audit_laws.specs.site.Sites.{directories_in, directories_by, added_directories};
ghost use Rattle.audit_laws.specs.site.DirectorySets.{with_directories};
ghost use Rattle.audit_site.specs.Unreachable.{stable_additions};
ghost use Rattle.audit_site.specs.DeterministicRuns.{directories_after};
ghost use Rattle.audit_site.specs.WalkParts.{directories_found};

use crate::deterministic_runs::deterministic_file;
use crate::walk::Evaluation;
use audit_laws::site::directory_set::{Directories, push_directories};
use modulefile::Record;
use std::alloc::{AllocError, Global};

/// Adds the directories in each of these texts.
fn push_each(alloc: Global, dirs: &mut Directories, elements: &[String]) -> Result<(), AllocError>
    ensures { OnOk result (map string_bytes dirs.new.keys
        ≡ with_directories (map string_bytes dirs.old.keys) (flat_map directories (map string_bytes elements.now))) }
{
    for element in elements {
        push_directories(alloc, dirs, element.as_str())?;
    }
    Ok(())
}

/// Adds the directories in elements that are added to a variable, if it is MODULEPATH.
fn push_elements(
    alloc: Global,
    dirs: &mut Directories,
    variable: &str,
    elements: &[String],
) -> Result<(), AllocError>
    ensures { OnOk result (map string_bytes dirs.new.keys
        ≡ with_directories (map string_bytes dirs.old.keys) (directories_in (Some (variable.now, map string_bytes elements.now)))) }
{
    if variable == "MODULEPATH" {
        push_each(alloc, dirs, elements)
    } else {
        Ok(())
    }
}

/// Adds the directories that a record adds to MODULEPATH.
fn push_recorded(alloc: Global, dirs: &mut Directories, recorded: &Record) -> Result<(), AllocError>
    ensures { OnOk result (map string_bytes dirs.new.keys
        ≡ with_directories (map string_bytes dirs.old.keys) (directories_by (record_view recorded.now))) }
{
    match recorded.added_elements() {
        Some((variable, elements)) => push_elements(alloc, dirs, variable, elements),
        None => Ok(()),
    }
}

/// Adds the directories that records add to MODULEPATH.
fn push_added(alloc: Global, dirs: &mut Directories, records: &[Record]) -> Result<(), AllocError>
    ensures { OnOk result (map string_bytes dirs.new.keys
        ≡ with_directories (map string_bytes dirs.old.keys) (added_directories (map record_view records.now))) }
{
    for recorded in records {
        push_recorded(alloc, dirs, recorded)?;
    }
    Ok(())
}

/// Adds the directories that an evaluated module adds.
pub(crate) fn push_evaluated(
    alloc: Global,
    dirs: &mut Directories,
    evaluation: &Evaluation,
) -> Result<(), AllocError>
    ensures { OnOk result (map string_bytes dirs.new.keys
        ≡ with_directories (map string_bytes dirs.old.keys) (directories_after evaluation.now.outcome)) }
{
    match &evaluation.outcome {
        Ok(file) => push_added(alloc, dirs, file.records.as_slice()),
        Err(_) => Ok(()),
    }
}

/// Adds the directories that an evaluated module adds, if it is deterministic.
pub(crate) fn push_deterministic(
    alloc: Global,
    dirs: &mut Directories,
    evaluation: &Evaluation,
) -> Result<(), AllocError>
    ensures { OnOk result (map string_bytes dirs.new.keys
        ≡ with_directories (map string_bytes dirs.old.keys) (stable_additions evaluation.now)) }
{
    match deterministic_file(evaluation) {
        Some(file) => push_added(alloc, dirs, file.records.as_slice()),
        None => Ok(()),
    }
}

/// Adds the directories that the evaluated modules add, in their order.
pub(crate) fn push_found(
    alloc: Global,
    dirs: &mut Directories,
    evaluations: &[Evaluation],
) -> Result<(), AllocError>
    ensures { OnOk result (map string_bytes dirs.new.keys
        ≡ with_directories (map string_bytes dirs.old.keys) (directories_found evaluations.now)) }
{
    for evaluation in evaluations {
        push_evaluated(alloc, dirs, evaluation)?;
    }
    Ok(())
}
