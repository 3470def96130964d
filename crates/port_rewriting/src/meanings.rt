//! What commands of Environment Modules ask for, as records (modulefile(5)).
ghost use Rattle.std.specs.Prelude.{◌≡◌, [], ◌∷◌, IfOk, flat_map};
ghost use Rattle.modulefile.specs.RecordViews.{record_view};
ghost use Rattle.port_rewriting.specs.Meanings as spec;
ghost use Rattle.port_rewriting.specs.RecordViews.{lists_view, records_view, texts_in};

use message::texts::{copies, with_copies};
use modulefile::{Delimiter, PathEdit, Record};
use std::alloc::{AllocError, Global};

/// A record alone.
fn alone(alloc: Global, left: Record) -> Result<Vec<Record>, AllocError>
    ensures { IfOk result (λ v. records_view v.items ≡ record_view left ∷ []) }
{
    let mut records = Vec::new(alloc);
    records.push(left)?;
    Ok(records)
}

/// Of each list of modules one is needed.
pub(crate) fn each_needed(alloc: Global, lists: &[Vec<String>]) -> Result<Vec<Record>, AllocError>
    ensures { IfOk result (λ v. records_view v.items ≡ spec.each_needed (lists_view lists.now)) }
{
    let mut records = Vec::new(alloc);
    for modules in lists {
        records.push(Record::Prereq(copies(alloc, modules.as_slice())?))?;
    }
    Ok(records)
}

/// The modules of all lists.
fn all_of(alloc: Global, lists: &[Vec<String>]) -> Result<Vec<String>, AllocError>
    ensures { IfOk result (λ v. texts_in v ≡ flat_map (λ modules. modules) (lists_view lists.now)) }
{
    let mut all = Vec::new(alloc);
    for modules in lists {
        all = with_copies(alloc, all, modules.as_slice())?;
    }
    Ok(all)
}

/// Of all lists of modules together one is needed.
pub(crate) fn any_needed(alloc: Global, lists: &[Vec<String>]) -> Result<Vec<Record>, AllocError>
    ensures { IfOk result (λ v. records_view v.items ≡ spec.any_needed (lists_view lists.now)) }
{
    let all = all_of(alloc, lists)?;
    alone(alloc, Record::Prereq(all))
}

/// Directories are added to a path.
pub(crate) fn added(
    alloc: Global,
    edit: PathEdit,
    var: &str,
    directories: Vec<String>,
) -> Result<Vec<Record>, AllocError>
    ensures { IfOk result (λ v. records_view v.items ≡ spec.added edit var.now (texts_in directories)) }
{
    alone(
        alloc,
        Record::Path {
            edit,
            delim: Delimiter::COLON,
            var: String::from_str(alloc, var)?,
            elements: directories,
        },
    )
}

/// That a variable of a family names a module: the one of this beginning.
fn naming(alloc: Global, beginning: &str, family: &str, own: &str) -> Result<Record, AllocError>
    ensures { IfOk result (λ r. record_view r ≡ spec.names beginning.now family.now own.now) }
{
    let name = family.to_ascii_uppercase(alloc)?;
    let mut var = String::from_str(alloc, beginning)?;
    var.push_str(name.as_str())?;
    Ok(Record::Set {
        var,
        value: String::from_str(alloc, own)?,
    })
}

/// The conflict with others, where there are some.
fn conflict_with(alloc: Global, others: Vec<String>) -> Result<Vec<Record>, AllocError>
    ensures { IfOk result (λ v. records_view v.items ≡ spec.conflict_with (texts_in others)) }
{
    if others.is_empty() {
        Ok(Vec::new(alloc))
    } else {
        alone(alloc, Record::Conflict(others))
    }
}

/// The module is in a family: it is in conflict with others, and variables of the family name it.
#[tactic(auto, using(crate::proofs::Reading::two_more))]
pub(crate) fn in_family(
    alloc: Global,
    family: &str,
    own: &str,
    others: Vec<String>,
) -> Result<Vec<Record>, AllocError>
    ensures { IfOk result (λ v. records_view v.items ≡ spec.in_family family.now own.now (texts_in others)) }
{
    let mut records = conflict_with(alloc, others)?;
    records.push(naming(alloc, "MODULES_FAMILY_", family, own)?)?;
    records.push(naming(alloc, "LMOD_FAMILY_", family, own)?)?;
    Ok(records)
}
