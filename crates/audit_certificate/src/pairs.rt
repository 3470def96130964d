//! Two candidates: whether they are mutually exclusive, so that they are never loaded at once.
ghost use Rattle.std.specs.Prelude.{◌≡◌, map, string_bytes};
ghost use Rattle.std.specs.List.{list_any};
ghost use Rattle.modulename.specs.ModuleName.{means};
ghost use Rattle.modulefile.specs.Records.{conflicts_of};
ghost use Rattle.modulefile.specs.RecordViews.{record_view};
ghost use Rattle.audit_certificate.specs.CandidateViews.{candidate_view};
ghost use Rattle.audit_certificate.specs.Candidates.{as_module};
ghost use Rattle.audit_certificate.specs.Clashes as clashes;
ghost use Rattle.audit_certificate.specs.UseViews.{use_view};

use crate::candidate::Candidate;
use crate::uses::{VariableUse, is_read};
use modulefile::Record;
use modulename::means;

/// Whether one of the names means the module of this full name.
fn is_meant(names: &[String], full_name: &str) -> bool
    ensures { result ≡ list_any (λ name. means name full_name.now) (map string_bytes names.now) }
{
    names.iter().any(|name| means(name.as_str(), full_name))
}

/// Whether the record is a `conflict` of which a name means the module of this full name.
fn is_conflict_with(recorded: &Record, full_name: &str) -> bool
    ensures { result ≡ list_any (λ name. means name full_name.now) (conflicts_of (record_view recorded.now)) }
{
    is_meant(recorded.conflicts(), full_name)
}

/// Whether a conflict among the records means the module of this full name.
fn are_in_conflict_with(records: &[Record], full_name: &str) -> bool
    ensures { result ≡ list_any (λ r. list_any (λ name. means name full_name.now) (conflicts_of (record_view r)))
        records.now }
{
    records
        .iter()
        .any(|recorded| is_conflict_with(recorded, full_name))
}

/// Whether a conflict of the first candidate means the second.
fn names_in_conflict(one: &Candidate, other: &Candidate) -> bool
    ensures { result ≡ clashes.names_in_conflict (as_module (candidate_view one.now))
        (as_module (candidate_view other.now)) }
{
    are_in_conflict_with(one.records.as_slice(), other.name.as_str())
}

/// Whether a conflict of the first candidate means the second, and counts where it uses a variable so: where it doesn't
/// read it.
fn excludes_by(used: &VariableUse, one: &Candidate, other: &Candidate) -> bool
    ensures { result ≡ clashes.excludes_by (use_view used.now) (candidate_view one.now) (candidate_view other.now) }
{
    !is_read(used) && names_in_conflict(one, other)
}

/// Whether two candidates that use a variable so are mutually exclusive: they have one name, or a conflict of one of
/// them, which doesn't read the variable, means the other.
pub(crate) fn are_mutually_exclusive(
    one: &Candidate,
    other: &Candidate,
    used: &VariableUse,
    theirs: &VariableUse,
) -> bool
    ensures { result ≡ clashes.are_mutually_exclusive (candidate_view one.now) (candidate_view other.now) (use_view used.now)
        (use_view theirs.now) }
{
    one.name.as_str() == other.name.as_str()
        || (excludes_by(used, one, other) || excludes_by(theirs, other, one))
}

/// Whether they are two candidates: a module is a name with its file.
pub fn is_other(one: &Candidate, other: &Candidate) -> bool
    ensures { result ≡ clashes.is_other (candidate_view one.now) (candidate_view other.now) }
{
    !(one.name.as_str() == other.name.as_str() && one.path.as_str() == other.path.as_str())
}
