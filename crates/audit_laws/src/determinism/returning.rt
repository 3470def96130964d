//! Kinds of records after which the start can be back.
ghost use Rattle.std.specs.Prelude.{◌≡◌};
ghost use Rattle.std.specs.List.{list_all};
ghost use Rattle.modulefile.specs.RecordViews.{record_view};
ghost use Rattle.reversal.specs.VariableUses as uses;

use modulefile::{PathEdit, Record};

/// Whether the start can be back after an unload of the record: after all but `remove-path`.
pub fn can_return(recorded: &Record) -> bool
    ensures { result ≡ uses.can_return (record_view recorded.now) }
{
    !matches!(
        recorded,
        Record::Path {
            edit: PathEdit::Remove,
            ..
        }
    )
}

/// Whether it can be after each of the records.
pub fn all_can_return(records: &[Record]) -> bool
    ensures { result ≡ list_all (λ r. uses.can_return (record_view r)) records.now }
{
    records.iter().all(|recorded| can_return(recorded))
}
