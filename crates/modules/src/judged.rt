//! The verdict on a modulefile by one evaluation: whether it does the same everywhere, and can be undone.
ghost use Rattle.std.specs.Prelude.{◌≡◌};
ghost use Rattle.std.specs.List.{list_all};
ghost use Rattle.envvars.specs.Environment.{Environment};
ghost use Rattle.modulefile.specs.RecordViews.{record_view};
ghost use Rattle.modulefile_run.specs.Running.{ran_view};
ghost use Rattle.reversal.specs.VariableUses as uses;
ghost use Rattle.requests.specs.Verdicts.{verdict_of};
ghost use Rattle.modules.specs.Verdicts.{verdict_view};

use modulefile::{PathEdit, Record};
use modulefile_run::FileRun;

/// What one evaluation of a modulefile shows about every other one.
#[derive(Clone, Copy, Debug, PartialEq, Eq)]
pub enum Verdict {
    /// It asked nothing, and unloading undoes what it does.
    Plain,
    /// It asked about the environment, the mode, the shell, the typed name or the loaded modules.
    Asked,
    /// It asked nothing, and does something that unloading doesn't undo: `unsetenv` without a value, or `remove-path`.
    OneWay,
}

/// Whether unloading undoes the effect of a record: of all but `unsetenv` without a value, and `remove-path`.
pub fn is_reversible(recorded: &Record) -> bool
    ensures { result ≡ uses.is_reversible (record_view recorded.now) }
{
    !matches!(
        recorded,
        Record::Unset { value: None, .. }
            | Record::Path {
                edit: PathEdit::Remove,
                ..
            }
    )
}

/// Whether unloading undoes the effect of each record.
pub fn are_reversible(records: &[Record]) -> bool
    ensures { result ≡ list_all (λ r. uses.is_reversible (record_view r)) records.now }
{
    records.iter().all(|record| is_reversible(record))
}

/// The verdict on a file whose evaluation had this result.
pub(crate) fn verdict_on(ran: &FileRun) -> Verdict
    ensures { (e : Environment) → verdict_view result ≡ verdict_of (ran_view ran.now e) }
{
    if ran.has_asked() {
        Verdict::Asked
    } else if are_reversible(ran.records.as_slice()) {
        Verdict::Plain
    } else {
        Verdict::OneWay
    }
}
