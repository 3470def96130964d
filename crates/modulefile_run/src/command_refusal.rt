//! Why a command of a modulefile is refused, by its own fault.
use crate::run_stop::RunStop;
use modulefile::RecordFault;

/// Why a command of a modulefile is refused. The evaluator gets the number of this alone, and halts.
#[derive(Debug, Drop)]
pub(crate) enum CommandRefusal {
    /// The words don't fit the command.
    BadArguments,
    /// The command names what it may not, or what it would leave on record has no effect.
    BadRecord(RecordFault),
}

impl CommandRefusal {
    ghost use Rattle.std.specs.Prelude.{◌≡◌};
    ghost use Rattle.modulefile_run.specs.Refusals.{fault_of};

    /// The fault of the whole file.
    pub(crate) fn into_fault(self) -> RunStop
        ensures { result ≡ fault_of self }
    {
        match self {
            CommandRefusal::BadArguments => RunStop::BadArguments,
            CommandRefusal::BadRecord(fault) => RunStop::BadRecord(fault),
        }
    }
}
