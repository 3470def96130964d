//! Why a script ends before its last command: the completion codes of Tcl but `ok`, and halts, which no script catches.
ghost use Rattle.std.specs.Prelude.{◌≡◌};
ghost use Rattle.tclforms.specs.substitution.Stops.{stop_of, text_stop};
ghost use Rattle.tclforms.specs.declared.substitution.stop.Stop.TheVariants.{Fault};
ghost use Rattle.tclrules.specs.declared.outcome.EvalFault.TheVariants.{OutOfMemory};

use std::alloc::{AllocError, AllocFailed};
use tclrules::EvalFault;
use tcltext::chars::TextFault;
use tclvalue::operators::ValueFault;

/// How a script ended that didn't end with its last command: a completion code of Tcl (catch(n)), or a halt.
#[derive(Drop)]
pub enum Stop {
    /// A fault. `TclError` is code 1, an error, which catch(n) sees; all others halt the evaluation as a whole.
    Fault(EvalFault),
    /// Code 2, `return`, with its result.
    Returned(String),
    /// Code 3, `break`.
    Broken,
    /// Code 4, `continue`.
    Continued,
}

impl From<EvalFault> for Stop {
    ghost from_gives = { λ fault stop. stop ≡ Fault fault };

    fn from(fault: EvalFault) -> Stop {
        Stop::Fault(fault)
    }
}

impl From<AllocError> for Stop {
    ghost from_gives = { λ _ stop. stop ≡ Fault OutOfMemory };

    fn from(error: AllocError) -> Stop {
        Stop::Fault(EvalFault::from(error))
    }
}

impl<T: Drop> From<AllocFailed<T>> for Stop {
    ghost from_gives = { λ _ stop. stop ≡ Fault OutOfMemory };

    fn from(error: AllocFailed<T>) -> Stop {
        Stop::Fault(EvalFault::from(error))
    }
}

impl From<ValueFault> for Stop {
    ghost from_gives = { λ fault stop. stop ≡ stop_of fault };

    fn from(fault: ValueFault) -> Stop {
        Stop::Fault(EvalFault::from(fault))
    }
}

impl From<TextFault> for Stop {
    ghost from_gives = { λ fault stop. stop ≡ text_stop fault };

    fn from(fault: TextFault) -> Stop {
        Stop::Fault(EvalFault::from(fault))
    }
}
