//! Whether a refusal has a reason in the files.
ghost use Rattle.std.specs.Prelude.{◌≡◌, Err, IfOk, IfErr, is_none, true, false};
ghost use Rattle.envvars.specs.Reasons.{reason_of};
ghost use Rattle.search.specs.Answers as finds;
ghost use Rattle.modules.specs.Answers.{by_search, cause_of};
ghost use Rattle.modules.specs.transient_failures.Causes.{is_transient};

use crate::Refusal;
use envvars::EnvFault;
use modulefile_run::wants_memory;
use search::FindFault;

/// Whether a search failed for a transient reason: memory ran out, or the device failed.
pub fn is_search_transient(fault: &FindFault) -> bool
    ensures { result ≡ is_transient (by_search (finds.cause_of fault.now)) }
{
    match fault {
        FindFault::OutOfMemory | FindFault::Device => true,
        FindFault::NotFound(_)
        | FindFault::BadName(_)
        | FindFault::BadDefaultFile(_)
        | FindFault::NotUtf8(_) => false,
    }
}

/// Whether a refusal says nothing of what was asked for: memory ran out, or the device failed.
pub fn is_transient(refusal: &Refusal) -> bool
    ensures { result ≡ is_transient (cause_of refusal.now) }
{
    match refusal {
        Refusal::OutOfMemory => true,
        Refusal::Run(refused) => wants_memory(refused),
        Refusal::Find(fault) => is_search_transient(fault),
        Refusal::Env(fault) => matches!(fault, EnvFault::OutOfMemory),
        Refusal::BadArguments
        | Refusal::UnknownSubcommand(_)
        | Refusal::ConflictWith(_)
        | Refusal::PrereqMissing(_)
        | Refusal::StillNeededBy(_)
        | Refusal::FileGone(_)
        | Refusal::NotAModulefile(_) => false,
    }
}

/// The outcome of a call: what it gives, or a refusal that has a reason.
///
/// Errors: a refusal that says nothing of what was asked for.
pub fn unless_transient<X: Drop>(outcome: Result<X, Refusal>) -> Result<Result<X, Refusal>, Refusal>
    ensures same { IfOk result (λ kept. kept ≡ outcome) }
    ensures kept { IfOk result (λ kept. IfErr kept (λ refusal. is_transient (cause_of refusal) ≡ false)) }
    ensures transient_failure { IfErr result (λ refusal.
        (outcome ≡ Err refusal) × (is_transient (cause_of refusal) ≡ true)) }
{
    match outcome {
        Ok(value) => Ok(Ok(value)),
        Err(refusal) => {
            if is_transient(&refusal) {
                Err(refusal)
            } else {
                Ok(Err(refusal))
            }
        }
    }
}
