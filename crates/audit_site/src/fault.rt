//! Why a site can't be walked over.
ghost use Rattle.std.specs.Prelude.{◌≡◌};
ghost use Rattle.audit_site.specs.declared.fault.WalkFault.TheVariants as faults;
ghost use Rattle.modules.specs.declared.refusal.Refusal.TheVariants as refusals;

use modules::Refusal;
use std::alloc::AllocError;

/// Why a site can't be walked over.
#[derive(Debug, Drop)]
pub enum WalkFault {
    /// Memory ran out (11, 31, 41), the device failed (43), or the loaded lists of the environment don't fit together
    /// (35).
    Refused(Refusal),
    /// The site has more than `MAX_DIRECTORIES` directories.
    TooManyDirectories,
}

impl From<Refusal> for WalkFault {
    ghost from_gives = { λ refusal e. e ≡ faults.Refused refusal };

    fn from(refusal: Refusal) -> WalkFault {
        WalkFault::Refused(refusal)
    }
}

impl From<AllocError> for WalkFault {
    ghost from_gives = { λ _ e. e ≡ faults.Refused refusals.OutOfMemory };

    fn from(_e: AllocError) -> WalkFault {
        WalkFault::Refused(Refusal::OutOfMemory)
    }
}
