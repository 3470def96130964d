//! The law of the table of refusals: a function that does nothing, whose contract is a theorem about the definitions.
ghost use Rattle.std.specs.Prelude.{◌≡◌};
ghost use Rattle.message.specs.Refusals.{number_of};
ghost use Rattle.message.specs.declared.refusals.RefusalKind.{RefusalKind};

/// No two refusals have the same number.
pub fn numbers_differ()
    ensures { (kind other : RefusalKind) → number_of kind ≡ number_of other → kind ≡ other }
{}
