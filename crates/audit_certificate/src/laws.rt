//! Laws of certificates. Each function does nothing: its contract is the law.
ghost use Rattle.audit_certificate.specs.Laws.{CertifiedAreExact, CertifiedAreUnique, CertifiedInAnyOrder};
ghost use Rattle.audit_certificate.specs.Laws.{CertifiedDontClash, CertifiedAreMost};
ghost use Rattle.audit_certificate.specs.Laws.{EntriesHaveConflicts, CertifiedRunsStand};
ghost use Rattle.audit_certificate.specs.Laws.{CertifiedMovesPreserve, NoneIsLayered, AgreeingBegins, AgreementIsOfEach};
ghost use Rattle.audit_certificate.specs.Laws.{DisagreementIsOfOne, DisagreementsRefute, LoadedStayLoaded};

/// The test of which modules of a list are certified finds exactly those of the definition, and no other modules meet
/// it, in whatever order they are listed. No two of them clash, and each other consistent module clashes with one of
/// them.
pub fn certified()
    ensures exact { CertifiedAreExact }
    ensures unique { CertifiedAreUnique }
    ensures any_order { CertifiedInAnyOrder }
    ensures together { CertifiedDontClash }
    ensures most { CertifiedAreMost }
{}

/// A module that is in conflict with no entry of the loaded list, as those record it and as it names them, is in
/// conflict with no live module.
pub fn conflicts()
    ensures { EntriesHaveConflicts }
{}

/// From a start whose loaded list is in order, accepted loads of certified modules with whose uses the start agrees,
/// none beside one that it is in conflict with, and unloads of these, in whatever order: after each of them the
/// environment is in order, and is the start with the live modules layered on it; where none is live it is the start,
/// and the maps are equal. Nothing is asked of how the modules use variables together, since that follows from their
/// being certified: and the way in which a variable is used may change when no loaded module uses it any more.
pub fn runs()
    ensures { CertifiedRunsStand }
{
    reversal::laws::runs();
    reversal::laws::steps();
}

/// The moves of one command, which knows no history, keep the certified modules layered on the start (`kept`). They begin
/// in any environment in order that is such a start with certified modules layered on it. So it begins with no module
/// live (`none`), and with live ones a start that agrees with what they use is one by their uses (`begins`).
pub fn steps()
    ensures kept { CertifiedMovesPreserve }
    ensures none { NoneIsLayered }
    ensures begins { AgreeingBegins }
{
    reversal::laws::runs();
    reversal::laws::steps();
}

/// A start agrees with what modules use, as with a whole certificate, where it agrees with what each of them uses
/// (`each`); what it has against all is what it has against one of them (`one`), and refutes that it agrees
/// (`refuted`). A module that is loaded at the start isn't loaded while none of the start is unloaded (`loaded`).
pub fn agreements()
    ensures each { AgreementIsOfEach }
    ensures one { DisagreementIsOfOne }
    ensures refuted { DisagreementsRefute }
    ensures loaded { LoadedStayLoaded }
{}
