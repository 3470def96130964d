//! Laws of deterministic files. Each function does nothing: its contract is the law.
ghost use Rattle.audit_laws.specs.determinism.Laws.{DeterministicFilesAgree, UndoIsTested};

/// A file whose questions all have stable inputs leaves the same records wherever the context is the same and the
/// variables that it read have the same values, or is refused there.
pub fn deterministic()
    ensures { DeterministicFilesAgree }
{
    modulefile::laws::answered();
}

/// The test whether unloads by records do what unloads by others do says so exactly where they do.
pub fn undone()
    ensures { UndoIsTested }
{}
