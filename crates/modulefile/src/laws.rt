//! Laws of records, of moves and of modulefiles. Each function does nothing: its contract is the law.
ghost use Rattle.modulefile.specs.RecordLaws.{EffectsAreAllowed, EffectsCompose, MovedIsAllowed, ReachIsAllowed};
ghost use Rattle.modulefile.specs.RecordLaws.{ReachIsAllMoved, ReachComposes};
ghost use Rattle.modulefile.specs.Laws.{OneOutcome, SomeOutcome, RecordsHaveEffects, RecordsAreAllowed};
ghost use Rattle.modulefile.specs.Laws.{ShowingChangesNothing, WordsDecide, NothingElseAdds, PlainFilesAgree};
ghost use Rattle.modulefile.specs.Laws.{AnsweredFilesAgree, PlayedRuns};

/// Records that all have their effects are allowed: their variables may be edited, their values and elements can be
/// held, and their names of modules are well spelled. The effects of one list and then of another are those of both
/// lists one after the other.
pub fn effects()
    ensures allowed { EffectsAreAllowed }
    ensures compose { EffectsCompose }
{}

/// An accepted move is allowed. Where moves reach an environment from another, each of them is allowed, their outcome is
/// that environment, and moves that go on from there reach what the whole list reaches.
pub fn moves()
    ensures allowed { MovedIsAllowed }
    ensures all_allowed { ReachIsAllowed }
    ensures all_moved { ReachIsAllMoved }
    ensures compose { ReachComposes }
{}

/// Which record or message a command adds, and whether it is a question, depends on its words alone. A command that
/// isn't done adds nothing and is no question.
pub fn words()
    ensures decide { WordsDecide }
    ensures nothing { NothingElseAdds }
{}

/// A modulefile has exactly one outcome. Where it is accepted, the environment after it is the effects of its records
/// on the one before it, and each record is allowed. In the modes `display` and `whatis` the environment is unchanged.
pub fn files()
    ensures one { OneOutcome }
    ensures some { SomeOutcome }
    ensures have_effects { RecordsHaveEffects }
    ensures allowed { RecordsAreAllowed }
    ensures showing { ShowingChangesNothing }
{
    tclrules::some_outcome();
}

/// A file that asked no question leaves the same records in every context of the same name and path, or is refused
/// there. So the records of its unload are those of its load.
pub fn plain()
    ensures { PlainFilesAgree }
{
    tclrules::two_oracles();
}

/// A file that asked something leaves the same records in every context of the same name and path that answers again
/// what it asked, or is refused there.
pub fn answered()
    ensures { AnsweredFilesAgree }
{
    tclrules::two_oracles();
}

/// What computing a file step by step gives is its outcome.
pub fn played()
    ensures { PlayedRuns }
{}
