//! Laws about requests, sessions and verdicts. Each is a function that does nothing: its contract is the law.
ghost use Rattle.requests.specs.Laws.{OneOutcome, SomeOutcome, StepsReach, StepsAreTheirMoves, ReportsChangeNothing};
ghost use Rattle.requests.specs.Laws.{SessionsRun, SessionsReach, OneSession, SessionsReturn, PlainSessionsReturn};
ghost use Rattle.requests.specs.Laws.{CommandsReturn, SelectionsReported};
ghost use Rattle.requests.specs.PlainRuns.{JudgedIsPlain};
ghost use Rattle.requests.specs.JudgedRuns.{SomeVerdict, JudgedIsReversible, JudgedSessionsReturn};
ghost use Rattle.requests.specs.Verdicts.{OneVerdict, PlainHolds};

/// A request has one outcome at most. The moves of an accepted one take the environment to the one that results, and
/// each fits where it is made: a module that is to be loaded isn't loaded yet, and one that is unloaded is loaded, by
/// its path. So what the step results in is what its moves make.
pub fn outcomes()
    ensures one { OneOutcome }
    ensures reach { StepsReach }
    ensures all_moved { StepsAreTheirMoves }
{
    modulefile::files();
    lookup::one_result();
    modulefile::laws::moves();
}

/// Each request other than `avail` has an outcome: what a search asks of a tree can be decided, and every evaluation
/// ends.
pub fn some_outcome()
    ensures { SomeOutcome }
{
    modulefile::files();
    lookup::some_result();
}

/// `list`, `avail`, `show` and `whatis` leave the environment as it is. What `avail` reports for texts is what they select
/// of the listing of all modules.
pub fn reports()
    ensures unchanged { ReportsChangeNothing }
    ensures selections { SelectionsReported }
{}

/// A session is a run of what its requests moved: its moves take its first environment to its last. Where no request
/// was given up, a session has one list of responses.
pub fn sessions()
    ensures run { SessionsRun }
    ensures reach { SessionsReach }
    ensures one { OneSession }
{
    outcomes();
    modulefile::laws::moves();
}

/// From a start in order, in a session of new modules that are reversible and apart, each environment is in order and
/// is the start with the live modules layered on it. Where no module is live it is the start: the maps are equal.
pub fn session_returns()
    ensures { SessionsReturn }
{
    sessions();
    reversal::laws::runs();
    reversal::laws::steps();
}

/// Sessions of modules whose files are plain return to the start. That unloads undo what their loads did is then no
/// premise.
pub fn plain_session_returns()
    ensures { PlainSessionsReturn }
{
    sessions();
    session_returns();
    modulefile::plain();
    reversal::laws::runs();
    reversal::laws::steps();
}

/// One command, which knows no history, keeps the environment in order and the live modules layered on the start. It
/// begins in an environment that is in order, with live modules layered on a start that is in order.
pub fn command_returns()
    ensures { CommandsReturn }
{
    outcomes();
    reversal::laws::steps();
}

/// Sessions of modules that were judged plain and are apart return to the start. That the modules are reversible is
/// then no premise.
pub fn judged_session_returns()
    ensures { JudgedSessionsReturn }
{
    plain_session_returns();
    modulefile::plain();
}

/// A module has one verdict, or one reason why there is none. One that is judged plain makes the same records in every
/// context of its name and path, or is refused there, and unloading undoes each of them: the records of each unload are
/// those of the load.
pub fn verdicts()
    ensures one { OneVerdict }
    ensures some { SomeVerdict }
    ensures plain { PlainHolds }
    ensures file { JudgedIsPlain }
    ensures reversible { JudgedIsReversible }
{
    modulefile::files();
    modulefile::plain();
    lookup::one_result();
    lookup::some_result();
}
