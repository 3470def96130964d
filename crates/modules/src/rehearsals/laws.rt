//! The laws of lines and of rehearsals: functions that do nothing, whose contracts are the laws.
ghost use Rattle.modules.specs.rehearsals.Laws.{LinesRun};
ghost use Rattle.modules.specs.rehearsals.RehearsalLaws.{RehearsalsMakeSessions, RehearsalsReturn};

/// A session of lines is the session of their requests, from the same environment to the same: a line that makes no
/// request changes no variable, and moves nothing.
pub fn lines_run()
    ensures { LinesRun }
{}

/// Law: after each number of requests, shells that ran the texts so far hold the environment that the session has
/// there.
pub fn texts_make_session()
    ensures { RehearsalsMakeSessions }
{
    shelltext::laws::difference_makes();
}

/// Law: from a start in order, over new modules that are reversible and apart, shells that ran all texts hold the start
/// where no module is live at the end.
pub fn texts_return_to_start()
    ensures { RehearsalsReturn }
{
    shelltext::laws::difference_makes();
    requests::session_returns();
}
