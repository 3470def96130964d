//! Laws of changes by hand. Each function does nothing: its contract is the law.
ghost use Rattle.requests.specs.hand_changes.Laws.{OneChangeHolds, MovesAndHandsReturn, SessionsAndHandsReturn};
ghost use Rattle.requests.specs.hand_changes.Exactness.{OneStart, NoMoreMayChange};

/// A change by hand that may be made keeps what stands: the environment is in order and is a start with the live
/// modules over it, where that start is what the same change makes of the start before. So what hands have changed
/// stays, except for an element of a path that a live module has added too, and what live modules have changed comes
/// back.
pub fn one_change()
    ensures { OneChangeHolds }
{
    reversal::laws::steps();
}

/// Accepted loads and unloads of new modules that are reversible and apart, with changes by hand between them, from a
/// start in order: with no module live the environment is what the same changes by hand have made of the start.
pub fn moves_return()
    ensures { MovesAndHandsReturn }
{
    reversal::laws::runs();
    reversal::laws::steps();
    one_change();
}

/// Requests with changes by hand between them, some of them refused, from a start in order: with no module live the
/// environment is what the same changes by hand have made of the start.
pub fn sessions_return()
    ensures { SessionsAndHandsReturn }
{
    reversal::laws::runs();
    crate::command_returns();
    one_change();
}

/// There is one start below live modules: of two starts that an environment has the same live modules over, each is
/// the other. So the start after a change by hand is the only one that it can be.
pub fn one_start()
    ensures { OneStart }
{}

/// No more may be changed by hand: a change of a variable that isn't the tool's own, after which the environment is in
/// order and some start has the live modules over it, is one that may be made, or changes nothing.
pub fn no_more()
    ensures { NoMoreMayChange }
{}
