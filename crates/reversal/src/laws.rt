//! Laws of unloads that undo loads. Each function does nothing: its contract is the law.
ghost use Rattle.reversal.specs.Laws.{RunsReturn, EachMoveHolds, RequestsReturn, MovesPreserve, LoadsAreExact};
ghost use Rattle.reversal.specs.Laws.{UnloadsAreAlike};
ghost use Rattle.reversal.specs.Losses.{SetLosesValue, UnsetLosesValue, UnsetGivesAnother};

/// After accepted loads and unloads of new modules that are reversible and apart, in whatever order, from a start in
/// order, the environment is in order, and is the start with the live modules over it. Where no module is live it is
/// the start: the maps are equal. The same holds after each of the moves.
pub fn runs()
    ensures returned { RunsReturn }
    ensures each { EachMoveHolds }
{}

/// In a session of requests, every environment between two of them is in order and is the start with the live modules
/// over it. It is the start where no module is live. Each request is a list of moves: a switch unloads and then loads,
/// and a request may have several names. A refused request has no moves.
pub fn requests()
    ensures { RequestsReturn }
{}

/// The moves of one command keep the environment in order, and keep it the start with the live modules over it. They
/// need no history: only that the environment before them was so.
pub fn steps()
    ensures { MovesPreserve }
{}

/// An accepted load makes the effects of its records and the new entry, and nothing else.
pub fn loads()
    ensures { LoadsAreExact }
{}

/// Of records that undo equivalently, whatever values are set or pushed, at whatever end of a path elements are added, and
/// whatever conflicts, needs and descriptions there are, unloads make the same of an environment.
pub fn unloads()
    ensures { UnloadsAreAlike }
{}

/// Why a variable that records set, or unset without a value, has to be unset at the start, and one that they unset
/// with a value has to have that value there: else a load and its unload of that one record lose the start.
pub fn losses()
    ensures set { SetLosesValue }
    ensures unset { UnsetLosesValue }
    ensures another { UnsetGivesAnother }
{}
