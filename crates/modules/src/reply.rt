//! What an accepted request answers: its changes or its environment, and what it did besides.
ghost use Rattle.std.specs.Prelude.{◌≡◌};
ghost use Rattle.envvars.specs.Texts.{texts_in};
ghost use Rattle.modulefile.specs.Moves.{loaded_names};
ghost use Rattle.modules.specs.MoveViews.{moves_of};

use crate::done::{RememberedMoves, RequestResults};
use envvars::{Change, Env};

/// What an accepted request changes, and what it did besides.
#[derive(Drop)]
pub struct RequestChanges {
    /// Each variable that has another value now, or is now set or unset: once, in the order of bytes.
    pub changes: Vec<Change>,
    /// What the request did besides.
    pub done: RequestResults,
}

/// The environment that results of an accepted request, and what the request did besides.
#[derive(Drop)]
pub struct Reply {
    /// The environment that results.
    pub env: Env,
    /// The full names of the modules that the request loaded, in order.
    pub loaded: Vec<String>,
    /// The messages of its files.
    pub messages: Vec<String>,
    /// Its report.
    pub report: String,
    /// Its moves, for contracts alone.
    pub moves: RememberedMoves,
    pub ghost named: { texts_in loaded ≡ loaded_names (moves_of moves) },
}
