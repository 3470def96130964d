//! What a request has done: it grows, by one file after another.
ghost use Rattle.std.specs.Prelude.{◌≡◌, ◌++◌, [], ◌∷◌, OnOk, OnErr};
ghost use Rattle.envvars.specs.Texts.{texts_in};
ghost use Rattle.modulefile.specs.Moves.{loaded_names};
ghost use Rattle.modules.specs.MoveViews.{move_view, moves_of};

use modulefile::Record;
use std::alloc::{AllocError, Global};
use std::snapshot::Snapshot;

/// A module with the records that its file made.
#[derive(Debug, Drop)]
pub struct Module {
    /// Its full name, as `gcc/9`.
    pub name: String,
    /// The path of its file.
    pub path: String,
    /// What its file asked for, in order.
    pub records: Vec<Record>,
}

/// A change of what is loaded.
#[derive(Debug, Drop)]
pub enum Move {
    /// The module was loaded.
    Loads(Module),
    /// The module was unloaded.
    Unloads(Module),
}

/// Moves, which contracts alone can see: snapshots take no memory.
#[derive(Drop)]
pub enum RememberedMoves {
    /// No move.
    Empty,
    /// The moves before the last, and the last.
    WithLast(Snapshot<RememberedMoves>, Snapshot<Move>),
}

/// What a request has done besides what it made of the variables.
#[derive(Drop)]
pub struct RequestResults {
    /// The full names of the modules that it loaded, in order.
    pub loaded: Vec<String>,
    /// The messages of its files.
    pub messages: Vec<String>,
    /// Its report.
    pub report: String,
    /// Its moves, for contracts alone.
    pub moves: RememberedMoves,
    pub ghost named: { texts_in loaded ≡ loaded_names (moves_of moves) },
}

/// Adds the name of the module that the move loads, if it loads one.
fn push_loaded(names: &mut Vec<String>, new_move: Move) -> Result<(), AllocError>
    ensures added { OnOk result (texts_in names.new ≡ texts_in names.old ++ loaded_names (move_view new_move ∷ [])) }
    ensures unchanged { OnErr result (names.new.items ≡ names.old.items) }
{
    match new_move {
        Move::Loads(module) => Ok(names.push(module.name)?),
        Move::Unloads(_) => Ok(()),
    }
}

impl RequestResults {
    ghost use Rattle.envvars.specs.Environment.{Environment};
    ghost use Rattle.requests.specs.Steps.{nothing_done, with_move, with_report};
    ghost use Rattle.modules.specs.Views.{done_view};

    /// Nothing done yet.
    pub(crate) fn new(alloc: Global) -> RequestResults
        ensures { (env : Environment) → done_view result env ≡ nothing_done env }
    {
        RequestResults {
            loaded: Vec::new(alloc),
            messages: Vec::new(alloc),
            report: String::new(alloc),
            moves: RememberedMoves::Empty,
        }
    }

    /// Adds a move, with the messages of its file.
    pub(crate) fn continue_with(
        &mut self,
        new_move: Move,
        mut messages: Vec<String>,
    ) -> Result<(), AllocError>
        ensures { OnOk result ((old new : Environment) → done_view self.new new
            ≡ with_move (done_view self.old old) (move_view new_move) (texts_in messages) new) }
    {
        self.messages.append(&mut messages)?;
        let last = Snapshot::of(&new_move);
        push_loaded(&mut self.loaded, new_move)?;
        self.moves = RememberedMoves::WithLast(Snapshot::of(&self.moves), last);
        Ok(())
    }

    /// Adds to the report, with the messages of a file.
    pub(crate) fn report_on(
        &mut self,
        mut messages: Vec<String>,
        text: &str,
    ) -> Result<(), AllocError>
        ensures { OnOk result ((env : Environment) → done_view self.new env
            ≡ with_report (done_view self.old env) (texts_in messages) text.now) }
    {
        self.messages.append(&mut messages)?;
        self.report.push_str(text)
    }
}
