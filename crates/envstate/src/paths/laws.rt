//! Laws of path variables: runs of adds and drops, and texts that are read again. Each is a function that does nothing:
//! its contract is the law, about the definitions alone.
ghost use Rattle.std.specs.Prelude.{◌≡◌, ◌↔◌, ℕ, List, Option, Some, Ok, true};
ghost use Rattle.std.specs.List.{list_all};
ghost use Rattle.envvars.specs.Texts.{Text};
ghost use Rattle.envvars.specs.Environment.{Environment};
ghost use Rattle.envstate.specs.paths.Counters.{counter_of, SpellsCounter};
ghost use Rattle.envstate.specs.paths.Paths.{PathState, IsPathState, add_all, drop_all};
ghost use Rattle.envstate.specs.paths.PathRuns.{PathChange, after, live, none_live, more_live, fewer_live, AreLive};
ghost use Rattle.envstate.specs.paths.PathRuns.{EachDropUndoes, IsPathStartWith};
ghost use Rattle.envstate.specs.paths.PathTexts.{IsWritable, state_of, elements_text, counters_as_text};
ghost use Rattle.envstate.specs.paths.PathVariables.{path_in, added_path, dropped_path, is_element, counters_fit};
ghost use Rattle.envstate.specs.paths.PathOrder.{LeavesPath};
ghost use Rattle.envstate.specs.declared.paths.adding.End.{End};

/// After any adds, and drops that each undo one of them, the elements of the start are there in their order, and the
/// live adds, those that no drop has undone, are counted on top of them. Where no add is live, it is the start.
pub fn paths()
    ensures start_with_live { (start : PathState) (edits : List PathChange) → IsPathState start → EachDropUndoes edits
        → IsPathStartWith start (live edits) (after edits start) }
    ensures restored { (start : PathState) (edits : List PathChange) → IsPathState start → EachDropUndoes edits
        → ((x : Text) → live edits x ≡ 0) → after edits start ≡ start }
{}

/// The law `paths`, step by step: it holds of a start with no live add, and still holds after an add, and after a drop
/// of elements that are live. Where no add is live, the state is the start.
pub fn path_steps()
    ensures start { (start : PathState) → IsPathState start → IsPathStartWith start none_live start }
    ensures add { (start now : PathState) (live : Text → ℕ) (xs : List Text) (end : End)
        → IsPathState start → IsPathStartWith start live now → IsPathStartWith start (more_live live xs)
        (add_all now xs end) }
    ensures drop { (start now : PathState) (live : Text → ℕ) (xs : List Text)
        → IsPathState start → IsPathStartWith start live now → AreLive live xs
        → IsPathStartWith start (fewer_live live xs) (drop_all now xs) }
    ensures restored { (start now : PathState) (live : Text → ℕ)
        → IsPathStartWith start live now → ((x : Text) → live x ≡ 0) → now ≡ start }
{}

/// A text spells a counter exactly where it is the decimal of a number from 1 to 4294967295.
pub fn counters()
    ensures { (t : Text) (n : ℕ) → (counter_of t ≡ Some n) ↔ SpellsCounter t n }
{}

/// The two texts that a state is written as are read as that state, and a state that is read from two texts can be
/// written. It can still be written after an add of elements that a path variable can hold, where the counters fit, and
/// after any drop.
pub fn path_texts()
    ensures read_again { (delim : ℕ) (s : PathState) → IsWritable delim s
        → state_of delim (elements_text delim s.elements) (counters_as_text s) ≡ s }
    ensures writable { (delim : ℕ) (t u : Option Text) → IsWritable delim (state_of delim t u) }
    ensures add { (delim : ℕ) (s : PathState) (xs : List Text) (end : End)
        → IsWritable delim s → list_all (is_element delim) xs ≡ true → counters_fit (add_all s xs end) ≡ true
        → IsWritable delim (add_all s xs end) }
    ensures drop { (delim : ℕ) (s : PathState) (xs : List Text) → IsWritable delim s
        → IsWritable delim (drop_all s xs) }
{}

/// After an accepted edit the path variable has the state that the edit makes, in the texts that this state is written
/// as, and every other variable is unchanged.
pub fn path_edits()
    ensures add { (old new : Environment) (name : Text) (delim : ℕ) (xs : List Text) (end : End)
        → added_path old name delim xs end ≡ Ok new
        → LeavesPath old new name delim (add_all (path_in old name delim) xs end) }
    ensures drop { (old new : Environment) (name : Text) (delim : ℕ) (xs : List Text)
        → dropped_path old name delim xs ≡ Ok new
        → LeavesPath old new name delim (drop_all (path_in old name delim) xs) }
{}
