//! Why each premise is needed: worked examples in which the others hold, and accepted moves lose the start, or in one
//! of them the value of a module that is loaded over it. They are computed from the definitions.
ghost use Rattle.reversal.specs.Examples.{EmptyPath, CounterOfNone, BottomAlone, HiddenValue, OtherEscapes};
ghost use Rattle.reversal.specs.Examples.{OwnerNotLoaded, ValueBeforeSet, OtherValue, EmptyLists, NeedsOfNone};
ghost use Rattle.reversal.specs.Examples.{ConflictTwice, IllSpelled, EmptyGroup, ValueBeforeUnset, ElementRemoved};
ghost use Rattle.reversal.specs.Examples.{OtherRecords, StartUnloaded, SetAndPushed, UnsetAndPushed, AddedAndPushed};
ghost use Rattle.reversal.specs.Examples.{TwoDelimiters, SetByTwo, SetAndAbsent, PartsAreAll};

/// Starts that aren't in order, or where a fixed variable has another value or an absent one has any, though their
/// loaded list is in order and the modules are reversible and apart.
pub fn starts()
    ensures empty_path { EmptyPath }
    ensures counter_of_none { CounterOfNone }
    ensures bottom_alone { BottomAlone }
    ensures hidden_value { HiddenValue }
    ensures other_escapes { OtherEscapes }
    ensures owner_not_loaded { OwnerNotLoaded }
    ensures value_before_set { ValueBeforeSet }
    ensures other_value { OtherValue }
    ensures value_before_unset { ValueBeforeUnset }
{}

/// Starts of which the loaded list isn't in order, where a module without records is loaded and unloaded.
pub fn lists()
    ensures empty_lists { EmptyLists }
    ensures needs_of_none { NeedsOfNone }
    ensures conflict_twice { ConflictTwice }
    ensures ill_spelled { IllSpelled }
    ensures empty_group { EmptyGroup }
{}

/// From a start, where the moves have every other part of the premises: a record that removes elements of a path,
/// records at the unload that undo something else than those of the load, and an unload of a module of the start.
pub fn kinds()
    ensures element_removed { ElementRemoved }
    ensures other_records { OtherRecords }
    ensures start_unloaded { StartUnloaded }
{}

/// From a start, where the moves have every other part of the premises: one variable is used in two ways, by each of
/// which the environment is a start. And where two live modules set one variable, the unload of one takes the other's
/// value away: the environment isn't the start with the other module any more (but the start is back when both are
/// unloaded). So does the load of one that unsets it without a value.
pub fn uses()
    ensures set_and_pushed { SetAndPushed }
    ensures unset_and_pushed { UnsetAndPushed }
    ensures added_and_pushed { AddedAndPushed }
    ensures two_delimiters { TwoDelimiters }
    ensures set_by_two { SetByTwo }
    ensures set_and_absent { SetAndAbsent }
{}

/// Moves that have every part of the premises are of modules that are reversible and apart.
pub fn parts()
    ensures { PartsAreAll }
{}
