//! Why the rules of changes by hand are needed: worked examples of what is lost where hands change what they may not.
//! They are computed from the definitions.
ghost use Rattle.requests.specs.hand_changes.Examples.{CountedElementTakenOut, LoneElementTakenOut, CounterLeft, PathEmptied};
ghost use Rattle.requests.specs.hand_changes.Examples.{PushedValueChanged, SetValueChanged, LoadedNamesChanged};
ghost use Rattle.requests.specs.hand_changes.Examples.{CountersForgotten, ElementOfStartTaken};

/// From a start, between accepted moves of modules that are reversible and apart: a change by hand that takes out an
/// element of a live module, and there is no start that the environment in the end has the other module over. And
/// changes that are themselves lost in the end, where no module is live: of a path, to a text that isn't in order; of a
/// variable that a live module has pushed on, or set; and of the tool's own.
pub fn forbidden()
    ensures counted_element { CountedElementTakenOut }
    ensures lone_element { LoneElementTakenOut }
    ensures counter_left { CounterLeft }
    ensures path_emptied { PathEmptied }
    ensures pushed_value { PushedValueChanged }
    ensures set_value { SetValueChanged }
    ensures loaded_names { LoadedNamesChanged }
{}

/// Two wrong starts after a change by hand that may be made: with counters that still have what the live module added,
/// and without an element of its own that the module added too. The environment isn't either with the module over it.
pub fn wrong_starts()
    ensures counters_forgotten { CountersForgotten }
    ensures element_of_start_taken { ElementOfStartTaken }
{}
