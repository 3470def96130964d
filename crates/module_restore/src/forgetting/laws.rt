//! Laws of what is forgotten. Each is a function that does nothing: its contract is the law, about the definitions alone.
ghost use Rattle.module_restore.specs.forgetting.Laws.{ForgettingKeepsOrder, OneForgetting, OtherVariablesStay, OthersStayLoaded};

/// Behind a `forget` an environment is in order if it was. The other modules stay loaded, in their order, and a variable
/// on whose stack the module has no value stays as it is. There is one such environment at most.
pub fn forgetting()
    ensures order { ForgettingKeepsOrder }
    ensures loaded { OthersStayLoaded }
    ensures variables { OtherVariablesStay }
    ensures one { OneForgetting }
{}
