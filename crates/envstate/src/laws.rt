//! The laws of paths, stacks and the loaded list under one name, and laws of whole environments: which variables an
//! edit may touch, and what it leaves unchanged. Each is a function that does nothing: its contract is the law, about the definitions
//! alone.
ghost use Rattle.envstate.specs.EnvLaws.{NamesHaveRoles, VariablesHaveRoles, LoadedHaveRoles, RolesSeparateNames};
ghost use Rattle.envstate.specs.EnvLaws.{EditableHasNoReason, AddEditsPath, DropEditsPath, PushEditsStack};
ghost use Rattle.envstate.specs.EnvLaws.{PopEditsStack, SetEditsVariable, AddEditsLoaded, DropEditsLoaded};
ghost use Rattle.envstate.specs.EnvLaws.{PathLeavesStack, StackLeavesCounters, EditPreservesOthers};
ghost use Rattle.envstate.specs.EnvLaws.{EditPreservesLoaded, LoadedEditPreservesVariables, EditsLeaveRest};
ghost use Rattle.envstate.specs.EnvLaws.{LoadedLeavesRest, OrderGivesStart, OtherOwnerIsAbsent, PathTextsAreUnique};
ghost use Rattle.envstate.specs.EnvLaws.{StackTextsAreUnique, ListTextsAreUnique, AddNames, DropNames, OrderGivesList};
ghost use Rattle.envstate.specs.EnvLaws.{DropLeavesList};

pub use crate::loaded_list::laws::{loaded_edits, loaded_orders, loaded_texts};
pub use crate::paths::laws::{counters, path_edits, path_steps, path_texts, paths};
pub use crate::stacks::laws::{stack_edits, stack_orders, stack_steps, stack_texts, stacks};
pub use envvars::laws::{changes, variables};

/// The name of a variable has one role: modulefiles may edit the variable, it holds the counters or the stack of such a
/// one, it is one of the four variables of the loaded modules, or it is something else. Names with different roles are
/// different. A variable may be edited exactly where `judge_name` has no error for its name.
pub fn names()
    ensures roles { NamesHaveRoles }
    ensures variables { VariablesHaveRoles }
    ensures loaded { LoadedHaveRoles }
    ensures different { RolesSeparateNames }
    ensures editable { EditableHasNoReason }
{}

/// What an accepted edit may touch. An edit of a path variable: the variable and its counters. An edit of a stack: the
/// variable and its stack. An edit of the loaded modules: their four variables. An edited variable is one that
/// modulefiles may edit.
pub fn edits()
    ensures add_path { AddEditsPath }
    ensures drop_path { DropEditsPath }
    ensures push_value { PushEditsStack }
    ensures pop_value { PopEditsStack }
    ensures set_variable { SetEditsVariable }
    ensures add_loaded { AddEditsLoaded }
    ensures drop_loaded { DropEditsLoaded }
{}

/// What an edit leaves unchanged: an edit of one variable leaves every other variable and the loaded modules as they
/// are, in their state and in order, and an edit of the loaded modules leaves every variable so. An edit of a path
/// variable leaves the variable's stack, and an edit of a stack the variable's counters.
pub fn frames()
    ensures path { PathLeavesStack }
    ensures stack { StackLeavesCounters }
    ensures others { EditPreservesOthers }
    ensures loaded { EditPreservesLoaded }
    ensures variables { LoadedEditPreservesVariables }
    ensures rest { EditsLeaveRest }
    ensures loaded_rest { LoadedLeavesRest }
{}

/// A stack in order is a start to which the law `stacks` applies, and its owners are loaded. A start with live pushes
/// on top has no item of an owner that has none in the start and no live push.
pub fn starts()
    ensures start { OrderGivesStart }
    ensures absent { OtherOwnerIsAbsent }
{}

/// Where two environments are in order and have the same state, the variables that hold this state have the same texts.
pub fn unique_texts()
    ensures paths { PathTextsAreUnique }
    ensures stacks { StackTextsAreUnique }
    ensures loaded { ListTextsAreUnique }
{}

/// The names of the loaded modules after an edit, what a list in order is read as, and the list after any accepted
/// drop.
pub fn lists()
    ensures add { AddNames }
    ensures drop { DropNames }
    ensures order { OrderGivesList }
    ensures dropped { DropLeavesList }
{}
