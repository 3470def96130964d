//! Laws of the way back. Each function does nothing: its contract is the law.
ghost use Rattle.audit_laws.specs.returns.Files.{FilesRunAgain, PlainFilesRunAgain};
ghost use Rattle.audit_laws.specs.returns.Laws.{NamesOfNoneAtStart, NamesOfLive, UnloadsEnd, UnloadsAreAccepted};
ghost use Rattle.audit_laws.specs.returns.Laws.{NamedUnloadsAreAccepted, UnloadsOfAllReturn, PurgesReturn, PurgesEndAsAtStart};
ghost use Rattle.audit_laws.specs.returns.Laws.{SessionsAreLayered, TheWayBackIsOpen, TheWayBackIsThere};
ghost use Rattle.audit_laws.specs.returns.Laws.{LoadsAreAccepted, SwitchesAreAccepted, ReadsAreOfStart};
ghost use Rattle.audit_laws.specs.returns.Laws.{PlainUnloadsEnd, PlainUnloadsAreAccepted, PlainPurgesReturn};
ghost use Rattle.audit_laws.specs.returns.Laws.{PlainModulesLoadPlainly, JudgedUnloadsAreAccepted, OnePlainIsUnloaded};

/// An accepted file is accepted again, with the same records and messages, in a context that answers its questions the
/// same and in which its records have their effects. `stable` is for a file whose questions have stable inputs, and
/// `plain` for one that asks nothing.
pub fn files_run_again()
    ensures stable { FilesRunAgain }
    ensures plain { PlainFilesRunAgain }
{}

/// Which names unload only live modules: those that mean no module of the start (`none_at_start`); and the names of live
/// modules, each once, if no name means another live module (`live`).
pub fn names_of_live()
    ensures none_at_start { NamesOfNoneAtStart }
    ensures live { NamesOfLive }
{}

/// An unload of live certified modules runs to its end, in any shell (`end`). It is accepted, unless a module that stays
/// loaded would lose what it needs; nothing else refuses it (`accepted`, and `named` for the names of live modules). If
/// it leaves nothing live, and no module of the start loses what it needs, it leads to the start (`all`).
pub fn unloads_are_accepted()
    ensures end { UnloadsEnd }
    ensures accepted { UnloadsAreAccepted }
    ensures named { NamedUnloadsAreAccepted }
    ensures all { UnloadsOfAllReturn }
{
    modulefile::files();
    requests::outcomes();
    audit_certificate::laws::steps();
    crate::determinism::laws::undone();
}

/// If no module is loaded at the start, `purge` is accepted and leads to the start (`back`). Over any start it ends as it
/// would at the start, since it unloads the modules of the start too (`as_at_start`).
pub fn purges_return()
    ensures back { PurgesReturn }
    ensures as_at_start { PurgesEndAsAtStart }
{
    modulefile::files();
    requests::outcomes();
    audit_certificate::laws::steps();
    crate::determinism::laws::undone();
}

/// A session that loads only certified modules ends in the start with the live modules layered on it, so that the laws
/// here apply at its end (`layered`). If no module is loaded at the start, `purge` is accepted there and leads to the
/// start: the way back is always open (`purge`, and `there`).
pub fn the_way_back_is_open()
    ensures layered { SessionsAreLayered }
    ensures purge { TheWayBackIsOpen }
    ensures there { TheWayBackIsThere }
{
    modulefile::files();
    requests::outcomes();
    requests::some_outcome();
    audit_certificate::laws::steps();
    crate::determinism::laws::undone();
    crate::site::laws::command_returns();
}

/// Only a conflict, a prereq or a full counter may forbid the load of a certified module (`accepted`). The start agrees
/// with its uses, and its reads have the audit's values in the environment. They have them if the start has, no live
/// module has its name, and no conflict of a live module means it (`reads`).
pub fn loads_are_accepted()
    ensures accepted { LoadsAreAccepted }
    ensures reads { ReadsAreOfStart }
{
    modulefile::files();
    requests::outcomes();
    crate::determinism::laws::undone();
}

/// A switch from a live module to a certified one is forbidden only as the load is, or because a module that stays loaded
/// would lose what it needs.
pub fn switches_are_accepted()
    ensures { SwitchesAreAccepted }
{
    modulefile::files();
    requests::outcomes();
    audit_certificate::laws::steps();
    crate::determinism::laws::undone();
}

/// The laws of unloads and of `purge` for plain modules, without a site. The live modules are reversible and apart, over a
/// start in order by their uses of variables. Of those that are unloaded each has the records of a file that asks nothing
/// (`end`, `accepted`). The others may ask what they want. For `purge` all are such modules (`purge`). A module with a
/// plain file is one, if an evaluation of this file has loaded it (`loaded`). So in a session each live module that was
/// judged plain can be unloaded, unless a module that stays loaded would lose what it needs (`judged`). For one module
/// with a plain file it is enough that the loaded list is in order and its stacks can be read (`one`).
pub fn plain_unloads_are_accepted()
    ensures end { PlainUnloadsEnd }
    ensures accepted { PlainUnloadsAreAccepted }
    ensures purge { PlainPurgesReturn }
    ensures loaded { PlainModulesLoadPlainly }
    ensures judged { JudgedUnloadsAreAccepted }
    ensures one { OnePlainIsUnloaded }
{
    modulefile::files();
    modulefile::plain();
    requests::outcomes();
    requests::verdicts();
    requests::hand_changes::laws::sessions_return();
    reversal::laws::steps();
}
