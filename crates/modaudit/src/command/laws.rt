//! Laws of commands whose loads are of certified modules. Each is a function that does nothing: its contract is the law.
ghost use Rattle.modaudit.specs.command.SiteCommands.{SiteShellsReturn, SiteShellsAndHandsReturn, SiteCommandsAreEvents};
ghost use Rattle.modaudit.specs.command.SiteCommands.{ReadlessAreLeft};
ghost use Rattle.modaudit.specs.command.WayBack.{SiteSessionsLayer, SiteWayBackIsOpen};
ghost use Rattle.modaudit.specs.command.Reported.{ReportedModulesReturn, MomentsAreSessions, AuditedStartReturns};
ghost use Rattle.modaudit.specs.command.Reported.{TreesHaveAllThatWasRead};
ghost use Rattle.modaudit.specs.command.Ends.{OnlyFailuresRefuse, AcceptedCommandsArePrinted};

use filetree::Tree;

/// From a start whose loaded list is in order, after any accepted commands whose loads are of certified modules of a site
/// and that unload no module of the start, a shell that ran their texts holds the start with the modules that are live
/// then layered on it; with none live it is the start. The start agrees with the uses of the modules that are loaded, and
/// has of what they read the values of the environment in which the site was judged. Nothing is asked of records, of
/// their kinds, of whether the modules are compatible, or of what modules use that no command loads.
pub fn site_commands_return()
    ensures { SiteShellsReturn }
{
    audit_certificate::laws::steps();
    audit_laws::site::laws::command_returns();
    audit_laws::site::laws::changes_agree();
    shelltext::laws::one_effect();
    shelltext::laws::difference_makes();
    requests::hand_changes::laws::one_change();
}

/// Commands of certified modules, with changes by hand between them, return to the start with these changes. Each
/// change follows the uses of the modules that are live then, and is of a variable that none of these reads. A variable
/// that none of them uses or reads may be changed freely, unless it is the tool's own.
/// At each load the start, as changes have made it until then, agrees with what the module uses, and has of what it
/// reads the values of the environment in which the site was judged (`returned`). Commands alone are such a session
/// (`alone`), and where no loaded module reads anything, every change by hand is of variables that none reads
/// (`readless`).
pub fn site_commands_and_hands_return()
    ensures returned { SiteShellsAndHandsReturn }
    ensures alone { SiteCommandsAreEvents }
    ensures readless { ReadlessAreLeft }
{
    audit_certificate::laws::steps();
    audit_laws::site::laws::command_returns();
    audit_laws::site::laws::changes_agree();
    shelltext::laws::one_effect();
    shelltext::laws::difference_makes();
    requests::hand_changes::laws::one_change();
}

/// After a session of commands that load only certified modules, with changes by hand between them, these modules are
/// live over what the changes have made of the start (`layered`). So at each moment the way back there is open: `purge`
/// leads there, if no module is loaded at the start, and so does an unload of all live modules, unless a module of the
/// start needs one (`open`).
pub fn site_way_back_is_open()
    ensures layered { SiteSessionsLayer }
    ensures open { SiteWayBackIsOpen }
{
    audit_certificate::laws::steps();
    audit_laws::site::laws::command_returns();
    audit_laws::site::laws::changes_agree();
    audit_laws::returns::laws::purges_return();
    audit_laws::returns::laws::unloads_are_accepted();
    shelltext::laws::one_effect();
    shelltext::laws::difference_makes();
    requests::hand_changes::laws::one_change();
    requests::some_outcome();
}

/// From the report of an audit to the shell. Over files and directories that have all that the audit read, take a session
/// of commands that loads only modules which the report calls certified. It returns to the start with the changes by
/// hand. At its end the way back is open, and what may refuse an unload, a load or a switch is known (`returned`). A
/// beginning of such a session is one, so this holds at each moment (`moments`). The environment of the audit is a start
/// for all of these modules, if the report says that it agrees (`at_hand`). Files and directories that agree with the tree
/// of the audit have all that it read, whoever reads them (`trees`).
pub fn reported_modules_return<T: Tree>(audited: &T)
    ensures returned { ReportedModulesReturn (T.agrees audited.now) (T.failed audited.now) }
    ensures moments { MomentsAreSessions }
    ensures at_hand { AuditedStartReturns (T.agrees audited.now) (T.failed audited.now) }
    ensures trees { TreesHaveAllThatWasRead (T.agrees audited.now) }
{
    modulefile::files();
    audit_certificate::laws::certified();
    audit_laws::site::laws::extended_sites();
    audit_laws::returns::laws::unloads_are_accepted();
    audit_laws::returns::laws::loads_are_accepted();
    audit_laws::returns::laws::switches_are_accepted();
    requests::some_outcome();
    site_commands_and_hands_return();
    site_way_back_is_open();
}

/// If the step of a command accepts, `modulecmd` refuses it only because memory ran out, reading failed or a change has
/// no text in the shell; a write may fail too (`ends`). What an accepted command of `modulecmd` did and printed is a
/// command of the laws here (`printed`).
pub fn accepted_commands<T: Tree>(tree: &T)
    ensures ends { OnlyFailuresRefuse (T.agrees tree.now) }
    ensures printed { AcceptedCommandsArePrinted (T.agrees tree.now) }
{
    modulecmd::one_command();
}
