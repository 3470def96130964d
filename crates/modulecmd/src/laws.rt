//! Laws of commands. Each is a function that does nothing: its contract is the law.
ghost use Rattle.modulecmd.specs.Command.{OneCommand};
ghost use Rattle.modulecmd.specs.Runs.{ShellsReturn, ShellsAndHandsReturn, CommandsAreEvents, CommandAfterChange};

/// A command has one effect at most, or one reason. So where the definitions refuse it by a number, no call accepts it,
/// and a refusal that isn't want of memory or a failed device has that number.
pub fn one_command()
    ensures { OneCommand }
{
    requests::outcomes();
}

/// From a start in order, a shell that ran the text of each accepted command, whatever commands they were and whatever
/// stood between that was refused, holds an environment that is in order and is the start with the live modules layered
/// on it; with no module live it is the start. The commands are of new modules that are reversible and apart, over one
/// tree: files stay, and where MODULEPATH has relative directories, the working directory stays too.
pub fn commands_return()
    ensures { ShellsReturn }
{
    reversal::laws::runs();
    requests::command_returns();
    shelltext::laws::one_effect();
    shelltext::laws::difference_makes();
    requests::hand_changes::laws::one_change();
}

/// Commands with changes by hand between them return to the start with these changes. What hands have changed stays,
/// except for an element of a path that a live module has added too: that goes with the module. A change is of one variable, and by the use that modules
/// make of it: of one that they don't use, anything; of a path, as long as it is in order with its counters and has the
/// elements that live modules have added; of one that they push on, while it has no stack; none of one that they set or
/// unset, nor of the tool's own. With no module live the shell holds what the same changes have made of the start
/// (`returned`). Commands alone are such a session (`alone`).
pub fn commands_and_hands_return()
    ensures returned { ShellsAndHandsReturn }
    ensures alone { CommandsAreEvents }
{
    reversal::laws::runs();
    requests::command_returns();
    shelltext::laws::one_effect();
    shelltext::laws::difference_makes();
    requests::hand_changes::laws::one_change();
}

/// What the clause of one command promises holds after a change by hand too, over what the same change makes of the
/// start.
pub fn command_after_change()
    ensures { CommandAfterChange }
{
    requests::hand_changes::laws::one_change();
}
