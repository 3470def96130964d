//! The errors of core commands that catch(n) sees.
ghost use Rattle.std.specs.Prelude.{◌≡◌, IfOk, string_bytes};
ghost use Rattle.tclvalue.specs.operators.Faults.{HasReason, error};
ghost use Rattle.tclrules.specs.Messages.{bad_option, no_body, no_command, outside_loop, cannot_unset};
ghost use Rattle.tclrules.specs.Messages.{no_loop_variable, cannot_redefine};

use std::alloc::{AllocError, Global};
use tclvalue::operators::{ValueFault, in_quotes, tcl_error};

/// switch(n) has no such option.
#[tactic(auto, unfolding(tclrules::specs::Messages::bad_option))]
pub(crate) fn bad_option(alloc: Global, word: &str) -> ValueFault
    ensures { HasReason (error (bad_option word.now)) result }
{
    tcl_error(format!(in alloc; "bad option \"{word}\""))
}

/// The last pattern of a switch has `-` for its body.
#[tactic(auto, unfolding(tclrules::specs::Messages::no_body))]
pub(crate) fn no_body(alloc: Global, pattern: &str) -> ValueFault
    ensures { HasReason (error (no_body pattern.now)) result }
{
    tcl_error(format!(in alloc; "no body for pattern \"{pattern}\""))
}

/// Neither Tcl, nor a procedure, nor the host has a command of this name.
#[tactic(auto, unfolding(tclrules::specs::Messages::no_command))]
pub fn no_command(alloc: Global, name: &str) -> ValueFault
    ensures { HasReason (error (no_command name.now)) result }
{
    tcl_error(format!(in alloc; "invalid command name \"{name}\""))
}

/// `break` or `continue` ended the body of a procedure.
pub fn outside_loop(alloc: Global, command: &str) -> ValueFault
    ensures { HasReason (error (outside_loop command.now)) result }
{
    tcl_error(outside_loop_message(alloc, command))
}

/// The message of `outside_loop`.
#[tactic(auto, unfolding(tclrules::specs::Messages::outside_loop))]
fn outside_loop_message(alloc: Global, command: &str) -> Result<String, AllocError>
    ensures { IfOk result (λ t. string_bytes t ≡ outside_loop command.now) }
{
    let quoted = in_quotes(alloc, command)?;
    format!(in alloc; "invoked {quoted} outside of a loop")
}

/// unset(n) names a variable that isn't set.
pub fn cannot_unset(alloc: Global, name: &str) -> ValueFault
    ensures { HasReason (error (cannot_unset name.now)) result }
{
    tcl_error(not_to_unset_message(alloc, name))
}

/// The message of `cannot_unset`.
#[tactic(auto, unfolding(tclrules::specs::Messages::cannot_unset))]
fn not_to_unset_message(alloc: Global, name: &str) -> Result<String, AllocError>
    ensures { IfOk result (λ t. string_bytes t ≡ cannot_unset name.now) }
{
    let quoted = in_quotes(alloc, name)?;
    format!(in alloc; "can't unset {quoted}: no such variable")
}

/// foreach(n) has a list of variables that is empty.
#[tactic(auto, unfolding(tclrules::specs::Messages::no_loop_variable))]
pub(crate) fn no_loop_variable(alloc: Global) -> ValueFault
    ensures { HasReason (error no_loop_variable) result }
{
    tcl_error(String::from_str(alloc, "no variable for foreach"))
}

/// proc(n) names a command that is reserved.
#[tactic(auto, unfolding(tclrules::specs::Messages::cannot_redefine))]
pub(crate) fn cannot_redefine(alloc: Global, name: &str) -> ValueFault
    ensures { HasReason (error (cannot_redefine name.now)) result }
{
    tcl_error(format!(in alloc; "can't redefine \"{name}\""))
}
