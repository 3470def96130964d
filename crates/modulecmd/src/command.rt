//! Runs one command: the words of a command line in, the text for the shell and the messages out.
ghost use Rattle.std.specs.Prelude.{◌≡◌, ◌<◌, map, Ok, Err, IfOk, IfErr, string_bytes};
ghost use Rattle.filetree.specs.Agreement.{FailsOnlyAt, ReadsOn};
ghost use Rattle.requests.specs.RequestViews.{request_view};
ghost use Rattle.modulecmd.specs.declared.command_exit.Exit.{Exit};
ghost use Rattle.modulecmd.specs.Command as spec;
ghost use Rattle.modulecmd.specs.Command.{CommandHasResult, CommandLooksAt, IsCausedBy};
ghost use Rattle.modulecmd.specs.Output.{EndsCommand, IsPrepared, IsCaused, status_of};
ghost use Rattle.modulecmd.specs.Words.{effect_in};

use crate::command_exit::Exit;
use crate::command_fault::CommandFault;
use crate::finishing::{finish, report_fault};
use envvars::Env;
use filetree::Tree;
use modules::{Refusal, RequestChanges, STANDARD_LIMITS, request, run_changes};
use requests::Request;
use shelltext::{Shell, print_changes};
use std::alloc::Global;
use std::io::Write;

/// What an accepted command has done, and the text that says its changes; nothing is written yet.
#[derive(Drop)]
struct PreparedCommand {
    /// The shell that is to run the text.
    shell: Shell,
    /// The changes, the messages and the report.
    changed: RequestChanges,
    /// The text for the shell.
    text: String,
}

/// The request that the arguments make: the first names a shell (else 63), the others are its words (else 56, 57).
fn command_of(alloc: Global, args: &[String]) -> Result<Request, CommandFault>
    ensures made { IfOk result (λ r. spec.command_of (map string_bytes args.now) ≡ Ok (request_view r)) }
    ensures refused { IfErr result (λ fault.
        IsCausedBy fault (λ o. spec.command_of (map string_bytes args.now) ≡ Err o) (λ name. ⊥) ⊥) }
{
    let [word, words @ ..] = args else {
        return Err(CommandFault::Refused(Refusal::BadArguments));
    };
    match Shell::named(word.as_str()) {
        None => Err(CommandFault::UnknownShell(word.clone()?)),
        Some(shell) => Ok(request(alloc, shell, words)?),
    }
}

/// Does the command with these arguments, and answers what is to be written; nothing is written yet.
fn answer_of<T: Tree>(
    alloc: Global,
    args: &[String],
    env: &Env,
    tree: &mut T,
) -> Result<PreparedCommand, CommandFault>
    ensures reads { ReadsOn T.agrees T.failures tree.old tree.new }
    ensures answered { IfOk result (λ a.
        IsPrepared (T.agrees tree.new) env.now (CommandHasResult (map string_bytes args.now) env.now)
        (effect_in env.now a)
        (string_bytes a.text)) }
    ensures refused { IfErr result (IsCaused (T.agrees tree.new) (T.failures tree.old < T.failures tree.new)
        env.now (CommandHasResult (map string_bytes args.now) env.now)) }
    ensures failed { FailsOnlyAt T.agrees T.failed tree.old tree.new
        (CommandLooksAt (map string_bytes args.now) env.now) }
{
    requests::command_returns();
    shelltext::laws::one_effect();
    shelltext::laws::difference_makes();
    let request = command_of(alloc, args)?;
    let changed = run_changes(alloc, &request, env, tree, STANDARD_LIMITS)?;
    let text = print_changes(alloc, request.shell, changed.changes.as_slice())?;
    Ok(PreparedCommand {
        shell: request.shell,
        changed,
        text,
    })
}

/// Runs the command with these arguments over an environment and a tree of modulefiles, and answers how it ended.
///
/// The arguments are the name of a shell and the words of a request. An accepted command writes the messages of
/// modulefiles and its report to standard error, and then the text for the shell to standard output. That text says, as
/// the shell reads it, each variable that the request's step changes, once, in the order of bytes, and nothing else: it
/// makes of the environment what the step makes of it.
///
/// The environment may be in order, and be a start in order with live modules layered on it that are reversible and
/// apart. Then so it is after the command, if this unloads no module of the start and unloads each other by records
/// that undo what those of its load undo; and with no module live it is the start.
///
/// A refused command writes nothing but the line that says why, to standard error. It is refused as the arguments or
/// the step are, or for want of memory, by 43 where the device failed in this call, at a path that the request looks
/// at, or by 62 where the changes have no text in the shell. Where a write to standard error fails (64), the first part
/// of the messages and the report is there, not all, and nothing has gone to standard output; where one to standard
/// output fails, the first part of the text is there, not all. Then the line that says so follows on standard error.
pub fn run_command<T: Tree, W: Write, E: Write>(
    alloc: Global,
    args: &[String],
    env: Env,
    tree: &mut T,
    out: &mut W,
    err: &mut E,
) -> Exit
    ensures reads { ReadsOn T.agrees T.failures tree.old tree.new }
    ensures ended { EndsCommand result (T.agrees tree.new) (T.failures tree.old < T.failures tree.new)
        env (CommandHasResult (map string_bytes args.now) env)
        (W.contents out.old) (W.contents out.new) (E.contents err.old) (E.contents err.new) }
    ensures failed { FailsOnlyAt T.agrees T.failed tree.old tree.new
        (CommandLooksAt (map string_bytes args.now) env) }
{
    match answer_of(alloc, args, &env, tree) {
        Ok(answer) => finish(
            answer.changed.done.messages.as_slice(),
            answer.changed.done.report.as_str(),
            answer.text.as_str(),
            out,
            err,
        ),
        Err(fault) => report_fault(&fault, err),
    }
}

/// Runs the command as `run_command` does, and answers the status of the process.
pub fn modulecmd<T: Tree, W: Write, E: Write>(
    alloc: Global,
    args: &[String],
    env: Env,
    tree: &mut T,
    out: &mut W,
    err: &mut E,
) -> u8
    ensures reads { ReadsOn T.agrees T.failures tree.old tree.new }
    ensures ended { (exit : Exit) × (result ≡ status_of exit)
        × EndsCommand exit (T.agrees tree.new) (T.failures tree.old < T.failures tree.new)
        env (CommandHasResult (map string_bytes args.now) env)
        (W.contents out.old) (W.contents out.new) (E.contents err.old) (E.contents err.new) }
    ensures failed { FailsOnlyAt T.agrees T.failed tree.old tree.new
        (CommandLooksAt (map string_bytes args.now) env) }
{
    run_command(alloc, args, env, tree, out, err).status()
}
