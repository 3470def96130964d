//! Runs a check (modcheck(1)): the lines of an input, what their requests would change, and the verdicts on modules.
ghost use Rattle.std.specs.Prelude.{◌≡◌, [], map, Ok, Err, IfOk, IfErr, string_bytes};
ghost use Rattle.filetree.specs.Agreement.{FailsOnlyAt, ReadsOn};
ghost use Rattle.modulecmd.specs.Checking as spec;
ghost use Rattle.modulecmd.specs.Checking.{CheckOfInputLooksAt, EndsCheck, IsCheckFault, check_status};
ghost use Rattle.modulecmd.specs.CheckWords.{IsPreparedCheck, exit_of};
ghost use Rattle.modulecmd.specs.Command.{IsCausedBy};
ghost use Rattle.modulecmd.specs.declared.checking.CheckExit.{CheckExit};

use crate::command_exit::Exit;
use crate::command_fault::CommandFault;
use crate::finishing::{finish, report_fault};
use crate::not_utf8::push_not_utf8;
use envvars::{Env, changes};
use filetree::Tree;
use modules::rehearsals::check;
use modules::{Refusal, STANDARD_LIMITS};
use process::read_input;
use shelltext::{Shell, print_changes};
use std::alloc::Global;
use std::io::{Read, Write};

/// How a check ended.
#[derive(Clone, Copy, Debug, PartialEq, Eq)]
pub enum CheckExit {
    /// Each line was accepted, and all is written.
    AllAccepted,
    /// A line was refused, and all is written.
    SomeRefused,
    /// Nothing was checked, or a write failed, and the line that says why is written.
    Reported,
    /// Nothing was checked, or a write failed, and only the first part of the line that says why is written.
    CutShort,
}

impl CheckExit {
    /// The status of the process: 0 where each line was accepted and all is written, and else 1.
    pub fn status(self) -> u8
        ensures { result ≡ check_status self }
    {
        match self {
            CheckExit::AllAccepted => 0,
            CheckExit::SomeRefused | CheckExit::Reported | CheckExit::CutShort => 1,
        }
    }
}

/// What a check is to write, and whether each line was accepted.
#[derive(Drop)]
struct PreparedCheck {
    /// Whether each line was accepted.
    is_accepted: bool,
    /// For standard error: an outcome for each line, and a verdict for each module.
    report: String,
    /// For standard output: the changes, for the shell.
    text: String,
}

/// The shell that the one argument names: 56 where there is not one argument, 63 where no shell has the name.
fn shell_of(args: &[String]) -> Result<Shell, CommandFault>
    ensures named { IfOk result (λ shell. spec.shell_of (map string_bytes args.now) ≡ Ok shell) }
    ensures refused { IfErr result (λ fault.
        IsCausedBy fault (λ o. spec.shell_of (map string_bytes args.now) ≡ Err o) (λ name. ⊥) ⊥) }
{
    let [word] = args else {
        return Err(CommandFault::Refused(Refusal::BadArguments));
    };
    match Shell::named(word.as_str()) {
        None => Err(CommandFault::UnknownShell(word.clone()?)),
        Some(shell) => Ok(shell),
    }
}

/// Checks the input, and answers what is to be written; nothing is written yet.
fn answer_of<T: Tree, R: Read>(
    alloc: Global,
    args: &[String],
    input: &mut R,
    env: &Env,
    not_utf8: &[String],
    tree: &mut T,
) -> Result<PreparedCheck, CommandFault>
    ensures reads { ReadsOn T.agrees T.failures tree.old tree.new }
    ensures answered { IfOk result (IsPreparedCheck (T.agrees tree.new) (T.failures tree.old) (T.failures tree.new)
        env.now (map string_bytes not_utf8.now) (map string_bytes args.now) (R.remaining input.old)
        (R.remaining input.new)) }
    ensures refused { IfErr result (IsCheckFault (T.agrees tree.new) (T.failures tree.old) (T.failures tree.new)
        env.now (map string_bytes args.now) (R.remaining input.old) (R.remaining input.new)) }
    ensures failed { FailsOnlyAt T.agrees T.failed tree.old tree.new
        (CheckOfInputLooksAt (map string_bytes args.now) (R.remaining input.old) (R.remaining input.new) env.now) }
{
    let shell = shell_of(args)?;
    let lines = read_input(alloc, input)?;
    let found = check(alloc, shell, lines.as_str(), env, tree, STANDARD_LIMITS)?;
    let difference = changes(alloc, env, &found.env)?;
    let text = print_changes(alloc, shell, difference.as_slice())?;
    let mut report = found.report(alloc)?;
    push_not_utf8(alloc, &mut report, not_utf8)?;
    Ok(PreparedCheck {
        is_accepted: found.is_accepted(),
        report,
        text,
    })
}

/// How a check ended, by how its writing ended.
fn exit_of(exit: Exit, is_accepted: bool) -> CheckExit
    ensures { result ≡ exit_of exit is_accepted }
{
    match exit {
        Exit::Success if is_accepted => CheckExit::AllAccepted,
        Exit::Success => CheckExit::SomeRefused,
        Exit::Reported => CheckExit::Reported,
        Exit::CutShort => CheckExit::CutShort,
    }
}

/// Checks the lines of an input over an environment and a tree of modulefiles, and answers how it ended.
///
/// The one argument is the name of a shell (56, 63). The whole input is read (43, 56), and the requests that its lines
/// make are run one after another, as a session; a refused line changes nothing. For each it writes `N accepted` or `N
/// refused: ` and why to standard error, then for each module that they loaded its full name and its verdict in the
/// first environment, and then a line for each of the variables that aren't UTF-8, which no environment has. Then the
/// text goes to standard output that says, as the shell reads it, what changed from the first environment to the last
/// (62).
///
/// The device failed only at paths that the check looks at: those of its lines, and of the searches for the modules that
/// it judges. Where there is a fault before all that is made, nothing is written but the line that says why, to
/// standard error.
pub fn run_check<T: Tree, R: Read, W: Write, E: Write>(
    alloc: Global,
    args: &[String],
    input: &mut R,
    env: Env,
    not_utf8: &[String],
    tree: &mut T,
    out: &mut W,
    err: &mut E,
) -> CheckExit
    ensures reads { ReadsOn T.agrees T.failures tree.old tree.new }
    ensures ended { EndsCheck result (T.agrees tree.new) (T.failures tree.old) (T.failures tree.new) env
        (map string_bytes not_utf8.now) (map string_bytes args.now) (R.remaining input.old) (R.remaining input.new)
        (W.contents out.old) (W.contents out.new) (E.contents err.old) (E.contents err.new) }
    ensures failed { FailsOnlyAt T.agrees T.failed tree.old tree.new
        (CheckOfInputLooksAt (map string_bytes args.now) (R.remaining input.old) (R.remaining input.new) env) }
{
    match answer_of(alloc, args, input, &env, not_utf8, tree) {
        Ok(answer) => {
            let exit = finish(&[], answer.report.as_str(), answer.text.as_str(), out, err);
            exit_of(exit, answer.is_accepted)
        }
        Err(fault) => exit_of(report_fault(&fault, err), false),
    }
}

/// Checks lines as `run_check` does for a process whose variables are all UTF-8, and answers the status of the process.
pub fn modcheck<T: Tree, R: Read, W: Write, E: Write>(
    alloc: Global,
    args: &[String],
    input: &mut R,
    env: Env,
    tree: &mut T,
    out: &mut W,
    err: &mut E,
) -> u8
    ensures reads { ReadsOn T.agrees T.failures tree.old tree.new }
    ensures ended { (exit : CheckExit) × (result ≡ check_status exit)
        × EndsCheck exit (T.agrees tree.new) (T.failures tree.old) (T.failures tree.new) env
        [] (map string_bytes args.now) (R.remaining input.old) (R.remaining input.new)
        (W.contents out.old) (W.contents out.new) (E.contents err.old) (E.contents err.new) }
    ensures failed { FailsOnlyAt T.agrees T.failed tree.old tree.new
        (CheckOfInputLooksAt (map string_bytes args.now) (R.remaining input.old) (R.remaining input.new) env) }
{
    run_check(alloc, args, input, env, &[], tree, out, err).status()
}
