//! The run of a modulefile over an environment.
ghost use Rattle.std.specs.Prelude.{◌≡◌, [], Some, IfOk, IfErr, IfSome};
ghost use Rattle.std.specs.Option.{option_map};
ghost use Rattle.envvars.specs.Environment.{Environment};
ghost use Rattle.envvars.specs.Texts.{texts_in};
ghost use Rattle.tclrules.specs.Promise.{texts_of};
ghost use Rattle.modulefile.specs.Files.{any_question, globals_of, refused_by, stopped_at};
ghost use Rattle.modulefile_run.specs.Questions.{questions_in, IsFirst};
ghost use Rattle.modulefile_run.specs.Hosting.{refusal_view};
ghost use Rattle.modulefile_run.specs.Running.{context_view, eval_stop, stop_of, file_reason_of, RunsTo, Drafts};

use crate::command_refusal::CommandRefusal;
use crate::context::FileContext;
use crate::question::Question;
use crate::run_fault::{RefusedFile, RunFault};
use crate::run_stop::RunStop;
use crate::runner::Runner;
use envvars::{Change, Vars};
use modulefile::Record;
use std::alloc::{AllocError, Global};
use tcleval::{Kept, evaluate_placed};
use tclrules::{EvalFault, FaultPlace, Limits, PlacedFault};

/// What an accepted file leaves: the records of its commands, its messages, and what it asked about the environment, the
/// mode, the shell, the typed name or the loaded modules, in order and with the answers.
#[derive(Debug, Drop)]
pub struct FileRun {
    pub records: Vec<Record>,
    pub messages: Vec<String>,
    pub asked: Vec<Question>,
}

impl FileRun {
    /// Whether the file asked anything.
    pub fn has_asked(&self) -> bool
        ensures { result ≡ any_question (questions_in self.now.asked.items) }
    {
        !self.asked.is_empty()
    }
}

/// The records of a module whose evaluation asked nothing. Else they may differ elsewhere: this is its first question.
pub fn records_unless_asked(ran: FileRun) -> Result<Vec<Record>, Question>
    ensures asked { IfErr result (λ first. IsFirst first ran.asked.items) }
    ensures unasked { IfOk result (λ records. (ran.asked.items ≡ []) × (records ≡ ran.records)) }
{
    match ran.asked.into_iter().next() {
        Some(first) => Err(first),
        None => Ok(ran.records),
    }
}

/// What an accepted file leaves, and the changes that its environment doesn't have yet.
#[derive(Drop)]
pub(crate) struct FileDraft {
    pub ran: FileRun,
    pub changes: Vec<Change>,
}

/// The global variables of a modulefile at its beginning: `ModulesCurrentModulefile` is its path.
fn globals(alloc: Global, path: &str) -> Result<Vec<(String, String)>, AllocError>
    ensures { IfOk result (λ v. texts_of v.items ≡ globals_of path.now) }
{
    let mut globals = Vec::new(alloc);
    let name = String::from_str(alloc, "ModulesCurrentModulefile")?;
    let path = String::from_str(alloc, path)?;
    globals.push((name, path))?;
    Ok(globals)
}

/// The fault of a file by that of its evaluation. Where a command was refused, `command` is the command's own fault.
pub(crate) fn refusal(fault: EvalFault, command: Option<CommandRefusal>) -> RunStop
    ensures { IfSome (stop_of result) (λ stop. eval_stop fault (refusal_view command) ≡ Some stop) }
{
    match fault {
        EvalFault::Host(number) => refused(number, command),
        EvalFault::OutOfMemory
        | EvalFault::Text(_)
        | EvalFault::TclError(_, _)
        | EvalFault::TooManyCommands
        | EvalFault::TooDeep
        | EvalFault::ValueTooLong
        | EvalFault::NumberTooLarge
        | EvalFault::FractionOperand
        | EvalFault::LeftOut(_)
        | EvalFault::Stopped => RunStop::Eval(fault),
    }
}

/// The fault of a file for a refused command: the command's own, or its number where that is missing.
fn refused(number: u16, command: Option<CommandRefusal>) -> RunStop
    ensures { IfSome (stop_of result) (λ stop. stop ≡ refused_by number (refusal_view command)) }
{
    match command {
        Some(refusal) => refusal.into_fault(),
        None => RunStop::Eval(EvalFault::Host(number)),
    }
}

/// A file whose evaluation ended with a fault: why it is refused, and what it had said.
#[derive(Drop)]
pub(crate) struct StoppedRun {
    pub stop: RunStop,
    pub messages: Vec<String>,
}

/// The refusal of a file that stopped at this place.
fn refused_file(
    alloc: Global,
    context: &FileContext<'_>,
    stopped: StoppedRun,
    place: Option<FaultPlace>,
) -> Result<RunFault, AllocError>
    ensures stop { IfOk result (λ f. f.stop ≡ stopped.stop) }
    ensures reason { IfOk result (λ f. (before : Environment) → file_reason_of f
        ≡ option_map (stopped_at (context_view context.now before) place (texts_in stopped.messages))
        (stop_of stopped.stop)) }
{
    let file = RefusedFile {
        name: String::from_str(alloc, context.name)?,
        path: String::from_str(alloc, context.path)?,
        place,
        messages: stopped.messages,
    };
    Ok(RunFault {
        stop: stopped.stop,
        file: Some(file),
    })
}

/// The refusal of a file whose evaluation ended with this fault.
fn stopped_file<V: Vars>(
    alloc: Global,
    context: &FileContext<'_>,
    runner: Runner<'_, V>,
    fault: PlacedFault,
) -> RunFault
    ensures stop { IfSome (stop_of result.stop) (λ stop.
        eval_stop fault.fault (refusal_view runner.entry.refusal) ≡ Some stop) }
    ensures reason { (before : Environment) → file_reason_of result
        ≡ option_map (stopped_at (context_view context.now before) fault.place (texts_in runner.entry.messages))
        (stop_of result.stop) }
{
    let PlacedFault { fault, place } = fault;
    match refused_file(alloc, context, runner.stop(fault), place) {
        Ok(refused) => refused,
        Err(refused) => RunFault::from(refused),
    }
}

/// Evaluates a file over an environment, which is unchanged.
fn draft_file<V: Vars>(
    alloc: Global,
    context: &FileContext<'_>,
    text: &str,
    env: &V,
    limits: Limits,
) -> Result<FileDraft, RunFault>
    ensures { Drafts limits (context_view context.now (V.vars env.now)) text.now result }
{
    let globals = globals(alloc, context.path)?;
    let mut runner = Runner::over(alloc, *context, env);
    let mut cache = Kept::new(alloc);
    match evaluate_placed(alloc, &mut cache, text, globals, &mut runner, limits) {
        Ok(_ending) => runner.finish(),
        Err(fault) => Err(stopped_file(alloc, context, runner, fault)),
    }
}

/// Runs the text of a modulefile (modulefile(5)): its commands have their effects on the environment, in the mode at
/// hand.
///
/// Errors, each with the file, the place where it ended the evaluation and what the file had said: memory ran out (11 in
/// the evaluation, and else 31, without a place); what ends the evaluation early (2 to 9 and 13 to 20); words that don't
/// fit a command (56); and what a command may not name, or an effect that can't be had (32, 33, 34, 36, 37, 44). The
/// environment is then as it was.
pub fn run_file<V: Vars>(
    alloc: Global,
    context: &FileContext<'_>,
    text: &str,
    env: &mut V,
    limits: Limits,
) -> Result<FileRun, RunFault>
    ensures runs { RunsTo limits (context_view context.now (V.vars env.old)) text.now result (V.vars env.new) }
    ensures base { V.base env.new ≡ V.base env.old }
{
    let FileDraft { ran, changes } = draft_file(alloc, context, text, &*env, limits)?;
    env.apply(changes)?;
    Ok(ran)
}
