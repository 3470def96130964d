//! Commands that evaluate no script: the core commands by their forms, and commands of other names by the host.
ghost use Rattle.std.specs.Prelude.{ℕ, List, None, map, drop, string_bytes};
ghost use Rattle.tclrules.specs.Derivation.{OpenScript};
ghost use Rattle.tclrules.specs.Simulates.{Simulates, Point, point};
ghost use Rattle.tclrules.specs.Variables.{State};
ghost use Rattle.tclrules.specs.Plans as plans;
ghost use Rattle.tclrules.specs.Plans.{Bounds, Job, Next, ended, raise, sized};
ghost use Rattle.tclrules.specs.Rules as rules;
ghost use Rattle.tclforms.specs.Views.{simple_view};
ghost use Rattle.tclforms.specs.substitution.Machine.{bounds};
ghost use Rattle.tclforms.specs.substitution.Stops.{after, stopped};
ghost use Rattle.tclcommands.specs.Continuations.{value_text};
ghost use Rattle.tclcommands.specs.CommandTexts.{name_of};
ghost use Rattle.tclcommands.specs.Completions.{EvaluatesToText, sized_next};

use crate::command_words::CommandWords;
use crate::defining::define;
use crate::global_names::global;
use crate::host_commands::{consult, put};
use crate::lists::list_append;
use crate::reading::{exists, get};
use crate::result_use::ResultUse;
use crate::unsetting::unset;
use crate::value::Value;
use crate::writing::{append, increase, set};
use std::alloc::Global;
use tclforms::substitution::Stop;
use tclforms::variables::Variables;
use tclforms::{SimpleForm, is_unsupported};
use tclrules::{EvalFault, Host, Limits};
use tclvalue::operators::unsupported;

/// The completion of return(n), with this result.
fn returned(alloc: Global, text: &str) -> Stop
    ensures { (most : ℕ) (r : Job → plans.Step) (s : State) (x : Point)
        → Simulates most r (ended (plans.Returned text.now s)) x (stopped result s) x }
{
    match String::from_str(alloc, text) {
        Ok(text) => Stop::Returned(text),
        Err(error) => Stop::from(error),
    }
}

/// The completion of error(n), with this message.
fn raised(alloc: Global, message: &str) -> Stop
    ensures { (most : ℕ) (r : Job → plans.Step) (s : State) (x : Point)
        → Simulates most r (raise message.now s) x (stopped result s) x }
{
    match String::from_str(alloc, message) {
        Ok(message) => Stop::Fault(EvalFault::TclError(message, 0)),
        Err(error) => Stop::from(error),
    }
}

/// Does a core command that evaluates no script, by its form. The result isn't judged by the limit on values yet.
#[inline(always)]
fn simple_value<'a, H: Host>(
    alloc: Global,
    variables: &mut Variables,
    host: &mut H,
    limits: Limits,
    form: SimpleForm<'a>,
) -> Result<Value<'a>, Stop>
    ensures { (most remaining used : ℕ) (scripts : List OpenScript) (r : Job → plans.Step) (k : Next) → Simulates most r
        (rules.form (bounds limits.value_bytes remaining) (simple_view form.entry) variables.old k)
        (point (H.oracle host.old) (H.trace host.old) used scripts)
        (after result (λ v s. k (value_text v s) s) variables.new)
        (point (H.oracle host.new) (H.trace host.new) used scripts) }
{
    let limit = limits.value_bytes;
    match form {
        SimpleForm::Get(name) => get(alloc, variables, host, name),
        SimpleForm::Set(name, value) => set(alloc, variables, limit, name, value),
        SimpleForm::Append(name, values) => append(alloc, variables, limit, name, values),
        SimpleForm::ListAppend(name, values) => list_append(alloc, variables, limit, name, values),
        SimpleForm::Increase(name, numbers) => increase(alloc, variables, limit, name, numbers),
        SimpleForm::Exists(name) => exists(alloc, variables, host, name),
        SimpleForm::Global(names) => global(alloc, variables, names),
        SimpleForm::Unset(missing, names) => unset(alloc, variables, missing, names),
        SimpleForm::Define(name, parameters, body) => define(
            alloc, variables, name, parameters, body,
        ),
        SimpleForm::Put(words) => put(alloc, variables, host, words),
        SimpleForm::Return(text) => Err(returned(alloc, text)),
        SimpleForm::Error(message) => Err(raised(alloc, message)),
        SimpleForm::Break => Err(Stop::Broken),
        SimpleForm::Continue => Err(Stop::Continued),
        SimpleForm::Exit => Err(Stop::Fault(EvalFault::Stopped)),
    }
}

/// The text of a command's result, which is judged by the limit on values. The text is empty, and nothing is copied,
/// where the result isn't needed.
#[inline(always)]
fn result_text(
    alloc: Global,
    variables: &Variables,
    limits: Limits,
    result_use: ResultUse,
    value: Value<'_>,
) -> Result<String, Stop>
    ensures { EvaluatesToText result_use limits.value_bytes result
        (λ t. (most : ℕ) (r : Job → plans.Step) (k : Next) (x : Point)
        → Simulates most r (sized limits.value_bytes (value_text value.entry variables.now) (k (value_text value.entry
        variables.now) variables.now)) x (after result (λ _ s. k t s) variables.now) x) }
{
    if !value.is_within(variables, limits.value_bytes) {
        return Err(Stop::Fault(EvalFault::ValueTooLong));
    }
    match result_use {
        ResultUse::Needed => Ok(value.into_text(alloc, variables)?),
        ResultUse::Dropped => Ok(String::new(alloc)),
    }
}

/// Does a core command that evaluates no script, by its form, and answers the text of its result; an empty text where
/// the result isn't needed.
///
/// Errors: those of the command (`return`, `break`, `continue`, `error` and `exit` among them), and a halt where the
/// result has more bytes than the limit.
#[inline(always)]
pub fn simple_command<H: Host>(
    alloc: Global,
    variables: &mut Variables,
    host: &mut H,
    limits: Limits,
    result_use: ResultUse,
    form: SimpleForm<'_>,
) -> Result<String, Stop>
    ensures { EvaluatesToText result_use limits.value_bytes result
        (λ t. (most remaining used : ℕ) (scripts : List OpenScript) (r : Job → plans.Step) (k : Next)
        → Simulates most r (rules.form (bounds limits.value_bytes remaining) (simple_view form.entry) variables.old
        (sized_next limits.value_bytes k))
        (point (H.oracle host.old) (H.trace host.old) used scripts)
        (after result (λ _ s. k t s) variables.new)
        (point (H.oracle host.new) (H.trace host.new) used scripts)) }
{
    let value = simple_value(alloc, variables, host, limits, form)?;
    result_text(alloc, variables, limits, result_use, value)
}

/// A command whose name is neither a core command's nor a procedure's: one of Tcl that is unsupported on purpose, or
/// one that the host does.
///
/// Errors: a halt for a name that is unsupported or a result with more bytes than the limit; else those of
/// `tclcommands::consult`.
pub fn unknown_command<H: Host>(
    alloc: Global,
    variables: &Variables,
    host: &mut H,
    limits: Limits,
    result_use: ResultUse,
    command: CommandWords<'_>,
) -> Result<String, Stop>
    ensures { EvaluatesToText result_use limits.value_bytes result
        (λ t. (most used : ℕ) (scripts : List OpenScript) (b : Bounds) (r : Job → plans.Step) (k : Next)
        → Simulates most r (rules.other_command b (name_of command.entry.words.now)
        (map string_bytes (drop 1 command.entry.words.now)) variables.now (sized_next limits.value_bytes k) None)
        (point (H.oracle host.old) (H.trace host.old) used scripts)
        (after result (λ _ s. k t s) variables.now)
        (point (H.oracle host.new) (H.trace host.new) used scripts)) }
{
    if is_unsupported(command.name()) {
        return Err(Stop::from(unsupported(alloc, command.name())));
    }
    let value = consult(alloc, variables, host, command.words)?;
    result_text(alloc, variables, limits, result_use, value)
}
