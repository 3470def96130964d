//! `command WORDS` runs a command that evaluates no script; the line is the list of its words. `enter` begins a
//! procedure and `leave` ends it; `body NAME` is the script of a procedure, and `value TEXT` is the value of an
//! expression without brackets. A value has at most 64 bytes.
//!
//! The answer is `ok RESULT`, `raised MESSAGE`, or `halted` with what halts.
use crate::recorder::Recorder;
use crate::scripts::recorder;
use std::alloc::{AllocError, Global};
use tclcommands::{
    Value, append, consult, define, exists, get, global, increase, list_append, put, set, unset,
};
use tclforms::substitution::{Control, Step, Stop, SubstitutionContext, advance};
use tclforms::variables::{Local, Variables};
use tclforms::{Form, SimpleForm, core_form};
use tclrules::{EvalFault, Host, Limits};
use tcltext::expr::{OwnedExpr, own_expr};
use tclvalue::elements;

/// How many bytes a value may have.
const LIMIT: usize = 64;

/// No script is evaluated, so none of its limits but that of values counts.
const LIMITS: Limits = Limits {
    commands: 0,
    depth: 0,
    value_bytes: LIMIT,
};

/// What the commands of all lines share and change.
#[derive(Drop)]
pub(crate) struct State {
    /// The variables and procedures.
    variables: Variables,
    /// The frames of the procedures that called, the last one last.
    callers: Vec<Option<Local>>,
    /// What commands that are no core commands are handed to.
    host: Recorder,
}

impl State {
    /// No variable is set; the host's environment has HOME.
    pub(crate) fn new(alloc: Global) -> Result<State, AllocError> {
        let mut host = recorder(alloc)?;
        host.environment.push((
            String::from_str(alloc, "HOME")?,
            String::from_str(alloc, "/home/user")?,
        ))?;
        Ok(State {
            variables: Variables::new(alloc, host.reserved()),
            callers: Vec::new(alloc),
            host,
        })
    }
}

/// The value of a command that evaluates no script, by its form.
fn performed<'a>(
    alloc: Global,
    state: &mut State,
    form: SimpleForm<'a>,
) -> Result<Value<'a>, Stop> {
    let variables = &mut state.variables;
    let host = &mut state.host;
    match form {
        SimpleForm::Get(name) => get(alloc, variables, host, name),
        SimpleForm::Set(name, value) => set(alloc, variables, LIMIT, name, value),
        SimpleForm::Unset(missing, names) => unset(alloc, variables, missing, names),
        SimpleForm::Append(name, values) => append(alloc, variables, LIMIT, name, values),
        SimpleForm::ListAppend(name, values) => list_append(alloc, variables, LIMIT, name, values),
        SimpleForm::Increase(name, increases) => increase(alloc, variables, LIMIT, name, increases),
        SimpleForm::Define(name, list, body) => define(alloc, variables, name, list, body),
        SimpleForm::Exists(name) => exists(alloc, variables, host, name),
        SimpleForm::Global(names) => global(alloc, variables, names),
        SimpleForm::Put(words) => put(alloc, variables, host, words),
        SimpleForm::Return(_)
        | SimpleForm::Break
        | SimpleForm::Continue
        | SimpleForm::Exit
        | SimpleForm::Error(_) => { Err(Stop::Fault(EvalFault::Stopped)) }
    }
}

/// The script of a procedure; empty where there is none.
fn body(alloc: Global, variables: &Variables, name: &str) -> Result<String, Stop> {
    match variables.procedure(name) {
        Some(procedure) => Ok(String::from_str(alloc, &procedure.body)?),
        None => Ok(String::new(alloc)),
    }
}

/// The value that a step has; halted where it needs another step.
fn done(step: Result<Step<'_>, Stop>) -> Result<String, Stop> {
    match step? {
        Step::Done(text) => Ok(text),
        Step::Next(_) | Step::Bracket(_) => Err(Stop::Fault(EvalFault::Stopped)),
    }
}

/// The value of a parsed expression.
fn expression_value(alloc: Global, state: &mut State, owned: &OwnedExpr) -> Result<String, Stop> {
    let context = SubstitutionContext {
        alloc,
        limits: LIMITS,
        source: owned.text.as_str(),
        variables: &state.variables,
    };
    let mut stack = Vec::new(alloc);
    let control = Control::Expression(&owned.expression);
    done(advance(context, &mut state.host, &mut stack, control))
}

fn value(alloc: Global, state: &mut State, text: &str) -> Result<String, Stop> {
    match own_expr(alloc, String::from_str(alloc, text)?) {
        Ok(owned) => expression_value(alloc, state, &owned),
        Err(fault) => Err(Stop::from(fault)),
    }
}

/// Begins a procedure.
fn enter(alloc: Global, state: &mut State) -> Result<String, Stop> {
    let caller = state.variables.enter(alloc);
    state.callers.push(caller)?;
    Ok(String::new(alloc))
}

/// Ends the procedure that was begun last; nothing where there is none.
fn leave(alloc: Global, state: &mut State) -> String {
    if let Some(caller) = state.callers.pop() {
        state.variables.leave(caller);
    }
    String::new(alloc)
}

/// The form of a command that evaluates no script; None where it is no core command.
fn simple_form<'a>(
    alloc: Global,
    name: &str,
    words: &'a [String],
) -> Result<Option<SimpleForm<'a>>, Stop> {
    let form = core_form(alloc, name, words)?;
    match &form {
        Some(Form::Simple(simple)) => Ok(Some(*simple)),
        Some(_) => Err(Stop::Fault(EvalFault::Stopped)),
        None => Ok(None),
    }
}

/// The value of a command of these words, which begin with its name.
fn command<'a>(
    alloc: Global,
    state: &mut State,
    name: &str,
    rest: &'a [String],
    words: &'a [String],
) -> Result<Value<'a>, Stop> {
    match simple_form(alloc, name, rest)? {
        Some(form) => performed(alloc, state, form),
        None => consult(alloc, &state.variables, &mut state.host, words),
    }
}

/// The text of that value.
fn command_text(
    alloc: Global,
    state: &mut State,
    name: &str,
    rest: &[String],
    words: &[String],
) -> Result<String, Stop> {
    let value = command(alloc, state, name, rest, words)?;
    Ok(value.into_text(alloc, &state.variables)?)
}

/// The result of what the words of a line ask for.
fn result(alloc: Global, state: &mut State, words: &[String]) -> Result<String, Stop> {
    let Some((name, rest)) = words.split_first() else {
        return Ok(String::new(alloc));
    };
    match (name.as_str(), rest) {
        ("enter", []) => enter(alloc, state),
        ("leave", []) => Ok(leave(alloc, state)),
        ("body", [name]) => body(alloc, &state.variables, name),
        ("value", [text]) => value(alloc, state, text),
        _ => command_text(alloc, state, name, rest, words),
    }
}

/// What ended an evaluation early, in words.
fn faulted(alloc: Global, fault: &EvalFault) -> Result<String, AllocError> {
    match fault {
        EvalFault::TclError(message, _) => format!(in alloc; "raised {message}"),
        EvalFault::LeftOut(name) => format!(in alloc; "halted: left out {name}"),
        EvalFault::ValueTooLong => String::from_str(alloc, "halted: value too long"),
        EvalFault::NumberTooLarge => String::from_str(alloc, "halted: number too large"),
        EvalFault::FractionOperand => String::from_str(alloc, "halted: fraction"),
        EvalFault::Host(number) => format!(in alloc; "halted: refused by {number}"),
        _ => String::from_str(alloc, "halted"),
    }
}

/// A result or a fault, as the answer of its line.
fn shown(alloc: Global, answer: &Result<String, Stop>) -> Result<String, AllocError> {
    match answer {
        Ok(text) => format!(in alloc; "ok {text}"),
        Err(Stop::Fault(fault)) => faulted(alloc, fault),
        Err(_) => String::from_str(alloc, "stopped"),
    }
}

/// The answer to a line.
pub(crate) fn answer(alloc: Global, state: &mut State, line: &str) -> Result<String, AllocError> {
    let result = match elements(alloc, line) {
        Ok(words) => result(alloc, state, &words),
        Err(fault) => Err(Stop::from(fault)),
    };
    shown(alloc, &result)
}
