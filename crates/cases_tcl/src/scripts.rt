//! `script NAME SETTING...: SCRIPT` evaluates a script. The settings are `commands=`, `depth=` and `bytes=` for limits
//! other than those of the program, `mode=` for what `mode` answers (otherwise `load`), `env.NAME=` for a variable of
//! the environment, and `var.NAME=` for a variable of the script. The host records the words of `setenv` and what
//! `puts` writes, answers `mode`, and refuses `conflict`.
//!
//! The answer is the name and, with tabs between them: `ok COUNT RESULT` with how many commands and turns of loops were
//! counted, or `err NUMBER LINE MESSAGE` with the line of an error, and 0 for that of another fault; `var NAME=VALUE`
//! for each global variable where the script ended; `message TEXT` for each message; `record WORDS` for each record, with
//! bars between its words; and `asked`, where a question was asked.
use crate::escapes::{push_made_text, push_text, push_texts, text_of};
use crate::lines::Line;
use crate::recorder::Recorder;
use std::alloc::{AllocError, Global};
use tcleval::evaluate;
use tclrules::{Ending, EvalFault, Limits};

/// The limits of the program.
pub(crate) const LIMITS: Limits = Limits {
    commands: 100_000,
    depth: 200,
    value_bytes: 1_048_576,
};

/// What a script is evaluated under, and with.
#[derive(Drop)]
struct Setting {
    /// Its limits.
    limits: Limits,
    /// Its variables at the start.
    variables: Vec<(String, String)>,
    /// The host of its commands.
    host: Recorder,
}

/// A host that has recorded nothing yet.
pub(crate) fn recorder(alloc: Global) -> Result<Recorder, AllocError> {
    Ok(Recorder {
        alloc,
        mode: String::from_str(alloc, "load")?,
        environment: Vec::new(alloc),
        records: Vec::new(alloc),
        messages: Vec::new(alloc),
        asked: Vec::new(alloc),
        refused: None,
    })
}

fn pair(alloc: Global, name: &str, value: &str) -> Option<(String, String)> {
    Some((text_of(alloc, name)?, text_of(alloc, value)?))
}

/// Adds a name and a value, as they are meant; None where memory ran out.
fn push_pair(
    alloc: Global,
    pairs: &mut Vec<(String, String)>,
    name: &str,
    value: &str,
) -> Option<()> {
    pairs.push(pair(alloc, name, value)?).ok()
}

/// Sets a variable of the environment or of the script; None where the key names neither.
fn set_variable(alloc: Global, setting: &mut Setting, key: &str, value: &str) -> Option<()> {
    match key.split_once('.')? {
        ("env", name) => push_pair(alloc, &mut setting.host.environment, name, value),
        ("var", name) => push_pair(alloc, &mut setting.variables, name, value),
        _ => None,
    }
}

/// Sets a limit; None where the value is no number for it.
fn set_limit(limits: &mut Limits, key: &str, value: &str) -> Option<()> {
    match key {
        "commands" => limits.commands = value.parse::<u64>().ok()?,
        "depth" => limits.depth = value.parse::<u32>().ok()?,
        _ => limits.value_bytes = value.parse::<usize>().ok()?,
    }
    Some(())
}

/// Sets what `mode` answers.
fn set_mode(alloc: Global, host: &mut Recorder, value: &str) -> Option<()> {
    host.mode = text_of(alloc, value)?;
    Some(())
}

/// Takes up one setting; None where it is none.
fn set(alloc: Global, setting: &mut Setting, word: &str) -> Option<()> {
    let (key, value) = word.split_once('=')?;
    match key {
        "commands" | "depth" | "bytes" => set_limit(&mut setting.limits, key, value),
        "mode" => set_mode(alloc, &mut setting.host, value),
        _ => set_variable(alloc, setting, key, value),
    }
}

/// Takes up the settings of the words; None where one of them is none.
fn set_all(alloc: Global, setting: &mut Setting, words: &str) -> Option<()> {
    for word in words.split(' ') {
        if !word.is_empty() {
            set(alloc, setting, word)?;
        }
    }
    Some(())
}

/// The settings of the words; None where one of them is none.
fn setting_of(alloc: Global, words: &str) -> Option<Setting> {
    let host = recorder(alloc).ok()?;
    let mut setting = Setting {
        limits: LIMITS,
        variables: Vec::new(alloc),
        host,
    };
    set_all(alloc, &mut setting, words)?;
    Some(setting)
}

/// Adds the count, the result and the global variables of a script that ended.
fn push_ending(alloc: Global, line: &mut Line, ending: &Ending) {
    let count = ending.used_commands;
    line.push_made(format!(in alloc; "ok {count} "));
    push_text(line, &ending.result);
    for (name, value) in &ending.globals {
        push_variable(line, name, value);
    }
}

/// Adds a global variable.
fn push_variable(line: &mut Line, name: &str, value: &str) {
    line.push_str("\tvar ");
    push_text(line, name);
    line.push('=');
    push_text(line, value);
}

fn push_fault(alloc: Global, line: &mut Line, fault: &EvalFault) {
    let number = fault.number();
    match fault {
        EvalFault::TclError(message, line_number) => {
            line.push_made(format!(in alloc; "err {number} {line_number} "));
            push_text(line, message);
        }
        _ => {
            line.push_made(format!(in alloc; "err {number} 0 "));
            push_made_text(line, fault.to_string(alloc));
        }
    }
}

fn push_record(line: &mut Line, record: &[String]) {
    line.push_str("\trecord ");
    push_texts(line, record);
}

fn push_messages(line: &mut Line, messages: &[String]) {
    for message in messages {
        line.push_str("\tmessage ");
        push_text(line, message);
    }
}

fn push_records(line: &mut Line, records: &[Vec<String>]) {
    for record in records {
        push_record(line, record);
    }
}

/// Adds the result of a script or its fault, the messages and records of its host, and the host's mark.
fn push_shown(
    alloc: Global,
    line: &mut Line,
    outcome: &Result<Ending, EvalFault>,
    host: &Recorder,
) {
    push_outcome(alloc, line, outcome);
    push_messages(line, &host.messages);
    push_records(line, &host.records);
    if !host.asked.is_empty() {
        line.push_str("\tasked");
    }
}

/// Adds the result of a script, or its fault.
fn push_outcome(alloc: Global, line: &mut Line, outcome: &Result<Ending, EvalFault>) {
    match outcome {
        Ok(ending) => push_ending(alloc, line, ending),
        Err(fault) => push_fault(alloc, line, fault),
    }
}

/// The outcome of a script of this name, and what its host has recorded; None where memory ran out.
fn shown(
    alloc: Global,
    name: &str,
    outcome: &Result<Ending, EvalFault>,
    host: &Recorder,
) -> Option<String> {
    let mut line = Line::new(alloc);
    line.push_str(name);
    line.push_str(": ");
    push_shown(alloc, &mut line, outcome, host);
    line.finish()
}

/// Evaluates a script of this name, and shows its outcome and what its host has recorded; None where memory ran out.
fn evaluated(alloc: Global, name: &str, setting: Setting, script: &str) -> Option<String> {
    let Setting {
        limits,
        variables,
        mut host,
    } = setting;
    let outcome = evaluate(alloc, script, variables, &mut host, limits);
    shown(alloc, name, &outcome, &host)
}

/// The answer to `script`; None where the line asks nothing, or memory ran out.
pub(crate) fn answer(alloc: Global, rest: &str) -> Option<String> {
    let (head, written) = rest.split_once(": ")?;
    let (name, words) = head.split_once(' ').unwrap_or((head, ""));
    let script = text_of(alloc, written)?;
    evaluated(alloc, name, setting_of(alloc, words)?, &script)
}
