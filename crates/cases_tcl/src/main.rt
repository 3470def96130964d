//! Worked examples of Tcl: answers what lines ask about texts, values and scripts.
//! Touches standard input and output; the evaluated scripts reach an example host (`Recorder`) and nothing else.
//! Nothing stands above it; the files `stdin` and `stdout` of this crate are these lines and their answers.
//!
//! The first word of a line says of which kind it is:
//!
//! - `text`, `value`: a call of tcltext, or of tclvalue (`texts.rt`, `values.rt`).
//! - `command`: a command that evaluates no script, over variables that all these lines share (`commands.rt`).
//! - `script`: a script and its result (`scripts.rt`).
//! - `cached`: a script, and which texts are cached after its evaluation (`cache.rt`).
//! - `names`: the faults by their names and numbers, and what a host may answer (`names.rt`).
//! - `#`: a heading, which is its own answer.
//!
//! Texts stand as they are, but for the escapes of `escapes.rt`; of several, each blank is `\s`. Each answer is a line.
//! `no answer` stands for a line that asks nothing, and for want of memory.
#![tactic(auto)]

mod cache;
mod commands;
mod escapes;
mod lines;
mod names;
mod recorder;
mod scripts;
mod texts;
mod trees;
mod values;

use crate::commands::State;
use std::alloc::Global;
use std::io;

/// The answer to a line; None where it asks nothing, or memory ran out.
fn answer(alloc: Global, state: &mut State, line: &str) -> Option<String> {
    let (kind, rest) = line.split_once(' ')?;
    match kind {
        "text" => texts::answer(alloc, rest),
        "value" => values::answer(alloc, rest),
        "command" => commands::answer(alloc, state, rest).ok(),
        "script" => scripts::answer(alloc, rest),
        "cached" => cache::answer(alloc, rest),
        "names" => names::answer(alloc, rest),
        "#" => String::from_str(alloc, line).ok(),
        _ => None,
    }
}

/// Answers a line by a line of standard output.
fn answer_line(rt: &HostRuntime, state: &mut State, line: &str) -> io::Result<()> {
    match answer(rt.alloc(), state, line) {
        Some(answer) => println!(rt; "{answer}"),
        None => println!(rt; "no answer"),
    }
}

/// Answers each line of standard input.
fn answer_lines(rt: &HostRuntime, state: &mut State) -> io::Result<()> {
    for line in rt.lines(rt.alloc()) {
        answer_line(rt, state, &line?)?;
    }
    Ok(())
}

fn main(rt: HostRuntime) -> io::Result<()> {
    let mut state = State::new(rt.alloc())?;
    answer_lines(&rt, &mut state)
}
