//! The texts that shells read changes from.

use crate::shown::changes_of;
use crate::texts::{first_word, words};
use shelltext::{PrintFault, Shell, print_changes};
use std::alloc::Global;
use std::io;

/// The text that a line asks for.
fn text_for(alloc: Global, line: &str) -> Result<String, PrintFault> {
    let (name, rest) = first_word(line);
    let Some(shell) = Shell::named(name) else {
        return Ok(String::from_str(alloc, "no such shell\n")?);
    };
    let words = words(alloc, b'\\', rest)?;
    print_changes(alloc, shell, &changes_of(alloc, &words)?)
}

/// Answers a line of changes.
fn answer_line(rt: &HostRuntime, line: &str) -> io::Result<()> {
    match text_for(rt.alloc(), line) {
        Ok(text) => print!(rt; "> {line}\n{text}"),
        Err(fault) => {
            let number = fault.number();
            println!(rt; "> {line}\n!{number} {fault}")
        }
    }
}

/// Answers lines of changes.
pub(crate) fn answer(rt: &HostRuntime, lines: &[String]) -> io::Result<()> {
    for line in lines {
        answer_line(rt, line)?;
    }
    Ok(())
}
