//! What is written: an answer to the streams that it names, and lines to standard error.

use module_commands::{Answer, Cause, cause_line, refusal_line};
use module_subcommands::{Condition, Refusal, Stream, Writing};
use std::fs::{self, File};
use std::io::{ErrorKind, IsTerminal, Result as IoResult, Write};
use std::os::unix::fs::PermissionsExt;

/// The descriptor of standard input.
const INPUT: i32 = 0;

/// Whether something is to be written.
fn holds(rt: &HostRuntime, condition: &Condition) -> bool {
    match condition {
        Condition::Always => true,
        Condition::UnlessDirectory(path) => match fs::metadata(rt, path.as_str()) {
            Ok(found) => !found.is_dir(),
            Err(_) => true,
        },
        Condition::IfProgram(path) => match fs::metadata(rt, path.as_str()) {
            Ok(found) => found.is_file() && found.permissions().mode() & 0o111 != 0,
            Err(_) => false,
        },
    }
}

/// Writes bytes, where there are some and they are to be written, and says whether all are.
fn write(rt: &HostRuntime, writing: &Writing) -> bool {
    let bytes = writing.bytes.as_slice();
    if bytes.is_empty() || !holds(rt, &writing.condition) {
        return true;
    }
    match writing.stream {
        Stream::Output => rt.stdout().write_all(bytes).is_ok(),
        // What is handed over as standard input is the user's standard output, and open for writing.
        Stream::Handed => io::write_all(INPUT, bytes),
        Stream::Error => rt.stderr().write_all(bytes).is_ok(),
    }
}

/// Writes to standard error; nothing can be done where it isn't written.
fn say(rt: &HostRuntime, text: &str) {
    let _ = rt.stderr().write_all(text.as_bytes());
}

/// Says why a command is refused.
pub fn say_refusal(rt: &HostRuntime, refusal: &Refusal<'_>) {
    match refusal_line(rt.alloc(), rt.stderr().is_terminal(), refusal) {
        Ok(line) => say(rt, line.as_str()),
        Err(_) => {
            let _ = eprintln!(rt; "ERROR: {}", Refusal::OutOfMemory);
        }
    }
}

/// Opens what is at a path, as reading it does at first.
fn open(rt: &HostRuntime, path: &str) -> IoResult<()> {
    if fs::metadata(rt, path)?.is_dir() {
        fs::read_dir(rt, path)?;
    } else {
        File::open(rt, path)?;
    }
    Ok(())
}

/// Why a path can't be read, as far as the system says it.
fn cause_at(rt: &HostRuntime, path: &str) -> Cause {
    match open(rt, path) {
        Ok(()) => Cause::Readable,
        Err(fault) => match fault.kind() {
            ErrorKind::PermissionDenied => Cause::NoPermission,
            _ => Cause::Unknown,
        },
    }
}

/// Writes an answer. The status is its own, unless something can't be written that has to be.
pub fn write_answer(rt: &HostRuntime, answer: &Answer, refused: u8) -> u8 {
    for writing in &answer.writes {
        if !write(rt, writing) && !answer.is_quiet {
            say_refusal(rt, &Refusal::WriteFailed);
            return refused;
        }
    }
    say(rt, answer.lines.as_str());
    if let Some(path) = &answer.unreadable {
        let cause = cause_at(rt, path.as_str());
        if let Ok(line) = cause_line(rt.alloc(), path.as_str(), cause) {
            say(rt, line.as_str());
        }
    }
    answer.status
}
