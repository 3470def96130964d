//! The program `module SHELL[:[LINES:COLUMNS]] [WORD...]`: what the functions `module` and `ml` of shells do.
//! Touches its arguments, environment, working directory and standard streams, reads files, and writes collections.
//! Its file is `modcheck`, `modaudit` and `modport` too, by these names. It has no clause, so it has little code.
#![tactic(auto)]

mod given;
mod streams;

use filetree::DiskTree;
use filetree::hiding::HidingTree;
use given::{asking, given_words, own_path};
use message::RefusalKind;
use module_collections::files::DiskStorage;
use module_commands::answer_to;
use module_subcommands::{Program, Refusal, program_at};
use module_words::protocol::{Asker, read_asker, refusal_status};
use shelltext::Shell;
use std::mem::forget;
use std::process::ExitCode;
use std::rt::Env as _;
use streams::{say_refusal, write_answer};

/// Says why a command is refused, and gives the status.
fn refuse(rt: &HostRuntime, refusal: &Refusal<'_>, status: u8) -> u8 {
    say_refusal(rt, refusal);
    status
}

/// Does what the words ask for, and gives the status of the process.
fn do_words(
    rt: &HostRuntime,
    called_as: &[u8],
    shell: Shell,
    asker: Asker,
    words: &[String],
) -> u8 {
    let refused = refusal_status(shell, asker);
    let asking = match asking(rt, called_as, shell, asker) {
        Ok(asking) => asking,
        Err(refusal) => return refuse(rt, &refusal, refused),
    };
    let mut tree = DiskTree::new(rt);
    let mut readable = HidingTree::new(rt.alloc(), DiskTree::new(rt));
    let answer = answer_to(
        rt.alloc(),
        &asking,
        words,
        &mut tree,
        &mut readable,
        &mut DiskStorage::new(rt),
        DiskTree::new(rt),
    );
    let status = match &answer {
        Ok(answer) => write_answer(rt, answer, refused),
        Err(_) => refuse(rt, &Refusal::OutOfMemory, refused),
    };
    // The process ends soon: the system takes back at once what it holds.
    forget((asking, tree, readable, answer));
    status
}

/// Does the command of the process's arguments, and gives its status.
fn run_module(rt: &HostRuntime, called_as: &[u8]) -> u8 {
    let words = match given_words(rt) {
        Ok(words) => words,
        Err(status) => return status,
    };
    let [first, words @ ..] = words.as_slice() else {
        return refuse(rt, &Refusal::BadArguments, 1);
    };
    match read_asker(first.as_str()) {
        Some((shell, asker)) => do_words(rt, called_as, shell, asker, words),
        None => {
            let numbered = RefusalKind::UnknownShell.naming(first.as_str());
            refuse(rt, &Refusal::Numbered(numbered), 1)
        }
    }
}

/// Runs the program that the process is called as, and gives its status.
fn run(called_as: &[u8], rt: HostRuntime) -> ExitCode {
    match program_at(called_as) {
        Program::Module => ExitCode::from(run_module(&rt, called_as)),
        Program::Modcheck => modcheck::run(rt),
        Program::Modaudit => modaudit::run(rt),
        Program::Modport => modport::run(rt),
    }
}

/// Ends with the status of the program that the process is called as. Most paths have room in a few bytes.
fn main(rt: HostRuntime) -> ExitCode {
    let mut room = [0; 256];
    match rt.arg(0, &mut room) {
        Ok(length) => run(&room[..length], rt),
        Err(_) => run(own_path(&rt, &mut [0; 4096]), rt),
    }
}
