//! What the process is given: its arguments, its environment, where it works, and by which path it was called.

use crate::streams::say_refusal;
use envvars::Env;
use module_subcommands::{Asking, Refusal, site_of};
use module_words::protocol::{Asker, Streams, read_asker, refusal_status};
use process::{InputFault, arguments, environment_block};
use shelltext::Shell;
use std::io::IsTerminal;
use std::rt::Env as _;
use std::{process as own, str};

/// How many bytes a path of the system has at most, with its end (PATH_MAX of Linux).
const LONGEST_PATH: usize = 4096;

/// How many bytes of the first argument are looked at where not all arguments are texts.
const SHORT: usize = 64;

/// The path by which the process was called, as far as it has room.
pub fn own_path<'a>(rt: &HostRuntime, room: &'a mut [u8; LONGEST_PATH]) -> &'a [u8] {
    match rt.arg(0, room) {
        Ok(length) => room.get(..length).unwrap_or(&[]),
        Err(_) => &[],
    }
}

/// Who asks by a word; a script, where the word says nothing.
fn asker_in(word: &[u8]) -> (Shell, Asker) {
    match str::from_utf8(word) {
        Ok(word) => read_asker(word).unwrap_or((Shell::Sh, Asker::Script)),
        Err(_) => (Shell::Sh, Asker::Script),
    }
}

/// Who asks, by the beginning of the first argument.
fn first_asker(rt: &HostRuntime) -> (Shell, Asker) {
    let mut room = [0; SHORT];
    let length = match rt.arg(1, &mut room) {
        Ok(length) => length.min(SHORT),
        Err(_) => 0,
    };
    asker_in(&room[..length])
}

/// Says that an argument is no text, and gives the status for who asks.
fn refuse_arguments(rt: &HostRuntime, fault: InputFault) -> u8 {
    let (shell, asker) = first_asker(rt);
    say_refusal(rt, &Refusal::Numbered(fault.numbered()));
    refusal_status(shell, asker)
}

/// The arguments after the program's name; else the status with which the process ends, when why is said.
pub fn given_words(rt: &HostRuntime) -> Result<Vec<String>, u8> {
    match arguments(rt) {
        Ok(words) => Ok(words),
        Err(fault) => Err(refuse_arguments(rt, fault)),
    }
}

/// Which of the user's streams are terminals: a function hands its standard output on as standard input.
fn streams(rt: &HostRuntime, asker: Asker) -> Streams {
    let output = match asker {
        Asker::Script => rt.stdout().is_terminal(),
        Asker::Handing(_) | Asker::Unhanding => rt.stdin().is_terminal(),
    };
    let error = rt.stderr().is_terminal();
    Streams { output, error }
}

/// Who asks, in which environment, and what the process is given besides.
pub fn asking(
    rt: &HostRuntime,
    called_as: &[u8],
    shell: Shell,
    asker: Asker,
) -> Result<Asking, Refusal<'static>> {
    let block = environment_block(rt)?;
    let env = Env::from_block(rt.alloc(), block)?;
    let streams = streams(rt, asker);
    let site = site_of(rt, called_as, streams, own::id(rt.process()), &env)?;
    Ok(Asking {
        shell,
        asker,
        env,
        site,
    })
}
