//! What the system gives to a process: its arguments, and its environment as a block of entries.
ghost use Rattle.std.specs.Prelude.{◌<◌, ◌≤◌, IfOk, IfSome, OnOk, vec_len};
ghost use Rattle.std.specs.Io.{WritesAtMost};

use crate::input::InputFault;
use memchr::{memchr, memchr_iter};
use std::alloc::AllocError;
use std::env::FillError;
use std::fs::File;
use std::io::Read;
use std::rt::{Env, Files};
use std::{io, str};

/// The file in which Linux gives a process its environment at once (proc(5)).
const OWN_ENVIRONMENT: &str = "/proc/self/environ";

/// The length in bytes that most environments have room in.
const USUAL_LENGTH: usize = 2000;

/// By how many bytes the room for a text grows at a time: most texts have room in as many.
const MORE_LENGTH: usize = 1024;

/// A text that the system gives to a process.
#[derive(Clone, Copy)]
enum Given {
    /// An argument; the first is the program's name.
    Argument(usize),
    /// An entry of the environment.
    Entry(usize),
}

/// The arguments after the program's name.
///
/// The errors: `OutOfMemory`, and `BadInput` where an argument, or the program's name, isn't UTF-8.
pub fn arguments<R: Env + AllocGlobal>(rt: &R) -> Result<Vec<String>, InputFault> {
    let mut arguments = Vec::new(rt.alloc());
    let mut room = Vec::new(rt.alloc());
    for i in 0..usize::MAX {
        let Some(length) = copy_given(rt, Given::Argument(i), &mut room)? else {
            break;
        };
        let Ok(text) = str::from_utf8(&room.as_slice()[..length]) else {
            return Err(InputFault::BadInput);
        };
        if i > 0 {
            let argument = String::from_str(rt.alloc(), text)?;
            arguments
                .push(argument)
                .map_err(|_| InputFault::OutOfMemory)?;
        }
    }
    Ok(arguments)
}

/// The environment as the system has it (environ(7)): entry after entry, each ended by NUL.
///
/// The system's file is read at once. Where it can't be read, or isn't the list that the process has, the entries are
/// asked for one by one, in time that grows with the square of their number, so that none is lost.
pub fn environment_block<R: Env + Files + AllocGlobal>(rt: &R) -> Result<Vec<u8>, AllocError> {
    if let Ok(block) = own_environment(rt) {
        if is_complete(rt, block.as_slice())? {
            return Ok(block);
        }
    }
    block_by_entries(rt)
}

/// The text of the system's file. One that fits is read by one call, without asking whether it ends there.
fn own_environment<R: Files + AllocGlobal>(rt: &R) -> io::Result<Vec<u8>> {
    let mut file = File::open(rt, OWN_ENVIRONMENT)?;
    let mut piece = [0; USUAL_LENGTH];
    let length = file.read(&mut piece)?;
    let mut block = Vec::with_capacity(rt.alloc(), length)?;
    block.extend_from_slice(&piece[..length])?;
    if length == USUAL_LENGTH {
        file.read_to_end(&mut block)?;
    }
    Ok(block)
}

/// Whether the block has as many entries as the process, the same first one, and NUL at its end.
fn is_complete<R: Env + AllocGlobal>(rt: &R, block: &[u8]) -> Result<bool, AllocError> {
    let Some((last, _)) = memchr_iter(0, block).enumerate().last() else {
        return Ok(block.is_empty() && !has_entry(rt, 0));
    };
    let is_whole = block.ends_with(b"\0") && has_entry(rt, last) && !has_entry(rt, last + 1);
    Ok(is_whole && begins_alike(rt, block)?)
}

/// Whether the process has more than `i` entries.
fn has_entry<R: Env>(rt: &R, i: usize) -> bool {
    match rt.var_at(i, &mut []) {
        Ok(_) | Err(FillError::TooLong) => true,
        Err(FillError::NotPresent) => false,
    }
}

/// Whether the first entry of the process is that of the block. A longer one has no room.
fn begins_alike<R: Env + AllocGlobal>(rt: &R, block: &[u8]) -> Result<bool, AllocError> {
    let first = &block[..memchr(0, block).unwrap_or(block.len())];
    let mut room = Vec::from_elem(rt.alloc(), 0, first.len())?;
    Ok(match rt.var_at(0, room.as_mut_slice()) {
        Ok(_) => room.as_slice() == first,
        Err(_) => false,
    })
}

/// The block of the environment, made of the entries one by one.
fn block_by_entries<R: Env + AllocGlobal>(rt: &R) -> Result<Vec<u8>, AllocError> {
    let mut room = Vec::new(rt.alloc());
    let mut block = Vec::new(rt.alloc());
    for i in 0..usize::MAX {
        match copy_given(rt, Given::Entry(i), &mut room)? {
            None => break,
            Some(length) => {
                block.extend_from_slice(&room.as_slice()[..length])?;
                block.push(0)?;
            }
        }
    }
    Ok(block)
}

/// Copies a text to the start of a buffer. The result is the length of the text in bytes.
fn fill<R: Env>(rt: &R, given: Given, buffer: &mut [u8]) -> Result<usize, FillError>
    ensures { WritesAtMost result buffer.new }
{
    match given {
        Given::Argument(i) => rt.arg(i, buffer),
        Given::Entry(i) => rt.var_at(i, buffer),
    }
}

/// Copies a text to the start of `room`, which grows until the text fits. The result is the length of the text in
/// bytes; none where there is no such text.
fn copy_given<R: Env>(rt: &R, given: Given, room: &mut Vec<u8>) -> Result<Option<usize>, AllocError>
    ensures { IfOk result (λ found. IfSome found (λ n. n ≤ vec_len room.new)) }
{
    loop {
        match fill(rt, given, room.as_mut_slice()) {
            Ok(length) => return Ok(Some(length)),
            Err(FillError::NotPresent) => return Ok(None),
            Err(FillError::TooLong) => grow(room)?,
        }
    }
}

/// Makes a buffer longer.
fn grow(room: &mut Vec<u8>) -> Result<(), AllocError>
    ensures { OnOk result (vec_len room.old < vec_len room.new) }
{
    room.extend_from_slice(&[0; MORE_LENGTH])
}
