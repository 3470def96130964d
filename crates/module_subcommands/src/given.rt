//! What the process is given beside its words, as the system says it.
ghost use Rattle.std.specs.Prelude.{◌≡◌, codes, true, false, IsSome, None, IfOk, string_bytes};
ghost use Rattle.std.specs.Option.{option_map};
ghost use Rattle.envvars.specs.Environment.{lookup};
ghost use Rattle.envvars.specs.EnvironmentBlock.{utf8_value};
ghost use Rattle.module_subcommands.specs.Sites as spec;

use crate::site::Site;
use envvars::{Env, Vars};
use module_words::protocol::Streams;
use std::alloc::{AllocError, Global};
use std::env::VarError;
use std::fs::{self, Files};
use std::io::ErrorKind;
use std::os::unix::fs::MetadataExt;
use std::rt::Env as System;
use std::{env, str};

/// How many bytes most paths have at most.
const USUAL_LENGTH: usize = 256;

/// The bytes as a text of its own, where they are one.
fn text_of(alloc: Global, bytes: &[u8]) -> Result<Option<String>, AllocError>
    ensures { IfOk result (λ text. option_map string_bytes text ≡ utf8_value bytes.now) }
{
    match str::from_utf8(bytes) {
        Ok(text) => Ok(Some(String::from_str(alloc, text)?)),
        Err(_) => Ok(None),
    }
}

/// The working directory by the system's name; nothing where it has none, or one that isn't UTF-8. Most names have room in
/// a few bytes.
fn directory<R: System + AllocGlobal>(rt: &R) -> Result<Option<String>, AllocError> {
    let mut room = [0; USUAL_LENGTH];
    if let Ok(length) = rt.current_dir(&mut room) {
        return text_of(rt.alloc(), &room[..length]);
    }
    match env::current_dir(rt) {
        Ok(place) => Ok(Some(place.into_string())),
        Err(fault) if fault.kind() == ErrorKind::OutOfMemory => Err(AllocError),
        Err(_) => Ok(None),
    }
}

/// Whether a path leads to the working directory, by what the system has at both.
fn leads_to_same<R: Files>(rt: &R, path: &str) -> bool {
    match (fs::metadata(rt, path), fs::metadata(rt, ".")) {
        (Ok(named), Ok(here)) => named.dev() == here.dev() && named.ino() == here.ino(),
        _ => false,
    }
}

/// Whether the path in the variable PWD leads to the working directory: one that is its name does.
fn is_at_pwd<R: Files>(rt: &R, env: &Env, directory: Option<&str>) -> bool
    ensures unset { lookup env.now (codes "PWD") ≡ None → result ≡ false }
    ensures named { IsSome (lookup env.now (codes "PWD"))
        → lookup env.now (codes "PWD") ≡ option_map (λ path. path.now) directory.entry → result ≡ true }
{
    match env.get("PWD") {
        Some(path) => directory == Some(path) || leads_to_same(rt, path),
        None => false,
    }
}

/// Whether MODULEPATH is a text, or isn't set. An environment has texts alone.
fn has_text_modulepath<R: System + AllocGlobal>(rt: &R, env: &Env) -> Result<bool, AllocError>
    ensures { IfOk result (λ is. IsSome (lookup env.now (codes "MODULEPATH")) → is ≡ true) }
{
    if env.get("MODULEPATH").is_some() {
        return Ok(true);
    }
    match env::var(rt, "MODULEPATH") {
        Ok(_) | Err(VarError::NotPresent) => Ok(true),
        Err(VarError::NotUnicode) => Ok(false),
        Err(VarError::OutOfMemory) => Err(AllocError),
    }
}

/// What the process is given beside its words: by which path it was called, which streams are terminals, and what the
/// system says of its number, its working directory and its environment.
///
/// It fails for want of memory alone.
pub fn site_of<R: System + Files + AllocGlobal>(
    rt: &R,
    called_as: &[u8],
    streams: Streams,
    number: u32,
    env: &Env,
) -> Result<Site, AllocError>
    ensures { IfOk result (spec.IsSiteOf called_as.now streams number env.now) }
{
    let directory = directory(rt)?;
    let is_at_pwd = is_at_pwd(rt, env, directory.as_deref());
    Ok(Site {
        called_as: text_of(rt.alloc(), called_as)?,
        streams,
        directory,
        is_at_pwd,
        has_text_modulepath: has_text_modulepath(rt, env)?,
        number,
    })
}
