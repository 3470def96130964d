//! What `use` and `unuse` make of MODULEPATH.

use crate::shown::shown;
use crate::texts::words;
use envstate::{End, Env, Vars};
use module_words::modulepath::{
    ModulePathFault, directories_to_unuse, directories_to_use, unuse_directories, use_directories,
};
use std::alloc::{AllocError, Global};
use std::io;

/// A text, or none where a line has `-` for it.
fn given(text: &str) -> Option<&str> {
    if text == "-" { None } else { Some(text) }
}

/// An environment with this MODULEPATH alone.
fn searched(alloc: Global, directories: Option<&str>) -> Result<Env, ModulePathFault> {
    let mut env = Env::new(alloc);
    if let Some(directories) = directories {
        if env.set("MODULEPATH", directories).is_err() {
            return Err(ModulePathFault::OutOfMemory);
        }
    }
    Ok(env)
}

/// Makes an edit of MODULEPATH, by the words of `use` or `unuse`.
fn edit(
    alloc: Global,
    env: &mut Env,
    working: Option<&str>,
    name: &str,
    words: &[String],
) -> Result<(), ModulePathFault> {
    match name {
        "prepend" => {
            let paths = directories_to_use(alloc, working, words)?;
            use_directories(alloc, env, working, End::Front, &paths)
        }
        "append" => {
            let paths = directories_to_use(alloc, working, words)?;
            use_directories(alloc, env, working, End::Back, &paths)
        }
        _ => {
            let paths = directories_to_unuse(alloc, working, words)?;
            unuse_directories(alloc, env, working, &paths)
        }
    }
}

/// The variables after the edit that a line asks for.
fn edited(alloc: Global, line: &[String]) -> Result<Option<Env>, ModulePathFault> {
    let [name, working, directories, words @ ..] = line else {
        return Ok(None);
    };
    let mut env = searched(alloc, given(directories))?;
    edit(alloc, &mut env, given(working), name, words)?;
    Ok(Some(env))
}

/// The variables after the edit of a line, or its fault behind `!`.
fn answer_to(alloc: Global, line: &[String]) -> Result<String, AllocError> {
    match edited(alloc, line) {
        Ok(Some(env)) => shown(alloc, &env).map_err(|_| AllocError),
        Ok(None) => String::from_str(alloc, "no such line"),
        Err(fault) => format!(in alloc; "!{fault}"),
    }
}

/// Answers lines of edits of MODULEPATH.
pub(crate) fn answer(rt: &HostRuntime, lines: &[String]) -> io::Result<()> {
    let alloc = rt.alloc();
    for line in lines {
        let answer = answer_to(alloc, &words(alloc, b'\\', line)?)?;
        println!(rt; "> {line}\n{answer}")?;
    }
    Ok(())
}
