//! The directories that the words of `use` and `unuse` name.
ghost use Rattle.std.specs.Prelude.{◌≡◌, map, string_bytes};
ghost use Rattle.std.specs.Option.{option_map};
ghost use Rattle.message.specs.Answers.{Gives};
ghost use Rattle.envvars.specs.Texts.{texts_in};
ghost use Rattle.module_words.specs.modulepath.Faults.{reason_of};
ghost use Rattle.module_words.specs.modulepath.Words.{each, holdable, named};

use crate::modulepath::fault::ModulePathFault;
use process::absolute_path;
use std::alloc::Global;

/// The absolute path that a word names.
fn named(alloc: Global, working: Option<&str>, word: &str) -> Result<String, ModulePathFault>
    ensures { Gives reason_of string_bytes result (named (option_map (λ w. w.now) working.entry) word.now) }
{
    if word.is_empty() {
        return Err(ModulePathFault::NoName);
    }
    match absolute_path(alloc, working, word)? {
        Some(path) => Ok(path),
        None => Err(ModulePathFault::NoWorkingDirectory(String::from_str(alloc, word)?)),
    }
}

/// The same, of a path that MODULEPATH can hold.
fn holdable(alloc: Global, working: Option<&str>, word: &str) -> Result<String, ModulePathFault>
    ensures { Gives reason_of string_bytes result (holdable (option_map (λ w. w.now) working.entry) word.now) }
{
    let path = named(alloc, working, word)?;
    if path.as_bytes().contains(&b':') {
        return Err(ModulePathFault::HasColon(path));
    }
    Ok(path)
}

/// The absolute paths that the words of `use` name. The first word that is at fault is refused: an empty one, a
/// relative one where there is no working directory, or one whose path has a colon, which MODULEPATH can't hold.
pub fn directories_to_use(
    alloc: Global,
    working: Option<&str>,
    words: &[String],
) -> Result<Vec<String>, ModulePathFault>
    ensures { Gives reason_of texts_in result
        (each (holdable (option_map (λ w. w.now) working.entry)) (map string_bytes words.now)) }
{
    let mut paths = Vec::new(alloc);
    for word in words {
        paths.push(holdable(alloc, working, word.as_str())?)?;
    }
    Ok(paths)
}

/// The absolute paths that the words of `unuse` name. The first word that is at fault is refused: an empty one, or a
/// relative one where there is no working directory.
pub fn directories_to_unuse(
    alloc: Global,
    working: Option<&str>,
    words: &[String],
) -> Result<Vec<String>, ModulePathFault>
    ensures { Gives reason_of texts_in result
        (each (named (option_map (λ w. w.now) working.entry)) (map string_bytes words.now)) }
{
    let mut paths = Vec::new(alloc);
    for word in words {
        paths.push(named(alloc, working, word.as_str())?)?;
    }
    Ok(paths)
}
