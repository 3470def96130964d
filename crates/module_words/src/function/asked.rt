//! What the words of the functions `module` and `ml` ask for.
ghost use Rattle.std.specs.Prelude.{◌≡◌, ◌∷◌, codes, map, string_bytes, IfOk};
ghost use Rattle.std.specs.List.{list_any};
ghost use Rattle.message.specs.Answers.{Gives};
ghost use Rattle.envvars.specs.Texts.{texts_in};
ghost use Rattle.module_words.specs.function.Asked as spec;
ghost use Rattle.module_words.specs.function.Asked.{asked_view, command_view};
ghost use Rattle.module_words.specs.function.Faults.{reason_of};
ghost use Rattle.module_words.specs.subcommands.Meanings.{is_named};
ghost use Rattle.module_words.specs.subcommands.Subcommands.{rows};

use crate::function::fault::FunctionFault;
use crate::subcommands::{Subcommand, subcommand_names, subcommand_of};
use message::texts::copies;
use std::alloc::{AllocError, Global};

/// A subcommand with the words behind it.
#[derive(Debug, Drop)]
pub struct AskedCommand {
    /// The subcommand.
    pub subcommand: Subcommand,
    /// The words behind it.
    pub words: Vec<String>,
}

/// What the words of a function ask for.
#[derive(Debug, Drop)]
pub enum Asked {
    /// One command.
    One(AskedCommand),
    /// That modules are unloaded, and others loaded then.
    Exchange {
        /// The unload.
        unloads: AskedCommand,
        /// The load.
        loads: AskedCommand,
    },
}

/// Whether a word asks for one name a line.
fn is_terse(word: &str) -> bool
    ensures { result ≡ spec.is_terse word.now }
{
    word == "-t" || word == "--terse"
}

/// Whether a word is the whole name of a subcommand.
fn is_name(word: &str) -> bool
    ensures { result ≡ list_any (is_named word.now) rows }
{
    subcommand_names().iter().any(|row| word == row.name)
}

/// Whether a first word of `ml` is one of `module`.
fn is_of_module(word: &str) -> bool
    ensures { result ≡ spec.is_of_module word.now }
{
    word == "av" || word == "li" || word == "sw" || is_terse(word) || is_name(word)
}

/// The command of a word that means a subcommand, with these words behind it.
fn command_of<'a>(word: &'a str, words: Vec<String>) -> Result<AskedCommand, FunctionFault<'a>>
    ensures { Gives reason_of command_view result (spec.command_of word.entry.now (texts_in words)) }
{
    match subcommand_of(word) {
        Ok(subcommand) => Ok(AskedCommand { subcommand, words }),
        Err(fault) => Err(FunctionFault::Word(fault)),
    }
}

/// The words with one more in front.
fn behind(alloc: Global, first: &str, words: &[String]) -> Result<Vec<String>, AllocError>
    ensures { IfOk result (λ v. texts_in v ≡ first.now ∷ map string_bytes words.now) }
{
    let mut all = vec![in alloc; String::from_str(alloc, first)?]?;
    for word in words {
        all.push(word.clone()?)?;
    }
    Ok(all)
}

/// The command whose report is to have one name a line: `list`, where no word follows.
fn terse_command<'a>(alloc: Global, words: &'a [String]) -> Result<AskedCommand, FunctionFault<'a>>
    ensures { Gives reason_of command_view result (spec.terse_command (map string_bytes words.entry.now)) }
{
    match words {
        [] => Ok(AskedCommand {
            subcommand: Subcommand::List,
            words: behind(alloc, "-t", words)?,
        }),
        [word, rest @ ..] => command_of(word.as_str(), behind(alloc, "-t", rest)?),
    }
}

/// What the words of `module` ask for: help, where there are none. The option of a report may stand before it.
fn asked_of_module<'a>(
    alloc: Global,
    words: &'a [String],
) -> Result<AskedCommand, FunctionFault<'a>>
    ensures { Gives reason_of command_view result (spec.asked_of_module (map string_bytes words.entry.now)) }
{
    let [word, rest @ ..] = words else {
        return Ok(AskedCommand {
            subcommand: Subcommand::Help,
            words: Vec::new(alloc),
        });
    };
    if is_terse(word.as_str()) {
        return terse_command(alloc, rest);
    }
    command_of(word.as_str(), copies(alloc, rest)?)
}

/// What is behind the first hyphen of a word.
fn behind_hyphen(word: &str) -> &str
    ensures { result.now ≡ spec.behind_hyphen word.now }
{
    match word.split_once('-') {
        Some((_, name)) => name,
        None => "",
    }
}

/// Whether a word of `ml` unloads: it begins with a hyphen, and with no other behind that.
fn unloads(word: &str) -> bool
    ensures { result ≡ spec.unloads word.now }
{
    word.starts_with('-') && !behind_hyphen(word).starts_with('-')
}

/// The names that words of `ml` unload.
fn unloaded_names(alloc: Global, words: &[String]) -> Result<Vec<String>, AllocError>
    ensures { IfOk result (λ v. texts_in v ≡ spec.unloaded_names (map string_bytes words.now)) }
{
    let mut names = Vec::new(alloc);
    for word in words {
        if unloads(word.as_str()) {
            names.push(String::from_str(alloc, behind_hyphen(word.as_str()))?)?;
        }
    }
    Ok(names)
}

/// The words of `ml` that are those of a load.
fn loaded_words(alloc: Global, words: &[String]) -> Result<Vec<String>, AllocError>
    ensures { IfOk result (λ v. texts_in v ≡ spec.loaded_words (map string_bytes words.now)) }
{
    let mut loaded = Vec::new(alloc);
    for word in words {
        if !unloads(word.as_str()) {
            loaded.push(word.clone()?)?;
        }
    }
    Ok(loaded)
}

/// A load, an unload, or both, of which each has words.
fn exchange(unloads: Vec<String>, loads: Vec<String>) -> Asked
    ensures { asked_view result ≡ spec.exchange (texts_in unloads) (texts_in loads) }
{
    let (has_unloads, has_loads) = (!unloads.is_empty(), !loads.is_empty());
    let unloads = AskedCommand {
        subcommand: Subcommand::Unload,
        words: unloads,
    };
    let loads = AskedCommand {
        subcommand: Subcommand::Load,
        words: loads,
    };
    match (has_unloads, has_loads) {
        (true, true) => Asked::Exchange { unloads, loads },
        (true, false) => Asked::One(unloads),
        (false, _) => Asked::One(loads),
    }
}

/// What the words of `ml` ask for: `list`, where there are none; what they ask `module` for, where the first is one of
/// its words; else names behind a hyphen are unloaded, and the others loaded then.
fn asked_of_ml<'a>(alloc: Global, words: &'a [String]) -> Result<Asked, FunctionFault<'a>>
    ensures { Gives reason_of asked_view result (spec.asked_of_ml (map string_bytes words.entry.now)) }
{
    let [word, ..] = words else {
        return Ok(Asked::One(AskedCommand {
            subcommand: Subcommand::List,
            words: Vec::new(alloc),
        }));
    };
    if is_of_module(word.as_str()) {
        return Ok(Asked::One(asked_of_module(alloc, words)?));
    }
    Ok(exchange(unloaded_names(alloc, words)?, loaded_words(alloc, words)?))
}

/// What the words of the function `module` ask for; behind a first word `ml` stand those of the function `ml`.
///
/// The errors: `Word`, the first word means no subcommand; `OutOfMemory`.
pub fn asked_for<'a>(alloc: Global, words: &'a [String]) -> Result<Asked, FunctionFault<'a>>
    ensures { Gives reason_of asked_view result (spec.asked_for (map string_bytes words.entry.now)) }
{
    if let [first, rest @ ..] = words {
        if first.as_str() == "ml" {
            return asked_of_ml(alloc, rest);
        }
    }
    Ok(Asked::One(asked_of_module(alloc, words)?))
}
