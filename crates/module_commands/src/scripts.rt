//! The answers to the words that only scripts and completion say.
ghost use Rattle.std.specs.Prelude.{◌≡◌, map, string_bytes, vec_items, IfOk};
ghost use Rattle.module_collections.specs.files.Calls.{Narrows};
ghost use Rattle.module_commands.specs.Answers.{answer_view};
ghost use Rattle.module_commands.specs.Explanations.{explained_view};
ghost use Rattle.module_commands.specs.Scripts as spec;

use crate::answering::{Answer, refused};
use crate::explaining::{Explained, explain_words};
use filetree::Tree;
use filetree::hiding::HidingTree;
use module_collections::files::{Storage, read_bytes};
use module_subcommands::completing::names_for;
use module_subcommands::lines::lines_of;
use module_subcommands::moving::hints_on;
use module_subcommands::{Asking, Refusal, Stream, always};
use module_words::function::{FunctionFault, site_directories};
use module_words::protocol::ScriptWord;
use module_words::subcommands::subcommand_of;
use std::alloc::{AllocError, Global};
use std::str;

/// An answer of bytes for standard output.
fn output(alloc: Global, bytes: Vec<u8>, is_quiet: bool) -> Result<Answer, AllocError>
    ensures { IfOk result (λ a. answer_view a ≡ spec.output (vec_items bytes) is_quiet) }
{
    let mut writes = Vec::new(alloc);
    writes.push(always(Stream::Output, bytes))?;
    Ok(Answer {
        writes,
        is_quiet,
        lines: String::new(alloc),
        unreadable: None,
        status: 0,
    })
}

/// An answer of lines for standard error.
fn explanation(alloc: Global, explained: Explained) -> Answer
    ensures { answer_view result ≡ spec.explanation (explained_view explained) }
{
    Answer {
        writes: Vec::new(alloc),
        is_quiet: false,
        lines: explained.lines,
        unreadable: explained.unreadable,
        status: 0,
    }
}

/// The directories of a site's file, joined by colons; nothing where it is no text.
fn directories_in(alloc: Global, bytes: &[u8]) -> Result<Vec<u8>, AllocError>
    ensures { IfOk result (λ found. spec.AreDirectoriesIn bytes.now (vec_items found)) }
{
    match str::from_utf8(bytes) {
        Ok(text) => site_directories(alloc, text),
        Err(_) => Ok(Vec::new(alloc)),
    }
}

/// The directories of the site's file at a path; nothing where there is no such file.
fn directories_at<S: Storage>(
    alloc: Global,
    path: &str,
    storage: &mut S,
) -> Result<Vec<u8>, AllocError>
    ensures narrows { Narrows (S.agrees storage.old) (S.agrees storage.new) }
    ensures found { IfOk result (λ bytes. spec.AreDirectoriesAt (S.agrees storage.new) path.now (vec_items bytes)) }
{
    match read_bytes(alloc, storage, path) {
        Ok(bytes) => directories_in(alloc, bytes.as_slice()),
        Err(_) => Ok(Vec::new(alloc)),
    }
}

/// The directories of the site's file that the only word names.
fn directories<S: Storage>(
    alloc: Global,
    words: &[String],
    storage: &mut S,
) -> Result<Vec<u8>, Refusal<'static>>
    ensures narrows { Narrows (S.agrees storage.old) (S.agrees storage.new) }
    ensures found { IfOk result (λ bytes. spec.AreDirectories (S.agrees storage.new) (map string_bytes words.now)
        (vec_items bytes)) }
{
    let [path] = words else {
        return Err(Refusal::BadArguments);
    };
    Ok(directories_at(alloc, path.as_str(), storage)?)
}

/// The name of the subcommand that the only word means, as a line.
fn meaning<'a>(alloc: Global, words: &'a [String]) -> Result<String, Refusal<'a>>
    ensures { IfOk result (λ line. spec.IsMeaning (map string_bytes words.entry.now) (string_bytes line)) }
{
    let [word] = words else {
        return Err(Refusal::BadArguments);
    };
    match subcommand_of(word.as_str()) {
        Ok(subcommand) => {
            let mut line = String::from_str(alloc, subcommand.name())?;
            line.push('\n')?;
            Ok(line)
        }
        Err(fault) => Err(Refusal::Function(FunctionFault::Word(fault))),
    }
}

/// The answer of bytes, or of why there are none.
fn output_or_refused(
    alloc: Global,
    asking: &Asking,
    bytes: Result<Vec<u8>, Refusal<'_>>,
    is_quiet: bool,
) -> Result<Answer, AllocError> {
    match bytes {
        Ok(bytes) => output(alloc, bytes, is_quiet),
        Err(refusal) => {
            let answer = refused(alloc, asking, &refusal, Explained::nothing(alloc));
            drop(refusal);
            answer
        }
    }
}

/// The answer to what a script asks for by a word of its own.
pub(crate) fn answer_script<T: Tree + Drop, S: Storage>(
    alloc: Global,
    asking: &Asking,
    word: ScriptWord,
    words: &[String],
    tree: &mut T,
    readable: &mut HidingTree<T>,
    storage: &mut S,
    spare: T,
) -> Result<Answer, AllocError> {
    match word {
        ScriptWord::Names => {
            let names = names_for(alloc, asking, words, readable, storage)?;
            output(alloc, lines_of(alloc, names.as_slice())?.into_bytes(), true)
        }
        ScriptWord::Directories => {
            output_or_refused(alloc, asking, directories(alloc, words, storage), false)
        }
        ScriptWord::Meaning => {
            let line = meaning(alloc, words).map(|line| line.into_bytes());
            output_or_refused(alloc, asking, line, true)
        }
        ScriptWord::Explanation => {
            let said = explain_words(alloc, asking, &asking.env, words, tree, spare)?;
            Ok(explanation(alloc, said))
        }
        ScriptWord::Unloaded => {
            let lines = hints_on(alloc, &asking.env, words)?;
            Ok(explanation(
                alloc,
                Explained {
                    lines,
                    unreadable: None,
                },
            ))
        }
    }
}
