//! A line that is typed, as tcsh hands it to what completes it.
ghost use Rattle.std.specs.Prelude.{◌≡◌, map, string_bytes, IfOk};
ghost use Rattle.std.specs.List.{flat_map};
ghost use Rattle.std.specs.Option.{option_map};
ghost use Rattle.envvars.specs.Texts.{slice_texts, texts_in};
ghost use Rattle.module_reports.specs.completions.Lines as spec;
ghost use Rattle.module_reports.specs.completions.Texts.{filled};
ghost use Rattle.module_reports.specs.completions.Views.{line_view};

use crate::completions::place::{Caller, caller_named};
use envvars::fields::{owned, parts};
use std::alloc::{AllocError, Global};

/// A command that is typed.
#[derive(Debug, Drop)]
pub struct Line {
    /// The function that is called.
    pub caller: Caller,
    /// The words behind it and before the last.
    pub before: Vec<String>,
    /// The last word, as far as it is typed; it is empty where a blank stands at the end.
    pub word: String,
}

/// The pieces of some texts between their tabulators.
fn pieces_of_all<'a>(alloc: Global, texts: &[&'a str]) -> Result<Vec<&'a str>, AllocError>
    ensures { IfOk result (λ v. slice_texts v.items ≡ flat_map (spec.pieces_at 9) (slice_texts texts.now)) }
{
    let mut pieces = Vec::new(alloc);
    for text in texts {
        pieces.extend_from_slice(&parts(alloc, text, '\t')?)?;
    }
    Ok(pieces)
}

/// The pieces of a line between its blanks and tabulators.
fn pieces_of(alloc: Global, line: &str) -> Result<Vec<&str>, AllocError>
    ensures { IfOk result (λ v. slice_texts v.items ≡ spec.pieces line.now) }
{
    let texts = parts(alloc, line, ' ')?;
    pieces_of_all(alloc, &texts)
}

/// The texts that aren't empty.
pub(crate) fn filled<'a>(alloc: Global, texts: &[&'a str]) -> Result<Vec<&'a str>, AllocError>
    ensures { IfOk result (λ v. slice_texts v.items ≡ filled (slice_texts texts.now)) }
{
    let mut found = Vec::new(alloc);
    for text in texts {
        if !text.is_empty() {
            found.push(*text)?;
        }
    }
    Ok(found)
}

/// The command of these words before the last one, which is the last; nothing where they name neither function.
fn command_of(alloc: Global, words: &[&str], word: &str) -> Result<Option<Line>, AllocError>
    ensures { IfOk result (λ line. option_map line_view line ≡ spec.command_of (slice_texts words.now) word.now) }
{
    let [name, words @ ..] = words else {
        return Ok(None);
    };
    let Some(caller) = caller_named(name) else {
        return Ok(None);
    };
    Ok(Some(Line {
        caller,
        before: owned(alloc, words)?,
        word: String::from_str(alloc, word)?,
    }))
}

/// Reads a line up to the cursor; nothing where it calls neither of both functions.
///
/// It fails for want of memory.
pub fn read_line(alloc: Global, line: &str) -> Result<Option<Line>, AllocError>
    ensures { IfOk result (λ read. option_map line_view read ≡ spec.read_line line.now) }
{
    let mut pieces = pieces_of(alloc, line)?;
    let Some(word) = pieces.pop() else {
        return Ok(None);
    };
    let words = filled(alloc, &pieces)?;
    command_of(alloc, &words, word)
}
