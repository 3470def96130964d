//! Takes a text apart into its lines, and a line into the words between its spaces and tabs.
ghost use Rattle.std.specs.Prelude.{◌≡◌, ◌++◌, map, IfOk, OnOk};
ghost use Rattle.envvars.specs.Texts.{texts_in};
ghost use Rattle.modules.specs.rehearsals.Lines as spec;
ghost use Rattle.modules.specs.rehearsals.Lines.{line_words, unless_empty, words_between_tabs};

use envvars::fields::parts;
use std::alloc::{AllocError, Global};

/// Adds the word, unless it is empty.
fn push_word(alloc: Global, word: &str, words: &mut Vec<String>) -> Result<(), AllocError>
    ensures { OnOk result (texts_in words.new ≡ texts_in words.old ++ unless_empty word.now) }
{
    if word.is_empty() {
        return Ok(());
    }
    Ok(words.push(String::from_str(alloc, word)?)?)
}

/// Adds the words of a text without spaces, which tabs part.
fn push_words(alloc: Global, text: &str, words: &mut Vec<String>) -> Result<(), AllocError>
    ensures { OnOk result (texts_in words.new ≡ texts_in words.old ++ words_between_tabs text.now) }
{
    for word in &parts(alloc, text, '\t')? {
        push_word(alloc, word, words)?;
    }
    Ok(())
}

/// The words of a line, between its spaces and tabs.
fn words_in(alloc: Global, line: &str) -> Result<Vec<String>, AllocError>
    ensures { IfOk result (λ words. texts_in words ≡ spec.words_in line.now) }
{
    let mut words = Vec::new(alloc);
    for text in &parts(alloc, line, ' ')? {
        push_words(alloc, text, &mut words)?;
    }
    Ok(words)
}

/// Adds the list of a line's words, unless it has none.
fn push_line(alloc: Global, line: &str, lines: &mut Vec<Vec<String>>) -> Result<(), AllocError>
    ensures { OnOk result (map texts_in lines.new.items ≡ map texts_in lines.old.items ++ line_words line.now) }
{
    let words = words_in(alloc, line)?;
    if words.is_empty() {
        return Ok(());
    }
    Ok(lines.push(words)?)
}

/// The words of each line that has some.
pub(crate) fn lines_in(alloc: Global, text: &str) -> Result<Vec<Vec<String>>, AllocError>
    ensures { IfOk result (λ lines. map texts_in lines.items ≡ spec.lines_in text.now) }
{
    let mut lines = Vec::new(alloc);
    for line in &parts(alloc, text, '\n')? {
        push_line(alloc, line, &mut lines)?;
    }
    Ok(lines)
}
