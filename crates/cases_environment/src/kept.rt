//! Collections, as their texts are read and written.

use crate::texts::{first_word, meant, parts, push_all};
use module_collections::texts::{Collection, read_collection, save_text};
use std::alloc::{AllocError, Global};
use std::io;

/// Adds texts, each behind a blank and a mark.
fn push_marked(text: &mut String, mark: &str, words: &[String]) -> Result<(), AllocError> {
    for word in words {
        push_all(text, &[" ", mark, word])?;
    }
    Ok(())
}

/// What a collection keeps: its directories behind `+`, and its modules.
fn listed(alloc: Global, collection: &Collection) -> Result<String, AllocError> {
    let mut text = String::from_str(alloc, "kept")?;
    push_marked(&mut text, "+", &collection.directories)?;
    push_marked(&mut text, "", &collection.modules)?;
    Ok(text)
}

/// What a text keeps, or its fault behind `!`.
fn read(alloc: Global, text: &str) -> Result<String, AllocError> {
    match read_collection(alloc, text) {
        Ok(collection) => listed(alloc, &collection),
        Err(fault) => format!(in alloc; "!{fault}"),
    }
}

/// The text that is saved for directories and modules, which commas part; or the fault behind `!`.
fn saved(alloc: Global, directories: &str, modules: &str) -> Result<String, AllocError> {
    let collection = Collection {
        directories: parts(alloc, directories, ',')?,
        modules: parts(alloc, modules, ',')?,
    };
    match save_text(alloc, &collection) {
        Ok(text) => Ok(text),
        Err(fault) => format!(in alloc; "!{fault}"),
    }
}

/// The answer to a line.
fn answer_to(alloc: Global, line: &str) -> Result<String, AllocError> {
    let (name, rest) = first_word(line);
    let text = meant(alloc, b'\\', rest)?;
    match name {
        "read" => read(alloc, &text),
        "save" => {
            let (directories, modules) = first_word(&text);
            saved(alloc, directories, modules)
        }
        _ => String::from_str(alloc, "no such line"),
    }
}

/// Answers lines about collections.
pub(crate) fn answer(rt: &HostRuntime, lines: &[String]) -> io::Result<()> {
    for line in lines {
        let answer = answer_to(rt.alloc(), line)?;
        println!(rt; "> {line}\n{answer}")?;
    }
    Ok(())
}
