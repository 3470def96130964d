//! Version symbols: names that mean a module with a version, as a default file says.
ghost use Rattle.std.specs.Prelude.{IfOk, IfSome, map};
ghost use Rattle.port_rewriting.specs.AskingViews.{AreKnown};
ghost use Rattle.port_rewriting.specs.RecordViews.{shown};

use crate::translation::TranslationFault;
use modulename::means;
use port_reading::places::words_of;
use std::alloc::{AllocError, Global};
use tcltext::script::{ByteRange, Command, parse_pieces};

/// A name that means a module with a version.
#[derive(Debug, Drop)]
pub struct VersionSymbol {
    /// The name.
    pub name: String,
    /// The module, with its version; or another symbol.
    pub version: String,
}

/// The name that a word means in a default file of a folder, which is empty at the top.
pub(crate) fn full_name(alloc: Global, folder: &str, word: &str) -> Result<String, AllocError> {
    let rest = word.strip_prefix(".").unwrap_or(word);
    if rest.starts_with('/') {
        Ok(format!(in alloc; "{folder}{rest}")?)
    } else {
        String::from_str(alloc, word)
    }
}

/// Whether the name is of a version of a module that a default file of the folder may speak of.
fn is_below(folder: &str, name: &str) -> bool {
    name.contains('/') && (folder.is_empty() || means(folder, name))
}

/// The name with another word in place of its version.
pub(crate) fn in_place(alloc: Global, name: &str, word: &str) -> Result<String, AllocError> {
    match name.rsplit_once('/') {
        Some((folder, _)) => Ok(format!(in alloc; "{folder}/{word}")?),
        None => String::from_str(alloc, word),
    }
}

/// The words, where each is known.
pub(crate) fn all_known<'w>(
    alloc: Global,
    words: &[Option<&'w str>],
) -> Result<Option<Vec<&'w str>>, AllocError>
    ensures { IfOk result (λ found. IfSome found (λ known. AreKnown words.now (map shown known.items))) }
{
    let mut known = Vec::new(alloc);
    for word in words {
        match *word {
            Some(word) => known.push(word)?,
            None => return Ok(None),
        }
    }
    Ok(Some(known))
}

/// The words of a command of a text, where each is constant; else none.
pub(crate) fn constant_words<'t>(
    alloc: Global,
    text: &'t str,
    command: &Command<ByteRange>,
) -> Result<Vec<&'t str>, AllocError> {
    let words = words_of(alloc, text, command)?;
    Ok(all_known(alloc, words.as_slice())?.unwrap_or(Vec::new(alloc)))
}

/// Adds the symbols of a command of these words in a default file of a folder.
fn add_symbols(
    alloc: Global,
    symbols: &mut Vec<VersionSymbol>,
    folder: &str,
    words: &[&str],
) -> Result<(), AllocError> {
    let ["module-version", name, those @ ..] = words else {
        return Ok(());
    };
    let version = full_name(alloc, folder, name)?;
    if !is_below(folder, version.as_str()) {
        return Ok(());
    }
    for word in those {
        symbols.push(VersionSymbol {
            name: in_place(alloc, version.as_str(), word)?,
            version: version.clone()?,
        })?;
    }
    Ok(())
}

/// The version symbols that a default file of a folder says by `module-version NAME WORD...`, outside of bodies.
///
/// The error: it is no script, or memory ran out.
pub fn symbols_said(
    alloc: Global,
    text: &str,
    folder: &str,
) -> Result<Vec<VersionSymbol>, TranslationFault> {
    let script = parse_pieces(alloc, &text)?;
    let mut symbols = Vec::new(alloc);
    for command in &script.commands {
        let words = constant_words(alloc, text, command)?;
        add_symbols(alloc, &mut symbols, folder, words.as_slice())?;
    }
    Ok(symbols)
}
