//! A modulefile of which something is left, written by what a load of it has done.

use crate::fault::PortFault;
use port_flatten::{LoadRecords, Unserving, UserValues, records_of, written_records};
use port_reading::places::{constant, first_line, line_ends};
use port_rewriting::{Class, Given, Note, Outcome, TranslatedPiece, Translation, translate};
use std::alloc::{AllocError, Global};
use tcltext::script::{ByteRange, Script, parse_pieces};

/// The words of a file that ask for what another load may answer otherwise, or do something else where a value is there.
const ASKING_WORDS: &str =
    "is-loaded is-avail module-info getenv env USER whoami id tcl_platform info --duplicates";

/// A piece for which nothing is written, with a note on a line of the file, or on the whole of it.
fn said_alone(
    alloc: Global,
    line: Option<usize>,
    what: String,
    outcome: Outcome,
) -> Result<TranslatedPiece, AllocError> {
    let mut notes = Vec::new(alloc);
    notes.push(Note {
        line,
        what,
        outcome,
    })?;
    let text = String::new(alloc);
    Ok(TranslatedPiece { text, notes })
}

/// A note that a file isn't written so, by the reason.
fn unserving(alloc: Global, why: &str) -> Result<TranslatedPiece, AllocError> {
    let what = format!(in alloc; "not flattened, as {why}")?;
    said_alone(alloc, None, what, Outcome::Left)
}

/// Adds a note on each command of a file.
fn push_commands(
    alloc: Global,
    pieces: &mut Vec<TranslatedPiece>,
    text: &str,
    script: &Script<ByteRange>,
) -> Result<(), AllocError> {
    for command in &script.commands {
        let (start, end) = (0, command.offset);
        let line = line_ends(ByteRange { start, end }.of(text)).saturating_add(1);
        let what = String::from_str(alloc, first_line(text, command.offset))?;
        pieces.push(said_alone(alloc, Some(line), what, Outcome::Flattened)?)?;
    }
    Ok(())
}

/// Whether a byte can be part of a word that asks.
fn is_of_word(byte: u8) -> bool {
    byte.is_ascii_alphanumeric() || byte == b'_' || byte == b'-'
}

/// Whether a text has a word.
fn has_word(text: &str, word: &str) -> bool {
    text.as_bytes()
        .split(|byte| !is_of_word(*byte))
        .any(|part| part == word.as_bytes())
}

/// Adds notes on the words by which a file asks for what another load may answer otherwise.
fn push_changes(
    alloc: Global,
    pieces: &mut Vec<TranslatedPiece>,
    text: &str,
) -> Result<(), AllocError> {
    for word in ASKING_WORDS.split(' ') {
        if has_word(text, word) {
            let case = String::from_str(alloc, "what it did in one load is written for good")?;
            let what = String::from_str(alloc, word)?;
            pieces.push(said_alone(alloc, None, what, Outcome::Changed(case))?)?;
        }
    }
    Ok(())
}

/// Whether a command of a file has this name.
fn has_command(text: &str, script: &Script<ByteRange>, name: &str) -> bool {
    script.commands.iter().any(|command| match command.words.as_slice() {
        [word, ..] => constant(text, word).is_some_and(|word| word.value == name),
        [] => false,
    })
}

/// The translation of what a load has done, with these pieces before its own, whose notes are on no line of the file.
fn with_pieces(
    mut translation: Translation,
    mut pieces: Vec<TranslatedPiece>,
) -> Result<Translation, AllocError> {
    for piece in &pieces {
        translation.class = translation.class.with(piece.notes.as_slice());
    }
    for piece in &mut translation.pieces {
        for note in &mut piece.notes {
            note.line = None;
        }
    }
    pieces.append(&mut translation.pieces)?;
    translation.pieces = pieces;
    Ok(translation)
}

/// What is written for a file of this script, by these records.
fn flattened_by(
    alloc: Global,
    person: UserValues,
    text: &str,
    script: &Script<ByteRange>,
    given: Given,
    records: &LoadRecords,
) -> Result<Result<Translation, TranslatedPiece>, PortFault> {
    let mut unserving_words = "remove-path --set-if-undef".split(' ');
    if unserving_words.any(|word| has_word(text, word)) || has_command(text, script, "module") {
        let why = "it removes elements of a path, sets what isn't set, or loads modules";
        return Ok(Err(unserving(alloc, why)?));
    }
    let first = script.commands.as_slice().first();
    let end = first.map_or(text.len(), |command| command.offset);
    let head = ByteRange { start: 0, end };
    let flat = written_records(alloc, head.of(text), person, records)?;
    let translation = translate(alloc, given, flat.as_str())?;
    if translation.class == Class::Left {
        return Ok(Err(unserving(alloc, "a command of it isn't read even then")?));
    }
    let mut pieces = Vec::new(alloc);
    push_commands(alloc, &mut pieces, text, script)?;
    push_changes(alloc, &mut pieces, text)?;
    Ok(Ok(with_pieces(translation, pieces)?))
}

/// What is written for a file by what a load of it has done; or a note why nothing is.
///
/// The errors: want of memory; what would be written is no script.
pub(crate) fn flattened_of(
    alloc: Global,
    person: UserValues,
    records: &str,
    text: &str,
    given: Given,
) -> Result<Result<Translation, TranslatedPiece>, PortFault> {
    let script = parse_pieces(alloc, &text)?;
    match records_of(alloc, records)? {
        Ok(records) => flattened_by(alloc, person, text, &script, given, &records),
        Err(Unserving(why)) => Ok(Err(unserving(alloc, why)?)),
    }
}
