//! A modulefile translated, piece by piece: a script again.
ghost use Rattle.std.specs.Prelude.{◌≡◌, [], ◌++◌, true, IfOk, OnOk, string_bytes};
ghost use Rattle.tcltext.specs.chars.Runs.{Text};
ghost use Rattle.port_rewriting.specs.Accounts.{Accounts, AreUnsaid, written};
ghost use Rattle.port_rewriting.specs.Classes.{worst_of_pieces};
ghost use Rattle.port_rewriting.specs.Leaving.{Parses};
ghost use Rattle.port_rewriting.specs.AccountViews.{piece_view, pieces_view};

use crate::aliases::ShellScript;
use crate::class::{Class, Note, Outcome};
use crate::names::is_plain;
use crate::pieces::{PieceFindings, TextPart, TranslatedPiece, noted, written_piece};
use crate::reader::{NamedFamily, Reader};
use crate::scopes::Given;
use port_reading::places::line_ends;
use std::alloc::{AllocError, AllocFailed, Global};
use std::error::Error;
use std::fmt;
use tcltext::chars::TextFault;
use tcltext::script::{ByteRange, Command, Script, parse_pieces, parse_script};

/// What is written for a modulefile, and what is said of it.
#[derive(Debug, Drop)]
pub struct Translation {
    /// What is written: a script.
    pub text: String,
    /// Its pieces, with the notes on them: what stands before the first command, and then a piece for each command.
    pub pieces: Vec<TranslatedPiece>,
    /// The scripts of its aliases.
    pub scripts: Vec<ShellScript>,
    /// The families that it names.
    pub families: Vec<NamedFamily>,
    /// The class of the worst of its commands.
    pub class: Class,
}

/// Why a modulefile isn't translated.
#[derive(Debug, Drop)]
pub enum TranslationFault {
    /// It is no script, or memory ran out.
    Given(TextFault),
    /// What would be written is no script.
    Written,
}

impl fmt::Display for TranslationFault {
    fn fmt<W: fmt::Write>(&self, f: &mut fmt::Formatter<W>) -> fmt::Result {
        match self {
            TranslationFault::Given(fault) => fault.fmt(f),
            TranslationFault::Written => f.write_str("No script would be written"),
        }
    }
}

impl Error for TranslationFault {}

impl From<TextFault> for TranslationFault {
    fn from(fault: TextFault) -> TranslationFault {
        TranslationFault::Given(fault)
    }
}

impl From<AllocError> for TranslationFault {
    fn from(_refused: AllocError) -> TranslationFault {
        TranslationFault::Given(TextFault::OutOfMemory)
    }
}

impl<T: Drop> From<AllocFailed<T>> for TranslationFault {
    fn from(_refused: AllocFailed<T>) -> TranslationFault {
        TranslationFault::Given(TextFault::OutOfMemory)
    }
}

/// The text in two: as many bytes as that, where a character ends there, or all; and the others.
#[tactic(auto, using(crate::proofs::Accounting::halves, crate::proofs::Accounting::whole))]
fn split_within(text: &str, length: usize) -> (&str, &str)
    ensures { result.0.now ++ result.1.now ≡ text.now }
{
    match text.split_at_checked(length) {
        Some((front, back)) => (front, back),
        None => (text, ""),
    }
}

/// Where the command of this number begins, or the end of the text behind the last.
fn start_of(text: &str, commands: &[Command<ByteRange>], number: usize) -> usize {
    commands
        .get(number)
        .map_or(text.len(), |command| command.offset)
}

impl<'f> Reader<'f> {
    /// Reads commands of the file, and gives what was found in each.
    fn read_all(
        &mut self,
        commands: &[Command<ByteRange>],
    ) -> Result<Vec<PieceFindings>, AllocError> {
        let mut found = Vec::new(self.alloc);
        for command in commands {
            found.push(self.read(command)?)?;
        }
        Ok(found)
    }

    /// The name that the file is to be in conflict with, where it isn't yet.
    fn missing_conflict(&self) -> Option<&'f str> {
        self.given
            .one_version
            .filter(|name| !self.has_conflict && is_plain(name))
    }
}

/// The pieces of a file so far.
#[derive(Drop)]
struct PiecesSoFar<'f> {
    /// The pieces.
    pieces: Vec<TranslatedPiece>,
    /// What is still to be written.
    rest: &'f str,
    /// The line where that begins.
    line: usize,
}

/// The piece of a conflict with a name, on a line of its own.
#[tactic(auto, using(crate::proofs::Accounting::said))]
fn added_conflict(alloc: Global, name: &str) -> Result<TranslatedPiece, AllocError>
    ensures { IfOk result (λ p. (piece_view p).is_said ≡ true) }
{
    let mut notes = Vec::new(alloc);
    notes.push(Note {
        line: None,
        what: format!(in alloc; "conflict {name}")?,
        outcome: Outcome::Added,
    })?;
    let text = format!(in alloc; "conflict {name}\n")?;
    Ok(TranslatedPiece { text, notes })
}

impl<'f> PiecesSoFar<'f> {
    /// What stands before the first command.
    fn new(alloc: Global, text: &'f str, first: usize) -> Result<PiecesSoFar<'f>, AllocError>
        ensures { IfOk result (λ s. Accounts text.entry.now (pieces_view s.pieces.items) s.rest.now) }
    {
        let mut so_far = PiecesSoFar {
            pieces: Vec::new(alloc),
            rest: text,
            line: 1,
        };
        so_far.add(alloc, text, 0, first, PieceFindings::none(alloc))?;
        Ok(so_far)
    }

    /// Adds all that is still to be written as it is.
    fn add_rest(&mut self, alloc: Global) -> Result<(), AllocError>
        ensures { OnOk result ((file : Text) → Accounts file (pieces_view self.old.pieces.items) self.old.rest.now
            → Accounts file (pieces_view self.new.pieces.items) []) }
    {
        let piece = noted(alloc, self.rest, Vec::new(alloc), String::new(alloc))?;
        self.pieces.push(piece)?;
        Ok(())
    }

    /// Adds a conflict with a name, on a line of its own.
    fn add_conflict(&mut self, alloc: Global, name: &str) -> Result<(), AllocError>
        ensures { OnOk result ((text : Text) → Accounts text (pieces_view self.old.pieces.items) self.old.rest.now
            → Accounts text (pieces_view self.new.pieces.items) self.new.rest.now) }
    {
        let piece = added_conflict(alloc, name)?;
        self.pieces.push(piece)?;
        Ok(())
    }

    /// Adds the piece of a command of a file in which this was found, and which ends there.
    fn add(
        &mut self,
        alloc: Global,
        text: &str,
        start: usize,
        end: usize,
        found: PieceFindings,
    ) -> Result<(), AllocError>
        ensures { OnOk result ((file : Text) → Accounts file (pieces_view self.old.pieces.items) self.old.rest.now
            → Accounts file (pieces_view self.new.pieces.items) self.new.rest.now) }
    {
        let (was, rest) = split_within(self.rest, end.saturating_sub(start));
        let part = TextPart {
            text,
            place: ByteRange { start, end },
            line: self.line,
        };
        let piece = written_piece(alloc, part, was, found)?;
        self.pieces.push(piece)?;
        self.line = self.line.saturating_add(line_ends(was));
        self.rest = rest;
        Ok(())
    }
}

/// The pieces of a file of these commands, in which this was found; with a conflict with a name, where one is to be
/// added.
fn pieces_of(
    alloc: Global,
    text: &str,
    commands: &[Command<ByteRange>],
    found: Vec<PieceFindings>,
    added: Option<&str>,
) -> Result<Vec<TranslatedPiece>, AllocError>
    ensures { IfOk result (λ pieces. Accounts text.now (pieces_view pieces.items) []) }
{
    let mut so_far = PiecesSoFar::new(alloc, text, start_of(text, commands, 0))?;
    if let Some(name) = added {
        so_far.add_conflict(alloc, name)?;
    }
    let mut number = 0usize;
    'pieces: for it in found {
        let start = start_of(text, commands, number);
        number = number.saturating_add(1);
        so_far.add(alloc, text, start, start_of(text, commands, number), it)?;
    }
    so_far.add_rest(alloc)?;
    Ok(so_far.pieces)
}

/// The class of the worst of some pieces.
fn class_of(pieces: &[TranslatedPiece]) -> Class
    ensures { result ≡ worst_of_pieces Class.Same pieces.now }
{
    let mut class = Class::Same;
    for piece in pieces {
        class = class.with(piece.notes.as_slice());
    }
    class
}

/// The text of pieces.
fn text_of(alloc: Global, pieces: &[TranslatedPiece]) -> Result<String, AllocError>
    ensures { IfOk result (λ text. string_bytes text ≡ written (pieces_view pieces.now)) }
{
    let mut text = String::new(alloc);
    for piece in pieces {
        text.push_str(piece.text.as_str())?;
    }
    Ok(text)
}

/// That a text is a script; the error is that it is none, or want of memory.
#[tactic(auto, using(crate::proofs::Reading::parses))]
fn check(alloc: Global, text: &str) -> Result<(), TranslationFault>
    ensures { OnOk result (Parses text.now) }
{
    match parse_script(alloc, text) {
        Ok(_) => Ok(()),
        Err(TextFault::OutOfMemory) => Err(TranslationFault::Given(TextFault::OutOfMemory)),
        Err(_) => Err(TranslationFault::Written),
    }
}

/// What is written for a file of this script.
fn translated<'f>(
    alloc: Global,
    given: Given<'f>,
    text: &'f str,
    script: &Script<ByteRange>,
) -> Result<Translation, TranslationFault>
    ensures accounts { IfOk result (λ t. Accounts text.now (pieces_view t.pieces.items) []) }
    ensures joined { IfOk result (λ t. string_bytes t.text ≡ written (pieces_view t.pieces.items)) }
    ensures parses { IfOk result (λ t. Parses (string_bytes t.text)) }
    ensures worst { IfOk result (λ t. t.class ≡ worst_of_pieces Class.Same t.pieces.items) }
{
    let mut reader = Reader::new(alloc, given, text);
    reader.find_procedures(script)?;
    let commands = script.commands.as_slice();
    let found = reader.read_all(commands)?;
    let added = match commands {
        [] => None,
        _ => reader.missing_conflict(),
    };
    let pieces = pieces_of(alloc, text, commands, found, added)?;
    let written = text_of(alloc, pieces.as_slice())?;
    check(alloc, written.as_str())?;
    let Reader {
        scripts,
        families,
        ..
    } = reader;
    Ok(Translation {
        text: written,
        class: class_of(pieces.as_slice()),
        pieces,
        scripts,
        families,
    })
}

/// What is written for a file, by what is known of it.
///
/// The errors: it is no script, or what would be written is none; want of memory.
pub fn translate<'f>(
    alloc: Global,
    given: Given<'f>,
    text: &'f str,
) -> Result<Translation, TranslationFault>
    // The file is cut into parts, and one on which there is no note is written as it is.
    ensures accounts { IfOk result (λ t. Accounts text.now (pieces_view t.pieces.items) []) }

    // What is written are the pieces, one behind the other.
    ensures joined { IfOk result (λ t. string_bytes t.text ≡ written (pieces_view t.pieces.items)) }

    // A file of which nothing is said is written as it is.
    ensures unsaid { IfOk result (λ t. AreUnsaid (pieces_view t.pieces.items) → string_bytes t.text ≡ text.now) }

    // It is a script again.
    ensures parses { IfOk result (λ t. Parses (string_bytes t.text)) }

    // Its class is that of the worst of what is said.
    ensures worst { IfOk result (λ t. t.class ≡ worst_of_pieces Class.Same t.pieces.items) }
{
    match parse_pieces(alloc, &text) {
        Ok(script) => translated(alloc, given, text, &script),
        Err(fault) => Err(TranslationFault::Given(fault)),
    }
}
