//! The pieces of a file: what is written for each command, with what stands behind it, and the notes on it.
ghost use Rattle.std.specs.Prelude.{IfOk, IsSome};
ghost use Rattle.port_rewriting.specs.Accounts.{Stays};
ghost use Rattle.port_rewriting.specs.AccountViews.{piece_view};

use crate::class::{Class, Note, Outcome};
use port_constants::Edit;
use port_reading::places::first_line;
use std::alloc::{AllocError, Global};
use tcltext::script::ByteRange;

/// What is left in a command, and where it stands.
#[derive(Debug, Drop)]
struct LeftPart {
    place: usize,
    said: String,
}

/// What was found in a command of a file.
#[derive(Debug, Drop)]
pub(crate) struct PieceFindings {
    /// The texts that are written for parts of it.
    pub edits: Vec<Edit>,
    /// The texts that Tcl computes.
    pub computed: Vec<Edit>,
    /// Whether other commands are written for all of it.
    pub is_replaced: bool,
    /// Whether something is done in it besides what its name says.
    pub does_more: bool,
    /// Whether it looks at what another module may change.
    pub asks: bool,
    /// Whether the file may end in it, so that what follows isn't evaluated.
    pub may_end: bool,
    /// How it is written in another way.
    outcome: Option<Outcome>,
    /// The first part of it that isn't read here.
    left: Option<LeftPart>,
}

/// What is written for a command and for what stands between it and the next, with the notes on it.
#[derive(Debug, Drop)]
pub struct TranslatedPiece {
    /// What is written.
    pub text: String,
    /// The notes.
    pub notes: Vec<Note>,
}

impl PieceFindings {
    /// Those of a command that isn't read yet.
    pub(crate) fn none(alloc: Global) -> PieceFindings {
        PieceFindings {
            edits: Vec::new(alloc),
            computed: Vec::new(alloc),
            is_replaced: false,
            does_more: false,
            asks: false,
            may_end: false,
            outcome: None,
            left: None,
        }
    }

    /// Notes that it is written in another way; the worse of two outcomes counts.
    pub(crate) fn rewrite(&mut self, outcome: Outcome) {
        let class = outcome.class();
        let other = self.outcome.as_ref();
        if other.is_none_or(|it| it.class() == Class::Exact && class == Class::Changed) {
            self.outcome = Some(outcome);
        }
    }

    /// Notes that what stands at a place isn't read here; the first counts.
    pub(crate) fn leave(&mut self, place: usize, said: String)
        ensures { IsSome self.new.left }
    {
        if self.left.as_ref().is_none_or(|left| place < left.place) {
            self.left = Some(LeftPart { place, said });
        }
    }
}

/// What stands at a place, up to a newline.
fn line_at(text: &str, place: ByteRange) -> &str {
    let part = place.of(text);
    part.split_once('\n').map_or(part, |parts| parts.0)
}

/// A part of a text, and the line where it begins.
#[derive(Clone, Copy)]
pub(crate) struct TextPart<'t> {
    pub text: &'t str,
    pub place: ByteRange,
    pub line: usize,
}

impl TextPart<'_> {
    /// A note on it.
    fn note(self, alloc: Global, what: &str, outcome: Outcome) -> Result<Note, AllocError> {
        Ok(Note {
            line: Some(self.line),
            what: String::from_str(alloc, what)?,
            outcome,
        })
    }

    /// The notes on the command that begins there.
    fn notes(self, alloc: Global, found: &mut PieceFindings) -> Result<Vec<Note>, AllocError> {
        let mut notes = Vec::new(alloc);
        if !found.is_replaced {
            for it in &found.computed {
                let outcome = Outcome::Computed(it.text.clone()?);
                notes.push(self.note(alloc, line_at(self.text, it.place), outcome)?)?;
            }
        }
        if let Some(outcome) = found.outcome.take() {
            let what = first_line(self.text, self.place.start);
            notes.push(self.note(alloc, what, outcome)?)?;
        }
        if let Some(left) = found.left.take() {
            notes.push(self.note(alloc, left.said.as_str(), Outcome::Left)?)?;
        }
        Ok(notes)
    }
}

/// The edits of a command in their order, with those of what Tcl computes where it isn't written anew as a whole.
fn ordered(found: PieceFindings) -> Result<Vec<Edit>, AllocError> {
    let PieceFindings {
        mut edits,
        mut computed,
        is_replaced,
        ..
    } = found;
    if !is_replaced {
        edits.append(&mut computed)?;
    }
    edits.sort_by_key(|edit| edit.place.start)?;
    Ok(edits)
}

/// What stands in a text at a place with the edits, which are in order.
fn edited(
    alloc: Global,
    text: &str,
    place: ByteRange,
    edits: &[Edit],
) -> Result<String, AllocError> {
    let mut written = String::new(alloc);
    let mut start = place.start;
    for edit in edits {
        let end = edit.place.start;
        written.push_str(ByteRange { start, end }.of(text))?;
        written.push_str(edit.text.as_str())?;
        start = edit.place.end;
    }
    let end = place.end;
    written.push_str(ByteRange { start, end }.of(text))?;
    Ok(written)
}

/// The piece with these notes on a part of a file: the part, where there are none, and else what is written for it.
pub(crate) fn noted(
    alloc: Global,
    part: &str,
    notes: Vec<Note>,
    written: String,
) -> Result<TranslatedPiece, AllocError>
    ensures { IfOk result (λ p. Stays part.now (piece_view p)) }
{
    let text = match notes.as_slice() {
        [] => String::from_str(alloc, part)?,
        [_, ..] => written,
    };
    Ok(TranslatedPiece { text, notes })
}

/// What is written for a part of a text, by what was found in its command. A part on which there is no note is written as
/// it is.
pub(crate) fn written_piece(
    alloc: Global,
    part: TextPart,
    was: &str,
    mut found: PieceFindings,
) -> Result<TranslatedPiece, AllocError>
    // A part of which nothing is said stays.
    ensures { IfOk result (λ p. Stays was.now (piece_view p)) }
{
    let notes = part.notes(alloc, &mut found)?;
    let edits = ordered(found)?;
    let written = edited(alloc, part.text, part.place, edits.as_slice())?;
    noted(alloc, was, notes, written)
}
