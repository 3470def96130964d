//! A modulefile translated, however it was written, with its report.
ghost use Rattle.std.specs.Prelude.{◌≡◌, [], List, IfOk, string_bytes};
ghost use Rattle.modport.specs.Lines.{report};
ghost use Rattle.modport.specs.LineViews.{lines_view};
ghost use Rattle.modport.specs.Statuses.{status_of};
ghost use Rattle.port_rewriting.specs.Classes.{worst};

use crate::fault::PortFault;
use crate::flattening::flattened_of;
use crate::reporting::push_report;
use crate::status::Status;
use port_flatten::UserValues;
use port_reading::file_text::{FileText, SourceEncoding};
use port_rewriting::{
    Class, Given, Note, Outcome, ShellScript, TranslatedPiece, Translation, translate,
};
use std::alloc::{AllocError, Global};

/// How the report is written, and what was seen of the file.
#[derive(Clone, Copy)]
pub struct Sources<'h> {
    /// Whether each line of the report is JSON.
    pub json: bool,
    /// What a load of the file has done, where that is known.
    pub records: Option<&'h str>,
    /// In whose environment it was loaded.
    pub person: UserValues<'h>,
}

/// What is written for a modulefile.
#[derive(Debug, Drop)]
pub struct TranslatedFile {
    /// Its text.
    pub text: String,
    /// The report.
    pub report: Vec<u8>,
    /// How far it is translated.
    pub status: Status,
    /// The scripts of its aliases.
    pub scripts: Vec<ShellScript>,
}

/// The notes on how a file was written.
fn notes_on(alloc: Global, source: SourceEncoding) -> Result<Vec<Note>, AllocError> {
    let seen = [
        (source.mark, "byte order mark", Outcome::Translated),
        (source.latin, "Latin-1", Outcome::Translated),
        (source.returns, "CR LF", Outcome::Translated),
        (source.lone_returns, "carriage return", Outcome::Left),
    ];
    let mut notes = Vec::new(alloc);
    for (is_so, what, outcome) in seen {
        if is_so {
            notes.push(Note {
                line: Some(1),
                what: String::from_str(alloc, what)?,
                outcome,
            })?;
        }
    }
    Ok(notes)
}

/// The translation of a modulefile, or what a load of it has done, where something of it is left, that is known, and
/// serves.
fn translation_of(
    alloc: Global,
    sources: Sources,
    file: &FileText,
    given: Given,
) -> Result<Translation, PortFault> {
    let mut translation = translate(alloc, given, file.text.as_str())?;
    if let (Class::Left, Some(records)) = (translation.class, sources.records) {
        match flattened_of(alloc, sources.person, records, file.text.as_str(), given)? {
            Ok(flat) => return Ok(flat),
            Err(why) => translation.pieces.push(why)?,
        }
    }
    Ok(translation)
}

/// What is written for a modulefile of this path, and the report on it.
///
/// The errors: want of memory; it isn't translated.
pub fn port_file(
    alloc: Global,
    sources: Sources,
    path: &str,
    file: &FileText,
    given: Given,
) -> Result<TranslatedFile, PortFault>
    // The report is of notes, and the status is that of the worst of them.
    ensures said { IfOk result (λ f. (notes : List Note)
        × (f.report.items ≡ report sources.entry.json path.now (lines_view notes))
        × (f.status ≡ status_of (worst Class.Same notes))) }

    // A file of which nothing is said is written as it is.
    ensures unsaid { IfOk result (λ f. f.report.items ≡ [] → string_bytes f.text ≡ string_bytes file.now.text) }
{
    let Translation {
        text: written,
        pieces,
        scripts,
        ..
    } = translation_of(alloc, sources, file, given)?;
    let mut notes = notes_on(alloc, file.source)?;
    for piece in pieces {
        let TranslatedPiece { notes: mut own, .. } = piece;
        notes.append(&mut own)?;
    }
    let mut report = Vec::new(alloc);
    push_report(alloc, &mut report, sources.json, path, notes.as_slice())?;
    let text = if report.is_empty() {
        file.text.clone()?
    } else {
        written
    };
    Ok(TranslatedFile {
        text,
        report,
        status: Status::of(Class::Same.with(notes.as_slice())),
        scripts,
    })
}
