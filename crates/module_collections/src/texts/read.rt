//! Reading the text of a collection.
ghost use Rattle.std.specs.Prelude.{◌≡◌};
ghost use Rattle.message.specs.Answers.{Gives};
ghost use Rattle.envvars.specs.Texts.{slice_texts};
ghost use Rattle.module_collections.specs.texts.Lines.{with_line};
ghost use Rattle.module_collections.specs.texts.Collections as spec;
ghost use Rattle.module_collections.specs.texts.Views.{Reads, kept_view, line_reason, numbered, reason_of};

use crate::texts::collection::Collection;
use crate::texts::fault::{CollectionFault, LineFault};
use envvars::fields::parts;
use std::alloc::Global;

/// How many bytes a collection has at most.
pub(crate) const MAX_LENGTH: usize = 65_536;

/// The fault of the line with this number.
fn in_line(number: usize, fault: LineFault) -> CollectionFault
    ensures { reason_of result ≡ numbered number (line_reason fault) }
{
    match fault {
        LineFault::OutOfMemory => CollectionFault::OutOfMemory,
        fault => CollectionFault::BadLine(number, fault),
    }
}

/// Adds what the line of this number says.
fn read_line(
    alloc: Global,
    found: &mut Collection,
    number: usize,
    line: &str,
) -> Result<(), CollectionFault>
    ensures { Reads result found.new (spec.in_line number (with_line (kept_view found.old) line.now)) }
{
    match found.add_line(alloc, line.as_bytes()) {
        Ok(()) => Ok(()),
        Err(fault) => Err(in_line(number, fault)),
    }
}

/// What lines keep.
fn read_lines(alloc: Global, lines: &[&str]) -> Result<Collection, CollectionFault>
    ensures { Gives reason_of kept_view result (spec.with_lines (slice_texts lines.now) 1 spec.nothing) }
{
    let mut found = Collection {
        directories: Vec::new(alloc),
        modules: Vec::new(alloc),
    };
    let mut number = 1usize;
    for line in lines {
        read_line(alloc, &mut found, number, line)?;
        number += 1;
    }
    Ok(found)
}

/// What the text of a collection keeps. The faults: it has more than 65,536 bytes or NUL; the first line that is
/// neither empty, a comment, nor `module use` or `module load` with words that a script reads as they are; or no line
/// names a module or a directory.
pub fn read_collection(alloc: Global, text: &str) -> Result<Collection, CollectionFault>
    ensures { Gives reason_of kept_view result (spec.read text.now) }
{
    if text.len() > MAX_LENGTH {
        return Err(CollectionFault::TooLong);
    }
    if text.as_bytes().contains(&0) {
        return Err(CollectionFault::NoText);
    }
    let lines = parts(alloc, text, '\n')?;
    let found = read_lines(alloc, lines.as_slice())?;
    if found.directories.is_empty() && found.modules.is_empty() {
        return Err(CollectionFault::SaysNothing);
    }
    Ok(found)
}
