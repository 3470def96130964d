//! A text whose lines stand in columns.
ghost use Rattle.std.specs.Prelude.{◌≡◌, ◌++◌, ◌∷◌, flat_map, map, replicate, IfOk, OnOk, if◌then◌else◌};
ghost use Rattle.std.specs.List.{join_with_byte};
ghost use Rattle.terminal.specs.columns.Columns as spec;
ghost use Rattle.terminal.specs.columns.Views.{texts, width_in};

use crate::columns::parts::{fields, lines};
use crate::columns::widths::{column_widths, width_of};
use std::alloc::{AllocError, Global};

/// The blanks that stand between two columns.
const GAP: usize = 2;

/// Adds blanks.
fn push_blanks(text: &mut Vec<u8>, count: usize) -> Result<(), AllocError>
    ensures { OnOk result (text.new.items ≡ text.old.items ++ replicate count 32) }
{
    for _ in 0..count {
        text.push(b' ')?;
    }
    Ok(())
}

/// Adds a field that fills its column.
fn push_filled(text: &mut Vec<u8>, width: usize, field: &[u8]) -> Result<(), AllocError>
    ensures { OnOk result (text.new.items ≡ text.old.items ++ spec.filled width field.now) }
{
    text.extend_from_slice(field)?;
    push_blanks(text, width.saturating_sub(width_of(field)))?;
    push_blanks(text, GAP)
}

/// How wide the column at a place is.
fn width_at(widths: &[usize], place: usize) -> usize
    ensures { result ≡ width_in widths.now place }
{
    widths.get(place).copied().unwrap_or(0)
}

/// Adds a field: one that fills its column, or the last.
fn push_field(
    text: &mut Vec<u8>,
    width: usize,
    field: &[u8],
    is_last: bool,
) -> Result<(), AllocError>
    ensures { OnOk result (text.new.items
        ≡ text.old.items ++ (if is_last then field.now else spec.filled width field.now)) }
{
    if is_last {
        text.extend_from_slice(field)
    } else {
        push_filled(text, width, field)
    }
}

/// Adds fields, in columns of these widths.
fn push_fields(text: &mut Vec<u8>, widths: &[usize], fields: &[&[u8]]) -> Result<(), AllocError>
    ensures { OnOk result (text.new.items
        ≡ text.old.items ++ spec.in_columns (width_in widths.now) 0 (texts fields.now)) }
{
    for (place, field) in fields.iter().enumerate() {
        push_field(
            text,
            width_at(widths, place),
            field,
            place + 1 == fields.len(),
        )?;
    }
    Ok(())
}

/// Adds a line, in columns of these widths.
fn push_line(
    alloc: Global,
    text: &mut Vec<u8>,
    widths: &[usize],
    line: &[u8],
) -> Result<(), AllocError>
    ensures { OnOk result (text.new.items ≡ text.old.items ++ spec.aligned_line (width_in widths.now) line.now) }
{
    let fields = fields(alloc, line)?;
    push_fields(text, widths, fields.as_slice())
}

/// Adds lines, each behind a newline.
fn push_later(
    alloc: Global,
    text: &mut Vec<u8>,
    widths: &[usize],
    lines: &[&[u8]],
) -> Result<(), AllocError>
    ensures { OnOk result (text.new.items ≡ text.old.items
        ++ flat_map (λ line. 10 ∷ spec.aligned_line (width_in widths.now) line) (texts lines.now)) }
{
    for line in lines {
        text.push(b'\n')?;
        push_line(alloc, text, widths, line)?;
    }
    Ok(())
}

/// Adds lines, with newlines between them.
#[tactic(auto, using(crate::proofs::columns::LineLemmas::joined))]
fn push_lines(
    alloc: Global,
    text: &mut Vec<u8>,
    widths: &[usize],
    lines: &[&[u8]],
) -> Result<(), AllocError>
    ensures { OnOk result (text.new.items ≡ text.old.items
        ++ join_with_byte 10 (map (spec.aligned_line (width_in widths.now)) (texts lines.now))) }
{
    let [first, later @ ..] = lines else {
        return Ok(());
    };
    push_line(alloc, text, widths, first)?;
    push_later(alloc, text, widths, later)
}

/// The text, with the fields of each of its lines in columns: each but the last of its line is filled with blanks to
/// the widest field of its column, but to no more than 80 columns, with two blanks behind it. A line without a tab
/// stays as it is.
///
/// It fails for want of memory alone.
pub fn aligned(alloc: Global, text: &[u8]) -> Result<Vec<u8>, AllocError>
    ensures { IfOk result (λ aligned. aligned.items ≡ spec.aligned text.now) }
{
    let lines = lines(alloc, text)?;
    let widths = column_widths(alloc, lines.as_slice())?;
    let mut aligned = Vec::with_capacity(alloc, text.len())?;
    push_lines(alloc, &mut aligned, widths.as_slice(), lines.as_slice())?;
    Ok(aligned)
}
