//! How wide columns are.
ghost use Rattle.std.specs.Prelude.{ℕ, ◌≡◌, ◌≤◌, ◌+◌, ◌==◌, if◌then◌else◌, [], ◌∷◌, get_or, length, max, min};
ghost use Rattle.std.specs.Prelude.{IfOk, OnOk};
ghost use Rattle.terminal.specs.columns.Columns as spec;
ghost use Rattle.terminal.specs.columns.Views.{texts, width_in};

use crate::columns::parts::fields;
use std::alloc::{AllocError, Global};
use std::str;
use unicode_width::UnicodeWidthStr;

/// How wide a column is at most.
const MOST_WIDTH: usize = 80;

/// How many columns of a terminal the text takes; as many as it has bytes, where it isn't UTF-8.
#[tactic(auto, using(crate::proofs::columns::Utf8::is_text, crate::proofs::columns::Utf8::is_no_text))]
pub(crate) fn width_of(text: &[u8]) -> usize
    ensures { result ≡ spec.width_of text.now }
{
    match str::from_utf8(text) {
        Ok(text) => text.width(),
        Err(_) => text.len(),
    }
}

/// Makes a column so wide, where it is less: one of these, or the next.
fn widen(widths: &mut Vec<usize>, place: usize, width: usize) -> Result<(), AllocError>
    requires { place ≤ length widths.old.items }
    ensures each { OnOk result ((at : ℕ) → width_in widths.new.items at
        ≡ (if at == place then max width (width_in widths.old.items at) else width_in widths.old.items at)) }
    ensures bound { OnOk result (length widths.new.items ≡ max (place + 1) (length widths.old.items)) }
{
    if place < widths.len() {
        widths[place] = width.max(widths[place]);
    } else {
        widths.push(width)?;
    }
    Ok(())
}

/// Makes each column as wide as the field in it, where it is less, and as a column can be.
fn widen_to(widths: &mut Vec<usize>, fields: &[&[u8]]) -> Result<(), AllocError>
    ensures { OnOk result ((place : ℕ) → width_in widths.new.items place
        ≡ max (min (spec.width_of (get_or (texts fields.now) place [])) spec.most_width)
        (width_in widths.old.items place)) }
{
    for (place, field) in fields.iter().enumerate() {
        widen(widths, place, width_of(field).min(MOST_WIDTH))?;
    }
    Ok(())
}

/// The same of the fields of a line that tabs part.
fn widen_to_line(alloc: Global, widths: &mut Vec<usize>, line: &[u8]) -> Result<(), AllocError>
    ensures { OnOk result ((place : ℕ) → width_in widths.new.items place
        ≡ max (spec.column_width (line.now ∷ []) place) (width_in widths.old.items place)) }
{
    let fields = fields(alloc, line)?;
    if fields.len() > 1 {
        widen_to(widths, fields.as_slice())?;
    }
    Ok(())
}

/// How wide the columns of the lines are.
pub(crate) fn column_widths(alloc: Global, lines: &[&[u8]]) -> Result<Vec<usize>, AllocError>
    ensures { IfOk result (λ widths. (place : ℕ) →
        width_in widths.items place ≡ spec.column_width (texts lines.now) place) }
{
    let mut widths = Vec::new(alloc);
    for line in lines {
        widen_to_line(alloc, &mut widths, line)?;
    }
    Ok(widths)
}
