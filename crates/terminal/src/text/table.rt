//! Cells in the columns of a table that a terminal has room for.
ghost use Rattle.std.specs.Prelude.{◌≡◌, ◌++◌, map, drop, replicate, OnOk, string_bytes};
ghost use Rattle.terminal.specs.text.Tables as spec;
ghost use Rattle.terminal.specs.text.CellViews.{cell_view};

use std::alloc::AllocError;

/// A cell of a table.
#[derive(Debug, Drop)]
pub struct Cell {
    /// What is written, with what colours it.
    pub text: String,
    /// How many columns of a terminal that takes.
    pub width: usize,
}

/// The blanks that stand between two columns of a table.
const GAP: usize = 2;

/// How a table is laid out.
#[derive(Clone, Copy)]
struct Layout {
    /// How wide a column is, with the blanks behind it.
    column: usize,
    /// How many cells a row has at most.
    cells: usize,
    /// How many rows there are.
    rows: usize,
}

/// How many columns of a terminal the widest cell takes.
fn widest(cells: &[Cell]) -> usize
    ensures { result ≡ spec.widest (map cell_view cells.now) }
{
    let mut widest = 0;
    for cell in cells {
        widest = cell.width.max(widest);
    }
    widest
}

/// The layout of a table of these cells.
fn layout_of(cells: &[Cell], width: u16) -> Layout
    ensures column { result.column ≡ spec.column_width width (map cell_view cells.now) }
    ensures cells { result.cells ≡ spec.cells_in_row width (map cell_view cells.now) }
    ensures rows { result.rows ≡ spec.row_count width (map cell_view cells.now) }
{
    let width = width as usize;
    let column = widest(cells).min(width) + GAP;
    let in_row = ((width + GAP) / column).max(1);
    Layout {
        column,
        cells: in_row,
        rows: cells.len().div_ceil(in_row),
    }
}

/// Adds blanks.
fn push_blanks(text: &mut String, count: usize) -> Result<(), AllocError>
    ensures { OnOk result (string_bytes text.new ≡ string_bytes text.old ++ replicate count 32) }
{
    for _ in 0..count {
        text.push(' ')?;
    }
    Ok(())
}

/// Adds the first of the cells, behind a gap, and those that stand as many further on as there are rows, up to a count.
fn push_row(
    text: &mut String,
    cells: &[Cell],
    layout: Layout,
    count: usize,
    gap: usize,
) -> Result<(), AllocError>
    ensures { OnOk result (string_bytes text.new ≡ string_bytes text.old
        ++ spec.row_text layout.column layout.rows count gap (map cell_view cells.now)) }
{
    if count == 0 {
        return Ok(());
    }
    let [cell, ..] = cells else {
        return Ok(());
    };
    push_blanks(text, gap)?;
    text.push_str(&cell.text)?;
    let after = layout.column.saturating_sub(cell.width);
    push_row(text, later(cells, layout.rows), layout, count - 1, after)
}

/// The cells without so many at the front.
fn later(cells: &[Cell], count: usize) -> &[Cell]
    ensures { result.now ≡ drop count cells.entry.now }
{
    if count < cells.len() {
        &cells[count..]
    } else {
        &[]
    }
}

/// Adds a table of the cells for a terminal of this width: read down, column after column, they stand in their order,
/// each once. Columns are as wide as the widest cell, with two blanks between them; where a terminal has no room for two
/// of them there is one.
///
/// It fails for want of memory alone.
pub fn push_table(text: &mut String, cells: &[Cell], width: u16) -> Result<(), AllocError>
    ensures { OnOk result (string_bytes text.new ≡ string_bytes text.old
        ++ spec.table_text width (map cell_view cells.now)) }
{
    let layout = layout_of(cells, width);
    for row in 0..layout.rows {
        push_row(text, later(cells, row), layout, layout.cells, 0)?;
        text.push('\n')?;
    }
    Ok(())
}
