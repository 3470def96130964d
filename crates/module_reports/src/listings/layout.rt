//! Reports on a terminal: headings, and names in columns or one a line, with marks.
ghost use Rattle.std.specs.Prelude.{◌≡◌, ◌++◌, map, flat_map, IfOk, OnOk, string_bytes};
ghost use Rattle.terminal.specs.text.CellViews.{cell_view};
ghost use Rattle.envvars.specs.Environment.{lookup};
ghost use Rattle.module_reports.specs.listings.Places as places;
ghost use Rattle.module_reports.specs.listings.Reports as spec;
ghost use Rattle.module_reports.specs.listings.Views.{name_view, part_view};

use envvars::Env;
use module_words::protocol::{Asker, Place, Screen, has_colours};
use std::alloc::{AllocError, Global};
use terminal::text::{Cell, push_table, shown};
use unicode_width::UnicodeWidthStr;

/// The terminal on which a report is shown.
#[derive(Clone, Copy, Debug)]
pub struct Terminal {
    /// How many columns it has.
    pub width: u16,
    /// Whether it shows colours.
    pub coloured: bool,
}

/// How many columns a terminal has that doesn't say it.
const USUAL_WIDTH: u16 = 80;

/// How many columns a terminal of this size has.
fn width_of(screen: Option<Screen>) -> u16
    ensures { result ≡ places.width_of screen }
{
    match screen {
        Some(screen) => screen.columns.min(u16::MAX as u32) as u16,
        None => USUAL_WIDTH,
    }
}

/// The terminal on which a report is shown that goes to a place, where it goes to one: a script sees no colours.
pub fn terminal_at(asker: Asker, env: &Env, place: Place) -> Option<Terminal>
    ensures { result ≡ places.terminal_at asker (lookup env.now) place }
{
    match place {
        Place::Terminal(screen) => Some(Terminal {
            width: width_of(screen),
            coloured: asker != Asker::Script && has_colours(env),
        }),
        _ => None,
    }
}

/// A name in a report.
#[derive(Drop)]
pub(crate) struct ReportedName {
    pub name: String,
    /// Whether it is marked as a default.
    pub is_default: bool,
    /// Whether it is marked as loaded.
    pub is_loaded: bool,
}

/// A heading, and the names below it.
#[derive(Drop)]
pub(crate) struct ReportPart {
    pub heading: String,
    pub names: Vec<ReportedName>,
}

/// The marks behind a name.
fn marks(name: &ReportedName) -> &'static str
    ensures { result.now ≡ spec.marks name.now.is_default name.now.is_loaded }
{
    match (name.is_default, name.is_loaded) {
        (true, true) => "(default, loaded)",
        (true, false) => "(default)",
        (false, true) => "(loaded)",
        (false, false) => "",
    }
}

/// The marks as they are written: in colour, where the terminal shows it, for a default.
fn push_marks(text: &mut String, coloured: bool, name: &ReportedName) -> Result<(), AllocError>
    ensures { OnOk result (string_bytes text.new ≡ string_bytes text.old
        ++ spec.written_marks coloured name.now.is_default name.now.is_loaded) }
{
    if coloured && name.is_default {
        text.push_str("\u{1b}[32m")?;
        text.push_str(marks(name))?;
        return text.push_str("\u{1b}[0m");
    }
    text.push_str(marks(name))
}

/// A name with its marks, as a cell of a table.
fn cell_of(alloc: Global, terminal: Terminal, name: &ReportedName) -> Result<Cell, AllocError>
    ensures { IfOk result (λ cell. cell_view cell ≡ spec.cell_of terminal.coloured (name_view name.now)) }
{
    let mut plain = shown(alloc, &name.name)?;
    let mut text = plain.clone()?;
    push_marks(&mut text, terminal.coloured, name)?;
    plain.push_str(marks(name))?;
    Ok(Cell {
        text,
        width: plain.as_str().width(),
    })
}

/// The names as cells of a table.
fn cells_of(
    alloc: Global,
    terminal: Terminal,
    names: &[ReportedName],
) -> Result<Vec<Cell>, AllocError>
    ensures { IfOk result (λ cells. map cell_view cells.items
        ≡ map (spec.cell_of terminal.coloured) (map name_view names.now)) }
{
    let mut cells = Vec::with_capacity(alloc, names.len())?;
    for name in names {
        cells.push(cell_of(alloc, terminal, name)?)?;
    }
    Ok(cells)
}

/// Adds a line of a text as a terminal shows it.
pub(crate) fn push_shown_line(
    alloc: Global,
    report: &mut String,
    text: &str,
) -> Result<(), AllocError>
    ensures { OnOk result (string_bytes report.new ≡ string_bytes report.old ++ spec.shown_line text.now) }
{
    report.push_str(&shown(alloc, text)?)?;
    report.push('\n')
}

/// Adds a heading.
fn push_heading(
    alloc: Global,
    report: &mut String,
    coloured: bool,
    heading: &str,
) -> Result<(), AllocError>
    ensures { OnOk result (string_bytes report.new ≡ string_bytes report.old
        ++ spec.heading_line coloured heading.now) }
{
    if !coloured {
        return push_shown_line(alloc, report, heading);
    }
    report.push_str("\u{1b}[1m")?;
    report.push_str(&shown(alloc, heading)?)?;
    report.push_str("\u{1b}[0m\n")
}

/// Adds the names in columns, below their heading, where there are some.
#[tactic(auto, using(crate::proofs::listings::PartLemmas::no_columns, crate::proofs::listings::PartLemmas::some_columns))]
fn push_columns(
    alloc: Global,
    report: &mut String,
    terminal: Terminal,
    part: &ReportPart,
) -> Result<(), AllocError>
    ensures { OnOk result (string_bytes report.new ≡ string_bytes report.old
        ++ spec.columns_text terminal (part_view part.now)) }
{
    if part.names.is_empty() {
        return Ok(());
    }
    push_heading(alloc, report, terminal.coloured, &part.heading)?;
    let cells = cells_of(alloc, terminal, &part.names)?;
    push_table(report, &cells, terminal.width)
}

/// Adds a name with its marks, on a line.
fn push_name(alloc: Global, report: &mut String, name: &ReportedName) -> Result<(), AllocError>
    ensures { OnOk result (string_bytes report.new ≡ string_bytes report.old ++ spec.name_line (name_view name.now)) }
{
    report.push_str(&shown(alloc, &name.name)?)?;
    report.push_str(marks(name))?;
    report.push('\n')
}

/// Adds names with their marks, one a line.
fn push_names(alloc: Global, report: &mut String, names: &[ReportedName]) -> Result<(), AllocError>
    ensures { OnOk result (string_bytes report.new ≡ string_bytes report.old
        ++ flat_map spec.name_line (map name_view names.now)) }
{
    for name in names {
        push_name(alloc, report, name)?;
    }
    Ok(())
}

/// Adds the names one a line, below their heading, where there are some.
#[tactic(auto, using(crate::proofs::listings::PartLemmas::no_lines, crate::proofs::listings::PartLemmas::some_lines))]
fn push_lines(alloc: Global, report: &mut String, part: &ReportPart) -> Result<(), AllocError>
    ensures { OnOk result (string_bytes report.new ≡ string_bytes report.old ++ spec.lines_text (part_view part.now)) }
{
    if part.names.is_empty() {
        return Ok(());
    }
    push_shown_line(alloc, report, &part.heading)?;
    push_names(alloc, report, &part.names)
}

/// Adds a part of a report, one name a line or in columns.
fn push_part(
    alloc: Global,
    report: &mut String,
    terminal: Terminal,
    in_lines: bool,
    part: &ReportPart,
) -> Result<(), AllocError>
    ensures { OnOk result (string_bytes report.new ≡ string_bytes report.old
        ++ spec.part_text terminal in_lines (part_view part.now)) }
{
    if in_lines {
        push_lines(alloc, report, part)
    } else {
        push_columns(alloc, report, terminal, part)
    }
}

/// The parts of a report as a terminal shows them: the names in columns, or one a line.
pub(crate) fn shown_report(
    alloc: Global,
    terminal: Terminal,
    in_lines: bool,
    parts: &[ReportPart],
) -> Result<String, AllocError>
    ensures { IfOk result (λ report. string_bytes report
        ≡ spec.shown_report terminal in_lines (map part_view parts.now)) }
{
    let mut report = String::new(alloc);
    for part in parts {
        push_part(alloc, &mut report, terminal, in_lines, part)?;
    }
    Ok(report)
}
