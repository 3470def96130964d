//! `list`: the modules that are loaded.
ghost use Rattle.std.specs.Prelude.{◌≡◌, false, map, string_bytes, IfOk, IfErr};
ghost use Rattle.message.specs.Answers.{Gives};
ghost use Rattle.envstate.specs.loaded_list.Loaded.{names_of};
ghost use Rattle.envstate.specs.loaded_list.LoadedEntries.{entry_view};
ghost use Rattle.modulefile.specs.Reports.{line_of};
ghost use Rattle.module_reports.specs.listings.Faults.{is_failure, reason_of};
ghost use Rattle.module_reports.specs.listings.Reports as spec;
ghost use Rattle.module_reports.specs.listings.Views.{part_view};

use crate::listings::fault::ListingFault;
use crate::listings::layout::{ReportPart, ReportedName, Terminal, shown_report};
use crate::listings::options::{Options, report_words};
use crate::listings::texts::is_meant;
use envstate::loaded_list::{Loaded, loaded};
use envvars::Env;
use module_words::subcommands::Subcommand;
use requests::list_report;
use std::alloc::{AllocError, Global};

/// The names of the loaded modules that the texts mean, in load order.
fn names_meant(
    alloc: Global,
    options: Options,
    texts: &[String],
    entries: &[Loaded],
) -> Result<Vec<String>, AllocError>
    ensures { IfOk result (λ names. map string_bytes names.items
        ≡ spec.names_meant (options, map string_bytes texts.now) (names_of (map entry_view entries.now))) }
{
    let mut names = Vec::new(alloc);
    for entry in entries {
        if is_meant(options, texts, &entry.name) {
            names.push(String::from_str(alloc, &entry.name)?)?;
        }
    }
    Ok(names)
}

/// The names without marks, below their heading.
fn loaded_part(alloc: Global, names: &[String]) -> Result<ReportPart, AllocError>
    ensures { IfOk result (λ part. part_view part ≡ spec.loaded_part (map string_bytes names.now)) }
{
    let mut unmarked = Vec::with_capacity(alloc, names.len())?;
    for name in names {
        unmarked.push(ReportedName {
            name: String::from_str(alloc, name)?,
            is_default: false,
            is_loaded: false,
        })?;
    }
    Ok(ReportPart {
        heading: String::from_str(alloc, "Currently Loaded Modulefiles:")?,
        names: unmarked,
    })
}

/// What is said where no name is reported.
fn nothing_said(entries: &[Loaded]) -> &'static str
    ensures { result.now ≡ spec.nothing_said (names_of (map entry_view entries.now)) }
{
    match entries {
        [] => "No Modulefiles Currently Loaded.",
        [_, ..] => "No loaded module begins so.",
    }
}

/// The line with what is said where no name is reported.
fn nothing_line(alloc: Global, entries: &[Loaded]) -> Result<String, AllocError>
    ensures { IfOk result (λ line. string_bytes line
        ≡ line_of (spec.nothing_said (names_of (map entry_view entries.now)))) }
{
    let mut line = String::from_str(alloc, nothing_said(entries))?;
    line.push('\n')?;
    Ok(line)
}

/// The report on these names of the loaded modules.
fn names_text(
    alloc: Global,
    terminal: Option<Terminal>,
    in_lines: bool,
    entries: &[Loaded],
    names: &[String],
) -> Result<String, AllocError>
    ensures { IfOk result (λ text. string_bytes text ≡ spec.names_text terminal in_lines
        (names_of (map entry_view entries.now)) (map string_bytes names.now)) }
{
    if names.is_empty() {
        return nothing_line(alloc, entries);
    }
    match terminal {
        None => list_report(alloc, names),
        Some(terminal) => {
            let parts = [loaded_part(alloc, names)?];
            shown_report(alloc, terminal, in_lines, &parts)
        }
    }
}

/// The report of `list` with these words: `-t`, and then texts with one of which names begin. Without a terminal it is
/// that of `modulecmd`; on one, names stand in columns, or with `-t` one a line, and no character of them steers it.
///
/// The errors: `NoOption`, the words have another option; `Inconsistent`, the loaded lists don't fit together;
/// `OutOfMemory`.
pub fn loaded_report<'a>(
    alloc: Global,
    env: &Env,
    words: &'a [String],
    terminal: Option<Terminal>,
) -> Result<String, ListingFault<'a>>
    ensures report { Gives reason_of string_bytes result
        (spec.list_report terminal env.now (map string_bytes words.entry.now)) }
    ensures fault { IfErr result (λ e. is_failure e ≡ false) }
{
    let (options, texts) = report_words(Subcommand::List, words)?;
    let entries = loaded(alloc, env)?;
    let names = names_meant(alloc, options, texts, &entries)?;
    Ok(names_text(alloc, terminal, options.lines, &entries, &names)?)
}
