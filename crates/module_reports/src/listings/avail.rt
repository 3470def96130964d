//! `avail`: the modules that can be loaded.
ghost use Rattle.std.specs.Prelude.{◌≡◌, ◌<◌, ◌≤◌, ◌++◌, flat_map, map, Err, IfErr, IfOk, OnOk, string_bytes};
ghost use Rattle.envstate.specs.loaded_list.LoadedEntries.{entry_view};
ghost use Rattle.filetree.specs.Causes.{Applies};
ghost use Rattle.module_words.specs.declared.subcommands.table.Subcommand.TheVariants.{Avail};
ghost use Rattle.search.specs.Listings.{listing_view};
ghost use Rattle.search.specs.ListingEntries.{listing_entry_view};
ghost use Rattle.filetree.specs.Modulefiles as paths;
ghost use Rattle.lookup.specs.DefaultFileResults.{HasResult};
ghost use Rattle.module_reports.specs.listings.Available.{ReportsAvailable};
ghost use Rattle.module_reports.specs.listings.Faults.{cause_of};
ghost use Rattle.module_reports.specs.listings.Options.{report_words};
ghost use Rattle.module_reports.specs.listings.Reports as spec;
ghost use Rattle.module_reports.specs.listings.Texts.{searched_texts};
ghost use Rattle.module_reports.specs.listings.Views.{name_view, part_view};

use crate::listings::chosen::chosen;
use crate::listings::fault::ListingFault;
use crate::listings::layout::{ReportPart, ReportedName, Terminal, push_shown_line, shown_report};
use crate::listings::options::{Options, report_words};
use crate::listings::readable::readable_modules;
use crate::listings::texts::are_beginnings;
use envstate::loaded_list::{Loaded, loaded_if_consistent};
use envvars::Env;
use filetree::Tree;
use filetree::hiding::HidingTree;
use lookup::EvaluatedDefaultFiles;
use module_words::subcommands::Subcommand;
use requests::{avail_report as plain_report, modulepath};
use search::{DirectoryListing, ListingEntry, path_of};
use std::alloc::{AllocError, Global};
use tclrules::Limits;

/// Whether the module at a path is loaded.
fn is_loaded(loaded: &[Loaded], path: &str) -> bool
    ensures { result ≡ spec.is_loaded (map entry_view loaded.now) path.now }
{
    loaded.iter().any(|entry| entry.path.as_str() == path)
}

/// Whether a module of a directory is loaded.
fn is_entry_loaded(
    alloc: Global,
    loaded: &[Loaded],
    dir: &str,
    entry: &ListingEntry,
) -> Result<bool, AllocError>
    ensures { IfOk result (λ b. b ≡ spec.is_loaded (map entry_view loaded.now)
        (paths.path_of dir.now (listing_entry_view entry.now).0)) }
{
    if loaded.is_empty() {
        return Ok(false);
    }
    let path = path_of(alloc, dir, &entry.name)?;
    Ok(is_loaded(loaded, &path))
}

/// A module of a directory, as a report names it.
fn reported(
    alloc: Global,
    loaded: &[Loaded],
    dir: &str,
    entry: &ListingEntry,
) -> Result<ReportedName, AllocError>
    ensures { IfOk result (λ name. name_view name
        ≡ spec.reported (map entry_view loaded.now) dir.now (listing_entry_view entry.now)) }
{
    Ok(ReportedName {
        name: String::from_str(alloc, &entry.name)?,
        is_default: entry.is_default,
        is_loaded: is_entry_loaded(alloc, loaded, dir, entry)?,
    })
}

/// The modules of a directory, as a report names them.
fn names_of(
    alloc: Global,
    loaded: &[Loaded],
    dir: &str,
    modules: &[ListingEntry],
) -> Result<Vec<ReportedName>, AllocError>
    ensures { IfOk result (λ names. map name_view names.items
        ≡ map (spec.reported (map entry_view loaded.now) dir.now) (map listing_entry_view modules.now)) }
{
    let mut names = Vec::with_capacity(alloc, modules.len())?;
    for entry in modules {
        names.push(reported(alloc, loaded, dir, entry)?)?;
    }
    Ok(names)
}

/// The part of a report for a directory.
fn part_of(
    alloc: Global,
    loaded: &[Loaded],
    listing: &DirectoryListing,
) -> Result<ReportPart, AllocError>
    ensures { IfOk result (λ part. part_view part
        ≡ spec.part_of (map entry_view loaded.now) (listing_view listing.now)) }
{
    let mut heading = String::from_str(alloc, &listing.dir)?;
    heading.push(':')?;
    Ok(ReportPart {
        heading,
        names: names_of(alloc, loaded, &listing.dir, &listing.modules)?,
    })
}

/// The parts of a report.
fn parts_of(
    alloc: Global,
    loaded: &[Loaded],
    listings: &[DirectoryListing],
) -> Result<Vec<ReportPart>, AllocError>
    ensures { IfOk result (λ parts. map part_view parts.items
        ≡ map (spec.part_of (map entry_view loaded.now)) (map listing_view listings.now)) }
{
    let mut parts = Vec::with_capacity(alloc, listings.len())?;
    for listing in listings {
        parts.push(part_of(alloc, loaded, listing)?)?;
    }
    Ok(parts)
}

/// The modules that are loaded; none where the variables contradict one another.
fn loaded_modules(alloc: Global, env: &Env) -> Result<Vec<Loaded>, AllocError>
    ensures { IfOk result (λ entries. map entry_view entries.items ≡ spec.loaded_or_none env.now) }
{
    match loaded_if_consistent(alloc, env)? {
        Some(entries) => Ok(entries),
        None => Ok(Vec::new(alloc)),
    }
}

/// The text of a report on these modules.
fn modules_text(
    alloc: Global,
    env: &Env,
    terminal: Option<Terminal>,
    in_lines: bool,
    listings: &[DirectoryListing],
) -> Result<String, AllocError>
    ensures { IfOk result (λ text. string_bytes text
        ≡ spec.modules_text terminal in_lines (spec.loaded_or_none env.now) (map listing_view listings.now)) }
{
    let Some(terminal) = terminal else {
        return plain_report(alloc, listings);
    };
    let loaded = loaded_modules(alloc, env)?;
    let parts = parts_of(alloc, &loaded, listings)?;
    shown_report(alloc, terminal, in_lines, &parts)
}

/// Adds the line of a path that can't be read.
fn push_unreadable(
    alloc: Global,
    report: &mut String,
    terminal: Option<Terminal>,
    path: &str,
) -> Result<(), AllocError>
    ensures { OnOk result (string_bytes report.new ≡ string_bytes report.old
        ++ spec.unreadable_line terminal path.now) }
{
    let mut line = String::from_str(alloc, path)?;
    line.push_str(": not readable")?;
    match terminal {
        Some(_) => push_shown_line(alloc, report, &line),
        None => {
            report.push_str(&line)?;
            report.push('\n')
        }
    }
}

/// Adds a line of each path that can't be read.
fn push_all_unreadable(
    alloc: Global,
    report: &mut String,
    terminal: Option<Terminal>,
    paths: &[String],
) -> Result<(), AllocError>
    ensures { OnOk result (string_bytes report.new ≡ string_bytes report.old
        ++ flat_map (spec.unreadable_line terminal) (map string_bytes paths.now)) }
{
    for path in paths {
        push_unreadable(alloc, report, terminal, path)?;
    }
    Ok(())
}

/// The texts by which a search selects: none, which selects all, where they aren't beginnings letter by letter.
fn searched_texts(options: Options, texts: &[String]) -> &[String]
    ensures { map string_bytes result.now ≡ searched_texts options (map string_bytes texts.entry.now) }
{
    if are_beginnings(options) { texts } else { &[] }
}

/// The report of `avail` with these words: options, and then texts with one of which names begin, or which they have in
/// them, where an option asks so. What can't be read is left out, and named behind the modules. Without a terminal the
/// modules are reported as by `modulecmd`; on one, loaded modules are marked too, names stand in columns, or one a line
/// where an option asks so, and no character of names and paths steers it.
///
/// The errors: `NoOption`, the words have another option; `Device`, only where the device failed in this call, and a
/// thousand times in all; `OutOfMemory`.
pub fn avail_report<'a, T: Tree + Drop>(
    alloc: Global,
    env: &Env,
    words: &'a [String],
    terminal: Option<Terminal>,
    tree: &mut HidingTree<T>,
    limits: Limits,
) -> Result<String, ListingFault<'a>>
    ensures counts { T.failures tree.old.tree ≤ T.failures tree.new.tree }
    ensures report { IfOk result (λ text. ReportsAvailable (HasResult limits) (T.agrees tree.new.tree)
        (T.failed tree.new.tree) (T.failures tree.old.tree) (T.failures tree.new.tree)
        terminal env.now (map string_bytes words.entry.now) (string_bytes text)) }
    ensures fault { IfErr result (λ e. Applies (cause_of e)
        ((T.failures tree.old.tree < T.failures tree.new.tree) × (1000 ≤ T.failures tree.new.tree))
        (λ reason. report_words Avail (map string_bytes words.entry.now) ≡ Err reason)) }
{
    let (options, texts) = report_words(Subcommand::Avail, words)?;
    let default_files = EvaluatedDefaultFiles { limits };
    let searched = searched_texts(options, texts);
    let readable = readable_modules(alloc, tree, &default_files, searched, modulepath(env))?;
    let listings = chosen(alloc, options, texts, &readable.listings)?;
    let mut report = modules_text(alloc, env, terminal, options.lines, &listings)?;
    push_all_unreadable(alloc, &mut report, terminal, &readable.unreadable)?;
    Ok(report)
}
