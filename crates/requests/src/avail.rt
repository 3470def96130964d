//! The report of `avail` (module(1)): the modules of each directory.
ghost use Rattle.std.specs.Prelude.{◌≡◌, ◌++◌, map, codes, flat_map, IfOk, OnOk, string_bytes};
ghost use Rattle.search.specs.Listings.{listing_view};
ghost use Rattle.search.specs.ListingEntries.{listing_entry_view};
ghost use Rattle.modulefile.specs.Reports.{line_of};
ghost use Rattle.requests.specs.Reports.{module_line, modules_text, avail_text};

use search::{DirectoryListing, ListingEntry};
use std::alloc::{AllocError, Global};

/// Adds the line of a directory.
fn push_directory(report: &mut String, dir: &str) -> Result<(), AllocError>
    ensures { OnOk result (string_bytes report.new ≡ string_bytes report.old ++ line_of (dir.now ++ codes ":")) }
{
    report.push_str(dir)?;
    report.push_str(":\n")
}

/// Adds the line of a module.
fn push_module(report: &mut String, listing_entry: &ListingEntry) -> Result<(), AllocError>
    ensures { OnOk result (string_bytes report.new ≡ string_bytes report.old ++ module_line
        (listing_entry_view listing_entry.now)) }
{
    report.push_str(&listing_entry.name)?;
    if listing_entry.is_default {
        report.push_str("(default)")?;
    }
    report.push('\n')
}

/// Adds the lines of modules.
fn push_modules(report: &mut String, modules: &[ListingEntry]) -> Result<(), AllocError>
    ensures { OnOk result (string_bytes report.new
        ≡ string_bytes report.old ++ flat_map module_line (map listing_entry_view modules.now)) }
{
    for listing_entry in modules {
        push_module(report, listing_entry)?;
    }
    Ok(())
}

/// Adds the lines of a directory, where it has a module.
#[tactic(auto, using(crate::proofs::AvailLemmas::no_text, crate::proofs::AvailLemmas::some_text))]
fn push_listing(report: &mut String, listing: &DirectoryListing) -> Result<(), AllocError>
    ensures { OnOk result (string_bytes report.new ≡ string_bytes report.old
        ++ modules_text (string_bytes listing.now.dir) (map listing_entry_view listing.now.modules.items)) }
{
    if listing.modules.is_empty() {
        return Ok(());
    }
    push_directory(report, &listing.dir)?;
    push_modules(report, &listing.modules)
}

/// The report of `avail`: for each directory with a module a line `DIR:` and its modules, one a line, with `(default)`
/// after one that a default file names.
///
/// It fails for want of memory alone.
pub fn avail_report(alloc: Global, listings: &[DirectoryListing]) -> Result<String, AllocError>
    ensures { IfOk result (λ report. string_bytes report ≡ avail_text (map listing_view listings.now)) }
{
    let mut report = String::new(alloc);
    for listing in listings {
        push_listing(&mut report, listing)?;
    }
    Ok(report)
}
