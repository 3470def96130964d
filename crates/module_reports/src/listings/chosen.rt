//! The modules that a report names: those that its texts mean, and of each module the versions that are asked for.
ghost use Rattle.std.specs.Prelude.{◌≡◌, map, string_bytes, IfOk};
ghost use Rattle.search.specs.Listings.{listing_view};
ghost use Rattle.search.specs.ListingEntries.{listing_entry_view};
ghost use Rattle.module_reports.specs.listings.Chosen as spec;

use crate::listings::options::{Options, Versions};
use crate::listings::texts::is_meant;
use search::{DirectoryListing, ListingEntry};
use std::alloc::{AllocError, Global};

/// Whether a slash stands in the text.
fn has_slash(text: &[u8]) -> bool
    ensures { result ≡ spec.has_slash text.now }
{
    text.contains(&b'/')
}

/// Whether two names are the same up to a slash behind which neither has another: they are those of one folder.
fn share_folder(left: &[u8], right: &[u8]) -> bool
    ensures { result ≡ spec.share_folder left.now right.now }
{
    let [byte, left @ ..] = left else {
        return false;
    };
    let [other, right @ ..] = right else {
        return false;
    };
    let is_last_slash = *byte == b'/' && !has_slash(left) && !has_slash(right);
    *byte == *other && (is_last_slash || share_folder(left, right))
}

/// Whether two modules are versions of one: they stand in one folder.
fn are_versions_of_one(left: &ListingEntry, right: &ListingEntry) -> bool
    ensures { result ≡ spec.are_versions_of_one (listing_entry_view left.now) (listing_entry_view right.now) }
{
    share_folder(left.name.as_bytes(), right.name.as_bytes())
}

/// Whether one of the others is a version of the same module.
fn has_version(entry: &ListingEntry, others: &[ListingEntry]) -> bool
    ensures { result ≡ spec.has_version (listing_entry_view entry.now) (map listing_entry_view others.now) }
{
    others.iter().any(|other| are_versions_of_one(entry, other))
}

/// Whether another module is a version of the same, and marked as a default.
fn is_default_beside(entry: &ListingEntry, other: &ListingEntry) -> bool
    ensures { result ≡ spec.is_default_beside (listing_entry_view entry.now) (listing_entry_view other.now) }
{
    other.is_default && are_versions_of_one(entry, other)
}

/// Whether one of the modules is a version of the same, and marked as a default.
fn has_default(entry: &ListingEntry, modules: &[ListingEntry]) -> bool
    ensures { result ≡ spec.has_default (listing_entry_view entry.now) (map listing_entry_view modules.now) }
{
    modules.iter().any(|other| is_default_beside(entry, other))
}

/// Whether a module is among the versions that are asked for, where these are all, and these come after it.
fn is_asked_for(
    versions: Versions,
    entry: &ListingEntry,
    modules: &[ListingEntry],
    later: &[ListingEntry],
) -> bool
    ensures { result ≡ spec.is_asked_for versions (listing_entry_view entry.now) (map listing_entry_view modules.now)
        (map listing_entry_view later.now) }
{
    match versions {
        Versions::Every => true,
        Versions::Latest => !has_version(entry, later),
        Versions::Default => {
            entry.is_default || !has_default(entry, modules) && !has_version(entry, later)
        }
    }
}

/// A copy of a module of a listing.
fn copied(alloc: Global, entry: &ListingEntry) -> Result<ListingEntry, AllocError>
    ensures { IfOk result (λ copy. listing_entry_view copy ≡ listing_entry_view entry.now) }
{
    Ok(ListingEntry {
        name: String::from_str(alloc, &entry.name)?,
        is_default: entry.is_default,
    })
}

/// Those of the modules that the texts mean.
fn meant(
    alloc: Global,
    options: Options,
    texts: &[String],
    modules: &[ListingEntry],
) -> Result<Vec<ListingEntry>, AllocError>
    ensures { IfOk result (λ kept. map listing_entry_view kept.items
        ≡ spec.meant options (map string_bytes texts.now) (map listing_entry_view modules.now)) }
{
    let mut kept = Vec::with_capacity(alloc, modules.len())?;
    for entry in modules {
        if is_meant(options, texts, &entry.name) {
            kept.push(copied(alloc, entry)?)?;
        }
    }
    Ok(kept)
}

/// Those of the modules that are the versions that are asked for.
fn of_versions(
    alloc: Global,
    versions: Versions,
    modules: &[ListingEntry],
) -> Result<Vec<ListingEntry>, AllocError>
    ensures { IfOk result (λ kept. map listing_entry_view kept.items
        ≡ spec.of_versions versions (map listing_entry_view modules.now)) }
{
    let mut kept = Vec::new(alloc);
    let mut rest = modules;
    while let [entry, later @ ..] = rest {
        if is_asked_for(versions, entry, modules, later) {
            kept.push(copied(alloc, entry)?)?;
        }
        rest = later;
    }
    Ok(kept)
}

/// Those of the modules that are the versions that are asked for; they themselves where each is.
fn asked_for(
    alloc: Global,
    versions: Versions,
    modules: Vec<ListingEntry>,
) -> Result<Vec<ListingEntry>, AllocError>
    ensures { IfOk result (λ kept. map listing_entry_view kept.items
        ≡ spec.of_versions versions (map listing_entry_view modules.items)) }
{
    match versions {
        Versions::Every => Ok(modules),
        Versions::Latest | Versions::Default => of_versions(alloc, versions, &modules),
    }
}

/// What a report names of a listing.
fn chosen_of(
    alloc: Global,
    options: Options,
    texts: &[String],
    listing: &DirectoryListing,
) -> Result<DirectoryListing, AllocError>
    ensures { IfOk result (λ chosen. listing_view chosen
        ≡ spec.chosen_of options (map string_bytes texts.now) (listing_view listing.now)) }
{
    let meant = meant(alloc, options, texts, &listing.modules)?;
    Ok(DirectoryListing {
        dir: String::from_str(alloc, &listing.dir)?,
        modules: asked_for(alloc, options.versions, meant)?,
    })
}

/// What a report names of listings.
pub(crate) fn chosen(
    alloc: Global,
    options: Options,
    texts: &[String],
    listings: &[DirectoryListing],
) -> Result<Vec<DirectoryListing>, AllocError>
    ensures { IfOk result (λ chosen. map listing_view chosen.items
        ≡ spec.chosen options (map string_bytes texts.now) (map listing_view listings.now)) }
{
    let mut chosen = Vec::new(alloc);
    for listing in listings {
        chosen.push(chosen_of(alloc, options, texts, listing)?)?;
    }
    Ok(chosen)
}
