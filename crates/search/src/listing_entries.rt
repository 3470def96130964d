//! The entries of a listing: modules with the mark of a default, sorted, each once.
ghost use Rattle.std.specs.Prelude.{◌≡◌, ◌++◌, map, option_map, string_bytes, OnOk};
ghost use Rattle.std.specs.List.{dedup};
ghost use Rattle.std.specs.List.Sorted.{IsPermutation, IsSortedBy};
ghost use Rattle.search.specs.ListingEntries.{listing_entry_view, listing_entry_of, name_of, goes_before, is_same_name};

use modulename::version_order;
use std::alloc::AllocError;

/// A module in the listing of a directory.
#[derive(Debug, Drop)]
pub struct ListingEntry {
    /// Its full name, as `foo/1.0`.
    pub name: String,
    /// Whether a default file of its folder names it.
    pub is_default: bool,
}

/// Adds each of the modules, marked where it is the default.
pub(crate) fn push_listing_entries(
    listing_entries: &mut Vec<ListingEntry>,
    modules: Vec<String>,
    default: Option<&str>,
) -> Result<(), AllocError>
    ensures { OnOk result (map listing_entry_view listing_entries.new.items
        ≡ map listing_entry_view listing_entries.old.items
        ++ map (listing_entry_of (option_map (λ d. d.now) default.entry)) (map string_bytes modules.items)) }
{
    for name in modules {
        let is_default = default == Some(name.as_str());
        listing_entries.push(ListingEntry { name, is_default })?;
    }
    Ok(())
}

/// Sorts the modules by version order of their full names.
pub(crate) fn sort_listing_entries(
    listing_entries: &mut Vec<ListingEntry>,
) -> Result<(), AllocError>
    ensures same { IsPermutation listing_entries.old.items listing_entries.new.items }
    ensures sorted { OnOk result (IsSortedBy goes_before listing_entries.new.items) }
{
    listing_entries.sort_by(|left, right| version_order(&left.name, &right.name))?;
    Ok(())
}

/// Drops each module that follows one of the same name.
pub(crate) fn drop_repeats(listing_entries: &mut Vec<ListingEntry>)
    ensures { listing_entries.new.items ≡ dedup is_same_name listing_entries.old.items }
{
    listing_entries.dedup_by(|later, earlier| later.name == earlier.name);
}
