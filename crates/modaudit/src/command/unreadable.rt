//! Paths that can't be read, each once, in the order of their bytes.
ghost use Rattle.std.specs.Prelude.{◌≡◌, map, IfOk, OnOk, string_bytes};
ghost use Rattle.std.specs.Cmp.Lexicographic.{slice_cmp};
ghost use Rattle.std.specs.List.Sorted.{IsStrictlySortedBy};
ghost use Rattle.std.specs.Ordering.{nat_cmp};
ghost use Rattle.std.specs.String.{string_cmp};
ghost use Rattle.modaudit.specs.command.Steps.{AreSame, AddsPath};

use std::alloc::{AllocError, Global};
use std::collections::BTreeSet;

/// Adds the path.
fn put_path(alloc: Global, found: &mut BTreeSet<String>, path: &str) -> Result<(), AllocError>
    ensures { OnOk result (AddsPath found.old found.new path.now) }
{
    let own = String::from_str(alloc, path)?;
    found.insert(own)?;
    Ok(())
}

/// The paths of the set, in their order.
fn paths_of(alloc: Global, found: BTreeSet<String>) -> Result<Vec<String>, AllocError>
    ensures keys { IfOk result (λ paths. paths.items ≡ found.keys) }
    ensures order { IfOk result (λ paths. IsStrictlySortedBy string_cmp paths.items) }
{
    found.into_iter().collect(alloc)
}

/// These paths, each once, in the order of their bytes.
pub(crate) fn in_order(alloc: Global, paths: &[String]) -> Result<Vec<String>, AllocError>
    ensures order { IfOk result (λ sorted.
        IsStrictlySortedBy (slice_cmp nat_cmp) (map string_bytes sorted.items)) }
    ensures same { IfOk result (λ sorted.
        AreSame (map string_bytes sorted.items) (map string_bytes paths.now)) }
{
    let mut found = BTreeSet::new(alloc);
    for path in paths {
        put_path(alloc, &mut found, path.as_str())?;
    }
    paths_of(alloc, found)
}
