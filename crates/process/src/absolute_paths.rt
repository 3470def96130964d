//! Absolute paths of directories, by the working directory and the text alone.
ghost use Rattle.std.specs.Prelude.{◌≡◌, IfOk, OnOk, fold, map, string_bytes};
ghost use Rattle.std.specs.List.{join_with_byte};
ghost use Rattle.std.specs.Option.{option_map};
ghost use Rattle.process.specs.AbsolutePaths.{absolute_path, led, led_along, names_in, parts_of, path_of, slash};

use std::alloc::{AllocError, Global};

/// The parts of a path between its slashes.
fn parts_of(alloc: Global, path: &str) -> Result<Vec<&str>, AllocError>
    ensures { IfOk result (λ parts. names_in parts.items ≡ parts_of path.entry.now) }
{
    path.split('/').collect(alloc)
}

/// The names with slashes between them.
fn joined(alloc: Global, names: &[&str]) -> Result<String, AllocError>
    ensures { IfOk result (λ text. string_bytes text ≡ join_with_byte slash (names_in names.now)) }
{
    names.join(alloc, "/")
}

/// Goes where a part of a path leads.
fn lead<'a>(place: &mut Vec<&'a str>, part: &'a str) -> Result<(), AllocError>
    ensures { OnOk result (names_in place.new.items ≡ led (names_in place.old.items) part.entry.now) }
{
    if part.is_empty() || part == "." {
        return Ok(());
    }
    if part == ".." {
        let _ = place.pop();
        return Ok(());
    }
    place.push(part)?;
    Ok(())
}

/// Goes where each of the parts leads.
fn lead_each<'a>(place: &mut Vec<&'a str>, parts: &[&'a str]) -> Result<(), AllocError>
    ensures { OnOk result (names_in place.new.items
        ≡ fold led (names_in place.old.items) (names_in parts.entry.now)) }
{
    for part in parts {
        lead(place, part)?;
    }
    Ok(())
}

/// Goes where a path leads.
fn lead_along<'a>(alloc: Global, place: &mut Vec<&'a str>, path: &'a str) -> Result<(), AllocError>
    ensures { OnOk result (names_in place.new.items ≡ led_along (names_in place.old.items) path.entry.now) }
{
    let parts = parts_of(alloc, path)?;
    lead_each(place, parts.as_slice())
}

/// The path of a place.
fn path_of(alloc: Global, place: &[&str]) -> Result<String, AllocError>
    ensures { IfOk result (λ path. string_bytes path ≡ path_of (names_in place.now)) }
{
    let names = joined(alloc, place)?;
    let mut path = String::with_capacity(alloc, names.len().wrapping_add(1))?;
    path.push('/')?;
    path.push_str(names.as_str())?;
    Ok(path)
}

/// The absolute path of a directory: a text with `/` first is one from the root, another one from the working
/// directory, and none where there is no working directory. Points and slashes that mean nothing are left out, and two
/// points with the name before them. Nothing is looked for.
pub fn absolute_path(
    alloc: Global,
    working: Option<&str>,
    path: &str,
) -> Result<Option<String>, AllocError>
    ensures { IfOk result (λ found. option_map string_bytes found
        ≡ absolute_path (option_map (λ w. w.now) working.entry) path.now) }
{
    let mut place = Vec::new(alloc);
    if path.starts_with('/') {
        lead_along(alloc, &mut place, path)?;
        return Ok(Some(path_of(alloc, place.as_slice())?));
    }
    let Some(working) = working else {
        return Ok(None);
    };
    lead_along(alloc, &mut place, working)?;
    lead_along(alloc, &mut place, path)?;
    Ok(Some(path_of(alloc, place.as_slice())?))
}
