//! Names that may be meant by one that isn't found. Only names are read, and no file is opened.
ghost use Rattle.std.specs.Prelude.{◌≡◌, List, None, map, take, IfOk, string_bytes};
ghost use Rattle.std.specs.Option.{option_map};
ghost use Rattle.envvars.specs.Texts.{Text, slice_texts, texts_in};
ghost use Rattle.filetree.specs.Agreement.{FailsOnlyByDevice, InEachPair, Narrows};
ghost use Rattle.module_reports.specs.listings.Along.{AreNamesAlong};
ghost use Rattle.module_explain.specs.Alike as spec;

use envvars::fields::{deduplicated, join, owned, parts, slices};
use filetree::{Tree, TreeFault};
use module_reports::listings::names_along;
use module_words::subcommands::differ_by_one;
use requests::first_part;
use std::alloc::{AllocError, Global};

/// So many names are said at most.
const MOST_NAMES: usize = 3;

/// The text with small letters for the capitals of ASCII.
fn in_small_letters(alloc: Global, text: &str) -> Result<String, AllocError>
    ensures { IfOk result (λ small. string_bytes small ≡ spec.in_small_letters text.now) }
{
    let mut small = String::from_str(alloc, text)?;
    small.make_ascii_lowercase();
    Ok(small)
}

/// The parts that aren't empty.
fn filled<'a>(alloc: Global, parts: &[&'a str]) -> Result<Vec<&'a str>, AllocError>
    ensures { IfOk result (λ v. slice_texts v.items ≡ spec.filled (slice_texts parts.now)) }
{
    let mut found = Vec::new(alloc);
    for part in parts {
        if !part.is_empty() {
            found.push(*part)?;
        }
    }
    Ok(found)
}

/// What an ill-spelled name may stand for: a slash in place of each `@`, and no empty part.
pub(crate) fn respelled(alloc: Global, name: &str) -> Result<String, AllocError>
    ensures { IfOk result (λ text. string_bytes text ≡ spec.respelled name.now) }
{
    let pieces = parts(alloc, name, '@')?;
    let slashed = join(alloc, pieces.as_slice(), '/')?;
    let pieces = parts(alloc, slashed.as_str(), '/')?;
    let pieces = filled(alloc, pieces.as_slice())?;
    join(alloc, pieces.as_slice(), '/')
}

/// Whether a name begins with what was typed, or differs from it by one slip of the hand. What was typed is in small
/// letters, and the capitals of the name count as small letters.
fn is_like(alloc: Global, small: &str, name: &str) -> Result<bool, AllocError>
    ensures { IfOk result (λ is. is ≡ spec.is_like small.now name.now) }
{
    let name = in_small_letters(alloc, name)?;
    Ok(
        name.as_bytes().starts_with(small.as_bytes())
            || differ_by_one(small.as_bytes(), name.as_bytes()),
    )
}

/// Those of the names that are like what was typed, in small letters.
fn likes<'a>(alloc: Global, small: &str, names: &[&'a str]) -> Result<Vec<&'a str>, AllocError>
    ensures { IfOk result (λ v. slice_texts v.items ≡ spec.likes small.now (slice_texts names.now)) }
{
    let mut found = Vec::new(alloc);
    for name in names {
        if is_like(alloc, small, name)? {
            found.push(*name)?;
        }
    }
    Ok(found)
}

/// The first of the names.
fn first_ones<'a, 'b>(names: &'b [&'a str], most: usize) -> &'b [&'a str]
    ensures { result.now ≡ take most names.entry.now }
{
    if names.len() <= most {
        return names;
    }
    &names[..most]
}

/// The first of the names, each once, three at most.
fn first_names(alloc: Global, names: &[&str]) -> Result<Vec<String>, AllocError>
    ensures { IfOk result (λ v. texts_in v ≡ spec.first_names (slice_texts names.now)) }
{
    let once = deduplicated(alloc, names)?;
    owned(alloc, first_ones(once.as_slice(), MOST_NAMES))
}

/// Those of the names that aren't the one that was typed.
pub(crate) fn others(
    alloc: Global,
    typed: &str,
    names: &[String],
) -> Result<Vec<String>, AllocError>
    ensures { IfOk result (λ v. texts_in v ≡ spec.others typed.now (map string_bytes names.now)) }
{
    let mut found = Vec::new(alloc);
    for name in names {
        if name.as_str() != typed {
            found.push(name.clone()?)?;
        }
    }
    Ok(found)
}

/// The names that may be meant, where a folder has these entries: versions that are like what was typed. Where none is,
/// the folder, if a version was typed.
fn meant_in_folder(
    alloc: Global,
    typed: &str,
    folder: &str,
    entries: &[&str],
) -> Result<Vec<String>, AllocError>
    ensures { IfOk result (λ v. texts_in v ≡ spec.first_names (spec.versions_or_folder typed.now folder.now
        (spec.likes (spec.in_small_letters typed.now) (slice_texts entries.now)))) }
{
    let small = in_small_letters(alloc, typed)?;
    let versions = likes(alloc, small.as_str(), entries)?;
    if versions.is_empty() && typed != folder {
        return first_names(alloc, &[folder]);
    }
    first_names(alloc, versions.as_slice())
}

/// The first names in the directories that are like this one.
fn meant_in_directories<T: Tree>(
    alloc: Global,
    tree: &mut T,
    directories: &[&str],
    name: &str,
) -> Result<Vec<String>, TreeFault>
    ensures narrows { Narrows (T.agrees tree.old) (T.agrees tree.new) }
    ensures cause { FailsOnlyByDevice (T.failures tree.old) (T.failures tree.new) result }
    ensures meant { IfOk result (λ meant. InEachPair (T.agrees tree.new) (λ files listings. (names : List Text)
        × AreNamesAlong listings None (slice_texts directories.now) names
        × (texts_in meant ≡ spec.first_names (spec.likes (spec.in_small_letters name.now) names)))) }
{
    let names = names_along(alloc, tree, directories, None)?;
    let names = slices(alloc, names.as_slice())?;
    let small = in_small_letters(alloc, name)?;
    let like = likes(alloc, small.as_str(), names.as_slice())?;
    Ok(first_names(alloc, like.as_slice())?)
}

/// The names that may be meant by one that isn't found along these directories: three at most. Only the directories are
/// listed, and in each the folder of the name's first part. No file is opened.
///
/// Errors: as of the tree, which is asked only for these.
pub(crate) fn names_like<T: Tree>(
    alloc: Global,
    tree: &mut T,
    directories: &[&str],
    typed: &str,
) -> Result<Vec<String>, TreeFault>
    ensures narrows { Narrows (T.agrees tree.old) (T.agrees tree.new) }
    ensures cause { FailsOnlyByDevice (T.failures tree.old) (T.failures tree.new) result }
    ensures like { IfOk result (λ meant. InEachPair (T.agrees tree.new) (λ files listings.
        spec.AreLike listings (slice_texts directories.now) typed.now (texts_in meant))) }
{
    let folder = first_part(typed);
    let entries = names_along(alloc, tree, directories, Some(folder))?;
    if entries.is_empty() {
        return meant_in_directories(alloc, tree, directories, folder);
    }
    let entries = slices(alloc, entries.as_slice())?;
    Ok(meant_in_folder(alloc, typed, folder, entries.as_slice())?)
}
