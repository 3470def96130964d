//! The names that begin with a word, as far as folders tell them: no file is opened.
ghost use Rattle.std.specs.Prelude.{◌≡◌, map, string_bytes, IfOk};
ghost use Rattle.std.specs.Option.{option_map};
ghost use Rattle.envvars.specs.Texts.{slice_texts, texts_in};
ghost use Rattle.filetree.specs.Agreement.{FailsAt, FailsOnlyByDevice, InEachPair, Narrows, is_device};
ghost use Rattle.module_reports.specs.completions.Begun as spec;

use crate::listings::names_along;
use envvars::fields::{deduplicated, join, owned, parts, slices};
use filetree::{Tree, TreeFault};
use std::alloc::{AllocError, Global};

/// The folder of these parts, if there are some.
fn folder_named(alloc: Global, parts: &[&str]) -> Result<Option<String>, AllocError>
    ensures { IfOk result (λ folder. option_map string_bytes folder ≡ spec.folder_named (slice_texts parts.now)) }
{
    if parts.is_empty() {
        return Ok(None);
    }
    Ok(Some(join(alloc, parts, '/')?))
}

/// The folder whose entries a word may name: what is in front of its last slash.
fn folder_of(alloc: Global, word: &str) -> Result<Option<String>, AllocError>
    ensures { IfOk result (λ folder. option_map string_bytes folder ≡ spec.folder_of word.now) }
{
    let mut folders = parts(alloc, word, '/')?;
    let Some(_) = folders.pop() else {
        return Ok(None);
    };
    folder_named(alloc, folders.as_slice())
}

/// Those of the names that begin with a word.
fn beginning<'a>(alloc: Global, names: &[&'a str], word: &str) -> Result<Vec<&'a str>, AllocError>
    ensures { IfOk result (λ v. slice_texts v.items ≡ spec.beginning word.now (slice_texts names.now)) }
{
    let mut begun = Vec::new(alloc);
    for name in names {
        if name.as_bytes().starts_with(word.as_bytes()) {
            begun.push(*name)?;
        }
    }
    Ok(begun)
}

/// The names that begin with a word, each once, in the folder that the word names.
fn names_begun<T: Tree>(
    alloc: Global,
    tree: &mut T,
    directories: &[&str],
    word: &str,
) -> Result<Vec<String>, TreeFault>
    ensures narrows { Narrows (T.agrees tree.old) (T.agrees tree.new) }
    ensures cause { FailsOnlyByDevice (T.failures tree.old) (T.failures tree.new) result }
    ensures failed { FailsAt is_device (T.failed tree.old) (T.failed tree.new) result (λ at. Unit {0}) }
    ensures begun { IfOk result (λ names. InEachPair (T.agrees tree.new) (λ files listings.
        spec.AreBegun listings (slice_texts directories.now) word.now (texts_in names))) }
{
    let folder = folder_of(alloc, word)?;
    let names = names_along(alloc, tree, directories, folder.as_deref())?;
    let names = slices(alloc, names.as_slice())?;
    let begun = beginning(alloc, names.as_slice(), word)?;
    let once = deduplicated(alloc, begun.as_slice())?;
    Ok(owned(alloc, once.as_slice())?)
}

/// The names, each once, if there are some.
fn once_if_any(alloc: Global, names: &[String]) -> Result<Option<Vec<String>>, AllocError>
    ensures { IfOk result (λ o. option_map texts_in o ≡ spec.once_if_any (map string_bytes names.now)) }
{
    if names.is_empty() {
        return Ok(None);
    }
    let names = slices(alloc, names)?;
    let once = deduplicated(alloc, names.as_slice())?;
    Ok(Some(owned(alloc, once.as_slice())?))
}

/// What is in the folder of the name, if it is one name and has a folder that isn't empty; else the names.
fn opened<T: Tree>(
    alloc: Global,
    tree: &mut T,
    directories: &[&str],
    names: Vec<String>,
) -> Result<Vec<String>, TreeFault>
    ensures narrows { Narrows (T.agrees tree.old) (T.agrees tree.new) }
    ensures cause { FailsOnlyByDevice (T.failures tree.old) (T.failures tree.new) result }
    ensures failed { FailsAt is_device (T.failed tree.old) (T.failed tree.new) result (λ at. Unit {0}) }
    ensures opened { IfOk result (λ next. InEachPair (T.agrees tree.new) (λ files listings.
        spec.Opens listings (slice_texts directories.now) (texts_in names) (texts_in next))) }
{
    let [name] = names.as_slice() else {
        return Ok(names);
    };
    let inside = names_along(alloc, tree, directories, Some(name.as_str()))?;
    match once_if_any(alloc, inside.as_slice())? {
        Some(inside) => Ok(inside),
        None => Ok(names),
    }
}

/// The names along these directories that are offered for a word: those that begin with it. One name that is a folder
/// gives way to what is in it, three times at most, since a name has four parts at most.
///
/// Errors: as of the tree, which is asked only for these folders.
pub(crate) fn names_for<T: Tree>(
    alloc: Global,
    tree: &mut T,
    directories: &[&str],
    word: &str,
) -> Result<Vec<String>, TreeFault>
    ensures narrows { Narrows (T.agrees tree.old) (T.agrees tree.new) }
    ensures cause { FailsOnlyByDevice (T.failures tree.old) (T.failures tree.new) result }
    ensures failed { FailsAt is_device (T.failed tree.old) (T.failed tree.new) result (λ at. Unit {0}) }
    ensures offered { IfOk result (λ names. InEachPair (T.agrees tree.new) (λ files listings.
        spec.AreFor listings (slice_texts directories.now) word.now (texts_in names))) }
{
    let names = names_begun(alloc, tree, directories, word)?;
    let names = opened(alloc, tree, directories, names)?;
    let names = opened(alloc, tree, directories, names)?;
    opened(alloc, tree, directories, names)
}
