//! What is offered, with the modules that can be loaded.
ghost use Rattle.std.specs.Prelude.{◌≡◌, ◌≤◌, ◌++◌, map, IfOk, IsErrOf, OnOk};
ghost use Rattle.filetree.specs.declared.tree.TreeFault.TheVariants as faults;
ghost use Rattle.envvars.specs.Texts.{texts_in};
ghost use Rattle.filetree.specs.Agreement.{FailsOnlyByDevice};
ghost use Rattle.lookup.specs.DefaultFileResults.{HasResult};
ghost use Rattle.search.specs.ListingEntries.{listing_entry_view};
ghost use Rattle.search.specs.Listed.{names_of};
ghost use Rattle.search.specs.Listings.{listing_view};
ghost use Rattle.module_reports.specs.completions.Offered as spec;

use crate::completions::kind::NameKind;
use crate::completions::offered::{ask_for_modules, offered};
use crate::completions::readable::readable_names;
use crate::listings::readable_modules;
use envvars::Env;
use filetree::hiding::HidingTree;
use filetree::{Tree, TreeFault};
use lookup::EvaluatedDefaultFiles;
use requests::modulepath;
use search::{DirectoryListing, ListingEntry, directories};
use std::alloc::{AllocError, Global};
use tclrules::Limits;

/// Whether a byte is a quote, or takes the meaning of the next one away.
fn is_quote(byte: u8) -> bool
    ensures { result ≡ spec.is_quote byte }
{
    byte == b'\'' || byte == b'"' || byte == b'\\'
}

/// Whether a word as it is typed means another text: it has quotes, or what takes their meaning away.
fn is_quoted(word: &str) -> bool
    ensures { result ≡ spec.is_quoted word.now }
{
    word.as_bytes().iter().any(|byte| is_quote(*byte))
}

/// Adds the names of modules.
fn push_names(
    alloc: Global,
    names: &mut Vec<String>,
    modules: &[ListingEntry],
) -> Result<(), AllocError>
    ensures { OnOk result (texts_in names.new
        ≡ texts_in names.old ++ names_of (map listing_entry_view modules.now)) }
{
    for module in modules {
        names.push(String::from_str(alloc, &module.name)?)?;
    }
    Ok(())
}

/// The names in some listings, in turn.
fn names_in(alloc: Global, listings: &[DirectoryListing]) -> Result<Vec<String>, AllocError>
    ensures { IfOk result (λ v. texts_in v ≡ spec.names_in (map listing_view listings.now)) }
{
    let mut names = Vec::new(alloc);
    for listing in listings {
        push_names(alloc, &mut names, &listing.modules)?;
    }
    Ok(names)
}

/// The names of all modules along MODULEPATH, in the order of `avail`. What can't be read is left out.
fn listed_names<T: Tree + Drop>(
    alloc: Global,
    env: &Env,
    tree: &mut HidingTree<T>,
    limits: Limits,
) -> Result<Vec<String>, TreeFault>
    ensures cause { FailsOnlyByDevice (T.failures tree.old.tree) (T.failures tree.new.tree) result }
    ensures given_up { IsErrOf result faults.Device → 1000 ≤ T.failures tree.new.tree }
    ensures listed { IfOk result (λ names. spec.AreListed (HasResult limits) (T.agrees tree.new.tree)
        (T.failed tree.new.tree) (T.failures tree.old.tree) (T.failures tree.new.tree) env.now (texts_in names)) }
{
    let default_files = EvaluatedDefaultFiles { limits };
    let readable = readable_modules(alloc, tree, &default_files, &[], modulepath(env))?;
    Ok(names_in(alloc, &readable.listings)?)
}

/// The names along MODULEPATH for a word. What can't be read is left out.
fn named<T: Tree + Drop>(
    alloc: Global,
    env: &Env,
    word: &str,
    tree: &mut HidingTree<T>,
) -> Result<Vec<String>, TreeFault>
    ensures cause { FailsOnlyByDevice (T.failures tree.old.tree) (T.failures tree.new.tree) result }
    ensures given_up { IsErrOf result faults.Device → 1000 ≤ T.failures tree.new.tree }
    ensures named { IfOk result (λ names. spec.AreNamed (T.agrees tree.new.tree) (T.failed tree.new.tree)
        (T.failures tree.old.tree) (T.failures tree.new.tree) env.now word.now (texts_in names)) }
{
    let directories = directories(alloc, modulepath(env))?;
    Ok(readable_names(alloc, tree, directories.as_slice(), word)?.names)
}

/// The names along MODULEPATH for a word, or of all modules where the word is typed with quotes.
fn names_for_word<T: Tree + Drop>(
    alloc: Global,
    env: &Env,
    word: &str,
    tree: &mut HidingTree<T>,
    limits: Limits,
) -> Result<Vec<String>, TreeFault>
    ensures cause { FailsOnlyByDevice (T.failures tree.old.tree) (T.failures tree.new.tree) result }
    ensures given_up { IsErrOf result faults.Device → 1000 ≤ T.failures tree.new.tree }
    ensures named { IfOk result (λ names. spec.AreForWord (spec.is_quoted word.now) (HasResult limits)
        (T.agrees tree.new.tree) (T.failed tree.new.tree) (T.failures tree.old.tree) (T.failures tree.new.tree)
        env.now word.now (texts_in names)) }
{
    if is_quoted(word) {
        return listed_names(alloc, env, tree, limits);
    }
    named(alloc, env, word, tree)
}

/// The names of some kinds, in turn, each once. For modules that can be loaded these are the names of folders and files
/// that begin with a word, and no file is opened. A word that is typed with quotes means another text, and then it is all
/// modules, of which the shell takes its own. What can't be read is left out. Collections lie on the disk, where this crate
/// doesn't look: there are none.
///
/// It fails with `Device` only where the device failed in this call, and a thousand times in all, and for want of memory.
pub fn names_offered<T: Tree + Drop>(
    alloc: Global,
    kinds: &[NameKind],
    env: &Env,
    word: &str,
    tree: &mut HidingTree<T>,
    limits: Limits,
) -> Result<Vec<String>, TreeFault>
    ensures cause { FailsOnlyByDevice (T.failures tree.old.tree) (T.failures tree.new.tree) result }
    ensures given_up { IsErrOf result faults.Device → 1000 ≤ T.failures tree.new.tree }
    ensures offered { IfOk result (λ names. spec.Offers (HasResult limits) (T.agrees tree.new.tree)
        (T.failed tree.new.tree) (T.failures tree.old.tree) (T.failures tree.new.tree)
        env.now kinds.now word.now (texts_in names)) }
{
    if !ask_for_modules(kinds) {
        return Ok(offered(alloc, env, &[], kinds)?);
    }
    let available = names_for_word(alloc, env, word, tree, limits)?;
    Ok(offered(alloc, env, available.as_slice(), kinds)?)
}
