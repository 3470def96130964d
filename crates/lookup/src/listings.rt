//! All modules along MODULEPATH, in one list with their directories (module(1), avail).
ghost use Rattle.std.specs.Prelude.{◌≡◌, ◌<◌, ◌++◌, [], map, IfOk, IfErr, OnOk};
ghost use Rattle.filetree.specs.Agreement.{FailsWhere, InEachPair, ReadsOn};
ghost use Rattle.filetree.specs.Causes.{Applies};
ghost use Rattle.search.specs.Looked.{ListingLooksAt};
ghost use Rattle.search.specs.Answers.{cause_of, is_failure};
ghost use Rattle.search.specs.Listings.{listing_view};
ghost use Rattle.search.specs.ListingEntries.{listing_entry_view};
ghost use Rattle.lookup.specs.DefaultFileResults.{HasResult};
ghost use Rattle.lookup.specs.Lines.{line_of, lines_of, Available};
ghost use Rattle.lookup.specs.LineViews.{line_view};

use crate::evaluated::EvaluatedDefaultFiles;
use filetree::Tree;
use search::{FindFault, ListingEntry};
use std::alloc::{AllocError, Global};
use tclrules::Limits;

/// A module, with its directory.
#[derive(Debug, Drop)]
pub struct Listing {
    /// The directory, as MODULEPATH spells it.
    pub dir: String,
    /// The module's full name, as `foo/1.0`.
    pub name: String,
    /// Whether a default file of its folder names it.
    pub is_default: bool,
}

/// Adds each of the modules of a directory, with the directory.
fn push_modules(
    alloc: Global,
    listings: &mut Vec<Listing>,
    dir: &str,
    modules: &[ListingEntry],
) -> Result<(), AllocError>
    ensures { OnOk result (map line_view listings.new.items
        ≡ map line_view listings.old.items ++ map (line_of dir.now) (map listing_entry_view modules.now)) }
{
    for module in modules {
        listings.push(Listing {
            dir: String::from_str(alloc, dir)?,
            name: String::from_str(alloc, &module.name)?,
            is_default: module.is_default,
        })?;
    }
    Ok(())
}

/// The modules of all directories in one list, directory after directory.
fn joined(
    alloc: Global,
    directories: &[search::DirectoryListing],
) -> Result<Vec<Listing>, AllocError>
    ensures { IfOk result (λ listings.
        map line_view listings.items ≡ lines_of (map listing_view directories.now)) }
{
    let mut listings = Vec::new(alloc);
    for directory in directories {
        push_modules(alloc, &mut listings, &directory.dir, &directory.modules)?;
    }
    Ok(listings)
}

/// All modules along a MODULEPATH, a list parted by colons: for each directory in turn, a repeated one again, the
/// well-spelled names of one to four parts of all files below it that begin with `#%Module`, in version order of the
/// whole name. A module is marked where a default file of its folder names it, each evaluated within the limits;
/// nothing of a folder is marked where its default file has a fault.
///
/// It fails with `Device` only where the device failed in this call, at a path that the listing looks at, and with
/// `OutOfMemory`.
pub fn available<T: Tree>(
    alloc: Global,
    tree: &mut T,
    modulepath: &str,
    limits: Limits,
) -> Result<Vec<Listing>, FindFault>
    ensures reads { ReadsOn T.agrees T.failures tree.old tree.new }
    ensures listed { IfOk result (λ listings. InEachPair (T.agrees tree.new) (λ files folders.
        Available (HasResult limits) files folders modulepath.now (map line_view listings.items))) }
    ensures fault { IfErr result (λ e.
        Applies (cause_of e) (T.failures tree.old < T.failures tree.new) (λ reason. ⊥)) }
    ensures failed { FailsWhere is_failure T.agrees T.failed tree.old tree.new result (λ files folders.
        ListingLooksAt (HasResult limits) files folders [] modulepath.now) }
{
    let default_files = EvaluatedDefaultFiles { limits };
    let directories = search::available(alloc, tree, &default_files, modulepath)?;
    Ok(joined(alloc, &directories)?)
}
