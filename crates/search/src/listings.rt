//! The listing of modules along a MODULEPATH, all or those that texts select, directory by directory (module(1), avail).
ghost use Rattle.std.specs.Prelude.{◌≡◌, [], map, IfOk, string_bytes};
ghost use Rattle.filetree.specs.Agreement.{FailsWhere, InEachPair, Narrows, FailsOnlyByDevice, is_device};
ghost use Rattle.search.specs.Listed.{IsListing, AreListings, Listed};
ghost use Rattle.search.specs.Looked.{LooksForListing, ListingLooksAt};
ghost use Rattle.search.specs.ListingEntries.{listing_entry_view};
ghost use Rattle.search.specs.Listings.{listing_view};

use crate::default_files::DefaultFiles;
use crate::folders::FolderWalk;
use crate::found::directories;
use crate::listing_entries::{ListingEntry, drop_repeats, sort_listing_entries};
use filetree::{Tree, TreeFault};
use modulename::MAX_PARTS;
use std::alloc::Global;

/// The listing of one directory of MODULEPATH.
#[derive(Debug, Drop)]
pub struct DirectoryListing {
    /// The directory, as MODULEPATH spells it.
    pub dir: String,
    /// Its modules, each once, in version order of their full names.
    pub modules: Vec<ListingEntry>,
}

/// The modules below a directory that texts select, each once, in version order of their full names.
fn modules_of<T: Tree, D: DefaultFiles>(
    alloc: Global,
    tree: &mut T,
    default_files: &D,
    texts: &[String],
    dir: &str,
) -> Result<Vec<ListingEntry>, TreeFault>
    ensures narrows { Narrows (T.agrees tree.old) (T.agrees tree.new) }
    ensures answer { IfOk result (λ listing_entries. InEachPair (T.agrees tree.new) (λ files folders.
        IsListing (D.results default_files.now) files folders (map string_bytes texts.now) dir.now
        (map listing_entry_view listing_entries.items))) }
    ensures cause { FailsOnlyByDevice (T.failures tree.old) (T.failures tree.new) result }
    ensures failed { FailsWhere is_device T.agrees T.failed tree.old tree.new result (λ files folders.
        LooksForListing (D.results default_files.now) files folders (map string_bytes texts.now) dir.now) }
{
    let walk = FolderWalk {
        alloc,
        default_files,
        texts,
        dir,
    };
    let mut listing_entries = Vec::new(alloc);
    walk.list_folder(tree, None, MAX_PARTS, &mut listing_entries)?;
    sort_listing_entries(&mut listing_entries)?;
    drop_repeats(&mut listing_entries);
    Ok(listing_entries)
}

/// The modules along a MODULEPATH, a list parted by colons, whose names begin with one of the texts, or all where there
/// are none: for each directory, a repeated one again, the well-spelled names of one to four parts of such files below
/// it that begin with `#%Module`, in version order of the whole name. A module is marked where a default file of its
/// folder names it; nothing of a folder is marked where its default file has a fault.
///
/// It looks only where such a name can be: at each directory; at a folder below it where one of the texts begins with
/// its name and a `/`; at a file or folder whose name begins with one of the texts; and at the default files of a folder
/// with such a module. It fails as the tree does, at a path that it looks at, and for want of memory.
pub fn selected<T: Tree, D: DefaultFiles>(
    alloc: Global,
    tree: &mut T,
    default_files: &D,
    texts: &[String],
    modulepath: &str,
) -> Result<Vec<DirectoryListing>, TreeFault>
    ensures narrows { Narrows (T.agrees tree.old) (T.agrees tree.new) }
    ensures listed { IfOk result (λ listings. InEachPair (T.agrees tree.new) (λ files folders.
        Listed (D.results default_files.now) files folders (map string_bytes texts.now) modulepath.now
        (map listing_view listings.items))) }
    ensures cause { FailsOnlyByDevice (T.failures tree.old) (T.failures tree.new) result }
    ensures failed { FailsWhere is_device T.agrees T.failed tree.old tree.new result (λ files folders.
        ListingLooksAt (D.results default_files.now) files folders (map string_bytes texts.now) modulepath.now) }
{
    let dirs = directories(alloc, modulepath)?;
    let mut listings = Vec::new(alloc);
    for dir in &dirs {
        let modules = modules_of(alloc, tree, default_files, texts, dir)?;
        listings.push(DirectoryListing {
            dir: String::from_str(alloc, dir)?,
            modules,
        })?;
    }
    Ok(listings)
}

/// All modules along a MODULEPATH, as `selected` without texts has them.
///
/// It fails as the tree does, at a path that the listing looks at, and for want of memory.
pub fn available<T: Tree, D: DefaultFiles>(
    alloc: Global,
    tree: &mut T,
    default_files: &D,
    modulepath: &str,
) -> Result<Vec<DirectoryListing>, TreeFault>
    ensures narrows { Narrows (T.agrees tree.old) (T.agrees tree.new) }
    ensures listed { IfOk result (λ listings. InEachPair (T.agrees tree.new) (λ files folders.
        Listed (D.results default_files.now) files folders [] modulepath.now (map listing_view listings.items))) }
    ensures cause { FailsOnlyByDevice (T.failures tree.old) (T.failures tree.new) result }
    ensures failed { FailsWhere is_device T.agrees T.failed tree.old tree.new result (λ files folders.
        ListingLooksAt (D.results default_files.now) files folders [] modulepath.now) }
{
    selected(alloc, tree, default_files, &[], modulepath)
}
