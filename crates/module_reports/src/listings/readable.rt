//! The modules that can be listed: what can't be read is left out, and named.
ghost use Rattle.std.specs.Prelude.{◌≡◌, ◌⊎◌, ◌<◌, ◌≤◌, [], length, map, string_bytes, IfOk, IsErrOf};
ghost use Rattle.filetree.specs.declared.tree.TreeFault.TheVariants as faults;
ghost use Rattle.filetree.specs.Agreement.{FailsOnlyByDevice, InEachPair};
ghost use Rattle.filetree.specs.hiding.Hidden.{AllFailed};
ghost use Rattle.search.specs.Listings.{listing_view};
ghost use Rattle.module_reports.specs.listings.Available.{ListedWithout};

use filetree::hiding::{HidingTree, MOST_HIDDEN};
use filetree::{Tree, TreeFault};
use message::texts::copies;
use search::{DefaultFiles, DirectoryListing, selected};
use std::alloc::Global;

/// The modules along a MODULEPATH, but for what can't be read.
#[derive(Drop)]
pub struct ReadableModules {
    /// The modules of each directory.
    pub listings: Vec<DirectoryListing>,
    /// The paths that can't be read.
    pub unreadable: Vec<String>,
}

/// Lists the modules that texts select, where something can't be read: once, and again where what was seen before can't
/// be read any more.
fn list_without<T: Tree + Drop, D: DefaultFiles>(
    alloc: Global,
    tree: &mut HidingTree<T>,
    default_files: &D,
    texts: &[String],
    modulepath: &str,
) -> Result<ReadableModules, TreeFault>
    ensures counts { T.failures tree.old.tree ≤ T.failures tree.new.tree }
    ensures given_up { IsErrOf result faults.Device → 1000 ≤ T.failures tree.new.tree }
    ensures counted { IfOk result (λ readable. length readable.unreadable.items ≤ T.failures tree.new.tree) }
    ensures failed { IfOk result (λ readable. AllFailed (T.failed tree.new.tree)
        (map string_bytes readable.unreadable.items)) }
    ensures listed { IfOk result (λ readable. InEachPair (T.agrees tree.new.tree) (λ files folders.
        ListedWithout (D.results default_files.now) (map string_bytes readable.unreadable.items) files folders
        (map string_bytes texts.now) modulepath.now (map listing_view readable.listings.items))) }
{
    for _ in 0..MOST_HIDDEN {
        match selected(alloc, tree, default_files, texts, modulepath) {
            Ok(listings) => {
                return Ok(ReadableModules {
                    listings,
                    unreadable: copies(alloc, &tree.hidden)?,
                });
            }
            Err(TreeFault::OutOfMemory) => return Err(TreeFault::OutOfMemory),
            Err(TreeFault::Device) => {
                if !tree.hide_failed()? {
                    return Err(tree.fault_in_the_end());
                }
            }
        }
    }
    Err(tree.fault_in_the_end())
}

/// The modules along a MODULEPATH that texts select, as `search::selected` has them, but without what can't be read.
///
/// It fails with `Device` only where the device failed in this call, and a thousand times in all, and for want of memory.
pub fn readable_modules<T: Tree + Drop, D: DefaultFiles>(
    alloc: Global,
    tree: &mut HidingTree<T>,
    default_files: &D,
    texts: &[String],
    modulepath: &str,
) -> Result<ReadableModules, TreeFault>
    ensures cause { FailsOnlyByDevice (T.failures tree.old.tree) (T.failures tree.new.tree) result }
    ensures left_out { IfOk result (λ readable. (map string_bytes readable.unreadable.items ≡ [])
        ⊎ (T.failures tree.old.tree < T.failures tree.new.tree)) }
    ensures given_up { IsErrOf result faults.Device → 1000 ≤ T.failures tree.new.tree }
    ensures counted { IfOk result (λ readable. length readable.unreadable.items ≤ T.failures tree.new.tree) }
    ensures failed { IfOk result (λ readable. AllFailed (T.failed tree.new.tree)
        (map string_bytes readable.unreadable.items)) }
    ensures listed { IfOk result (λ readable. InEachPair (T.agrees tree.new.tree) (λ files folders.
        ListedWithout (D.results default_files.now) (map string_bytes readable.unreadable.items) files folders
        (map string_bytes texts.now) modulepath.now (map listing_view readable.listings.items))) }
{
    match selected(alloc, &mut tree.tree, default_files, texts, modulepath) {
        Ok(listings) => Ok(ReadableModules {
            listings,
            unreadable: Vec::new(alloc),
        }),
        Err(TreeFault::OutOfMemory) => Err(TreeFault::OutOfMemory),
        Err(TreeFault::Device) => list_without(alloc, tree, default_files, texts, modulepath),
    }
}
