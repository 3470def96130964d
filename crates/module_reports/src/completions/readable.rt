//! The names that are offered for a word: what can't be read is left out.
ghost use Rattle.std.specs.Prelude.{◌≡◌, ◌⊎◌, ◌<◌, ◌≤◌, [], length, map, string_bytes, IfOk, IsErrOf};
ghost use Rattle.filetree.specs.declared.tree.TreeFault.TheVariants as faults;
ghost use Rattle.envvars.specs.Texts.{slice_texts, texts_in};
ghost use Rattle.filetree.specs.Agreement.{FailsOnlyByDevice, InEachPair};
ghost use Rattle.filetree.specs.hiding.Hidden.{AllFailed};
ghost use Rattle.module_reports.specs.completions.Begun.{AreForWithout};

use crate::completions::begun::names_for;
use filetree::hiding::{HidingTree, MOST_HIDDEN};
use filetree::{Tree, TreeFault};
use message::texts::copies;
use std::alloc::Global;

/// The names for a word, but for those in folders that can't be read.
#[derive(Drop)]
pub(crate) struct ReadableNames {
    /// The names.
    pub(crate) names: Vec<String>,
    /// The paths that can't be read.
    pub(crate) unreadable: Vec<String>,
}

/// The names for a word, where something can't be read: once, and again where what was seen before can't be read any more.
fn names_without<T: Tree + Drop>(
    alloc: Global,
    tree: &mut HidingTree<T>,
    directories: &[&str],
    word: &str,
) -> Result<ReadableNames, TreeFault>
    ensures counts { T.failures tree.old.tree ≤ T.failures tree.new.tree }
    ensures given_up { IsErrOf result faults.Device → 1000 ≤ T.failures tree.new.tree }
    ensures counted { IfOk result (λ readable. length readable.unreadable.items ≤ T.failures tree.new.tree) }
    ensures failed { IfOk result (λ readable. AllFailed (T.failed tree.new.tree)
        (map string_bytes readable.unreadable.items)) }
    ensures named { IfOk result (λ readable. InEachPair (T.agrees tree.new.tree) (λ files folders.
        AreForWithout (map string_bytes readable.unreadable.items) folders (slice_texts directories.now) word.now
        (texts_in readable.names))) }
{
    for _ in 0..MOST_HIDDEN {
        match names_for(alloc, tree, directories, word) {
            Ok(names) => {
                return Ok(ReadableNames {
                    names,
                    unreadable: copies(alloc, &tree.hidden)?,
                });
            }
            Err(TreeFault::OutOfMemory) => return Err(TreeFault::OutOfMemory),
            Err(TreeFault::Device) => {
                if !tree.hide_failed()? {
                    return Err(tree.fault_in_the_end());
                }
            }
        }
    }
    Err(tree.fault_in_the_end())
}

/// The names along these directories that are offered for a word, without what can't be read.
///
/// It fails with `Device` only where the device failed in this call, and a thousand times in all, and for want of memory.
pub(crate) fn readable_names<T: Tree + Drop>(
    alloc: Global,
    tree: &mut HidingTree<T>,
    directories: &[&str],
    word: &str,
) -> Result<ReadableNames, TreeFault>
    ensures cause { FailsOnlyByDevice (T.failures tree.old.tree) (T.failures tree.new.tree) result }
    ensures left_out { IfOk result (λ readable. (map string_bytes readable.unreadable.items ≡ [])
        ⊎ (T.failures tree.old.tree < T.failures tree.new.tree)) }
    ensures given_up { IsErrOf result faults.Device → 1000 ≤ T.failures tree.new.tree }
    ensures counted { IfOk result (λ readable. length readable.unreadable.items ≤ T.failures tree.new.tree) }
    ensures failed { IfOk result (λ readable. AllFailed (T.failed tree.new.tree)
        (map string_bytes readable.unreadable.items)) }
    ensures named { IfOk result (λ readable. InEachPair (T.agrees tree.new.tree) (λ files folders.
        AreForWithout (map string_bytes readable.unreadable.items) folders (slice_texts directories.now) word.now
        (texts_in readable.names))) }
{
    match names_for(alloc, &mut tree.tree, directories, word) {
        Ok(names) => Ok(ReadableNames {
            names,
            unreadable: Vec::new(alloc),
        }),
        Err(TreeFault::OutOfMemory) => Err(TreeFault::OutOfMemory),
        Err(TreeFault::Device) => names_without(alloc, tree, directories, word),
    }
}
