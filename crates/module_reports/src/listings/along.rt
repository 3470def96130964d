//! The names in a folder below the directories of MODULEPATH. Only names are read, and no file is opened.
ghost use Rattle.std.specs.Prelude.{IfOk};
ghost use Rattle.std.specs.Option.{option_map};
ghost use Rattle.envvars.specs.Texts.{slice_texts, texts_in};
ghost use Rattle.filetree.specs.Agreement.{FailsAt, FailsOnlyByDevice, InEachPair, Narrows, is_device};
ghost use Rattle.module_reports.specs.listings.Along.{AreNamesAlong, IsFolder};

use filetree::{Tree, TreeFault};
use search::names_below;
use std::alloc::Global;

/// The full names of what stands in this folder below each of the directories, one directory after another; without a
/// folder, in the directories themselves.
///
/// Errors: as of the tree, which is asked only for these folders.
pub fn names_along<T: Tree>(
    alloc: Global,
    tree: &mut T,
    directories: &[&str],
    folder: Option<&str>,
) -> Result<Vec<String>, TreeFault>
    ensures narrows { Narrows (T.agrees tree.old) (T.agrees tree.new) }
    ensures cause { FailsOnlyByDevice (T.failures tree.old) (T.failures tree.new) result }
    ensures names { IfOk result (λ names. InEachPair (T.agrees tree.new) (λ files listings.
        AreNamesAlong listings (option_map (λ f. f.now) folder.entry) (slice_texts directories.now)
        (texts_in names))) }
    ensures failed { FailsAt is_device (T.failed tree.old) (T.failed tree.new) result
        (IsFolder (option_map (λ f. f.now) folder.entry)) }
{
    let mut names = Vec::new(alloc);
    for directory in directories {
        let below = names_below(alloc, tree, directory, folder)?;
        let mut below = below.unwrap_or(Vec::new(alloc));
        names.append(&mut below)?;
    }
    Ok(names)
}
