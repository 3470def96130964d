//! The names of what stands in a folder below a directory.
ghost use Rattle.std.specs.Prelude.{◌≡◌, IfOk};
ghost use Rattle.std.specs.Option.{option_map};
ghost use Rattle.filetree.specs.Agreement.{FailsAt, InEachPair, Narrows, FailsOnlyByDevice, is_device};
ghost use Rattle.search.specs.BelowFolder.{folder_path};
ghost use Rattle.search.specs.NamesBelow.{AreNamesBelow};

use crate::names::{folder_path, names_in, sort_names};
use filetree::{Tree, TreeFault};
use std::alloc::Global;

/// The full names of what stands in a folder below a directory, or in the directory itself where `prefix` is `None`. They
/// come in version order. Ill-spelled names are passed over, and no file is opened. It is `None` where no folder is.
///
/// Errors: as of the tree, which is asked only for that folder.
pub fn names_below<T: Tree>(
    alloc: Global,
    tree: &mut T,
    dir: &str,
    prefix: Option<&str>,
) -> Result<Option<Vec<String>>, TreeFault>
    ensures narrows { Narrows (T.agrees tree.old) (T.agrees tree.new) }
    ensures names { IfOk result (λ names. InEachPair (T.agrees tree.new) (λ files folders.
        AreNamesBelow folders dir.now (option_map (λ f. f.now) prefix.entry) names)) }
    ensures cause { FailsOnlyByDevice (T.failures tree.old) (T.failures tree.new) result }
    ensures failed { FailsAt is_device (T.failed tree.old) (T.failed tree.new) result (λ at.
        at ≡ folder_path dir.now (option_map (λ f. f.now) prefix.entry)) }
{
    let folder = folder_path(alloc, dir, prefix)?;
    let Some(entries) = tree.entries(&folder)? else {
        return Ok(None);
    };
    let mut names = names_in(alloc, &[], prefix, &entries)?;
    sort_names(&mut names)?;
    Ok(Some(names))
}
