//! Modulefiles that are read before they are listed and evaluated, so that a disk opens each once.
ghost use Rattle.std.specs.Prelude.{◌≡◌, List, ℕ, true};
ghost use Rattle.filetree.specs.Agreement.{ReadsOn};

use filetree::Tree;
use modulename::{MAX_PARTS, is_module_name};
use search::{directories, is_single, path_of, read_modulefile};
use std::alloc::Global;

/// Reads the modulefiles in a folder and in the folders below it, `levels` levels of names in all. Whether all could be
/// read: it ends with the first that can't.
fn read_folder<T: Tree>(alloc: Global, tree: &mut T, folder: &str, levels: usize) -> bool
    ensures reads { ReadsOn T.agrees T.failures tree.old tree.new }
    ensures failed { (path : List ℕ) → T.failed tree.old path ≡ true → T.failed tree.new path ≡ true }
{
    if levels == 0 {
        return true;
    }
    let Ok(listed) = tree.entries(folder) else {
        return false;
    };
    let Some(names) = listed else {
        return true;
    };
    for name in &names {
        if is_single(name) && is_module_name(name) {
            let Ok(path) = path_of(alloc, folder, name) else {
                return false;
            };
            if read_modulefile(tree, &path).is_err() {
                return false;
            }
            if tree.may_list(&path) && !read_folder(alloc, tree, &path, levels - 1) {
                return false;
            }
        }
    }
    true
}

/// Reads the modulefiles along a MODULEPATH, up to the first that can't be read: a tree that keeps what it read has them when
/// they are listed and evaluated.
pub(crate) fn read_ahead<T: Tree>(alloc: Global, tree: &mut T, modulepath: &str)
    ensures reads { ReadsOn T.agrees T.failures tree.old tree.new }
    ensures failed { (path : List ℕ) → T.failed tree.old path ≡ true → T.failed tree.new path ≡ true }
{
    let Ok(dirs) = directories(alloc, modulepath) else {
        return;
    };
    for dir in dirs {
        if !read_folder(alloc, tree, dir, MAX_PARTS) {
            return;
        }
    }
}
