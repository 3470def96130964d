//! Whether a path, a full name below a directory, or a version of a name is that of a module: by the cookie `#%Module`.
ghost use Rattle.std.specs.Prelude.{◌≡◌, false, None, IfOk};
ghost use Rattle.filetree.specs.Agreement.{FailsAt, InEachPair, Narrows, FailsOnlyByDevice, is_device};
ghost use Rattle.filetree.specs.Modulefiles.{is_module, modulefile, path_of};
ghost use Rattle.search.specs.BelowFolder.{is_module_below};
ghost use Rattle.search.specs.Versions.{is_module_in};

use crate::paths::{path_of, write_path};
use filetree::{SeenPath, Tree, TreeFault};
use std::alloc::Global;

/// The bytes that every modulefile begins with.
pub const COOKIE: &[u8] = b"#%Module";

/// Whether the path holds a file that begins with `#%Module`, UTF-8 or not. The file is not read further.
///
/// It fails as the tree does.
pub fn holds_module<T: Tree>(tree: &mut T, path: &str) -> Result<bool, TreeFault>
    ensures narrows { Narrows (T.agrees tree.old) (T.agrees tree.new) }
    ensures answer { IfOk result (λ r. InEachPair (T.agrees tree.new)
        (λ files listings. is_module (modulefile (files path.now)) ≡ r)) }
    ensures cause { FailsOnlyByDevice (T.failures tree.old) (T.failures tree.new) result }
    ensures failed { FailsAt is_device (T.failed tree.old) (T.failed tree.new) result (λ at. at ≡ path.now) }
{
    tree.begins_with(path, COOKIE)
}

/// Whether the path holds a file that begins with `#%Module`, as `begins`, and whether a directory may be there. The
/// file is not read further.
///
/// It fails as the tree does.
fn see_module<T: Tree>(tree: &mut T, path: &str) -> Result<SeenPath, TreeFault>
    ensures narrows { Narrows (T.agrees tree.old) (T.agrees tree.new) }
    ensures answer { IfOk result (λ seen. InEachPair (T.agrees tree.new)
        (λ files listings. is_module (modulefile (files path.now)) ≡ seen.begins)) }
    ensures nothing { IfOk result (λ seen. seen.may_list ≡ false → InEachPair (T.agrees tree.new) (λ files listings.
        listings path.now ≡ None)) }
    ensures cause { FailsOnlyByDevice (T.failures tree.old) (T.failures tree.new) result }
    ensures failed { FailsAt is_device (T.failed tree.old) (T.failed tree.new) result (λ at. at ≡ path.now) }
{
    tree.see(path, COOKIE)
}

/// Whether the file of this full name, below the directory, begins with `#%Module`.
///
/// It fails as the tree does, at the path of that file, and for want of memory.
fn is_module_below<T: Tree>(
    alloc: Global,
    tree: &mut T,
    dir: &str,
    name: &str,
) -> Result<bool, TreeFault>
    ensures narrows { Narrows (T.agrees tree.old) (T.agrees tree.new) }
    ensures answer { IfOk result (λ r. InEachPair (T.agrees tree.new) (λ files listings.
        is_module_below files dir.now name.now ≡ r)) }
    ensures cause { FailsOnlyByDevice (T.failures tree.old) (T.failures tree.new) result }
    ensures failed { FailsAt is_device (T.failed tree.old) (T.failed tree.new) result (λ at.
        at ≡ path_of dir.now name.now) }
{
    let path = path_of(alloc, dir, name)?;
    holds_module(tree, &path)
}

/// Whether the file of this full name, below the directory, begins with `#%Module`, and whether a directory may be at
/// its path. The path is written in place of a text.
///
/// It fails as the tree does, at that path, and for want of memory.
pub(crate) fn see_below<T: Tree>(
    tree: &mut T,
    dir: &str,
    name: &str,
    path: &mut String,
) -> Result<SeenPath, TreeFault>
    ensures narrows { Narrows (T.agrees tree.old) (T.agrees tree.new) }
    ensures answer { IfOk result (λ seen. InEachPair (T.agrees tree.new) (λ files listings.
        is_module_below files dir.now name.now ≡ seen.begins)) }
    ensures nothing { IfOk result (λ seen. seen.may_list ≡ false → InEachPair (T.agrees tree.new) (λ files listings.
        listings (path_of dir.now name.now) ≡ None)) }
    ensures cause { FailsOnlyByDevice (T.failures tree.old) (T.failures tree.new) result }
    ensures failed { FailsAt is_device (T.failed tree.old) (T.failed tree.new) result (λ at.
        at ≡ path_of dir.now name.now) }
{
    write_path(path, dir, name)?;
    see_module(tree, path)
}

/// Whether the file of a version of a name, below the directory, begins with `#%Module`.
///
/// It fails as the tree does, at the path of that file, and for want of memory.
pub fn is_module_in<T: Tree>(
    alloc: Global,
    tree: &mut T,
    dir: &str,
    name: &str,
    version: &str,
) -> Result<bool, TreeFault>
    ensures narrows { Narrows (T.agrees tree.old) (T.agrees tree.new) }
    ensures answer { IfOk result (λ r. InEachPair (T.agrees tree.new) (λ files listings.
        is_module_in files dir.now name.now version.now ≡ r)) }
    ensures cause { FailsOnlyByDevice (T.failures tree.old) (T.failures tree.new) result }
    ensures failed { FailsAt is_device (T.failed tree.old) (T.failed tree.new) result (λ at.
        at ≡ path_of dir.now (path_of name.now version.now)) }
{
    let full = path_of(alloc, name, version)?;
    is_module_below(alloc, tree, dir, &full)
}
