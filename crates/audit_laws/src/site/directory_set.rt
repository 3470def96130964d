//! A set of directories, each once, in the order in which they were added.
ghost use Rattle.std.specs.Prelude.{◌≡◌, [], ◌∷◌, map, slice_get, IfOk, OnOk, string_bytes};
ghost use Rattle.std.specs.Option.{option_map};
ghost use Rattle.envvars.specs.Texts.{texts_in};
ghost use Rattle.filetree.specs.Modulefiles.{directories};
ghost use Rattle.audit_laws.specs.site.DirectorySets.{with_directories};

use indexmap::IndexSet;
use search::directories;
use std::alloc::{AllocError, Global};

/// The directories that are found, each once.
pub type Directories = IndexSet<String>;

/// Adds a directory, unless it is there.
fn push_directory(alloc: Global, dirs: &mut Directories, dir: &str) -> Result<(), AllocError>
    ensures { OnOk result (map string_bytes dirs.new.keys
        ≡ with_directories (map string_bytes dirs.old.keys) (dir.now ∷ [])) }
{
    let _is_new = dirs.insert(String::from_str(alloc, dir)?)?;
    Ok(())
}

/// Adds the directories in a text that is parted as MODULEPATH is.
pub fn push_directories(
    alloc: Global,
    dirs: &mut Directories,
    modulepath: &str,
) -> Result<(), AllocError>
    ensures { OnOk result (map string_bytes dirs.new.keys
        ≡ with_directories (map string_bytes dirs.old.keys) (directories modulepath.now)) }
{
    let parts = directories(alloc, modulepath)?;
    for dir in &parts {
        push_directory(alloc, dirs, *dir)?;
    }
    Ok(())
}

/// A copy of the directory at a place in their order, if there are so many.
pub fn directory_at(
    alloc: Global,
    dirs: &Directories,
    place: usize,
) -> Result<Option<String>, AllocError>
    ensures { IfOk result (λ dir.
        option_map string_bytes dir ≡ slice_get (map string_bytes dirs.now.keys) place) }
{
    match dirs.get_index(place) {
        Some(dir) => Ok(Some(String::from_str(alloc, dir.as_str())?)),
        None => Ok(None),
    }
}

/// The directories, in their order.
pub fn in_order(alloc: Global, dirs: Directories) -> Result<Vec<String>, AllocError>
    ensures { IfOk result (λ v. texts_in v ≡ map string_bytes dirs.keys) }
{
    dirs.into_iter().collect(alloc)
}
