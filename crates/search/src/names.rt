//! Full names and paths of what stands below a directory, folder by folder.
ghost use Rattle.std.specs.Prelude.{◌≡◌, ◌++◌, ◌∷◌, [], false, map, filter, None, IfOk, OnOk, string_bytes};
ghost use Rattle.std.specs.Prelude.{if◌then◌else◌};
ghost use Rattle.std.specs.List.Sorted.{IsPermutation, IsSortedBy};
ghost use Rattle.std.specs.Option.{option_map};
ghost use Rattle.std.specs.Ordering.{is_lt};
ghost use Rattle.modulename.specs.Versions.{version_order};
ghost use Rattle.filetree.specs.Agreement.{FailsAt, InEachPair, Narrows, FailsOnlyByDevice, is_device};
ghost use Rattle.search.specs.Single.{is_single};
ghost use Rattle.filetree.specs.Modulefiles.{path_of};
ghost use Rattle.search.specs.BelowFolder.{folder_path, name_below, names_in, is_selected_module, LooksAmong, AreAmong};
ghost use Rattle.search.specs.BelowFolder.{HasAllFolders};

use crate::module_files::see_below;
use crate::paths::{is_single, path_of, write_path};
use crate::selections::{is_selected, is_sought_name};
use filetree::{SeenPath, Tree, TreeFault};
use modulename::version_order;
use std::alloc::{AllocError, Global};

/// The path of a folder below a directory; of the directory itself where `prefix` is `None`.
pub fn folder_path(alloc: Global, dir: &str, prefix: Option<&str>) -> Result<String, AllocError>
    ensures { IfOk result (λ path. string_bytes path ≡ folder_path dir.now (option_map (λ f. f.now) prefix.entry)) }
{
    match prefix {
        None => String::from_str(alloc, dir),
        Some(prefix) => path_of(alloc, dir, prefix),
    }
}

/// Writes the full name of an entry of a folder below a directory, of the directory itself where `prefix` is `None`, in
/// place of a text.
fn write_name(name: &mut String, prefix: Option<&str>, entry: &str) -> Result<(), AllocError>
    ensures { OnOk result (string_bytes name.new ≡ name_below (option_map (λ f. f.now) prefix.entry) entry.now) }
{
    match prefix {
        None => {
            name.clear();
            name.push_str(entry)
        }
        Some(prefix) => write_path(name, prefix, entry),
    }
}

/// The full names of the entries of a folder; entries whose names are ill-spelled or not sought are passed over.
pub fn names_in(
    alloc: Global,
    texts: &[String],
    prefix: Option<&str>,
    entries: &[String],
) -> Result<Vec<String>, AllocError>
    ensures { IfOk result (λ names.
        map string_bytes names.items ≡ names_in (map string_bytes texts.now) (option_map (λ f. f.now) prefix.entry)
        (map string_bytes entries.now)) }
{
    let mut names = Vec::with_capacity(alloc, entries.len())?;
    let mut name = String::with_capacity(alloc, USUAL_NAME)?;
    for entry in entries {
        if is_single(entry) {
            write_name(&mut name, prefix, entry)?;
            if is_sought_name(texts, &name) {
                names.push(name.clone()?)?;
            }
        }
    }
    Ok(names)
}

/// Sorts names by version order.
pub fn sort_names(names: &mut Vec<String>) -> Result<(), AllocError>
    ensures same { IsPermutation names.old.items names.new.items }
    ensures sorted { OnOk result (IsSortedBy (λ n m. is_lt (version_order (string_bytes n) (string_bytes m)))
        names.new.items) }
{
    names.sort_by(|left, right| version_order(left, right))?;
    Ok(())
}

/// How many bytes most names have at most, with the `/` before them.
const USUAL_NAME: usize = 64;

/// The names below a directory that a listing goes on with.
#[derive(Drop)]
pub struct SortedNames {
    /// Those that are selected and whose files begin with `#%Module`.
    pub modules: Vec<String>,
    /// Those at whose paths a directory may be.
    pub folders: Vec<String>,
}

impl SortedNames {
    /// Adds a name by what is at its path. It is copied only where that may be both a module and a directory.
    fn add(&mut self, name: String, seen: SeenPath) -> Result<(), AllocError>
        ensures modules { OnOk result (map string_bytes self.new.modules.items
            ≡ map string_bytes self.old.modules.items ++ (if seen.begins then string_bytes name ∷ [] else [])) }
        ensures folders { OnOk result (map string_bytes self.new.folders.items
            ≡ map string_bytes self.old.folders.items ++ (if seen.may_list then string_bytes name ∷ [] else [])) }
    {
        match (seen.begins, seen.may_list) {
            (true, true) => {
                self.folders.push(name.clone()?)?;
                self.modules.push(name)?;
            }
            (true, false) => self.modules.push(name)?,
            (false, true) => self.folders.push(name)?,
            (false, false) => {}
        }
        Ok(())
    }
}

/// Whether a name is selected and its file, below the directory, begins with `#%Module`, as `begins`, and whether a
/// directory may be at its path. Only that of a selected name is looked at, and is then written in place of a text.
///
/// It fails as the tree does, at that path, and for want of memory.
fn see_selected<T: Tree>(
    tree: &mut T,
    texts: &[String],
    dir: &str,
    name: &str,
    path: &mut String,
) -> Result<SeenPath, TreeFault>
    ensures narrows { Narrows (T.agrees tree.old) (T.agrees tree.new) }
    ensures answer { IfOk result (λ seen. InEachPair (T.agrees tree.new) (λ files folders.
        is_selected_module files (map string_bytes texts.now) dir.now name.now ≡ seen.begins)) }
    ensures nothing { IfOk result (λ seen. seen.may_list ≡ false → InEachPair (T.agrees tree.new) (λ files folders.
        folders (path_of dir.now name.now) ≡ None)) }
    ensures cause { FailsOnlyByDevice (T.failures tree.old) (T.failures tree.new) result }
    ensures failed { FailsAt is_device (T.failed tree.old) (T.failed tree.new) result (λ at.
        at ≡ path_of dir.now name.now) }
{
    if is_selected(texts, name) {
        see_below(tree, dir, name, path)
    } else {
        Ok(SeenPath {
            begins: false,
            may_list: true,
        })
    }
}

/// Sorts out the names below a directory.
///
/// It fails as the tree does, at the path of one of the names, and for want of memory.
pub fn sort_out<T: Tree>(
    alloc: Global,
    tree: &mut T,
    texts: &[String],
    dir: &str,
    names: Vec<String>,
) -> Result<SortedNames, TreeFault>
    ensures narrows { Narrows (T.agrees tree.old) (T.agrees tree.new) }
    ensures answer { IfOk result (λ sorted. InEachPair (T.agrees tree.new) (λ files folders.
        map string_bytes sorted.modules.items
        ≡ filter (is_selected_module files (map string_bytes texts.now) dir.now) (map string_bytes names.items))) }
    ensures named { IfOk result (λ sorted.
        AreAmong (map string_bytes sorted.folders.items) (map string_bytes names.items)) }
    ensures others { IfOk result (λ sorted. InEachPair (T.agrees tree.new) (λ files folders.
        HasAllFolders folders dir.now (map string_bytes names.items) (map string_bytes sorted.folders.items))) }
    ensures cause { FailsOnlyByDevice (T.failures tree.old) (T.failures tree.new) result }
    ensures failed { FailsAt is_device (T.failed tree.old) (T.failed tree.new) result
        (LooksAmong dir.now (map string_bytes names.items)) }
{
    let mut sorted = SortedNames {
        modules: Vec::with_capacity(alloc, names.len())?,
        folders: Vec::new(alloc),
    };
    let mut path = String::with_capacity(alloc, dir.len().saturating_add(USUAL_NAME))?;
    for name in names {
        let seen = see_selected(tree, texts, dir, &name, &mut path)?;
        sorted.add(name, seen)?;
    }
    Ok(sorted)
}
