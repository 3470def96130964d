//! The walk through the folders below a directory of MODULEPATH that lists their modules, all or those that texts select.
ghost use Rattle.std.specs.Prelude.{◌≡◌, ◌++◌, ◌+◌, ◌≤◌, List, map, Some, length, OnOk, IfOk, string_bytes};
ghost use Rattle.std.specs.Option.{option_map};
ghost use Rattle.filetree.specs.Agreement.{FailsWhere, InEachPair, Narrows, FailsOnlyByDevice, is_device};
ghost use Rattle.search.specs.Listed as listed;
ghost use Rattle.search.specs.BelowFolder.{folder_path, parts_of, names_in, IsUnder, AreAmong, HasAllFolders};
ghost use Rattle.search.specs.Walks.{AreEntriesOfFiles, AreListingEntries, IsDefaultOf, LooksForDefault};
ghost use Rattle.search.specs.Walks.{LooksFromFolder};
ghost use Rattle.search.specs.ListingEntries.{listing_entry_view};

use crate::default_files::DefaultFiles;
use crate::defaults::{NamedVersion, named_default};
use crate::listing_entries::{ListingEntry, push_listing_entries};
use crate::names::{SortedNames, folder_path, names_in, sort_names, sort_out};
use crate::paths::path_of;
use filetree::{Tree, TreeFault};
use std::alloc::Global;

/// A walk through the folders below a directory. A folder is given by its name below the directory; `None` is the
/// directory itself.
#[derive_where(Clone, Copy)]
pub(crate) struct FolderWalk<'a, D> {
    pub(crate) alloc: Global,
    /// What evaluates default files.
    pub(crate) default_files: &'a D,
    /// The texts that select names.
    pub(crate) texts: &'a [String],
    /// The directory of MODULEPATH below which the walk goes.
    pub(crate) dir: &'a str,
}

impl<D: DefaultFiles> FolderWalk<'_, D> {
    /// The full name of the default that the default files of a folder, with these entries, name. Those of the
    /// directory itself aren't read, and a fault in one is no default.
    fn default_name<T: Tree>(
        &self,
        tree: &mut T,
        prefix: Option<&str>,
        entries: &[String],
    ) -> Result<Option<String>, TreeFault>
        requires { InEachPair (T.agrees tree.old) (λ files folders.
            folders (folder_path self.now.dir.now (option_map (λ f. f.now) prefix))
            ≡ Some (map string_bytes entries.now)) }
        ensures narrows { Narrows (T.agrees tree.old) (T.agrees tree.new) }
        ensures answer { IfOk result (λ default. InEachPair (T.agrees tree.new) (λ files folders.
            IsDefaultOf (D.results self.now.default_files.now) files folders self.now.dir.now
            (option_map (λ f. f.now) prefix.entry)
            (option_map string_bytes default))) }
        ensures cause { FailsOnlyByDevice (T.failures tree.old) (T.failures tree.new) result }
        ensures failed { FailsWhere is_device T.agrees T.failed tree.old tree.new result (λ files folders.
            LooksForDefault (D.results self.now.default_files.now) files folders self.now.dir.now
            (option_map (λ f. f.now) prefix.entry)) }
    {
        let Some(prefix) = prefix else {
            return Ok(None);
        };
        match named_default(
            self.alloc,
            tree,
            self.default_files,
            self.dir,
            prefix,
            entries,
        )? {
            NamedVersion::Version(version) => Ok(Some(path_of(self.alloc, prefix, &version)?)),
            NamedVersion::Nothing => Ok(None),
            NamedVersion::BadFile(_) => Ok(None),
        }
    }

    /// Adds the selected modules that are files in a folder with these entries, of which these are sought names, and gives
    /// the names that may be those of folders. Default files are read only where there is such a module.
    fn list_files<T: Tree>(
        &self,
        tree: &mut T,
        prefix: Option<&str>,
        entries: &[String],
        names: Vec<String>,
        listing_entries: &mut Vec<ListingEntry>,
    ) -> Result<Vec<String>, TreeFault>
        requires listed { InEachPair (T.agrees tree.old) (λ files folders.
            folders (folder_path self.now.dir.now (option_map (λ f. f.now) prefix))
            ≡ Some (map string_bytes entries.now)) }
        requires named { AreAmong (map string_bytes names.items)
            (names_in (map string_bytes self.now.texts.now) (option_map (λ f. f.now) prefix)
            (map string_bytes entries.now)) }
        ensures named { IfOk result (λ below.
            AreAmong (map string_bytes below.items) (map string_bytes names.items)) }
        ensures others { IfOk result (λ below. InEachPair (T.agrees tree.new) (λ files folders.
            HasAllFolders folders self.now.dir.now (map string_bytes names.items)
            (map string_bytes below.items))) }
        ensures narrows { Narrows (T.agrees tree.old) (T.agrees tree.new) }
        ensures added { OnOk result (InEachPair (T.agrees tree.new) (λ files folders. (more : List listed.ListingEntry)
            × (map listing_entry_view listing_entries.new.items ≡ map listing_entry_view listing_entries.old.items ++ more)
            × AreEntriesOfFiles (D.results self.now.default_files.now) files folders
            (map string_bytes self.now.texts.now) self.now.dir.now (map string_bytes names.items) more)) }
        ensures cause { FailsOnlyByDevice (T.failures tree.old) (T.failures tree.new) result }
        ensures failed { FailsWhere is_device T.agrees T.failed tree.old tree.new result (λ files folders.
            LooksFromFolder (D.results self.now.default_files.now) files folders (map string_bytes self.now.texts.now)
            self.now.dir.now (option_map (λ f. f.now) prefix.entry)) }
    {
        let SortedNames { modules, folders } = sort_out(
            self.alloc, tree, self.texts, self.dir, names,
        )?;
        if modules.is_empty() {
            return Ok(folders);
        }
        let default = self.default_name(tree, prefix, entries)?;
        push_listing_entries(listing_entries, modules, default.as_deref())?;
        Ok(folders)
    }

    /// Adds the selected modules in a folder and in the folders below it, `levels` levels of names in all. A name has
    /// four parts at most, so the levels that are asked for have to suffice for that.
    pub(crate) fn list_folder<T: Tree>(
        &self,
        tree: &mut T,
        prefix: Option<&str>,
        levels: usize,
        listing_entries: &mut Vec<ListingEntry>,
    ) -> Result<(), TreeFault>
        requires { 4 ≤ length (parts_of (option_map (λ f. f.now) prefix)) + levels }
        ensures narrows { Narrows (T.agrees tree.old) (T.agrees tree.new) }
        ensures added { OnOk result (InEachPair (T.agrees tree.new) (λ files folders. (more : List listed.ListingEntry)
            × (map listing_entry_view listing_entries.new.items ≡ map listing_entry_view listing_entries.old.items ++ more)
            × AreListingEntries (D.results self.now.default_files.now) files folders self.now.dir.now
            (IsUnder files folders (map string_bytes self.now.texts.now) self.now.dir.now
            (option_map (λ f. f.now) prefix.entry)) more)) }
        ensures cause { FailsOnlyByDevice (T.failures tree.old) (T.failures tree.new) result }
        ensures failed { FailsWhere is_device T.agrees T.failed tree.old tree.new result (λ files folders.
            LooksFromFolder (D.results self.now.default_files.now) files folders (map string_bytes self.now.texts.now)
            self.now.dir.now (option_map (λ f. f.now) prefix.entry)) }
    {
        if levels == 0 {
            return Ok(());
        }
        let folder = folder_path(self.alloc, self.dir, prefix)?;
        let Some(entries) = tree.entries(&folder)? else {
            return Ok(());
        };
        let mut names = names_in(self.alloc, self.texts, prefix, &entries)?;
        sort_names(&mut names)?;
        let below = self.list_files(tree, prefix, &entries, names, listing_entries)?;
        for name in &below {
            self.list_folder(tree, Some(name.as_str()), levels - 1, listing_entries)?;
        }
        Ok(())
    }
}
