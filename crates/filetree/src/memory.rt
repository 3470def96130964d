//! The tree in memory, which holds the files and directories that were put into it.
ghost use Rattle.std.specs.Prelude.{◌≡◌, ℕ, false, List, map, None, refl, IfOk, OnOk, OnErr, string_bytes, vec_items};
ghost use Rattle.filetree.specs.Contents.{files_of, listings_of};
ghost use Rattle.filetree.specs.Agreement.{with_at};

use crate::tree::{Tree, TreeFault};
use message::texts::copies;
use std::alloc::{AllocError, Global};
use std::collections::BTreeMap;

/// Files and directories in memory. A directory is listed by the names that were put at its path, and no path follows
/// from another: a file may stand where no directory has its name.
#[derive(Drop)]
pub struct MemoryTree {
    alloc: Global,
    files: BTreeMap<String, Vec<u8>>,
    listings: BTreeMap<String, Vec<String>>,
}

/// Copies of the names.
pub(crate) fn own_names(alloc: Global, names: &[&str]) -> Result<Vec<String>, AllocError>
    ensures { IfOk result (λ copy. map string_bytes (vec_items copy) ≡ map (λ name. name.now) names.now) }
{
    let mut copy = Vec::with_capacity(alloc, names.len())?;
    for name in names {
        copy.push(String::from_str(alloc, *name)?)?;
    }
    Ok(copy)
}

impl MemoryTree {
    /// A tree with no file and no directory.
    pub fn new(alloc: Global) -> MemoryTree
        ensures files { (path : List ℕ) → files_of result path ≡ None }
        ensures listings { (path : List ℕ) → listings_of result path ≡ None }
    {
        MemoryTree {
            alloc,
            files: BTreeMap::new(alloc),
            listings: BTreeMap::new(alloc),
        }
    }

    /// Puts a file with these bytes at the path, in place of one that was there.
    ///
    /// It fails only for want of memory, and the tree is then as it was.
    pub fn put_file(&mut self, path: &str, bytes: &[u8]) -> Result<(), AllocError>
        ensures put { OnOk result ((p : List ℕ)
            → files_of self.new p ≡ with_at (files_of self.old) path.now bytes.now p) }
        ensures refused { OnErr result ((p : List ℕ) → files_of self.new p ≡ files_of self.old p) }
        ensures listings { (p : List ℕ) → listings_of self.new p ≡ listings_of self.old p }
    {
        let key = String::from_str(self.alloc, path)?;
        let copy = bytes.to_vec(self.alloc)?;
        self.files.insert(key, copy)?;
        Ok(())
    }

    /// Puts a directory with these names at the path, in place of one that was there.
    ///
    /// It fails only for want of memory, and the tree is then as it was.
    pub fn put_directory(&mut self, path: &str, names: &[&str]) -> Result<(), AllocError>
        ensures put { OnOk result ((p : List ℕ)
            → listings_of self.new p ≡ with_at (listings_of self.old) path.now (map (λ name. name.now) names.now) p) }
        ensures refused { OnErr result ((p : List ℕ) → listings_of self.new p ≡ listings_of self.old p) }
        ensures files { (p : List ℕ) → files_of self.new p ≡ files_of self.old p }
    {
        let key = String::from_str(self.alloc, path)?;
        let copy = own_names(self.alloc, names)?;
        self.listings.insert(key, copy)?;
        Ok(())
    }
}

impl Tree for MemoryTree {
    ghost failures = { λ t. 0 };

    ghost failed = { λ t path. false };

    ghost agrees = { λ t files listings. ((path : List ℕ) → files path ≡ files_of t path)
        × ((path : List ℕ) → listings path ≡ listings_of t path) };

    ghost satisfiable = { λ t. (files_of t, listings_of t, (λ path. refl, λ path. refl)) };

    fn read(&mut self, path: &str) -> Result<Option<Vec<u8>>, TreeFault> {
        match self.files.get(path) {
            None => Ok(None),
            Some(bytes) => Ok(Some(bytes.clone()?)),
        }
    }

    fn begins_with(&mut self, path: &str, prefix: &[u8]) -> Result<bool, TreeFault> {
        match self.files.get(path) {
            None => Ok(false),
            Some(bytes) => Ok(bytes.as_slice().starts_with(prefix)),
        }
    }

    fn entries(&mut self, dir: &str) -> Result<Option<Vec<String>>, TreeFault> {
        match self.listings.get(dir) {
            None => Ok(None),
            Some(names) => Ok(Some(copies(self.alloc, names.as_slice())?)),
        }
    }
}
