//! The tree over a real disk, which caches each answer and gives it again.
ghost use Rattle.std.specs.Prelude.{◌≡◌, ◌+◌, if◌then◌else◌, ℕ, List, None, Some, Option, IfOk, IfSome, OnOk};
ghost use Rattle.std.specs.Prelude.{false, true, vec_len};
ghost use Rattle.std.specs.HashMap.{get_by_text};
ghost use Rattle.std.specs.Option.{ForSome};
ghost use Rattle.filetree.specs.Agreement.{FailsAt, FailsIf, Files, FailsOnlyByDevice, InEachPair, Listings, Narrows};
ghost use Rattle.filetree.specs.Agreement.{begins_with, file_answer, is_device, listing_answer};
ghost use Rattle.filetree.specs.Disk.{cached-fits, file_at, has_failed, listing_at};
ghost use Rattle.filetree.specs.Known.{Fits, IsAnswered, IsBegun, IsLoaded, SaysNoLess};
ghost use Rattle.filetree.specs.Known.{is_read_in_part, is_unlisted};
ghost use Rattle.filetree.specs.Systems.{IsFault, IsHiddenAndAbsent, IsHiddenIn};
ghost use Rattle.filetree.specs.declared.known.KnownPath.{KnownPath};

use crate::begun::OpenFile;
use crate::known::{KnownPath, USUAL};
use crate::load::{
    FileStart, load_begun, load_file, load_likely_directory, load_listing, load_names, load_prefix,
    load_rest,
};
use crate::system::System;
use crate::tree::{SeenPath, Tree, TreeFault};
use std::alloc::AllocError;
use std::collections::HashMap;

/// The files and directories of a disk. Each answer is cached and given again, so the system is asked once for it; a
/// failure is not cached.
///
/// The answer is `None` where something of another type is at the path, as a directory where a file is asked for, or a
/// pipe, a socket or a device, which are never opened; where a symbolic link points to nothing; where a component of
/// the path is a file; and where the path has a NUL. Any other failure is `Device`: a missing permission, a loop of
/// symbolic links, a path that the system refuses, a directory with a name that is not UTF-8, a file or directory that
/// is gone after its type was asked for, and a file whose first bytes are no longer those that were read before.
///
/// The last file that `begins_with` read stays open, and `read` reads on in it.
///
/// A name that begins with a point, as those of default files, is looked for in the listing of its directory where that
/// is cached: where the listing hasn't the name, nothing is there, and the system isn't asked.
#[derive(Drop)]
pub struct DiskTree<S: System + AllocGlobal + Clone + Drop> {
    system: S,
    /// What is known of each path that was asked for.
    known: HashMap<String, KnownPath>,
    /// The paths at which the device failed, in the order of the failures.
    failed: Vec<String>,
    /// How many directories were found in a row where files were asked for, at most `USUAL`.
    directories_in_row: u8,
    /// The last file that `begins_with` read, where it can be read on.
    begun: Option<OpenFile<S::File>>,
    ghost opened: { ForSome begun (λ begun. ∥ IsBegun S.File.remaining (S.answers system) begun ∥₁) },
    ghost answered: { ∥ ((path : List ℕ) (k : KnownPath) → get_by_text known path ≡ Some k
        → IsAnswered (S.answers system) path k) ∥₁ },
}

/// The directory and the name of a path, where the name begins with a point.
fn hidden_name(path: &str) -> Option<(&str, &str)>
    ensures { IfSome result (λ parts. IsHiddenIn parts.0.now parts.1.now path.entry.now) }
{
    let (dir, name) = path.rsplit_once('/')?;
    if name.starts_with('.') {
        Some((dir, name))
    } else {
        None
    }
}

impl<S: System + AllocGlobal + Clone + Drop> DiskTree<S> {
    /// The files and directories that the runtime reads, with no answer cached yet.
    pub fn new(system: S) -> DiskTree<S>
        ensures { (files : Files) (listings : Listings) → ⟦<DiskTree<S> as Tree>⟧.agrees result files listings }
    {
        let alloc = system.alloc();
        DiskTree {
            system,
            known: HashMap::new(alloc),
            failed: Vec::new(alloc),
            directories_in_row: 0,
            begun: None,
        }
    }

    /// The fault; where it is the device's, the path is added to those at which the device failed.
    fn record_failure(&mut self, path: &str, fault: TreeFault) -> TreeFault
        requires { ∥ IsFault (S.answers self.old.system) path.now fault ∥₁ }
        ensures known { self.new.known ≡ self.old.known }
        ensures failed { FailsIf (is_device result) (has_failed self.old.failed)
            (has_failed self.new.failed) (λ at. at ≡ path.now) }
        ensures count { vec_len self.new.failed
            ≡ (if is_device result then vec_len self.old.failed + 1 else vec_len self.old.failed) }
        ensures memory { fault ≡ TreeFault.OutOfMemory → result ≡ TreeFault.OutOfMemory }
    {
        match fault {
            TreeFault::OutOfMemory => TreeFault::OutOfMemory,
            TreeFault::Device => {
                let Ok(path) = String::from_str(self.system.alloc(), path) else {
                    return TreeFault::OutOfMemory;
                };
                if self.failed.push(path).is_err() {
                    return TreeFault::OutOfMemory;
                }
                TreeFault::Device
            }
        }
    }

    /// Caches what is known of a path, in place of what was, which said no more.
    fn learn(&mut self, path: &str, known: KnownPath) -> Result<(), AllocError>
        requires answered { ∥ IsAnswered (S.answers self.old.system) path.now known ∥₁ }
        requires later { (earlier : KnownPath) → get_by_text self.old.known path.now ≡ Some earlier
            → SaysNoLess known earlier }
        ensures narrows { Narrows (⟦<DiskTree<S> as Tree>⟧.agrees self.old)
            (⟦<DiskTree<S> as Tree>⟧.agrees self.new) }
        ensures known { OnOk result (InEachPair (⟦<DiskTree<S> as Tree>⟧.agrees self.new)
            (λ files listings. Fits known (files path.now) (listings path.now))) }
        ensures failed { self.new.failed ≡ self.old.failed }
    {
        let key = String::from_str(self.system.alloc(), path)?;
        self.known.insert(key, known)?;
        Ok(())
    }

    /// The file at the path, by what the system answered, which is cached.
    fn answer_file(
        &mut self,
        path: &str,
        loaded: Result<KnownPath, TreeFault>,
    ) -> Result<Option<Vec<u8>>, TreeFault>
        requires answered { ∥ IsLoaded (S.answers self.old.system) path.now loaded ∥₁ }
        requires later { IfOk loaded (λ known. (earlier : KnownPath) → get_by_text self.old.known path.now ≡ Some earlier
            → SaysNoLess known earlier) }
        requires whole { IfOk loaded (λ known. is_read_in_part known ≡ false) }
        ensures narrows { Narrows (⟦<DiskTree<S> as Tree>⟧.agrees self.old)
            (⟦<DiskTree<S> as Tree>⟧.agrees self.new) }
        ensures answer { IfOk result (λ answer. InEachPair (⟦<DiskTree<S> as Tree>⟧.agrees self.new)
            (λ files listings. files path.now ≡ file_answer answer)) }
        ensures failed { FailsAt is_device (has_failed self.old.failed)
            (has_failed self.new.failed) result (λ at. at ≡ path.now) }
        ensures cause { FailsOnlyByDevice (vec_len self.old.failed) (vec_len self.new.failed) result }
    {
        match loaded {
            Ok(known) => {
                let answer = known.file()?;
                self.learn(path, known)?;
                Ok(answer)
            }
            Err(fault) => Err(self.record_failure(path, fault)),
        }
    }

    /// The directory at the path, by what the system answered, which is cached.
    fn answer_listing(
        &mut self,
        dir: &str,
        loaded: Result<KnownPath, TreeFault>,
    ) -> Result<Option<Vec<String>>, TreeFault>
        requires answered { IsLoaded (S.answers self.old.system) dir.now loaded }
        requires later { IfOk loaded (λ known. (earlier : KnownPath) → get_by_text self.old.known dir.now ≡ Some earlier
            → SaysNoLess known earlier) }
        requires listed { IfOk loaded (λ known. is_unlisted known ≡ false) }
        ensures narrows { Narrows (⟦<DiskTree<S> as Tree>⟧.agrees self.old)
            (⟦<DiskTree<S> as Tree>⟧.agrees self.new) }
        ensures answer { IfOk result (λ answer. InEachPair (⟦<DiskTree<S> as Tree>⟧.agrees self.new)
            (λ files listings. listings dir.now ≡ listing_answer answer)) }
        ensures failed { FailsAt is_device (has_failed self.old.failed)
            (has_failed self.new.failed) result (λ at. at ≡ dir.now) }
        ensures cause { FailsOnlyByDevice (vec_len self.old.failed) (vec_len self.new.failed) result }
    {
        match loaded {
            Ok(known) => {
                let answer = known.names(self.system.alloc())?;
                self.learn(dir, known)?;
                Ok(answer)
            }
            Err(fault) => Err(self.record_failure(dir, fault)),
        }
    }

    /// Whether the file at the path begins with these bytes, where this is what is known of it. Where that is too little
    /// the whole file is read.
    fn answer_prefix(
        &mut self,
        path: &str,
        prefix: &[u8],
        known: Option<bool>,
    ) -> Result<bool, TreeFault>
        requires { IfSome known (λ answer. InEachPair (⟦<DiskTree<S> as Tree>⟧.agrees self.old)
            (λ files listings. begins_with prefix.now (files path.now) ≡ answer)) }
        ensures narrows { Narrows (⟦<DiskTree<S> as Tree>⟧.agrees self.old)
            (⟦<DiskTree<S> as Tree>⟧.agrees self.new) }
        ensures answer { IfOk result (λ answer. InEachPair (⟦<DiskTree<S> as Tree>⟧.agrees self.new)
            (λ files listings. begins_with prefix.now (files path.now) ≡ answer)) }
        ensures failed { FailsAt is_device (has_failed self.old.failed)
            (has_failed self.new.failed) result (λ at. at ≡ path.now) }
        ensures cause { FailsOnlyByDevice (vec_len self.old.failed) (vec_len self.new.failed) result }
    {
        if let Some(answer) = known {
            return Ok(answer);
        }
        match self.read(path)? {
            None => Ok(false),
            Some(bytes) => Ok(bytes.as_slice().starts_with(prefix)),
        }
    }

    /// Whether the path has a hidden name that the directory, which was listed, hasn't.
    fn is_hidden_and_absent(&self, path: &str) -> bool
        ensures { result ≡ true → ∥ IsHiddenAndAbsent (S.answers self.now.system) path.now ∥₁ }
    {
        let Some((dir, name)) = hidden_name(path) else {
            return false;
        };
        match self.known.get(dir) {
            Some(listing) => listing.lacks_hidden(name),
            None => false,
        }
    }

    /// What is at a path of which nothing is known, of whose file the first `size` bytes are read.
    fn load_start(&self, path: &str, size: usize) -> Result<KnownPath, TreeFault>
        ensures { ∥ IsLoaded (S.answers self.now.system) path.now result ∥₁ }
    {
        if self.is_hidden_and_absent(path) {
            Ok(KnownPath::Neither)
        } else if self.directories_in_row == USUAL {
            load_likely_directory(&self.system, path, size)
        } else {
            load_prefix(&self.system, path, size)
        }
    }

    /// What is at a path of which nothing is known, of whose file the first `size` bytes are read, and which stays open.
    #[tactic(auto, using(crate::proofs::BegunFiles::begun_too))]
    fn load_begun(&mut self, path: &str, size: usize) -> Result<KnownPath, TreeFault>
        ensures answered { ∥ IsLoaded (S.answers self.new.system) path.now result ∥₁ }
        ensures system { self.new.system ≡ self.old.system }
        ensures known { self.new.known ≡ self.old.known }
        ensures failed { self.new.failed ≡ self.old.failed }
    {
        if self.is_hidden_and_absent(path) {
            return Ok(KnownPath::Neither);
        }
        match load_begun(&self.system, path, size) {
            Ok(FileStart { known, begun }) => {
                self.begun = begun;
                Ok(known)
            }
            Err(fault) => Err(fault),
        }
    }

    /// What is seen at the path, of which nothing is known, by what the system answered, which is cached.
    fn answer_start(
        &mut self,
        path: &str,
        prefix: &[u8],
        loaded: Result<KnownPath, TreeFault>,
    ) -> Result<SeenPath, TreeFault>
        requires unknown { get_by_text self.old.known path.now ≡ None }
        requires answered { ∥ IsLoaded (S.answers self.old.system) path.now loaded ∥₁ }
        ensures narrows { Narrows (⟦<DiskTree<S> as Tree>⟧.agrees self.old)
            (⟦<DiskTree<S> as Tree>⟧.agrees self.new) }
        ensures answer { IfOk result (λ seen. InEachPair (⟦<DiskTree<S> as Tree>⟧.agrees self.new)
            (λ files listings. begins_with prefix.now (files path.now) ≡ seen.begins)) }
        ensures nothing { IfOk result (λ seen. seen.may_list ≡ false
            → InEachPair (⟦<DiskTree<S> as Tree>⟧.agrees self.new) (λ files listings. listings path.now ≡ None)) }
        ensures failed { FailsAt is_device (has_failed self.old.failed)
            (has_failed self.new.failed) result (λ at. at ≡ path.now) }
        ensures cause { FailsOnlyByDevice (vec_len self.old.failed) (vec_len self.new.failed) result }
    {
        match loaded {
            Ok(known) => {
                self.directories_in_row = known.row_after(self.directories_in_row);
                let answer = known.begins_with(prefix);
                let may_list = known.is_directory();
                self.learn(path, known)?;
                let begins = self.answer_prefix(path, prefix, answer)?;
                Ok(SeenPath { begins, may_list })
            }
            Err(fault) => Err(self.record_failure(path, fault)),
        }
    }

    /// What is seen at the path, of which nothing is known. So many bytes of a file are read as it is to begin with.
    fn see_unknown(&mut self, path: &str, prefix: &[u8]) -> Result<SeenPath, TreeFault>
        requires { get_by_text self.old.known path.now ≡ None }
        ensures narrows { Narrows (⟦<DiskTree<S> as Tree>⟧.agrees self.old)
            (⟦<DiskTree<S> as Tree>⟧.agrees self.new) }
        ensures answer { IfOk result (λ seen. InEachPair (⟦<DiskTree<S> as Tree>⟧.agrees self.new)
            (λ files listings. begins_with prefix.now (files path.now) ≡ seen.begins)) }
        ensures nothing { IfOk result (λ seen. seen.may_list ≡ false
            → InEachPair (⟦<DiskTree<S> as Tree>⟧.agrees self.new) (λ files listings. listings path.now ≡ None)) }
        ensures failed { FailsAt is_device (has_failed self.old.failed)
            (has_failed self.new.failed) result (λ at. at ≡ path.now) }
        ensures cause { FailsOnlyByDevice (vec_len self.old.failed) (vec_len self.new.failed) result }
    {
        let loaded = self.load_start(path, prefix.len());
        self.answer_start(path, prefix, loaded)
    }

    /// Whether the file at the path, of which nothing is known, begins with these bytes. It stays open.
    fn begin_unknown(&mut self, path: &str, prefix: &[u8]) -> Result<bool, TreeFault>
        requires { get_by_text self.old.known path.now ≡ None }
        ensures narrows { Narrows (⟦<DiskTree<S> as Tree>⟧.agrees self.old)
            (⟦<DiskTree<S> as Tree>⟧.agrees self.new) }
        ensures answer { IfOk result (λ answer. InEachPair (⟦<DiskTree<S> as Tree>⟧.agrees self.new)
            (λ files listings. begins_with prefix.now (files path.now) ≡ answer)) }
        ensures failed { FailsAt is_device (has_failed self.old.failed)
            (has_failed self.new.failed) result (λ at. at ≡ path.now) }
        ensures cause { FailsOnlyByDevice (vec_len self.old.failed) (vec_len self.new.failed) result }
    {
        let loaded = self.load_begun(path, prefix.len());
        Ok(self.answer_start(path, prefix, loaded)?.begins)
    }
}

impl<S: System + AllocGlobal + Clone + Drop> Tree for DiskTree<S> {
    ghost failures = { λ t. vec_len t.failed };

    ghost failed = { λ t. has_failed t.failed };

    ghost agrees = { λ t files listings. (path : List ℕ) (known : _) → get_by_text t.known path ≡ Some known
        → Fits known (files path) (listings path) };

    ghost satisfiable = { λ t. (
      λ path. file_at (get_by_text t.known path),
      λ path. listing_at (get_by_text t.known path),
      λ path known had. cached-fits (get_by_text t.known path) known had,
    ) };

    fn read(&mut self, path: &str) -> Result<Option<Vec<u8>>, TreeFault> {
        match self.known.get(path) {
            None => {
                let loaded = load_file(&self.system, path);
                self.answer_file(path, loaded)
            }
            Some(KnownPath::File(prefix)) => {
                let begun = self.begun.take();
                let loaded = load_rest(&self.system, path, prefix, begun);
                self.answer_file(path, loaded)
            }
            Some(known) => Ok(known.file()?),
        }
    }

    fn begins_with(&mut self, path: &str, prefix: &[u8]) -> Result<bool, TreeFault> {
        match self.known.get(path) {
            None => self.begin_unknown(path, prefix),
            Some(known) => {
                let answer = known.begins_with(prefix);
                self.answer_prefix(path, prefix, answer)
            }
        }
    }

    fn may_list(&self, path: &str) -> bool {
        match self.known.get(path) {
            None => true,
            Some(known) => known.is_directory(),
        }
    }

    fn see(&mut self, path: &str, prefix: &[u8]) -> Result<SeenPath, TreeFault> {
        match self.known.get(path) {
            None => self.see_unknown(path, prefix),
            Some(known) => {
                let answer = known.begins_with(prefix);
                let may_list = known.is_directory();
                let begins = self.answer_prefix(path, prefix, answer)?;
                Ok(SeenPath { begins, may_list })
            }
        }
    }

    fn entries(&mut self, dir: &str) -> Result<Option<Vec<String>>, TreeFault> {
        match self.known.get(dir) {
            None => {
                let loaded = load_listing(&self.system, dir);
                self.answer_listing(dir, loaded)
            }
            Some(KnownPath::Directory) => {
                let loaded = load_names(&self.system, dir);
                self.answer_listing(dir, loaded)
            }
            Some(known) => Ok(known.names(self.system.alloc())?),
        }
    }
}
