//! A tree in which nothing stands at some paths.
ghost use Rattle.std.specs.Prelude.{◌≡◌, ◌⊎◌, ◌≤◌, ◌+◌, ◌++◌, List, [], ◌∷◌, false, true, length, map, string_bytes};
ghost use Rattle.std.specs.Prelude.{IfErr, IfOk, OnOk};
ghost use Rattle.std.specs.Option.{ForSome};
ghost use Rattle.message.specs.Messages.{Text};
ghost use Rattle.filetree.specs.Agreement.{ReadsOn};
ghost use Rattle.filetree.specs.declared.tree.TreeFault.TheVariants as faults;
ghost use Rattle.filetree.specs.hiding.Hidden.{AllFailed, AreAllHidden, AreApart, HidesMore, IsOneTooMany, MayAgreeWithout};
ghost use Rattle.filetree.specs.hiding.Hidden.{count_of, hidden_with, hides_more, is_among, without};
ghost use Rattle.filetree.specs.hiding.Left.{left_without};

use crate::{Tree, TreeFault};
use std::alloc::{AllocError, Global};
use std::mem;

/// How many paths are hidden before the call fails.
pub const MOST_HIDDEN: usize = 1_000;

/// Whether a path is one of some.
fn is_among(paths: &[String], path: &str) -> bool
    ensures { result ≡ is_among (map string_bytes paths.now) path.now }
{
    paths.iter().any(|other| path == other.as_str())
}

/// A tree without what stands at some paths: there no file is seen, and no directory. A path at which the tree fails is
/// hidden at once, unless something was seen there before.
#[derive(Drop)]
pub struct HidingTree<T: Tree + Drop> {
    alloc: Global,
    /// The whole tree.
    pub tree: T,
    /// The paths at which nothing is seen.
    pub hidden: Vec<String>,
    /// The paths at which something was seen.
    seen: Vec<String>,
    /// The path at which the device failed last, of those that weren't hidden at once, where memory sufficed to keep it.
    failed_at: Option<String>,
    /// The device has failed for each of these paths.
    ghost counted: { length hidden.items + count_of failed_at ≤ T.failures tree },
    /// The device has failed at each hidden path.
    ghost failed: { AllFailed (T.failed tree) (map string_bytes hidden.items) },
    /// It has failed at the path that is kept.
    ghost failed_there: { ForSome failed_at (λ path. T.failed tree (string_bytes path) ≡ true) },
    /// Nothing was seen at a hidden path.
    ghost apart: { AreApart (map string_bytes hidden.items) (map string_bytes seen.items) },
}

impl<T: Tree + Drop> HidingTree<T> {
    /// The tree with nothing hidden.
    pub fn new(alloc: Global, tree: T) -> HidingTree<T>
        ensures tree { result.tree ≡ tree }
        ensures hidden { result.hidden.items ≡ [] }
    {
        HidingTree {
            alloc,
            tree,
            hidden: Vec::new(alloc),
            seen: Vec::new(alloc),
            failed_at: None,
        }
    }

    /// Hides what stands at the path at which the device failed last, of those that weren't hidden at once. Whether
    /// there is one, and fewer than a thousand are hidden. What is to be seen then is asked for anew.
    ///
    /// It fails for want of memory.
    pub fn hide_failed(&mut self) -> Result<bool, AllocError>
        ensures tree { self.new.tree ≡ self.old.tree }
        ensures more { IfOk result (λ more. more ≡ hides_more self.old.hidden.items self.old.failed_at) }
        ensures hidden { OnOk result (self.new.hidden.items ≡ hidden_with self.old.hidden.items self.old.failed_at) }
        ensures kept { IfErr result (λ e. self.new.hidden.items ≡ self.old.hidden.items) }
    {
        let Some(path) = self.failed_at.take() else {
            return Ok(false);
        };
        if self.hidden.len() >= MOST_HIDDEN {
            return Ok(false);
        }
        self.seen.clear();
        self.hidden.push(path)?;
        Ok(true)
    }

    /// Hides what `hide_failed` hides, and besides each path at which something was seen and the device fails by now:
    /// all of these are read once more. Whether `hide_failed` hides one, and all could be hidden, to a thousand. What
    /// is to be seen then is asked for anew.
    ///
    /// It fails for want of memory; then too no path is shown again.
    pub fn hide_all_failed(&mut self) -> Result<bool, AllocError>
        ensures reads { ReadsOn T.agrees T.failures self.old.tree self.new.tree }
        ensures hidden { OnOk result (HidesMore (map string_bytes self.old.seen.items)
            (T.failures self.old.tree) (T.failures self.new.tree)
            (map string_bytes (hidden_with self.old.hidden.items self.old.failed_at))
            (map string_bytes self.new.hidden.items)) }
        ensures all { IfOk result (λ all. all ≡ true
            → (hides_more self.old.hidden.items self.old.failed_at ≡ true)
            × AreAllHidden (map string_bytes self.old.seen.items) (T.agrees self.new.tree)
            (T.failed self.old.tree) (T.failed self.new.tree) (map string_bytes self.new.hidden.items)) }
        ensures fewer { IfOk result (λ all. all ≡ false
            → ((hides_more self.old.hidden.items self.old.failed_at ≡ false)
            × (self.new.hidden.items ≡ self.old.hidden.items))
            ⊎ IsOneTooMany (map string_bytes self.old.seen.items) (T.failed self.new.tree)
            (T.failures self.old.tree) (T.failures self.new.tree)
            (map string_bytes (hidden_with self.old.hidden.items self.old.failed_at))
            (map string_bytes self.new.hidden.items)) }
        ensures kept { IfErr result (λ e. (more : List Text)
            × (map string_bytes self.new.hidden.items ≡ map string_bytes self.old.hidden.items ++ more)) }
    {
        let seen = mem::replace(&mut self.seen, Vec::new(self.alloc));
        if !self.hide_failed()? {
            return Ok(false);
        }
        self.hide_failing(seen.as_slice())
    }

    /// Reads these paths once more, and hides each at which the device fails, while fewer than a thousand are hidden.
    /// Whether all could be. What is to be seen then is asked for anew.
    fn hide_failing(&mut self, paths: &[String]) -> Result<bool, AllocError>
        ensures reads { ReadsOn T.agrees T.failures self.old.tree self.new.tree }
        ensures hidden { HidesMore (map string_bytes paths.now)
            (T.failures self.old.tree) (T.failures self.new.tree)
            (map string_bytes self.old.hidden.items) (map string_bytes self.new.hidden.items) }
        ensures all { IfOk result (λ all. all ≡ true → AreAllHidden (map string_bytes paths.now)
            (T.agrees self.new.tree) (T.failed self.old.tree) (T.failed self.new.tree)
            (map string_bytes self.new.hidden.items)) }
        ensures fewer { IfOk result (λ all. all ≡ false → IsOneTooMany (map string_bytes paths.now)
            (T.failed self.new.tree) (T.failures self.old.tree) (T.failures self.new.tree)
            (map string_bytes self.old.hidden.items) (map string_bytes self.new.hidden.items)) }
    {
        self.seen.clear();
        for path in paths {
            if !self.hide_if_failing(path.as_str())? {
                return Ok(false);
            }
        }
        Ok(true)
    }

    /// Reads a path once more, and hides it where the device fails and fewer than a thousand are hidden. Whether it is
    /// hidden then, or could be read.
    fn hide_if_failing(&mut self, path: &str) -> Result<bool, AllocError>
        requires { self.old.seen.items ≡ [] }
        ensures seen { self.new.seen.items ≡ [] }
        ensures reads { ReadsOn T.agrees T.failures self.old.tree self.new.tree }
        ensures hidden { HidesMore (path.now ∷ []) (T.failures self.old.tree) (T.failures self.new.tree)
            (map string_bytes self.old.hidden.items) (map string_bytes self.new.hidden.items) }
        ensures all { IfOk result (λ all. all ≡ true → AreAllHidden (path.now ∷ [])
            (T.agrees self.new.tree) (T.failed self.old.tree) (T.failed self.new.tree)
            (map string_bytes self.new.hidden.items)) }
        ensures fewer { IfOk result (λ all. all ≡ false → IsOneTooMany (path.now ∷ [])
            (T.failed self.new.tree) (T.failures self.old.tree) (T.failures self.new.tree)
            (map string_bytes self.old.hidden.items) (map string_bytes self.new.hidden.items)) }
    {
        if is_among(&self.hidden, path) {
            return Ok(true);
        }
        let Err(fault) = self.tree.read(path) else {
            return Ok(true);
        };
        match self.hide(path, fault) {
            Ok(()) => Ok(true),
            Err(TreeFault::Device) => Ok(false),
            Err(TreeFault::OutOfMemory) => Err(AllocError),
        }
    }

    /// Why there is no answer where the device failed at a path that can't be hidden: a thousand are, or else memory
    /// didn't suffice to keep it.
    pub fn fault_in_the_end(&self) -> TreeFault
        ensures { result ≡ faults.Device → 1000 ≤ T.failures self.now.tree }
    {
        if self.hidden.len() >= MOST_HIDDEN {
            TreeFault::Device
        } else {
            TreeFault::OutOfMemory
        }
    }

    /// Keeps that something was seen at a path.
    fn keep_seen(&mut self, path: &str) -> Result<(), AllocError>
        requires { is_among (map string_bytes self.old.hidden.items) path.now ≡ false }
        ensures tree { self.new.tree ≡ self.old.tree }
        ensures hidden { self.new.hidden ≡ self.old.hidden }
        ensures seen { OnOk result (map string_bytes self.new.seen.items
            ≡ map string_bytes self.old.seen.items ++ path.now ∷ []) }
        ensures kept { IfErr result (λ e. self.new.seen.items ≡ self.old.seen.items) }
    {
        let path = String::from_str(self.alloc, path)?;
        self.seen.push(path)?;
        Ok(())
    }

    /// Hides what stands at a path at which the tree has this fault, where that is the device's, nothing was seen there
    /// and fewer than a thousand are hidden. Else it fails with the fault, or for want of memory.
    fn hide(&mut self, path: &str, fault: TreeFault) -> Result<(), TreeFault>
        requires counted { fault ≡ faults.Device
            → length self.old.hidden.items + count_of self.old.failed_at + 1 ≤ T.failures self.old.tree }
        requires failed { fault ≡ faults.Device → T.failed self.old.tree path.now ≡ true }
        ensures tree { self.new.tree ≡ self.old.tree }
        ensures seen { self.new.seen ≡ self.old.seen }
        ensures hidden { OnOk result (map string_bytes self.new.hidden.items
            ≡ map string_bytes self.old.hidden.items ++ path.now ∷ []) }
        ensures unseen { OnOk result (is_among (map string_bytes self.old.seen.items) path.now ≡ false) }
        ensures few { OnOk result ((fault ≡ faults.Device) × (length self.new.hidden.items ≤ 1000)) }
        ensures many { IfErr result (λ e. e ≡ faults.Device
            → (is_among (map string_bytes self.old.seen.items) path.now ≡ true)
            ⊎ (1000 ≤ length self.old.hidden.items)) }
        ensures kept { IfErr result (λ e. self.new.hidden.items ≡ self.old.hidden.items) }
        ensures fault { IfErr result (λ e. e ≡ faults.Device → fault ≡ faults.Device) }
    {
        if let TreeFault::OutOfMemory = fault {
            return Err(fault);
        }
        if is_among(&self.seen, path) || self.hidden.len() >= MOST_HIDDEN {
            self.failed_at = String::from_str(self.alloc, path).ok();
            return Err(fault);
        }
        let kept = String::from_str(self.alloc, path)?;
        self.hidden.push(kept)?;
        Ok(())
    }
}

impl<T: Tree + Drop> Tree for HidingTree<T> {
    ghost failures = { λ t. T.failures t.tree };

    ghost agrees = { λ t. MayAgreeWithout (map string_bytes t.hidden.items) (map string_bytes t.seen.items)
        (T.agrees t.tree) };

    ghost satisfiable = { λ t. let some = T.satisfiable t.tree in (
      without (map string_bytes t.hidden.items) some.0,
      without (map string_bytes t.hidden.items) some.1,
      left_without (map string_bytes t.hidden.items) (map string_bytes t.seen.items) (T.agrees t.tree) t.apart
          some.0 some.1 some.2,
    ) };

    fn read(&mut self, path: &str) -> Result<Option<Vec<u8>>, TreeFault> {
        if is_among(&self.hidden, path) {
            return Ok(None);
        }
        match self.tree.read(path) {
            Ok(Some(bytes)) => {
                self.keep_seen(path)?;
                Ok(Some(bytes))
            }
            Ok(None) => Ok(None),
            Err(fault) => {
                self.hide(path, fault)?;
                Ok(None)
            }
        }
    }

    fn begins_with(&mut self, path: &str, prefix: &[u8]) -> Result<bool, TreeFault> {
        if is_among(&self.hidden, path) {
            return Ok(false);
        }
        match self.tree.begins_with(path, prefix) {
            Ok(true) => {
                self.keep_seen(path)?;
                Ok(true)
            }
            Ok(false) => Ok(false),
            Err(fault) => {
                self.hide(path, fault)?;
                Ok(false)
            }
        }
    }

    fn may_list(&self, path: &str) -> bool {
        !is_among(&self.hidden, path) && self.tree.may_list(path)
    }

    fn entries(&mut self, dir: &str) -> Result<Option<Vec<String>>, TreeFault> {
        if is_among(&self.hidden, dir) {
            return Ok(None);
        }
        match self.tree.entries(dir) {
            Ok(Some(names)) => {
                self.keep_seen(dir)?;
                Ok(Some(names))
            }
            Ok(None) => Ok(None),
            Err(fault) => {
                self.hide(dir, fault)?;
                Ok(None)
            }
        }
    }
}
