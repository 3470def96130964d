//! Distinct texts in the order of their coming, each with its tree.
ghost use Rattle.std.specs.Prelude.{◌≡◌, [], ◌∷◌, ◌++◌, false, length, ℕ, None, Some, IfOk, IfSome, IsNone, OnOk};
ghost use Rattle.std.specs.Prelude.{OnErr};
ghost use Rattle.std.specs.List.{All, Contains};
ghost use Rattle.tcltext.specs.chars.Whole.{Reads};
ghost use Rattle.tcleval.specs.cache.Trees.{AnswersIndex, AreLimited, BeginsWith, CachesTree, IsTreeOfText, index_of};
ghost use Rattle.tcleval.specs.cache.Trees.{is_full, map_trees};

use crate::cache::parsed::{Parsed, parse_copy, shared};
use indexmap::IndexMap;
use std::alloc::{AllocError, Global};
use std::marker::Model;
use std::rc::Rc;
use tcltext::chars::TextFault;

/// How many texts are cached at most.
const MAX_TEXTS: usize = 1024;

/// How many bytes the cached texts have together at most.
const MAX_BYTES: usize = 8_388_608;

/// Distinct texts in the order of their coming, each with its tree, within the limits.
#[derive(Drop)]
pub(crate) struct Texts<T: Drop> {
    made: IndexMap<String, Rc<T>>,
    bytes: usize,
}

impl<T: Drop> Model for Texts<T> {
    ghost use Rattle.tcleval.specs.cache.Trees.{Trees};

    ghost Value = { Trees T };

    ghost use Rattle.tcleval.specs.cache.Texts.{texts_view, IsCounted};

    ghost view = { texts_view };

    ghost invariant = { IsCounted };
}

impl<T: Drop> Texts<T> {
    /// No texts.
    pub(crate) fn new(alloc: Global) -> Texts<T>
        ensures none { result ≡ [] }
        ensures limited { AreLimited result }
    {
        Texts {
            made: IndexMap::new(alloc),
            bytes: 0,
        }
    }

    /// How many texts there are.
    fn len(&self) -> usize
        ensures { result ≡ length self.now }
    {
        self.made.len()
    }

    /// The index of a text, from 0.
    fn entry_index(&self, text: &str) -> Option<usize>
        ensures { result ≡ index_of self.now text.now }
    {
        self.made.get_index_of(text)
    }

    fn tree_of(&self, text: &str) -> Option<&Rc<T>>
        ensures found { IfSome result (λ made. Contains self.now (text.now, made.now.value)) }
        ensures there { IfSome result (λ _. (entry_index : ℕ) × (index_of self.now text.now ≡ Some entry_index)) }
        ensures none { IsNone result → index_of self.now text.now ≡ None }
    {
        match self.made.get_full(text) {
            None => None,
            Some((_, _, made)) => Some(made),
        }
    }

    /// Whether this text would exceed a limit.
    fn is_full(&self, text: &str) -> bool
        ensures { result ≡ is_full self.now text.now }
    {
        self.made.len() >= MAX_TEXTS || text.len() > MAX_BYTES - self.bytes
    }

    /// Adds a text that isn't there, at the end. Where memory runs out, nothing changes.
    fn add(&mut self, text: &str, made: Rc<T>) -> Result<(), AllocError>
        requires new { index_of self.old text.now ≡ None }
        requires room { is_full self.old text.now ≡ false }
        ensures added { OnOk result (self.new ≡ self.old ++ (text.now, made.value) ∷ []) }
        ensures err { OnErr result (self.new ≡ self.old) }
        ensures limited { AreLimited self.new }
    {
        let alloc = *self.made.allocator();
        let key = String::from_str(alloc, text)?;
        self.made.insert(key, made)?;
        self.bytes += text.len();
        Ok(())
    }
}

impl<T: Parsed> Texts<T> {
    /// The index of a text, from 0. A text that isn't there is parsed and added last, unless it would exceed the limits:
    /// then the answer is None.
    ///
    /// Errors: the fault of a text that would be added (2 to 9), and `OutOfMemory` (1). Then nothing changes.
    pub(crate) fn cached_index(&mut self, text: &str) -> Result<Option<usize>, TextFault>
        requires limited { AreLimited self.old }
        requires own { All (IsTreeOfText T.source T.view T.read) self.old }
        ensures answers { AnswersIndex T.read (map_trees T.view self.old) text.now result (map_trees T.view self.new) }
        ensures begins { BeginsWith self.old self.new }
        ensures err { OnErr result (self.new ≡ self.old) }
        ensures own { All (IsTreeOfText T.source T.view T.read) self.new }
        ensures limited { AreLimited self.new }
    {
        if let Some(entry_index) = self.entry_index(text) {
            return Ok(Some(entry_index));
        }
        if self.is_full(text) {
            return Ok(None);
        }
        let entry_index = self.len();
        let _ = self.add_parsed(text)?;
        Ok(Some(entry_index))
    }

    /// The tree of a text: the one that is there, or one that is there from now on, or one for this call alone where it
    /// would exceed the limits.
    ///
    /// Errors: the fault of the text (2 to 9), and `OutOfMemory` (1). Then nothing changes.
    pub(crate) fn tree(&mut self, text: &str) -> Result<Rc<T>, TextFault>
        requires own { All (IsTreeOfText T.source T.view T.read) self.old }
        ensures text { IfOk result (λ tree. T.source tree.value ≡ text.now) }
        ensures tree { Reads (λ tree. T.view tree.value) result (T.read text.now) }
        ensures caches { IfOk result (λ tree. CachesTree self.old text.now tree.value self.new) }
        ensures begins { BeginsWith self.old self.new }
        ensures err { OnErr result (self.new ≡ self.old) }
        ensures own { All (IsTreeOfText T.source T.view T.read) self.new }
        ensures limited { AreLimited self.new }
    {
        if let Some(tree) = self.tree_of(text) {
            return shared(tree);
        }
        if self.is_full(text) {
            return parse_copy(*self.made.allocator(), text);
        }
        self.add_parsed(text)
    }

    /// Parses a text that isn't there, and adds it.
    fn add_parsed(&mut self, text: &str) -> Result<Rc<T>, TextFault>
        requires new { index_of self.old text.now ≡ None }
        requires room { is_full self.old text.now ≡ false }
        ensures text { IfOk result (λ tree. T.source tree.value ≡ text.now) }
        ensures tree { Reads (λ tree. T.view tree.value) result (T.read text.now) }
        ensures added { IfOk result (λ tree. self.new ≡ self.old ++ (text.now, tree.value) ∷ []) }
        ensures err { OnErr result (self.new ≡ self.old) }
        ensures limited { AreLimited self.new }
    {
        let tree = parse_copy(*self.made.allocator(), text)?;
        let owner = shared(&tree)?;
        self.add(text, owner).map_err(|_| TextFault::OutOfMemory)?;
        Ok(tree)
    }
}
