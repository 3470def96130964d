//! The cache of scripts and expressions.
ghost use Rattle.std.specs.Prelude.{◌≡◌, [], IfOk, OnErr, string_bytes};
ghost use Rattle.tcltext.specs.chars.Whole.{Reads};
ghost use Rattle.tcltext.specs.script.Text.{script_of};
ghost use Rattle.tcltext.specs.script.Owned as script;
ghost use Rattle.tcltext.specs.expr.Text.{expr_of};
ghost use Rattle.tcltext.specs.expr.Owned as expression;
ghost use Rattle.tcleval.specs.cache.Trees.{AnswersIndex, CachesTree};
ghost use Rattle.tcleval.specs.cache.Kept.{IsValidKept, BeginWith, scripts_of, expressions_of};

use crate::cache::texts::Texts;
use std::alloc::Global;
use std::marker::Model;
use std::rc::Rc;
use tcltext::chars::TextFault;
use tcltext::expr::OwnedExpr;
use tcltext::script::OwnedScript;

/// Texts that were evaluated as scripts, and texts that were evaluated as expressions, each with its tree: of each kind
/// at most 1,024 texts, of at most 8,388,608 bytes together. Nothing is ever dropped.
#[derive(Drop)]
pub struct Kept {
    scripts: Texts<OwnedScript>,
    expressions: Texts<OwnedExpr>,
}

impl Model for Kept {
    ghost use Rattle.tcleval.specs.cache.Kept as trees;
    ghost use Rattle.std.specs.Coded.{codes};
    ghost use Rattle.tcltext.specs.contracts.script.owned.OwnedScript as owned_script;
    ghost use Rattle.tcltext.specs.contracts.expr.owned.OwnedExpr as owned_expr;

    ghost Value = { trees.Kept };

    ghost coded = { Prim.hlevel (codes, owned_script.the_row.coded, owned_expr.the_row.coded) };

    ghost use Rattle.tcleval.specs.cache.Views.{cache_view, IsSound};

    ghost view = { cache_view };

    ghost invariant = { IsSound };
}

impl Kept {
    /// The empty cache.
    pub fn new(alloc: Global) -> Kept
        ensures scripts { result.scripts ≡ [] }
        ensures expressions { result.expressions ≡ [] }
        ensures valid { IsValidKept result }
    {
        Kept {
            scripts: Texts::new(alloc),
            expressions: Texts::new(alloc),
        }
    }

    /// The index of a text among the cached scripts, from 0. A text that isn't cached is parsed and added last, unless
    /// it would exceed the limits: then the answer is None.
    ///
    /// Errors: the fault of a text that would be added (2 to 9), and `OutOfMemory` (1). Then nothing changes.
    pub fn script(&mut self, text: &str) -> Result<Option<usize>, TextFault>
        ensures answers { AnswersIndex script_of (scripts_of self.old) text.now result (scripts_of self.new) }
        ensures others { self.new.expressions ≡ self.old.expressions }
        ensures begins { BeginWith self.old self.new }
        ensures err { OnErr result (self.new ≡ self.old) }
        ensures valid { IsValidKept self.new }
    {
        self.scripts.cached_index(text)
    }

    /// The tree of a script: the cached one, or one that is cached from now on, or one for this call alone where it
    /// would exceed the limits.
    ///
    /// Errors: the fault of the text (2 to 9), and `OutOfMemory` (1). Then nothing changes.
    pub fn script_tree(&mut self, text: &str) -> Result<Rc<OwnedScript>, TextFault>
        ensures text { IfOk result (λ tree. string_bytes tree.value.text ≡ text.now) }
        ensures tree { Reads (λ tree. script.owned_view tree.value) result (script_of text.now) }
        ensures caches { IfOk result (λ tree. CachesTree self.old.scripts text.now tree.value self.new.scripts) }
        ensures others { self.new.expressions ≡ self.old.expressions }
        ensures begins { BeginWith self.old self.new }
        ensures err { OnErr result (self.new ≡ self.old) }
        ensures valid { IsValidKept self.new }
    {
        self.scripts.tree(text)
    }

    /// The index of a text among the cached expressions, from 0. A text that isn't cached is parsed and added last,
    /// unless it would exceed the limits: then the answer is None.
    ///
    /// Errors: the fault of a text that would be added (2 to 9), and `OutOfMemory` (1). Then nothing changes.
    pub fn expr(&mut self, text: &str) -> Result<Option<usize>, TextFault>
        ensures answers { AnswersIndex expr_of (expressions_of self.old) text.now result (expressions_of self.new) }
        ensures others { self.new.scripts ≡ self.old.scripts }
        ensures begins { BeginWith self.old self.new }
        ensures err { OnErr result (self.new ≡ self.old) }
        ensures valid { IsValidKept self.new }
    {
        self.expressions.cached_index(text)
    }

    /// The tree of an expression: the cached one, or one that is cached from now on, or one for this call alone where
    /// it would exceed the limits.
    ///
    /// Errors: the fault of the text (2 to 9), and `OutOfMemory` (1). Then nothing changes.
    pub fn expr_tree(&mut self, text: &str) -> Result<Rc<OwnedExpr>, TextFault>
        ensures text { IfOk result (λ tree. string_bytes tree.value.text ≡ text.now) }
        ensures tree { Reads (λ tree. expression.owned_view tree.value) result (expr_of text.now) }
        ensures caches { IfOk result
            (λ tree. CachesTree self.old.expressions text.now tree.value self.new.expressions) }
        ensures others { self.new.scripts ≡ self.old.scripts }
        ensures begins { BeginWith self.old self.new }
        ensures err { OnErr result (self.new ≡ self.old) }
        ensures valid { IsValidKept self.new }
    {
        self.expressions.tree(text)
    }
}
