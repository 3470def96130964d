//! Texts parsed into trees that own a copy of their text and can be shared.
ghost use Rattle.std.specs.Prelude.{◌≡◌, IfOk, MatchResult, Result, string_bytes};
ghost use Rattle.tcltext.specs.chars.Runs.{Text};
ghost use Rattle.tcltext.specs.chars.Whole.{Reads};
ghost use Rattle.tcltext.specs.declared.chars.fault.TextFault.{TextFault};
ghost use Rattle.tcltext.specs.declared.chars.fault.TextFault.TheVariants.{OutOfMemory};
ghost use Rattle.tcltext.specs.script.Tree.{Commands};
ghost use Rattle.tcltext.specs.script.Text.{script_of};
ghost use Rattle.tcltext.specs.script.Owned as script;
ghost use Rattle.tcltext.specs.expr.Tree.{Expr};
ghost use Rattle.tcltext.specs.expr.Operands.{Operand};
ghost use Rattle.tcltext.specs.expr.Text.{expr_of};
ghost use Rattle.tcltext.specs.expr.Owned as expression;

use std::alloc::Global;
use std::rc::Rc;
use tcltext::chars::TextFault;
use tcltext::expr::{OwnedExpr, own_expr};
use tcltext::script::{OwnedScript, own_script};

/// A tree that owns the text that it was parsed from.
///
/// `source` is its text, `view` what the tree stands for in the grammar, and `read` what the grammar has for a text.
pub(crate) trait Parsed: Drop {
    ghost Tree: { Type 0 };

    ghost source: { Self → Text };

    ghost view: { Self → Tree };

    ghost read: { Text → Result Tree TextFault };

    /// The tree of a text. Errors: the fault of the text (2 to 9), `OutOfMemory` (1).
    fn parse(alloc: Global, text: String) -> Result<Self, TextFault>
        ensures text { IfOk result (λ tree. source tree ≡ string_bytes text) }
        ensures tree { Reads view result (read (string_bytes text)) };
}

impl Parsed for OwnedScript {
    ghost Tree = { Commands };

    ghost source = { λ tree. string_bytes tree.text };

    ghost view = { script.owned_view };

    ghost read = { script_of };

    fn parse(alloc: Global, text: String) -> Result<OwnedScript, TextFault> {
        own_script(alloc, text)
    }
}

impl Parsed for OwnedExpr {
    ghost Tree = { Expr Operand };

    ghost source = { λ tree. string_bytes tree.text };

    ghost view = { expression.owned_view };

    ghost read = { expr_of };

    fn parse(alloc: Global, text: String) -> Result<OwnedExpr, TextFault> {
        own_expr(alloc, text)
    }
}

/// The tree of a copy of a text. Errors: the fault of the text (2 to 9), `OutOfMemory` (1).
pub(crate) fn parse_copy<T: Parsed>(alloc: Global, text: &str) -> Result<Rc<T>, TextFault>
    ensures text { IfOk result (λ tree. T.source tree.value ≡ text.now) }
    ensures tree { Reads (λ tree. T.view tree.value) result (T.read text.now) }
{
    let copy = String::from_str(alloc, text).map_err(|_| TextFault::OutOfMemory)?;
    Rc::new(alloc, T::parse(alloc, copy)?).map_err(|_| TextFault::OutOfMemory)
}

/// One more owner of a tree. Errors: `OutOfMemory`, where its count of owners can't grow.
pub(crate) fn shared<T: Drop>(tree: &Rc<T>) -> Result<Rc<T>, TextFault>
    ensures { MatchResult result (λ copy. copy.value ≡ tree.now.value) (λ fault. fault ≡ OutOfMemory) }
{
    tree.clone().map_err(|_| TextFault::OutOfMemory)
}
