//! A script that a loop evaluates in each turn.
ghost use Rattle.std.specs.Prelude.{◌≡◌, MatchResult, IfOk, string_bytes};
ghost use Rattle.tcltext.specs.script.Text.{script_of};
ghost use Rattle.tcltext.specs.script.Owned.{owned_view};
ghost use Rattle.tcltext.specs.chars.Whole.{Reads};
ghost use Rattle.tcltext.specs.declared.chars.fault.TextFault.TheVariants.{OutOfMemory};
ghost use Rattle.tcleval.specs.cache.Kept.{BeginWith};
ghost use Rattle.tcleval.specs.LoopBodies.{HasItsTree, IsSameBody};

use crate::cache::Kept;
use std::rc::Rc;
use tcltext::chars::TextFault;
use tcltext::script::OwnedScript;

/// A script that a loop evaluates in each turn, which is parsed once.
#[derive(Drop)]
pub(crate) struct LoopBody<'s> {
    /// The text of the script.
    pub(crate) text: &'s str,
    /// Its tree, once it was parsed.
    parsed: Option<Rc<OwnedScript>>,
}

impl<'s> LoopBody<'s> {
    /// The script of this text, which isn't parsed yet.
    pub(crate) fn new(text: &'s str) -> LoopBody<'s>
        ensures { (result.text.now ≡ text.entry.now) × HasItsTree result }
    {
        LoopBody { text, parsed: None }
    }

    /// The tree of the script, which is parsed or taken from the cache where it is asked for the first time.
    ///
    /// Errors: the fault of the text, or that memory ran out.
    pub(crate) fn tree(&mut self, cache: &mut Kept) -> Result<Rc<OwnedScript>, TextFault>
        requires { HasItsTree self.old }
        ensures tree { Reads (λ tree. owned_view tree.value) result (script_of self.old.text.now) }
        ensures text { IfOk result (λ tree. string_bytes tree.value.text ≡ self.old.text.now) }
        ensures kept { IsSameBody self.old self.new }
        ensures begins { BeginWith cache.old cache.new }
    {
        if let Some(tree) = &self.parsed {
            return share_tree(tree);
        }
        let tree = cache.script_tree(self.text)?;
        self.parsed = Some(share_tree(&tree)?);
        Ok(tree)
    }
}

/// Another owner of a tree, which isn't copied.
fn share_tree(tree: &Rc<OwnedScript>) -> Result<Rc<OwnedScript>, TextFault>
    ensures { MatchResult result (λ copy. copy.value ≡ tree.now.value) (λ fault. fault ≡ OutOfMemory) }
{
    match tree.clone() {
        Ok(copy) => Ok(copy),
        Err(_) => Err(TextFault::OutOfMemory),
    }
}
