//! A script that owns its text.
ghost use Rattle.std.specs.Prelude.{◌≡◌, ◌≤◌, length, string_bytes, IfOk, IfErr, MatchResult};
ghost use Rattle.tcltext.specs.chars.Faults.{max_bytes, max_nesting};
ghost use Rattle.tcltext.specs.declared.chars.fault.TextFault.TheVariants.{OutOfMemory};
ghost use Rattle.tcltext.specs.chars.Whole.{Reads};
ghost use Rattle.tcltext.specs.script.Tree.{Commands, nesting};
ghost use Rattle.tcltext.specs.script.Grammar.{IsScript};
ghost use Rattle.tcltext.specs.script.Faults.{IsTextFault};
ghost use Rattle.tcltext.specs.script.Text.{IsWithin, script_of};
ghost use Rattle.tcltext.specs.script.Owned.{owned_view};

use crate::chars::TextFault;
use crate::script::piece::ByteRange;
use crate::script::text::parse_pieces;
use crate::script::tree::Script;
use std::alloc::Global;

/// A script with its text: the pieces of the tree are ranges of the text.
#[derive(Debug, Drop)]
pub struct OwnedScript {
    /// The text.
    pub text: String,
    /// The tree, whose pieces are byte ranges of the text.
    pub script: Script<ByteRange>,
}

/// The tree of a script, as `parse_script` gives it, with the text, which is moved and not copied.
///
/// The errors are those of `parse_script`; the text is then dropped.
pub fn own_script(alloc: Global, text: String) -> Result<OwnedScript, TextFault>
    // The text is unchanged.
    ensures same { IfOk result (λ o. string_bytes o.text ≡ string_bytes text) }

    // A tree that is returned is the text's, within the limits.
    ensures found { IfOk result (λ o. IsWithin (string_bytes text) (owned_view o)) }

    // A text within the limits that has a tree is read, unless memory runs out.
    ensures only { (s : Commands) → IsWithin (string_bytes text) s
        → MatchResult result (λ o. owned_view o ≡ s) (λ e. e ≡ OutOfMemory) }

    // A fault is the first of the text, with its offset.
    ensures fault { IfErr result (IsTextFault (string_bytes text)) }

    // The tree or the fault is the one that the definition computes, unless memory runs out.
    ensures read { Reads owned_view result (script_of (string_bytes text)) }
{
    match parse_pieces(alloc, &text.as_str()) {
        Ok(script) => Ok(OwnedScript { text, script }),
        Err(fault) => Err(fault),
    }
}
