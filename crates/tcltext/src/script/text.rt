//! Whole texts as scripts, within the limits of length and nesting.
ghost use Rattle.std.specs.Prelude.{◌≡◌, ◌≤◌, length, IfOk, IfErr, MatchResult};
ghost use Rattle.tcltext.specs.chars.Faults.{max_bytes, max_nesting};
ghost use Rattle.tcltext.specs.declared.chars.fault.TextFault.TheVariants.{OutOfMemory};
ghost use Rattle.tcltext.specs.chars.Whole.{Reads};
ghost use Rattle.tcltext.specs.script.Tree.{Commands, nesting};
ghost use Rattle.tcltext.specs.script.Grammar.{IsScript};
ghost use Rattle.tcltext.specs.script.Faults.{IsTextFault};
ghost use Rattle.tcltext.specs.script.Text.{IsWithin, script_of};
ghost use Rattle.tcltext.specs.script.View.{script_view};

use crate::chars::{MAX_BYTES, MAX_NESTING, ReadError, TextFault, with_offset};
use crate::script::piece::Source;
use crate::script::reading::read_source;
use crate::script::tree::Script;
use std::alloc::Global;

/// The tree of a script (Tcl(n)), whose pieces are slices of the text. Takes time and memory in proportion to the
/// length of the text, and copies no text.
///
/// - `TooLong`: the text has more than 1,048,576 bytes, whatever else is wrong.
/// - `TooDeep`: brackets and the parentheses of indexes nest more than 200 deep.
/// - `OpenBrace`, `OpenQuote`, `OpenBracket`: nothing closes the mark at this offset.
/// - `JoinedToClose`: the character at this offset follows a closing brace or quote directly.
/// - `BadCharacter`: the backslash at this offset stands for no character, or nothing closes the parenthesis there.
/// - `OutOfMemory`: a growth was refused; this says nothing about the text.
///
/// A text with several faults is refused with the first that a reader from left to right meets.
pub fn parse_script(alloc: Global, text: &str) -> Result<Script<&str>, TextFault>
    // A tree that is returned is the text's, within the limits.
    ensures found { IfOk result (λ s. IsWithin text.now (script_view (λ piece. piece.now) s)) }

    // A text within the limits that has a tree is read, unless memory runs out.
    ensures only { (s : Commands) → IsWithin text.now s
        → MatchResult result (λ t. script_view (λ piece. piece.now) t ≡ s) (λ e. e ≡ OutOfMemory) }

    // A fault is the first of the text, with its offset.
    ensures fault { IfErr result (IsTextFault text.now) }

    // The tree or the fault is the one that the definition computes, unless memory runs out.
    ensures read { Reads (script_view (λ piece. piece.now)) result (script_of text.now) }
{
    read_whole(alloc, &text)
}

/// The tree of a script, as `parse_script` gives it, with pieces of any kind.
pub fn parse_pieces<S: Source<P>, P: Drop>(
    alloc: Global,
    source: &S,
) -> Result<Script<P>, TextFault>
    ensures found { IfOk result (λ s. IsWithin (S.text source.now) (script_view (S.shown source.now) s)) }
    ensures only { (s : Commands) → IsWithin (S.text source.now) s
        → MatchResult result (λ t. script_view (S.shown source.now) t ≡ s) (λ e. e ≡ OutOfMemory) }
    ensures fault { IfErr result (IsTextFault (S.text source.now)) }
    ensures read { Reads (script_view (S.shown source.now)) result (script_of (S.text source.now)) }
{
    read_whole(alloc, source)
}

/// The tree of a source within the limits, or its fault.
fn read_whole<S: Source<P>, P: Drop>(alloc: Global, source: &S) -> Result<Script<P>, TextFault>
    ensures { Reads (script_view (S.shown source.now)) result (script_of (S.text source.now)) }
{
    let len = source.as_str().len();
    if len > MAX_BYTES {
        return Err(TextFault::TooLong);
    }
    match read_source(alloc, source, MAX_NESTING) {
        Ok(script) => Ok(script),
        Err(ReadError::Memory) => Err(TextFault::OutOfMemory),
        Err(ReadError::Fault(fault)) => Err(with_offset(fault, len)),
    }
}
