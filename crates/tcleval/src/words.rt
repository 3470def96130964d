//! The words that a word of the source becomes, one or by `{*}` any number (Tcl(n), rule 5), and words that are one
//! piece of it.
ghost use Rattle.std.specs.Prelude.{◌≡◌, ◌++◌, ℕ, List, Ok, Err, map, MatchResult, IfSome, string_bytes};
ghost use Rattle.tcltext.specs.chars.Runs.{Text};
ghost use Rattle.tclvalue.specs.operators.Faults.{reason_of};
ghost use Rattle.tcltext.specs.script.Tree.{part, literal, no_parts};
ghost use Rattle.tcltext.specs.script.View.{content_view, parts_view};
ghost use Rattle.tcltext.specs.chars.BracedText.{braced_text};
ghost use Rattle.tclrules.specs.Simulates.{Simulates, Point};
ghost use Rattle.tclrules.specs.Variables.{State};
ghost use Rattle.tclrules.specs.Plans as plans;
ghost use Rattle.tclrules.specs.Plans.{Job, Next};
ghost use Rattle.tclrules.specs.Words.{expanded};
ghost use Rattle.tclforms.specs.substitution.Stops.{after};
ghost use Rattle.tclforms.specs.substitution.Machine.{range_text};

use crate::evaluator::sized;
use std::alloc::Global;
use tclforms::substitution::{Stop, braced};
use tclrules::Limits;
use tcltext::script::{ByteRange, Part, WordContent};
use tclvalue::operators::{ValueFault, elements};

/// Appends the words that a word with this value becomes: the value itself or, where the word has `{*}` in front, the
/// elements of the value as a list.
///
/// Errors: that the value is no list, which catch(n) sees; a halt where it is too long for a list, or memory runs out.
pub(crate) fn push_words(
    alloc: Global,
    texts: &mut Vec<String>,
    expands: bool,
    text: String,
) -> Result<(), ValueFault>
    ensures { MatchResult result
        (λ _. (more : List Text) × (expanded expands (string_bytes text) ≡ Ok more)
        × (map string_bytes texts.new.items ≡ map string_bytes texts.old.items ++ more))
        (λ fault. IfSome (reason_of fault) (λ reason. expanded expands (string_bytes text) ≡ Err reason)) }
{
    if expands {
        let mut more = elements(alloc, text.as_str())?;
        texts.append(&mut more)?;
        return Ok(());
    }
    texts.push(text)?;
    Ok(())
}

/// The range of the parts of a word that are one, which is literal; None for any others.
pub(crate) fn literal_part(parts: &[Part<ByteRange>]) -> Option<ByteRange>
    ensures { IfSome result (λ range. (source : Text) → parts_view (range_text source) parts.now
        ≡ part (literal (range_text source range)) no_parts) }
{
    let (first, rest) = parts.split_first()?;
    match first {
        Part::Literal(range) if rest.is_empty() => Some(*range),
        _ => None,
    }
}

/// The range of a word whose value is literal text; None for any other word.
pub(crate) fn literal(content: &WordContent<ByteRange>) -> Option<ByteRange>
    ensures { IfSome result (λ range. (source : Text) → content_view (range_text source) content.now
        ≡ part (literal (range_text source range)) no_parts) }
{
    match content {
        WordContent::Bare(range) => Some(*range),
        WordContent::Braced(_) => None,
        WordContent::Parts(parts) => literal_part(parts),
    }
}

/// A copy of a text, judged by the limit on values.
pub(crate) fn copied(alloc: Global, limits: Limits, text: &str) -> Result<String, Stop>
    ensures { (most : ℕ) (r : Job → plans.Step) (k : Next) (s : State) (x : Point)
        → Simulates most r (plans.sized limits.value_bytes text.now (k text.now s)) x
        (after result (λ t s. k (string_bytes t) s) s) x }
{
    let copy = String::from_str(alloc, text)?;
    sized(limits, copy)
}

/// The value of a text in braces, judged by the limit on values.
pub(crate) fn braced_value(alloc: Global, limits: Limits, inside: &str) -> Result<String, Stop>
    ensures { (most : ℕ) (r : Job → plans.Step) (k : Next) (s : State) (x : Point)
        → Simulates most r (plans.sized limits.value_bytes (braced_text inside.now)
        (k (braced_text inside.now) s)) x
        (after result (λ t s. k (string_bytes t) s) s) x }
{
    let value = braced(alloc, inside)?;
    sized(limits, value)
}
