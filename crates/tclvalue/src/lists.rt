//! The text of a list, and texts joined (list(n), join(n)).
ghost use Rattle.std.specs.Prelude.{◌≡◌, map, IfOk, string_bytes};
ghost use Rattle.tcltext.specs.list.Lists.{list_text};
ghost use Rattle.tclvalue.specs.operators.Faults.{GivesText};
ghost use Rattle.tclvalue.specs.Limits.{limited};
ghost use Rattle.tclvalue.specs.Growing.{Appends};
ghost use Rattle.tclvalue.specs.Characters.{joined, joined_rest, encoded_all};

use crate::bounded::{BoundedText, limited};
use crate::characters::text_of;
use crate::operators::ValueFault;
use std::alloc::{AllocError, Global};
use tcltext::list::write_list;

/// The texts as slices, as the writer of lists takes them.
fn slices(alloc: Global, texts: &[String]) -> Result<Vec<&str>, AllocError>
    ensures { IfOk result (λ v. map (λ s. s.now) v.items ≡ map string_bytes texts.entry.now) }
{
    texts.iter().map(|text| text.as_str()).collect(alloc)
}

/// The text of the list with these elements, as list(n) writes it.
pub fn list_text(alloc: Global, elements: &[String]) -> Result<String, AllocError>
    ensures { IfOk result (λ t. string_bytes t ≡ list_text (map string_bytes elements.now)) }
{
    write_list(alloc, &slices(alloc, elements)?)
}

/// Appends texts with a separator between them.
fn push_joined(out: &mut BoundedText, separator: &str, texts: &[String]) -> Result<(), ValueFault>
    ensures { Appends result out.old out.new (joined separator.now (map string_bytes texts.now)) }
{
    match texts {
        [] => Ok(()),
        [first, rest @ ..] => {
            out.push(first)?;
            push_joined_rest(out, separator, rest)
        }
    }
}

/// Appends texts with a separator before each.
fn push_joined_rest(
    out: &mut BoundedText,
    separator: &str,
    texts: &[String],
) -> Result<(), ValueFault>
    ensures { Appends result out.old out.new (joined_rest separator.now (map string_bytes texts.now)) }
{
    for text in texts {
        out.push(separator)?;
        out.push(text)?;
    }
    Ok(())
}

/// The texts of runs of characters.
pub(crate) fn texts_of(alloc: Global, character_runs: &[&[char]]) -> Result<Vec<String>, AllocError>
    ensures { IfOk result (λ v. map string_bytes v.items ≡ encoded_all (map (λ r. r.now) character_runs.now)) }
{
    let mut texts = Vec::new(alloc);
    for character_run in character_runs {
        texts.push(text_of(alloc, character_run)?)?;
    }
    Ok(texts)
}

/// The texts with a separator between them.
///
/// Errors: `ValueTooLong` where this has more bytes than the limit, `OutOfMemory`.
pub fn joined(
    alloc: Global,
    separator: &str,
    texts: &[String],
    limit: usize,
) -> Result<String, ValueFault>
    ensures { GivesText result (limited limit (joined separator.now (map string_bytes texts.now))) }
{
    let mut out = BoundedText::new(alloc, limit);
    push_joined(&mut out, separator, texts)?;
    limited(out.text, limit)
}
