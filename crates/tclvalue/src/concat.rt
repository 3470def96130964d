//! The texts of concat(n) made one.
ghost use Rattle.std.specs.Prelude.{◌≡◌, ◌++◌, ◌∷◌, [], map, filter, not, string_bytes, IfOk, OnOk};
ghost use Rattle.tclvalue.specs.operators.Operators.{is_nil};
ghost use Rattle.tclvalue.specs.operators.Faults.{GivesText};
ghost use Rattle.tclvalue.specs.Limits.{limited};
ghost use Rattle.tclvalue.specs.Characters.{concatenated, trimmed, white_space};

use crate::lists::joined;
use crate::operators::ValueFault;
use crate::texts::{Ends, trimmed_of_space};
use std::alloc::{AllocError, Global};

/// The texts, each without the white space around it and those of white space alone dropped, joined by a space.
///
/// Errors: `ValueTooLong` where this has more bytes than the limit, `OutOfMemory`.
pub fn concatenated(alloc: Global, texts: &[String], limit: usize) -> Result<String, ValueFault>
    ensures { GivesText result (limited limit (concatenated (map string_bytes texts.now))) }
{
    joined(alloc, " ", &trimmed_texts(alloc, texts)?, limit)
}

/// The texts without the white space around them; those of white space alone are dropped.
fn trimmed_texts(alloc: Global, texts: &[String]) -> Result<Vec<String>, AllocError>
    ensures { IfOk result (λ v. map string_bytes v.items
        ≡ filter (λ t. not (is_nil t)) (map (trimmed white_space) (map string_bytes texts.now))) }
{
    let mut all = Vec::new(alloc);
    for text in texts {
        push_unless_empty(&mut all, trimmed_of_space(alloc, Ends::Both, text)?)?;
    }
    Ok(all)
}

/// Adds a text at the end, unless it is empty.
fn push_unless_empty(texts: &mut Vec<String>, text: String) -> Result<(), AllocError>
    ensures { OnOk result (map string_bytes texts.new.items
        ≡ map string_bytes texts.old.items ++ filter (λ t. not (is_nil t)) (string_bytes text ∷ [])) }
{
    if !text.is_empty() {
        texts.push(text)?;
    }
    Ok(())
}
