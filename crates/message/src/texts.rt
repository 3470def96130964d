//! Lists of texts, copied.
ghost use Rattle.std.specs.Prelude.{◌≡◌, ◌++◌, IfOk, map, string_bytes};

use std::alloc::{AllocError, Global};

/// Texts, and copies of others after them.
///
/// It fails for want of memory alone.
pub fn with_copies(
    alloc: Global,
    texts: Vec<String>,
    others: &[String],
) -> Result<Vec<String>, AllocError>
    ensures { IfOk result (λ v. map string_bytes v.items
        ≡ map string_bytes texts.items ++ map string_bytes others.now) }
{
    let mut texts = texts;
    texts.reserve(others.len())?;
    for text in others {
        texts.push(String::from_str(alloc, text)?)?;
    }
    Ok(texts)
}

/// Copies of texts.
///
/// It fails for want of memory alone.
pub fn copies(alloc: Global, texts: &[String]) -> Result<Vec<String>, AllocError>
    ensures { IfOk result (λ v. map string_bytes v.items ≡ map string_bytes texts.now) }
{
    with_copies(alloc, Vec::new(alloc), texts)
}
