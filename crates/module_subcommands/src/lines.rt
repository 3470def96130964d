//! Names as lines.
ghost use Rattle.std.specs.Prelude.{◌≡◌, map, string_bytes, IfOk};
ghost use Rattle.std.specs.List.{flat_map};
ghost use Rattle.envvars.specs.Texts.{texts_in};
ghost use Rattle.modulefile.specs.Reports.{line_of};

use std::alloc::{AllocError, Global};
use std::collections::BTreeSet;

/// The names in a set, in their order.
pub(crate) fn in_order(alloc: Global, names: BTreeSet<String>) -> Result<Vec<String>, AllocError>
    ensures { IfOk result (λ v. texts_in v ≡ map string_bytes names.keys) }
{
    names.into_iter().collect(alloc)
}

/// The names, one a line.
///
/// Errors: memory runs out.
pub fn lines_of(alloc: Global, names: &[String]) -> Result<String, AllocError>
    ensures { IfOk result (λ lines. string_bytes lines ≡ flat_map line_of (map string_bytes names.now)) }
{
    let mut lines = String::new(alloc);
    for name in names {
        lines.push_str(name.as_str())?;
        lines.push('\n')?;
    }
    Ok(lines)
}
