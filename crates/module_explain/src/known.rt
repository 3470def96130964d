//! What is known, as advice.
ghost use Rattle.std.specs.Prelude.{◌≡◌, ◌++◌, flat_map, true, IfOk, IfSome, OnOk, map, string_bytes};
ghost use Rattle.std.specs.Option.{option_map};
ghost use Rattle.module_explain.specs.Advised as spec;
ghost use Rattle.module_explain.specs.Views.{is_known};

use crate::advice::Advice;
use std::alloc::{AllocError, Global};

/// This line, if there is one.
pub(crate) fn known(alloc: Global, line: Option<&str>) -> Result<Option<Advice>, AllocError>
    ensures known { IfOk result (λ o. IfSome o (λ advice. is_known advice ≡ true)) }
    ensures line { IfOk result (spec.IsKnown (option_map (λ t. t.now) line.entry)) }
{
    match line {
        Some(line) => Ok(Some(Advice::Known(String::from_str(alloc, line)?))),
        None => Ok(None),
    }
}

/// Adds names, each behind a comma.
fn push_others(line: &mut String, names: &[String]) -> Result<(), AllocError>
    ensures { OnOk result (string_bytes line.new ≡ string_bytes line.old
        ++ flat_map spec.behind_comma (map string_bytes names.now)) }
{
    for name in names {
        line.push_str(", ")?;
        line.push_str(name.as_str())?;
    }
    Ok(())
}

/// The names that may be meant, as a question.
fn question(alloc: Global, names: &[String]) -> Result<Option<String>, AllocError>
    ensures { IfOk result (λ o. option_map string_bytes o ≡ spec.question (map string_bytes names.now)) }
{
    let [first, others @ ..] = names else {
        return Ok(None);
    };
    let mut line = String::from_str(alloc, "Did you mean ")?;
    line.push_str(first.as_str())?;
    push_others(&mut line, others)?;
    line.push('?')?;
    Ok(Some(line))
}

/// The question whether one of these names is meant, if there are any.
pub(crate) fn asked(alloc: Global, names: &[String]) -> Result<Option<Advice>, AllocError>
    ensures known { IfOk result (λ o. IfSome o (λ advice. is_known advice ≡ true)) }
    ensures line { IfOk result (spec.IsKnown (spec.question (map string_bytes names.now))) }
{
    match question(alloc, names)? {
        Some(line) => Ok(Some(Advice::Known(line))),
        None => Ok(None),
    }
}
