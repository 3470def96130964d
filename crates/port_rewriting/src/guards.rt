//! Guards: an `if` that does nothing but load modules and write messages, and the modules that it loads.
ghost use Rattle.std.specs.Prelude.{◌≡◌, IfSome, IsTrue, map};
ghost use Rattle.port_rewriting.specs.RecordViews.{shown};

use crate::conditions::{Condition, condition_of};
use crate::symbols::constant_words;
use std::alloc::{AllocError, Global};
use tcltext::chars::TextFault;
use tcltext::script::{ByteRange, Script, parse_pieces};

/// The modules that a body loads, where it does nothing else but write messages; none where it does.
fn loads_of_script<'t>(
    alloc: Global,
    body: &'t str,
    script: &Script<ByteRange>,
) -> Result<Option<Vec<&'t str>>, AllocError> {
    let mut loads = Vec::new(alloc);
    for command in &script.commands {
        let words = constant_words(alloc, body, command)?;
        match words.as_slice() {
            ["module", "load" | "add", names @ ..] | ["depends-on" | "prereq-all", names @ ..] => {
                loads.extend_from_slice(names)?;
            }
            ["puts", "stderr", _] | ["puts", "-nonewline", "stderr", _] => {}
            _ => return Ok(None),
        }
    }
    Ok(Some(loads))
}

/// The modules that a body which is a text loads, where it does nothing else but write messages.
fn loads_of<'t>(alloc: Global, body: &'t str) -> Result<Option<Vec<&'t str>>, AllocError> {
    match parse_pieces(alloc, &body) {
        Ok(script) => loads_of_script(alloc, body, &script),
        Err(TextFault::OutOfMemory) => Err(AllocError),
        Err(_) => Ok(None),
    }
}

/// Whether these are the same modules, in the same order.
fn are_same(loads: &[&str], others: &[&str]) -> bool
    ensures { IsTrue result → map shown loads.now ≡ map shown others.now }
{
    loads == others
}

/// Whether a condition fits what the bodies behind it load: in any load, or the one module that isn't loaded.
fn fits(condition: Condition, loads: &[&str], others: Option<&[&str]>) -> bool
    // Of two bodies both load the same.
    ensures { IsTrue result → IfSome others.entry (λ o. map shown loads.now ≡ map shown o.now) }
{
    match (condition, loads, others) {
        (Condition::Loading, [_, ..], None) => true,
        (Condition::Unloaded(name), [other], None) => name == *other,
        (Condition::Exists, [_, ..], Some(others)) => are_same(loads, others),
        _ => false,
    }
}

/// The modules that an `if` of this condition and these bodies loads, where it does nothing else.
fn guard_of_bodies<'t>(
    alloc: Global,
    condition: &'t str,
    body: &'t str,
    other: Option<&'t str>,
) -> Result<Option<Vec<&'t str>>, AllocError> {
    let condition = condition_of(alloc, condition)?;
    let (Some(condition), Some(loads)) = (condition, loads_of(alloc, body)?) else {
        return Ok(None);
    };
    let others = match other {
        Some(other) => match loads_of(alloc, other)? {
            Some(others) => Some(others),
            None => return Ok(None),
        },
        None => None,
    };
    let is_guard = fits(condition, loads.as_slice(), others.as_deref());
    Ok(if is_guard { Some(loads) } else { None })
}

/// The modules that the command `if` with these words loads, where it does nothing else.
pub(crate) fn guard_of<'t>(
    alloc: Global,
    words: &[&'t str],
) -> Result<Option<Vec<&'t str>>, AllocError> {
    match words {
        [condition, body] => guard_of_bodies(alloc, condition, body, None),
        [condition, body, "else", last] => guard_of_bodies(alloc, condition, body, Some(*last)),
        _ => Ok(None),
    }
}
