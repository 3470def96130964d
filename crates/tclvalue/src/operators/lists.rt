//! The elements of a list, and whether a text is among them (list(n)).
ghost use Rattle.std.specs.Prelude.{◌≡◌, map, bytes_eq, string_bytes};
ghost use Rattle.std.specs.List.{list_any};
ghost use Rattle.message.specs.Answers.{Gives};
ghost use Rattle.tclvalue.specs.operators.Faults.{reason_of};
ghost use Rattle.tclvalue.specs.operators.Elements.{elements_of, texts_in};

use crate::operators::fault::ValueFault;
use crate::operators::messages::not_a_list;
use std::alloc::Global;
use tcltext::chars::TextFault;
use tcltext::list::parse_list;

/// The elements of the list that a text is.
///
/// Errors: `Text` where the text is too long for the parser of lists, `TclError` where it is no list, `OutOfMemory`.
pub fn elements(alloc: Global, list: &str) -> Result<Vec<String>, ValueFault>
    ensures { Gives reason_of texts_in result (elements_of list.now) }
{
    match parse_list(alloc, list) {
        Ok(elements) => Ok(elements),
        Err(TextFault::OutOfMemory) => Err(ValueFault::OutOfMemory),
        Err(TextFault::TooLong) => Err(ValueFault::Text(TextFault::TooLong)),
        Err(_) => Err(not_a_list(alloc)),
    }
}

/// Whether a text is equal to one of these, byte by byte.
pub fn is_among(texts: &[String], sought: &str) -> bool
    ensures { result ≡ list_any (bytes_eq sought.now) (map string_bytes texts.now) }
{
    texts.iter().any(|text| sought == text.as_str())
}
