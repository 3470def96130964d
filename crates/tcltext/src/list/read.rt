//! The elements of a list, read (Tcl(n), lindex(n)).
ghost use Rattle.std.specs.Prelude.{◌≡◌, ℕ, suc, ◌≤◌, List, length, map, false, not, IfOk, IfErr, MatchResult};
ghost use Rattle.std.specs.Prelude.{string_bytes};
ghost use Rattle.tcltext.specs.chars.Runs.{Text, take_while, drop_while};
ghost use Rattle.tcltext.specs.chars.Braces.{braced_at};
ghost use Rattle.tcltext.specs.chars.Faults.{max_bytes};
ghost use Rattle.message.specs.Answers.{Gives};
ghost use Rattle.tcltext.specs.chars.Reading.{stopped_by};
ghost use Rattle.tcltext.specs.declared.chars.fault.TextFault.TheVariants.{OutOfMemory};
ghost use Rattle.tcltext.specs.list.ListGrammar.{IsList};
ghost use Rattle.tcltext.specs.list.ListFaults.{IsListFault};
ghost use Rattle.tcltext.specs.list.ListReading.{piece_of, element_end, element_in_braces, quoted_at, element_at, list_at};
ghost use Rattle.tcltext.specs.list.ListReading.{list_of, ReadsList};
ghost use Rattle.tcltext.specs.list.Ends.{ends_piece, is_literal_before};

use crate::chars::{
    Class, Fault, MAX_BYTES, ReadError, TextFault, after_mark, begins_class, read_backslash,
    remaining_with_mark, split_close, split_run, with_offset,
};
use std::alloc::Global;

/// The elements of a list (Tcl(n), lindex(n)), which white space separates. One in braces is taken as it is; in one in
/// quotes or in neither, backslashes stand for characters.
///
/// - `TooLong`: the text has more than 1,048,576 bytes, whatever else is wrong.
/// - `OpenBrace`, `OpenQuote`: nothing closes the brace or the quote at this offset.
/// - `JoinedToClose`: the character at this offset follows a closing brace or quote and is no white space.
/// - `BadCharacter`: the backslash at this offset stands for no character: `\U` and a hexadecimal digit, or a code from
///   D800 to DFFF.
/// - `OutOfMemory`: a growth was refused; this says nothing about the text.
pub fn parse_list(alloc: Global, text: &str) -> Result<Vec<String>, TextFault>
    // Elements that are returned are the text's.
    ensures found { IfOk result (λ es. IsList text.now (map string_bytes es.items)) }

    // A list within the limit is read, unless memory runs out.
    ensures only { (es : List Text) → IsList text.now es → length text.now ≤ max_bytes
        → MatchResult result (λ found. map string_bytes found.items ≡ es) (λ e. e ≡ OutOfMemory) }

    // A fault is that of the text, with its offset.
    ensures fault { IfErr result (IsListFault text.now) }

    // The result is the elements or the fault that the definition computes, unless memory runs out.
    ensures read { ReadsList result (list_of text.now) }
{
    read_whole(alloc, text)
}

/// The elements of a text within the limit of length, or its fault.
#[tactic(auto, unfolding(crate::specs::list::ListReading::list_of))]
fn read_whole(alloc: Global, text: &str) -> Result<Vec<String>, TextFault>
    ensures { ReadsList result (list_of text.now) }
{
    if text.len() > MAX_BYTES {
        return Err(TextFault::TooLong);
    }
    match read_elements(alloc, text) {
        Ok(elements) => Ok(elements),
        Err(ReadError::Memory) => Err(TextFault::OutOfMemory),
        Err(ReadError::Fault(fault)) => Err(with_offset(fault, text.len())),
    }
}

/// The elements of a text of any length.
fn read_elements(alloc: Global, text: &str) -> Result<Vec<String>, ReadError>
    ensures { Gives stopped_by (λ es. map string_bytes es.items) result (list_at text.now) }
{
    let mut elements = Vec::new(alloc);
    let mut rest = text;
    loop {
        let start = split_run(rest, Class::Space).1;
        if start.is_empty() {
            return Ok(elements);
        }
        let (element, after) = read_element(alloc, start)?;
        elements.push(element)?;
        rest = after;
    }
}

/// The element that the text begins with, and the rest; the text begins with no white space.
fn read_element(alloc: Global, text: &str) -> Result<(String, &str), ReadError>
    ensures { Gives stopped_by (λ x. (string_bytes x.0, x.1.now)) result (element_at text.now) }
{
    if let Some(inside) = after_mark(text, b'{') {
        return read_braced(alloc, inside);
    }
    if let Some(inside) = after_mark(text, b'"') {
        return read_quoted(alloc, inside);
    }
    read_piece(alloc, text, End::Space)
}

/// An element in braces, and the rest; `text` follows the opening brace.
fn read_braced(alloc: Global, text: &str) -> Result<(String, &str), ReadError>
    ensures { Gives stopped_by (λ x. (string_bytes x.0, x.1.now)) result
        (element_in_braces (suc (length text.now)) (braced_at false 0 text.now)) }
{
    let Some((inside, rest)) = split_close(text) else {
        return Err(ReadError::Fault(Fault::OpenBrace(remaining_with_mark(text))));
    };
    require_element_end(rest)?;
    Ok((String::from_str(alloc, inside)?, rest))
}

/// An element in quotes, and the rest; `text` follows the opening quote.
fn read_quoted(alloc: Global, text: &str) -> Result<(String, &str), ReadError>
    ensures { Gives stopped_by (λ x. (string_bytes x.0, x.1.now)) result (quoted_at text.now) }
{
    let (value, following) = read_piece(alloc, text, End::Quote)?;
    let Some(rest) = after_mark(following, b'"') else {
        return Err(ReadError::Fault(Fault::OpenQuote(remaining_with_mark(text))));
    };
    require_element_end(rest)?;
    Ok((value, rest))
}

/// Checks that an element ends before the text: nothing follows, or white space.
fn require_element_end(rest: &str) -> Result<(), ReadError>
    ensures { Gives stopped_by (λ _. rest.now) result (element_end rest.now) }
{
    if rest.is_empty() || begins_class(rest, Class::Space) {
        return Ok(());
    }
    Err(ReadError::Fault(Fault::JoinedToClose(rest.len())))
}

/// What ends an element that has no braces.
#[derive(Clone, Copy)]
enum End {
    /// White space ends one without quotes.
    Space,
    /// The closing quote ends one in quotes.
    Quote,
}

/// The run of literal bytes that the text begins with, in an element with that end, and the rest.
fn split_literal(text: &str, end: End) -> (&str, &str)
    ensures run { result.0.now ≡ take_while (is_literal_before end) text.now }
    ensures rest { result.1.now ≡ drop_while (is_literal_before end) text.now }
{
    match end {
        End::Space => split_run(text, Class::BareElement),
        End::Quote => split_run(text, Class::QuotedElement),
    }
}

/// The value of an element up to its end, or up to the end of the text, and the rest.
fn read_piece(alloc: Global, text: &str, end: End) -> Result<(String, &str), ReadError>
    ensures { Gives stopped_by (λ x. (string_bytes x.0, x.1.now)) result (piece_of (ends_piece end) text.now) }
{
    let mut value = String::new(alloc);
    let mut rest = text;
    loop {
        let (run, marked) = split_literal(rest, end);
        value.push_str(run)?;
        let Some(following) = after_mark(marked, b'\\') else {
            return Ok((value, marked));
        };
        if following.is_empty() {
            value.push('\\')?;
            return Ok((value, following));
        }
        let Some((c, after)) = read_backslash(following) else {
            return Err(ReadError::Fault(Fault::BadCharacter(marked.len())));
        };
        value.push(c)?;
        rest = after;
    }
}
