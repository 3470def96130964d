//! The command lappend(n). Where a variable is known to hold a list that the evaluator wrote itself, elements are
//! appended to its text in place; any other value is read as a list and written anew.
ghost use Rattle.std.specs.Prelude.{◌≡◌, ◌++◌, ◌≤◌, [], List, length, map, string_bytes, true, Ok, IfOk};
ghost use Rattle.tcltext.specs.chars.Runs.{Text};
ghost use Rattle.tcltext.specs.chars.Faults.{max_bytes};
ghost use Rattle.tcltext.specs.list.Lists.{list_text};
ghost use Rattle.tclvalue.specs.operators.Faults.{GivesText};
ghost use Rattle.tclrules.specs.Variables.{value_at, writable};
ghost use Rattle.tclrules.specs.Forms.{ListAppend};
ghost use Rattle.tclrules.specs.Rules.{form, value_or, lengthened};
ghost use Rattle.tclforms.specs.variables.Contents.{IsListText, HoldsList};
ghost use Rattle.tclcommands.specs.Continuations.{append_at, ContinuesWithText, ContinuesWithinLimit};
ghost use Rattle.tclforms.specs.variables.Locations.{scalar_view};

use crate::value::{Value, value_or};
use crate::writing::{put_at, take_text};
use message::texts::with_copies;
use std::alloc::{AllocError, Global};
use tclforms::substitution::Stop;
use tclforms::variables::{Content, Scalar, Variables, writable};
use tcltext::chars::MAX_BYTES;
use tclvalue::list_text;
use tclvalue::operators::{ValueFault, elements};

/// The text of a list, as the evaluator writes it, with elements appended.
fn with_elements(alloc: Global, list: String, values: &[String]) -> Result<String, AllocError>
    ensures { (es : List Text) → string_bytes list ≡ list_text es
        → IfOk result (λ t. string_bytes t ≡ list_text (es ++ map string_bytes values.now)) }
{
    if values.is_empty() {
        return Ok(list);
    }
    let more = list_text(alloc, values)?;
    if list.is_empty() {
        return Ok(more);
    }
    let mut list = list;
    list.push(' ')?;
    list.push_str(more.as_str())?;
    Ok(list)
}

/// The text of any list with elements appended: it is read and written anew. A text that is no list is an error of Tcl.
fn lengthened(alloc: Global, list: &str, values: &[String]) -> Result<String, ValueFault>
    ensures text { GivesText result (lengthened list.now (map string_bytes values.now)) }
    ensures written { IfOk result (λ t. IsListText (string_bytes t)) }
{
    let elements = with_copies(alloc, elements(alloc, list)?, values)?;
    Ok(list_text(alloc, &elements)?)
}

/// Whether a variable is known to hold a list's text as list(n) writes it, and one that is short enough to be read as a
/// list. False may stand for "not known".
fn holds_list(variables: &Variables, variable: Scalar<'_>) -> bool
    ensures list { result ≡ true → HoldsList (value_at variables.now (scalar_view variable.entry)) }
    ensures read { result ≡ true → length (value_or [] variables.now (scalar_view variable.entry)) ≤ max_bytes }
{
    variables.holds_list(variable) && value_or(variables, variable, "").len() <= MAX_BYTES
}

/// Appends elements to the text of a list that the evaluator wrote itself, in place.
#[tactic(none)]
fn extend_list(
    alloc: Global,
    variables: &mut Variables,
    limit: usize,
    variable: Scalar<'_>,
    values: &[String],
) -> Result<(), Stop>
    requires location { (v : Text) × (writable variables.old v ≡ Ok (scalar_view variable)) }
    requires list { HoldsList (value_at variables.old (scalar_view variable)) }
    requires read { length (value_or [] variables.old (scalar_view variable)) ≤ max_bytes }
    ensures { ContinuesWithText (λ b. append_at b (scalar_view variable.entry)
        (map string_bytes values.now) variables.old) limit result
        (λ s. value_or [] s (scalar_view variable.entry)) variables.new }
{
    let old = take_text(alloc, variables, variable);
    let text = with_elements(alloc, old, values)?;
    put_at(alloc, variables, limit, variable, Content::of_list(text))?;
    Ok(())
}

/// Appends elements to the value of a variable, which is read as a list and written anew.
#[tactic(none)]
fn rewrite_list(
    alloc: Global,
    variables: &mut Variables,
    limit: usize,
    variable: Scalar<'_>,
    values: &[String],
) -> Result<(), Stop>
    requires { (v : Text) × (writable variables.old v ≡ Ok (scalar_view variable)) }
    ensures { ContinuesWithText (λ b. append_at b (scalar_view variable.entry)
        (map string_bytes values.now) variables.old) limit result
        (λ s. value_or [] s (scalar_view variable.entry)) variables.new }
{
    let text = lengthened(alloc, value_or(variables, variable, ""), values)?;
    put_at(alloc, variables, limit, variable, Content::of_list(text))?;
    Ok(())
}

/// Appends elements to the value of a variable: in place where it is known to hold a list, else by writing it anew.
#[tactic(none)]
fn append_elements(
    alloc: Global,
    variables: &mut Variables,
    limit: usize,
    variable: Scalar<'_>,
    values: &[String],
) -> Result<(), Stop>
    requires { (v : Text) × (writable variables.old v ≡ Ok (scalar_view variable)) }
    ensures { ContinuesWithText (λ b. append_at b (scalar_view variable.entry)
        (map string_bytes values.now) variables.old) limit result
        (λ s. value_or [] s (scalar_view variable.entry)) variables.new }
{
    if holds_list(variables, variable) {
        return extend_list(alloc, variables, limit, variable, values);
    }
    rewrite_list(alloc, variables, limit, variable, values)
}

/// lappend(n): appends elements to the list that the variable `name` holds, which is made where it is unset. The result
/// is the variable's value.
///
/// Errors: that the value is no list, which catch(n) sees; a halt where the value is too long to be read as a list, or
/// would have more bytes than `limit`, where the variable is unsupported, or memory runs out.
#[tactic(none)]
pub fn list_append<'a>(
    alloc: Global,
    variables: &mut Variables,
    limit: usize,
    name: &'a str,
    values: &'a [String],
) -> Result<Value<'a>, Stop>
    ensures { ContinuesWithinLimit (λ b. form b (ListAppend name.now
        (map string_bytes values.now)) variables.old) limit result
        variables.new }
{
    let variable = writable(variables, alloc, name)?;
    append_elements(alloc, variables, limit, variable, values)?;
    Ok(Value::Variable(variable))
}
