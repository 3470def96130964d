//! The location that the name of a variable denotes (Tcl(n), rule 8; global(n)).
ghost use Rattle.std.specs.Prelude.{◌≡◌, ◌==◌, IfSome, Ok, option_map};
ghost use Rattle.std.specs.List.{list_any};
ghost use Rattle.message.specs.Answers.{Gives};
ghost use Rattle.tclvalue.specs.operators.Faults.{reason_of};
ghost use Rattle.tclrules.specs.Variables.{name_and_index, has_colons, unqualified, indexed, location_of};
ghost use Rattle.tclrules.specs.Variables.{location_named, writable, writable_scalar};
ghost use Rattle.tclrules.specs.Variables as rules;
ghost use Rattle.tclforms.specs.variables.Locations.{is_env, is_global, location_view, scalar_view, shared_name};

use crate::variables::variables::Variables;
use std::alloc::Global;
use tclvalue::operators::{ValueFault, unsupported};

/// Whose variables a name denotes one of.
#[derive(Clone, Copy)]
pub enum Scope {
    /// The global variables.
    Global,
    /// The variables of the procedure that runs.
    Procedure,
}

/// A scalar variable, whether it is set or not.
#[derive(Clone, Copy)]
pub struct Scalar<'a> {
    /// Whose variable it is.
    pub scope: Scope,
    /// Its name, without leading colons.
    pub name: &'a str,
}

impl Scalar<'_> {
    /// Whether this is the global `env`, which is an array and has no value of its own.
    pub fn is_env(self) -> bool
        ensures { result ≡ is_env (scalar_view self.entry) }
    {
        matches!(self.scope, Scope::Global) && self.name == "env"
    }
}

/// The location of a variable: what its name denotes where the command is evaluated.
#[derive(Drop)]
pub enum Location<'a> {
    /// A scalar variable.
    Scalar(Scalar<'a>),
    /// The element with this index of the array `env` of this scope.
    Element(Scope, &'a str),
}

/// Whether two colons follow one another in a name, which part its namespaces.
fn has_colons(name: &str) -> bool
    ensures { result ≡ has_colons name.now }
{
    name.contains("::")
}

/// Whether a colon stands in a name.
fn has_colon(name: &str) -> bool
    ensures { result ≡ list_any (λ b. b == 58) name.now }
{
    name.as_bytes().iter().any(|b| *b == b':')
}

/// The parts of a name: that of its array and its index, where it has one.
#[inline(always)]
fn name_and_index(name: &str) -> (&str, Option<&str>)
    ensures { (result.0.now, option_map (λ i. i.now) result.1) ≡ name_and_index name.now }
{
    let Some(inside) = name.strip_suffix(")") else {
        return (name, None);
    };
    match inside.split_once('(') {
        Some((array, index)) => (array, Some(index)),
        None => (name, None),
    }
}

/// The location of a name without leading colons, which must have no others.
fn unqualified_location<'a>(
    alloc: Global,
    scope: Scope,
    name: &'a str,
    index: Option<&'a str>,
) -> Result<Location<'a>, ValueFault>
    ensures { Gives reason_of location_view result
        (unqualified name.now (indexed (is_global scope) name.now (option_map (λ i. i.now) index.entry))) }
{
    if has_colons(name) {
        return Err(unsupported(alloc, "namespace"));
    }
    match index {
        None => Ok(Location::Scalar(Scalar { scope, name })),
        Some(index) => {
            if name == "env" {
                Ok(Location::Element(scope, index))
            } else {
                Err(unsupported(alloc, "array"))
            }
        }
    }
}

/// The location of a name with an index, or without one.
///
/// Errors: `LeftOut` for another array than `env` and for a namespace, `OutOfMemory`.
pub fn location_of<'a>(
    variables: &Variables,
    alloc: Global,
    name: &'a str,
    index: Option<&'a str>,
) -> Result<Location<'a>, ValueFault>
    ensures { Gives reason_of location_view result
        (location_of variables.now name.now (option_map (λ i. i.now) index.entry)) }
{
    match name.strip_prefix("::") {
        Some(rest) => unqualified_location(alloc, Scope::Global, rest, index),
        None => unqualified_location(alloc, variables.scope_of(name), name, index),
    }
}

/// The scalar variable of a name in which neither an index nor a colon stands, as in most names; None for any other.
#[inline(always)]
pub fn plain_scalar<'a>(variables: &Variables, name: &'a str) -> Option<Scalar<'a>>
    ensures { IfSome result (λ v. location_named variables.now name.now
        ≡ Ok (rules.Scalar (is_global v.scope) v.name.now)) }
{
    let (array, index) = name_and_index(name);
    if index.is_none() && !has_colon(array) {
        let scope = variables.scope_of(array);
        return Some(Scalar { scope, name: array });
    }
    None
}

/// The location of a name as it is spelled, with its index in parentheses.
///
/// Errors: `LeftOut` for another array than `env` and for a namespace, `OutOfMemory`.
pub fn location_named<'a>(
    variables: &Variables,
    alloc: Global,
    name: &'a str,
) -> Result<Location<'a>, ValueFault>
    ensures { Gives reason_of location_view result (location_named variables.now name.now) }
{
    if let Some(scalar) = plain_scalar(variables, name) {
        return Ok(Location::Scalar(scalar));
    }
    let (array, index) = name_and_index(name);
    location_of(variables, alloc, array, index)
}

/// The scalar variable that a name denotes, where it may be written: neither `env` nor an element of it.
///
/// Errors: `LeftOut` for `env`, another array and a namespace, `OutOfMemory`.
#[inline(always)]
pub fn writable<'a>(
    variables: &Variables,
    alloc: Global,
    name: &'a str,
) -> Result<Scalar<'a>, ValueFault>
    ensures { Gives reason_of scalar_view result (writable variables.now name.now) }
{
    match plain_scalar(variables, name) {
        Some(scalar) if scalar.name != "env" => Ok(scalar),
        _ => writable_location(alloc, location_named(variables, alloc, name)?),
    }
}

/// The scalar variable at a location, where it may be written.
fn writable_location(alloc: Global, location: Location<'_>) -> Result<Scalar<'_>, ValueFault>
    ensures { Gives reason_of scalar_view result (writable_scalar (location_view location.entry)) }
{
    match location {
        Location::Scalar(scalar) => {
            if scalar.name == "env" {
                return Err(unsupported(alloc, "env"));
            }
            Ok(scalar)
        }
        Location::Element(_, _) => Err(unsupported(alloc, "env")),
    }
}

/// The name of the global variable that `global` makes a procedure see by this name: no element of `env`.
///
/// Errors: `LeftOut` for an element of an array and a namespace, `OutOfMemory`.
pub fn sharable<'a>(
    variables: &Variables,
    alloc: Global,
    name: &'a str,
) -> Result<&'a str, ValueFault>
    ensures { Gives reason_of (λ n. n.now) result (shared_name variables.now name.now) }
{
    match location_named(variables, alloc, name)? {
        Location::Scalar(scalar) => Ok(scalar.name),
        Location::Element(_, _) => Err(unsupported(alloc, "env")),
    }
}
