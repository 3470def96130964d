//! The values of scalar variables and of elements of the array `env`, with the errors of Tcl where there is none.
ghost use Rattle.std.specs.Prelude.{◌≡◌, ◌++◌, ℕ, List, Some, IfOk, codes, option_map, string_bytes};
ghost use Rattle.tclrules.specs.Derivation.{OpenScript, ReadsEnvironment};
ghost use Rattle.tclrules.specs.Simulates.{Simulates, Point, point};
ghost use Rattle.tclrules.specs.Plans as plans;
ghost use Rattle.tclrules.specs.Plans.{Job, Next};
ghost use Rattle.tclrules.specs.Words.{found, read, read_element, read_location, read_scalar};
ghost use Rattle.tclvalue.specs.operators.Faults.{HasReason, error};
ghost use Rattle.tclvalue.specs.operators.Messages.{in_quotes};
ghost use Rattle.tclrules.specs.Messages.{is_array, no_variable};
ghost use Rattle.tclforms.specs.substitution.Stops.{after};
ghost use Rattle.tclforms.specs.variables.Locations.{is_global, location_view};

use crate::substitution::stop::Stop;
use crate::variables::{Location, Scalar, Scope, Variables, location_named, location_of};
use std::alloc::{AllocError, Global};
use tclrules::Host;
use tclvalue::operators::{ValueFault, in_quotes, tcl_error};

/// The message that a variable can't be read, with what it ends with.
fn cannot_read(alloc: Global, name: &str, ending: &str) -> Result<String, AllocError>
    ensures { IfOk result (λ t. string_bytes t ≡ codes "can't read " ++ (in_quotes name.now ++ ending.now)) }
{
    let quoted = in_quotes(alloc, name)?;
    format!(in alloc; "can't read {quoted}{ending}")
}

/// The error that the variable of this spelling doesn't exist.
#[tactic(auto, unfolding(tclrules::specs::Messages::no_variable))]
fn no_variable(alloc: Global, name: &str) -> ValueFault
    ensures { HasReason (error (no_variable name.now)) result }
{
    tcl_error(cannot_read(alloc, name, ": no such variable"))
}

/// The error that the variable of this spelling is an array and has no value of its own.
#[tactic(auto, unfolding(tclrules::specs::Messages::is_array))]
fn is_array(alloc: Global, name: &str) -> ValueFault
    ensures { HasReason (error (is_array name.now)) result }
{
    tcl_error(cannot_read(alloc, name, ": it is an array"))
}

/// A copy of the value of a scalar variable. `env` as a whole is no scalar. An error names the variable as it was
/// `spelled` in the script.
#[tactic(none)]
fn read_scalar(
    alloc: Global,
    variables: &Variables,
    spelled: &str,
    variable: Scalar<'_>,
) -> Result<String, Stop>
    ensures { (most : ℕ) (r : Job → plans.Step) (k : Next) (x : Point)
        → Simulates most r
        (read_scalar spelled.now (is_global variable.entry.scope) variable.entry.name.now variables.now k) x
        (after result (λ t s. k (string_bytes t) s) variables.now) x }
{
    if variable.is_env() {
        return Err(Stop::from(is_array(alloc, spelled)));
    }
    match variables.get(variable) {
        Some(value) => Ok(String::from_str(alloc, value)?),
        None => Err(Stop::from(no_variable(alloc, spelled))),
    }
}

/// The value of a variable of the environment, which the host is asked for.
fn read_env<H: Host>(
    alloc: Global,
    variables: &Variables,
    host: &mut H,
    spelled: &str,
    name: &str,
) -> Result<String, Stop>
    ensures { (most used : ℕ) (scripts : List OpenScript) (r : Job → plans.Step) (k : Next)
        → Simulates most r (ReadsEnvironment name.now (found (no_variable spelled.now) variables.now k))
        (point (H.oracle host.old) (H.trace host.old) used scripts)
        (after result (λ t s. k (string_bytes t) s) variables.now)
        (point (H.oracle host.new) (H.trace host.new) used scripts) }
{
    match host.read_env(name)? {
        Some(value) => Ok(value),
        None => Err(Stop::from(no_variable(alloc, spelled))),
    }
}

/// The value of the scalar or the element at a location. `env` is the one array; elements of others don't exist.
#[tactic(none)]
fn read_location<H: Host>(
    alloc: Global,
    variables: &Variables,
    host: &mut H,
    spelled: &str,
    location: Location<'_>,
) -> Result<String, Stop>
    ensures { (most used : ℕ) (scripts : List OpenScript) (r : Job → plans.Step) (k : Next)
        → Simulates most r (read_location spelled.now variables.now k (location_view location.entry))
        (point (H.oracle host.old) (H.trace host.old) used scripts)
        (after result (λ t s. k (string_bytes t) s) variables.now)
        (point (H.oracle host.new) (H.trace host.new) used scripts) }
{
    match location {
        Location::Scalar(variable) => read_scalar(alloc, variables, spelled, variable),
        Location::Element(scope, index) => match scope {
            Scope::Global => read_env(alloc, variables, host, spelled, index),
            Scope::Procedure => Err(Stop::from(no_variable(alloc, spelled))),
        },
    }
}

/// The value of the variable of this name, as `$name` has it (Tcl(n), rule 8).
///
/// Errors: those of Tcl for a variable that doesn't exist and for an array, both of which catch(n) sees; a halt where
/// the name is unsupported or memory runs out.
#[tactic(none)]
pub fn read<H: Host>(
    alloc: Global,
    variables: &Variables,
    host: &mut H,
    name: &str,
) -> Result<String, Stop>
    ensures { (most used : ℕ) (scripts : List OpenScript) (r : Job → plans.Step) (k : Next)
        → Simulates most r (read name.now variables.now k)
        (point (H.oracle host.old) (H.trace host.old) used scripts)
        (after result (λ t s. k (string_bytes t) s) variables.now)
        (point (H.oracle host.new) (H.trace host.new) used scripts) }
{
    let location = location_named(variables, alloc, name)?;
    read_location(alloc, variables, host, name, location)
}

/// The spelling `name(index)` of an element.
fn spelled(alloc: Global, name: &str, index: &str) -> Result<String, AllocError>
    ensures { IfOk result (λ t. string_bytes t ≡ name.now ++ (codes "(" ++ (index.now ++ codes ")"))) }
{
    format!(in alloc; "{name}({index})")
}

/// The value of an element of the array of this name, as `$name(index)` has it (Tcl(n), rule 8). `env` is the one
/// array.
///
/// Errors: as of `read`.
#[tactic(none)]
pub fn read_element<H: Host>(
    alloc: Global,
    variables: &Variables,
    host: &mut H,
    name: &str,
    index: &str,
) -> Result<String, Stop>
    ensures { (most used : ℕ) (scripts : List OpenScript) (r : Job → plans.Step) (k : Next)
        → Simulates most r (read_element name.now index.now variables.now k)
        (point (H.oracle host.old) (H.trace host.old) used scripts)
        (after result (λ t s. k (string_bytes t) s) variables.now)
        (point (H.oracle host.new) (H.trace host.new) used scripts) }
{
    let location = location_of(variables, alloc, name, Some(index))?;
    let spelled = spelled(alloc, name, index)?;
    read_location(alloc, variables, host, spelled.as_str(), location)
}
