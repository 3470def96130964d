//! The variables and procedures of a script (Tcl(n), global(n), proc(n)), and which variable a name denotes.
//! Takes memory and touches nothing else.
#![tactic(auto)]

mod content;
mod local;
mod location;
mod table;
mod variables;

pub use content::{Content, is_number_within};
pub use local::Local;
pub use location::{
    Location, Scalar, Scope, location_named, location_of, plain_scalar, sharable, writable,
};
pub use variables::{Parameter, Procedure, Variables};
