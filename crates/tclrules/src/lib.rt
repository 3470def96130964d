//! What a Tcl script evaluates to, as rules (Tcl(n) and the page of each command) with their laws; the trait of hosts.
//! Touches nothing: definitions and theorems, the trait, the limits, and how an evaluation ends.
#![tactic(auto)]

mod host;
mod laws;
mod limits;
mod outcome;
mod rows;

pub use host::{Host, HostAnswer};
pub use laws::{
    endless, grown, one_outcome, other_limit, played, some_outcome, two_oracles, unasked, unrefused,
};
pub use limits::Limits;
pub use outcome::{Ending, EvalFault, FaultPlace, PlacedFault};
pub use rows::{place_rows, worked_rows};
