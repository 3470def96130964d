//! Lists of Tcl: the elements of a text, and the text of elements (Tcl(n), lindex(n), list(n)).
//! Takes memory and touches nothing else.
#![tactic(auto)]

mod laws;
mod read;
mod write;

pub use laws::{
    list_of_grammar, list_round_trip, no_list_prefix, one_list, one_list_fault, prefix_before_fault,
};
pub use read::parse_list;
pub use write::write_list;
