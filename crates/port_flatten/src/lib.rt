//! What a load of a modulefile has done: the text that Environment Modules writes for a shell, read as commands.
//! Takes memory and touches nothing else.
#![tactic(auto)]

mod reading;
mod records;
mod values;
mod writing;

pub use reading::{Unserving, records_of};
pub use records::{LoadRecords, PathEnds, VariableChange};
pub use values::UserValues;
pub use writing::written_records;
