//! MODULEPATH as a list of directories: the words of `use` and `unuse`, and what they make of it (module(1)).
//! Takes memory; touches MODULEPATH alone, and not where the call is refused.
#![tactic(auto)]

mod edits;
mod fault;
mod laws;
mod words;

pub use edits::{unuse_directories, use_directories};
pub use fault::ModulePathFault;
pub use laws::paths_read_again;
pub use words::{directories_to_unuse, directories_to_use};
