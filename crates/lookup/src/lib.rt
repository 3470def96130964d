//! The search with default files evaluated as Tcl within limits (modulefile(5)): `locate` and `available`.
//! Takes memory, and reads files and directories through the `Tree` that it is given.
#![tactic(auto)]

mod command_answers;
mod evaluated;
mod host;
mod laws;
mod listings;
mod located;

pub use evaluated::EvaluatedDefaultFiles;
pub use filetree::{DiskTree, MemoryTree, SeenPath, Tree, TreeFault};
pub use laws::{one_result, some_result};
pub use listings::{Listing, available};
pub use located::{Found, locate};
pub use modulename::version_order;
pub use search::FindFault;
pub use tclrules::Limits;
