//! The list of loaded modules, in load order, which four variables hold (LOADEDMODULES ...): read, and edited.
//! Takes memory; touches these four variables.
#![tactic(auto)]

mod edits;
mod entry;
pub mod laws;
mod list;
mod order;
mod writing;
mod written_list;

pub use edits::{add_loaded, add_to_list, drop_from_list, drop_loaded};
pub use entry::Loaded;
pub use list::{conflicts_of, copy_list, loaded, loaded_if_consistent, prereqs_of};
pub use order::are_loaded_in_order;
pub use writing::{is_loaded, names_of};
pub use written_list::LoadedList;
