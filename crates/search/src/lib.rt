//! Which modulefile a name means along MODULEPATH, what a path holds as one, all modules, and default versions.
//! Takes memory, reads through the `Tree`, and has default files evaluated by the `DefaultFiles`, that it is given.
#![tactic(auto)]

mod default_files;
mod defaults;
mod find_fault;
mod folder_names;
mod folders;
mod found;
mod laws;
mod listing_entries;
mod listings;
mod module_files;
mod modulefile;
mod names;
mod paths;
mod selections;
mod version_named;
mod versions;

pub use default_files::{DefaultFileEnding, DefaultFiles};
pub use defaults::{NamedVersion, named_default};
pub use find_fault::FindFault;
pub use folder_names::names_below;
pub use found::{LocatedModule, directories, locate};
pub use laws::{one_found, one_listed, rows_of_defaults, selected_of_all};
pub use listing_entries::ListingEntry;
pub use listings::{DirectoryListing, available, selected};
pub use modulefile::{FileContent, read_modulefile};
pub use paths::{is_single, path_of};
