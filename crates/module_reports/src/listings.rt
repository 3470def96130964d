//! What can be loaded, or is: `avail`, `list` and `is-avail` of the function `module`, their words and reports (module(1)).
//! Takes memory; reads the environment, files and directories through the `Tree`, that it is given.
#![tactic(auto)]

mod along;
mod avail;
mod chosen;
mod fault;
mod finding;
mod hints;
mod layout;
mod list;
mod options;
mod readable;
mod texts;

pub use along::names_along;
pub use avail::avail_report;
pub use fault::ListingFault;
pub use finding::{is_available, is_available_where_readable};
pub use hints::{directory_lines, unload_hints, why_none};
pub use layout::{Terminal, terminal_at};
pub use list::loaded_report;
pub use readable::{ReadableModules, readable_modules};
