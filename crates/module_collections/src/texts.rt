//! Collections: what is loaded and searched, as the file of a name keeps it (module(1)).
//! Takes memory and touches nothing else.
#![tactic(auto)]

mod collection;
mod fault;
mod lines;
mod read;
mod save;
mod words;
mod write;

pub use collection::Collection;
pub use fault::{CollectionFault, LineFault};
pub use read::read_collection;
pub use save::{SaveFault, save_text};
pub use words::WordFault;
pub use write::write_collection;
