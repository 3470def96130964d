//! The files of collections: where they lie, what they keep, and how one is saved, listed and removed (module(1)).
//! Takes memory; reads, makes, renames and removes files by the storage that it is given.
#![tactic(auto)]

mod disk;
mod fault;
mod find;
mod folders;
mod follow;
mod list;
mod names;
mod paths;
mod read;
mod remove;
mod save;
mod storage;
mod unwritten;

pub use disk::DiskStorage;
pub use fault::FileFault;
pub use find::find_collection;
pub use folders::Folders;
pub use list::list_collections;
pub use names::is_collection_name;
pub use read::{read_bytes, read_collection_file};
pub use remove::remove_collection;
pub use save::save_collection;
pub use storage::{CreationFault, PathKind, Storage, StorageFault};
