//! Files and directories by their paths, in memory or on a disk.
//! Takes memory; `DiskTree` reads files and directories by the runtime that it is given, and writes none.
#![tactic(auto)]

mod begun;
mod disk;
pub mod hiding;
mod known;
mod laws;
mod load;
mod look;
mod memory;
mod names;
mod prefix;
mod system;
mod tree;

pub use disk::DiskTree;
pub use laws::{contents_agree, some_pair_agrees};
pub use memory::MemoryTree;
pub use tree::{SeenPath, Tree, TreeFault};
