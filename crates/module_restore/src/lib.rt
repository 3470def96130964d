//! Collections as requests, and modules that are forgotten: what `restore`, `reload`, `forget` and `save` do (module(1)).
//! Takes memory; reads the files and directories (`Tree`) that it is given. The environment doesn't change.
#![tactic(auto)]

mod fault;
pub mod forgetting;
mod keeping;
mod loaded;
mod restoring;
mod running;

pub use fault::KeepFault;
pub use keeping::collection_of;
pub use restoring::{Restored, exchange, reload, restore};
