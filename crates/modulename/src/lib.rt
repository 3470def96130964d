//! The names of modules: how they are spelled, which modules a name means, and the order of versions.
//! Touches nothing and takes no memory.
#![tactic(auto)]

mod digits;
mod laws;
mod name;
mod piece;
mod version;

pub use laws::{order_of_versions, rows_of_versions};
pub use name::{MAX_PARTS, is_module_name, means};
pub use version::version_order;
