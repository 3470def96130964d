//! What a terminal shows of texts: none of the characters that steer it, and cells in the columns of a table.
//! Takes memory and touches nothing else.
#![tactic(auto)]

mod bytes;
mod showing;
mod table;

pub use bytes::{line_count, shown_bytes, without_colours};
pub use showing::{shown, shown_lines, steers};
pub use table::{Cell, push_table};
