//! Names for completion: what can stand at the end of a command of `module` or `ml` that is typed (module(1)).
//! Takes memory; reads the environment, files and directories through the `Tree`, that it is given.
#![tactic(auto)]

mod available;
mod begun;
mod kind;
mod line;
mod names;
mod offered;
mod place;
mod readable;

pub use available::names_offered;
pub use kind::{NameKind, kind_named};
pub use line::{Line, read_line};
pub use place::{Caller, caller_named, kinds_at};
