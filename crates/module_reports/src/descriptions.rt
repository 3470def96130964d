//! Reports on modules that aren't loaded for it: `whatis` of all, `keyword`, and `help` of one (module(1)).
//! Takes memory; reads the files and directories (`Tree`) that it is given. The environment doesn't change.
#![tactic(auto)]

mod ahead;
mod all_names;
mod calling;
mod describing;
mod helping;
mod left_out;
mod mentions;
mod readable;
mod written;

pub use describing::{Description, describe};
pub use helping::{HelpText, help};
pub use readable::describe_readable;
