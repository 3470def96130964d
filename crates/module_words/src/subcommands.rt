//! The subcommands of `module`, their options, what words mean (module(1)).
//! Touches nothing and takes no memory.
#![tactic(auto)]

mod fault;
mod laws;
mod meaning;
mod nearness;
mod options;
mod other_tools;
mod table;
mod usage;

pub use fault::WordFault;
pub use laws::words_mean;
pub use meaning::subcommand_of;
pub use nearness::differ_by_one;
pub use options::{CommandOption, OptionName, option_of, options_of};
pub use other_tools::{OtherOption, elsewhere, option_elsewhere};
pub use table::{Subcommand, SubcommandName, subcommand_names};
pub use usage::{USAGE, VERSION};
