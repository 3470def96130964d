//! A command of the function `module`: its words in, the text for a shell or a status out (module(1)).
//! Takes memory; reads the environment and the working directory that it is given.
#![tactic(auto)]

mod advice;
mod answer;
mod asked;
mod command;
mod edits;
mod fault;
mod forgotten;
mod loaded;
mod moved;
mod options;
mod output;
mod output_fault;
mod site;

pub use advice::advice_on;
pub use asked::{Asked, AskedCommand, asked_for};
pub use fault::FunctionFault;
pub use forgotten::{ForgottenNames, forgotten_names};
pub use moved::{MovedNames, moved_names};
pub use output::{FunctionOutput, function_output};
pub use output_fault::OutputFault;
pub use site::site_directories;
