//! Why a request was refused, with the command of the modulefile that failed, and what to do (module(1)).
//! Takes memory; reads the files and directories (`Tree`) that it is given. The environment doesn't change.
#![tactic(auto)]

mod advice;
mod advice_lines;
mod alike;
mod automatic;
mod explanation;
mod failures;
mod file_lines;
mod known;
mod location;
mod paths;
mod refused;
mod replacements;
mod shortened;
mod unknown;

pub use advice::Advice;
pub use advice_lines::advice_line;
pub use explanation::{Explanation, explain, explain_refusal, explain_usage};
pub use failures::failed_path;
pub use file_lines::{log_line, user_lines};
pub use location::FileExplanation;
