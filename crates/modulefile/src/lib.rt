//! What modulefiles ask for, what their commands mean in every mode, and what a whole file makes of an environment.
//! Takes memory and touches nothing else.
#![tactic(auto)]

mod call;
mod call_fault;
mod commands;
mod delimiter;
pub mod laws;
mod record_fault;
mod recording;
mod records;
mod rows;

pub use call::{Call, InfoField, call_of};
pub use call_fault::CallFault;
pub use commands::{command_names, is_unsupported_command};
pub use delimiter::Delimiter;
pub use laws::{files, plain, played, words};
pub use record_fault::RecordFault;
pub use records::{Mode, PathEdit, Record};
pub use rows::{completion_rows, file_rows, path_rows, question_rows, refused_rows, report_rows};
