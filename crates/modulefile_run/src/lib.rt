//! The run of one modulefile (modulefile(5)): its text is evaluated as Tcl, and its commands have their effects.
//! Takes memory, and edits the variables that it is given, all at once where the file is accepted.
#![tactic(auto)]

mod accepted;
mod batch;
mod batched_vars;
mod command_refusal;
mod context;
mod effects;
mod journal;
mod memory;
mod question;
mod questions;
mod run;
mod run_fault;
mod run_stop;
mod runner;

pub use context::FileContext;
pub use memory::wants_memory;
pub use question::Question;
pub use run::{FileRun, records_unless_asked, run_file};
pub use run_fault::{RefusedFile, RunFault};
pub use run_stop::RunStop;
pub use tclrules::FaultPlace;
