//! A whole command: the words of a command line in, the text for a shell and the messages out (module(1)).
//! Takes memory; reads the tree and input and writes to the writers that it is given; hands on what asks the process.
//! `modulecmd` is `run_command`, but answers the status of the process.
#![tactic(auto)]

mod checking;
mod command;
mod command_exit;
mod command_fault;
mod finishing;
mod laws;
mod not_utf8;
mod program_input;
mod writers;

pub use checking::{CheckExit, modcheck, run_check};
pub use command::{modulecmd, run_command};
pub use command_exit::Exit;
pub use command_fault::{CommandFault, write_refusal};
pub use envstate::loaded_list::{
    Loaded, add_loaded, conflicts_of, drop_loaded, loaded, prereqs_of,
};
pub use envstate::paths::{End, add_path, drop_path};
pub use envstate::stacks::{pop_value, push_value};
pub use envvars::{Change, Env, EnvFault, changes};
pub use filetree::{DiskTree, MemoryTree, SeenPath, Tree, TreeFault};
pub use laws::{command_after_change, commands_and_hands_return, commands_return, one_command};
pub use lookup::{Found, Listing, available, locate};
pub use modulefile::RecordFault;
pub use modulefile_run::{RefusedFile, RunFault, RunStop};
pub use modulename::version_order;
pub use modules::rehearsals::rehearse;
pub use modules::{
    MissingNames, Module, Move, Outcome, Refusal, Reply, RequestChanges, RequestResults, Verdict,
    request, run, run_changes, session, verdict,
};
pub use process::{
    GivenEnvironment, InputFault, arguments, environment_block, given_environment, read_input,
};
pub use program_input::{JudgingInput, ProcessInput, judging_input, process_input};
pub use requests::{Action, Request};
pub use search::FindFault;
pub use shelltext::{PrintFault, Shell, print_changes};
pub use tclrules::{EvalFault, Limits};
pub use tcltext::chars::TextFault;
pub use writers::{WriteFault, write_bytes, write_line};
