//! What a process is given, for the programs over this library: its arguments and its environment.

use crate::command_fault::CommandFault;
use process::{GivenEnvironment, arguments, environment_block, given_environment};
use std::rt::{Env, Files};

/// What a process is given.
pub struct ProcessInput {
    /// The arguments after the program's name.
    pub arguments: Vec<String>,
    /// The variables of its environment.
    pub env: envvars::Env,
}

/// The arguments after the program's name, and the environment of the process.
///
/// Errors: want of memory (31); an argument that isn't UTF-8 (56).
pub fn process_input<R: Env + Files + AllocGlobal>(rt: &R) -> Result<ProcessInput, CommandFault> {
    let arguments = arguments(rt)?;
    let block = environment_block(rt)?;
    let env = envvars::Env::from_block(rt.alloc(), block)?;
    Ok(ProcessInput { arguments, env })
}

/// What a process is given that judges modules.
pub struct JudgingInput {
    /// The arguments after the program's name.
    pub arguments: Vec<String>,
    /// The environment of the process, with the names of its variables that aren't UTF-8.
    pub given: GivenEnvironment,
}

/// The arguments after the program's name, the environment of the process, and the names of its variables that aren't
/// UTF-8.
///
/// Errors: want of memory (31); an argument that isn't UTF-8 (56).
pub fn judging_input<R: Env + Files + AllocGlobal>(rt: &R) -> Result<JudgingInput, CommandFault> {
    let arguments = arguments(rt)?;
    let block = environment_block(rt)?;
    let given = given_environment(rt.alloc(), block)?;
    Ok(JudgingInput { arguments, given })
}
