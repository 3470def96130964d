//! The program `modulecmd SHELL SUBCOMMAND [ARG...]`: prints the text by which the shell loads or unloads modules.
//! Touches its arguments, its environment and the standard streams, and reads files and directories of the disk.
//! Nothing stands above it; it has no clause, so it has little code.
#![tactic(auto)]

use modulecmd::{DiskTree, ProcessInput, modulecmd, process_input, write_refusal};
use std::mem::forget;
use std::process::ExitCode;

/// Runs the command of the process's arguments, and ends with its status.
fn main(rt: HostRuntime) -> ExitCode {
    let mut out = rt.stdout();
    let mut err = rt.stderr();
    let ProcessInput { arguments, env } = match process_input(&rt) {
        Ok(given) => given,
        Err(fault) => {
            let _ = write_refusal(&fault, &mut err);
            return ExitCode::from(1);
        }
    };
    let mut tree = DiskTree::new(rt);
    let status = modulecmd(
        rt.alloc(),
        arguments.as_slice(),
        env,
        &mut tree,
        &mut out,
        &mut err,
    );
    // The process ends: the system takes back at once what these hold.
    forget(arguments);
    forget(tree);
    ExitCode::from(status)
}
