//! The program `modcheck SHELL`: reports what the requests of standard input would do, and which modules are plain.
//! Touches its arguments, its environment and the standard streams, and reads files and directories of the disk.
//! It is one of the names of the program `module`; it has no clause, so it has little code.
#![tactic(auto)]

use modulecmd::{
    DiskTree, GivenEnvironment, JudgingInput, judging_input, run_check, write_refusal,
};
use std::process::ExitCode;

/// Checks standard input by what the process is given, and gives the status of the check, with which the process has to
/// end (modcheck(1)).
pub fn run(rt: HostRuntime) -> ExitCode {
    let mut input = rt.stdin();
    let mut out = rt.stdout();
    let mut err = rt.stderr();
    let JudgingInput { arguments, given } = match judging_input(&rt) {
        Ok(input) => input,
        Err(fault) => {
            let _ = write_refusal(&fault, &mut err);
            return ExitCode::from(1);
        }
    };
    let GivenEnvironment { env, not_utf8 } = given;
    let alloc = rt.alloc();
    let mut tree = DiskTree::new(rt);
    let exit = run_check(
        alloc,
        arguments.as_slice(),
        &mut input,
        env,
        not_utf8.as_slice(),
        &mut tree,
        &mut out,
        &mut err,
    );
    ExitCode::from(exit.status())
}
