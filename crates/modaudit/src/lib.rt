//! The program `modaudit [OPTION...] [DIR...]`: says how each module of a site stands (modaudit(1)).
//! Touches its arguments, its environment, the standard streams and the clock, and reads files and directories.
//! It is one of the names of the program `module`; it has no clause, so it has little code.
#![tactic(auto)]

pub mod command;
mod progress_line;
mod whole_files;

use crate::command::{AuditExit, Layout, run_audit};
use filetree::hiding::HidingTree;
use modulecmd::{
    CommandFault, DiskTree, GivenEnvironment, JudgingInput, judging_input, write_refusal,
};
use progress_line::ProgressLine;
use std::io::{IsTerminal, Stdout};
use std::process::ExitCode;
use whole_files::WholeFiles;

/// Says why there is no audit, and with which status the program ends.
fn refused(rt: &HostRuntime, fault: &CommandFault) -> ExitCode {
    let _ = write_refusal(fault, &mut rt.stderr());
    ExitCode::from(AuditExit::Reported.status())
}

/// How the lines of a report stand there: in columns on a terminal, and else with tabs.
fn layout_on(out: &Stdout) -> Layout {
    if out.is_terminal() {
        Layout::Columns
    } else {
        Layout::Tabs
    }
}

/// Audits a site by what the process is given, and gives the status of the audit, with which the process has to end.
pub fn run(rt: HostRuntime) -> ExitCode {
    let JudgingInput { arguments, given } = match judging_input(&rt) {
        Ok(input) => input,
        Err(fault) => return refused(&rt, &fault),
    };
    let GivenEnvironment { env, not_utf8 } = given;
    let mut out = rt.stdout();
    let mut err = rt.stderr();
    let alloc = rt.alloc();
    let mut progress = ProgressLine::new(&rt, rt.stderr());
    let disk = match rt.clone() {
        Ok(disk) => disk,
        Err(e) => return refused(&rt, &CommandFault::from(e)),
    };
    let mut tree = HidingTree::new(alloc, WholeFiles::new(DiskTree::new(disk)));
    let exit = run_audit(
        alloc,
        arguments.as_slice(),
        layout_on(&out),
        env,
        not_utf8.as_slice(),
        &mut tree,
        &mut progress,
        &mut out,
        &mut err,
    );
    ExitCode::from(exit.status())
}
