//! The program `modport FILE`, `--stdin` or `FROM TO...`: translates modulefiles into the profile (modport(1)).
//! Touches its arguments, working directory and standard streams, reads files and directories, and writes new ones.
//! It is one of the names of the program `module`.
#![tactic(auto)]

mod arguments;
mod defaults;
mod fault;
mod flattening;
mod named_values;
mod porting;
mod reporting;
mod script_files;
mod site;
mod status;
mod texts;
mod tree;
mod walk;

use arguments::{PortOptions, PortTarget, asked_for};
use fault::{PortFault, USAGE};
use port_reading::file_text::file_text;
use port_rewriting::{FileKind, Given};
use porting::{Sources, port_file};
use process::arguments as words_of;
use status::Status;
use std::io::Write;
use std::process::ExitCode;
use texts::{read, read_input, text_at};
use walk::walk_trees;

/// Says how the program is called.
fn help(rt: &HostRuntime) -> Result<Status, PortFault> {
    writeln!(rt.stdout(), "{USAGE}").map_err(|_| PortFault::WriteFailed)?;
    Ok(Status::Within)
}

/// Writes the translation of a text to standard output, and the report to standard error, where the text has this path.
fn print(
    rt: &HostRuntime,
    options: &PortOptions,
    path: &str,
    bytes: &[u8],
) -> Result<Status, PortFault> {
    let records = options.records.as_deref();
    let records = records.map(|path| text_at(rt, path)).transpose()?.flatten();
    let sources = Sources {
        json: options.json,
        records: records.as_deref(),
        person: options.kept.person(),
    };
    let given = Given {
        host: options.host.said.as_slice(),
        is_strict: options.strict,
        ..Given::of_kind(FileKind::Modulefile)
    };
    let file = file_text(rt.alloc(), bytes)?;
    let ported = port_file(rt.alloc(), sources, path, &file, given)?;
    if rt.stdout().write_all(ported.text.as_bytes()).is_err()
        || rt.stderr().write_all(ported.report.as_slice()).is_err()
    {
        return Err(PortFault::WriteFailed);
    }
    Ok(ported.status)
}

/// Does what the arguments ask for, and gives the status.
fn port(rt: &HostRuntime) -> Result<Status, PortFault> {
    let (target, options) = asked_for(rt.alloc(), words_of(rt)?)?;
    match target {
        PortTarget::Help => help(rt),
        PortTarget::Stdin => print(rt, &options, "--stdin", read_input(rt)?.as_slice()),
        PortTarget::File(path) => {
            let bytes = read(rt, path.as_str())?;
            print(rt, &options, path.as_str(), bytes.as_slice())
        }
        PortTarget::Trees(trees) => walk_trees(rt, &options, trees.as_slice()),
    }
}

/// Translates what the process's arguments name, and gives the status, with which the process has to end.
pub fn run(rt: HostRuntime) -> ExitCode {
    match port(&rt) {
        Ok(status) => ExitCode::from(status.number()),
        Err(fault) => {
            let _ = write!(rt.stderr(), "ERROR: {fault}\n");
            ExitCode::from(Status::Refused.number())
        }
    }
}
