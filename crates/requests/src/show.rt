//! The report of `show` (module(1)): the records of a modulefile, as its commands.
ghost use Rattle.std.specs.Prelude.{◌≡◌, ◌∷◌, [], codes, map, string_bytes, IfOk};
ghost use Rattle.tcltext.specs.list.Lists.{list_text};
ghost use Rattle.modulefile.specs.RecordViews.{record_view};
ghost use Rattle.modulefile.specs.Reports.{path_words, shown_words, show_text};

use crate::lines::push_line;
use envvars::fields::{join, slices};
use modulefile::{Delimiter, Record};
use std::alloc::{AllocError, Global};
use tcltext::list::write_list;

/// Three words, written as a list of Tcl.
fn colon_path<'a>(
    alloc: Global,
    command: &'a str,
    var: &'a str,
    value: &'a str,
) -> Result<String, AllocError>
    ensures { IfOk result (λ t. string_bytes t ≡ list_text (command.now ∷ var.now ∷ value.now ∷ [])) }
{
    write_list(alloc, &[command, var, value])
}

/// A path command with its option `--delim`, written as a list of Tcl.
fn delimited_path<'a>(
    alloc: Global,
    command: &'a str,
    delim: &'a str,
    var: &'a str,
    value: &'a str,
) -> Result<String, AllocError>
    ensures { IfOk result (λ t. string_bytes t
        ≡ list_text (command.now ∷ codes "--delim" ∷ delim.now ∷ var.now ∷ value.now ∷ [])) }
{
    write_list(alloc, &[command, "--delim", delim, var, value])
}

/// A path command, written as a list of Tcl: its elements are joined to one value, and `--delim` has the delimiter
/// where it isn't the colon.
fn path_text(
    alloc: Global,
    command: &str,
    delim: Delimiter,
    var: &str,
    elements: &[String],
) -> Result<String, AllocError>
    ensures { IfOk result (λ t. string_bytes t
        ≡ list_text (path_words command.now delim.character var.now (map string_bytes elements.now))) }
{
    let elements = slices(alloc, elements)?;
    let value = join(alloc, elements.as_slice(), delim.character)?;
    if delim.character == ':' {
        return colon_path(alloc, command, var, &value);
    }
    let mut delimiter = String::new(alloc);
    delimiter.push(delim.character)?;
    delimited_path(alloc, command, &delimiter, var, &value)
}

/// A command and its names, written as a list of Tcl.
fn names_text(alloc: Global, command: &str, names: &[String]) -> Result<String, AllocError>
    ensures { IfOk result (λ t. string_bytes t ≡ list_text (command.now ∷ map string_bytes names.now)) }
{
    let mut words = Vec::new(alloc);
    words.push(command)?;
    let names = slices(alloc, names)?;
    words.extend_from_slice(names.as_slice())?;
    write_list(alloc, words.as_slice())
}

/// A record as the command that makes it, written as a list of Tcl.
fn record_text(alloc: Global, recorded: &Record) -> Result<String, AllocError>
    ensures { IfOk result (λ t. string_bytes t ≡ list_text (shown_words (record_view recorded.now))) }
{
    match recorded {
        Record::Set { var, value } => write_list(alloc, &["setenv", var, value]),
        Record::Unset { var, value } => match value {
            None => write_list(alloc, &["unsetenv", var]),
            Some(value) => write_list(alloc, &["unsetenv", var, value]),
        },
        Record::Push { var, value } => write_list(alloc, &["pushenv", var, value]),
        Record::Path {
            edit,
            delim,
            var,
            elements,
        } => path_text(alloc, edit.command(), *delim, var, elements.as_slice()),
        Record::Conflict(names) => names_text(alloc, "conflict", names.as_slice()),
        Record::Prereq(names) => names_text(alloc, "prereq", names.as_slice()),
        Record::Whatis(text) => write_list(alloc, &["module-whatis", text]),
    }
}

/// The report of `show` on a file: a line `PATH:`, and one for each of its records, which is a command whose words are
/// written as a list of Tcl. It fails for want of memory alone.
pub fn show_report(alloc: Global, path: &str, records: &[Record]) -> Result<String, AllocError>
    ensures { IfOk result (λ t. string_bytes t ≡ show_text path.now (map record_view records.now)) }
{
    let mut report = String::from_str(alloc, path)?;
    report.push_str(":\n")?;
    for recorded in records {
        push_line(&mut report, &record_text(alloc, recorded)?)?;
    }
    Ok(report)
}
