//! Which commands are read here: those of the evaluator's own tables, with the words that they accept.

use crate::scopes::FileKind;
use modulefile::{CallFault, call_of, command_names, is_unsupported_command};
use port_constants::MOST_BYTES;
use std::alloc::{AllocError, Global};
use tclforms::{Form, SimpleForm, core_form, is_reserved, is_unsupported};
use tclvalue::operators::ValueFault;
use tclvalue::{is_value_command, value_command};

/// What stands for a word that is computed: a number, a list and a name.
const SOME_WORD: &str = "0";

/// The words with some word for each that isn't known.
pub(crate) fn filled(alloc: Global, words: &[Option<&str>]) -> Result<Vec<String>, AllocError> {
    words
        .iter()
        .map(|word| String::from_str(alloc, word.unwrap_or(SOME_WORD)))
        .try_collect(alloc)
}

/// Whether the evaluator refuses a command by this fault as one that it leaves out.
fn is_left_out(fault: ValueFault) -> Result<bool, AllocError> {
    match fault {
        ValueFault::OutOfMemory => Err(AllocError),
        ValueFault::LeftOut(_) => Ok(true),
        _ => Ok(false),
    }
}

/// Whether a core command of this form is done: no procedure has the name of a command.
fn is_done(form: &Form) -> bool {
    match form {
        Form::Simple(SimpleForm::Define(name, _, _)) => !is_reserved(command_names(), name),
        _ => true,
    }
}

/// Whether a command of values accepts its words.
fn accepts_values(alloc: Global, words: &[String]) -> Result<bool, AllocError> {
    match value_command(alloc, words, MOST_BYTES) {
        Ok(_) => Ok(true),
        Err(fault) => Ok(!is_left_out(fault)?),
    }
}

/// Whether a command that Tcl hasn't accepts its words, in a file of this kind.
fn accepts_host(alloc: Global, kind: FileKind, words: &[String]) -> Result<bool, AllocError> {
    if kind == FileKind::Defaults {
        return Ok(match words {
            [name, _, _, ..] => name.as_str() == "module-version",
            _ => false,
        });
    }
    match call_of(alloc, words) {
        Ok(_) => Ok(true),
        Err(CallFault::OutOfMemory) => Err(AllocError),
        Err(_) => Ok(false),
    }
}

/// Whether a command of these words is read in a file of this kind, where no procedure of the file has its name.
pub(crate) fn is_read(alloc: Global, kind: FileKind, words: &[String]) -> Result<bool, AllocError> {
    let [name, others @ ..] = words else {
        return Ok(true);
    };
    match core_form(alloc, name.as_str(), others) {
        Ok(Some(form)) => Ok(is_done(&form)),
        Err(fault) => Ok(!is_left_out(fault)?),
        Ok(None) if is_value_command(name.as_str()) => accepts_values(alloc, words),
        Ok(None) => accepts_host(alloc, kind, words),
    }
}

/// Whether a command of this name is read in a file of this kind with some words.
pub(crate) fn is_name_read(kind: FileKind, name: &str) -> bool {
    let is_of_tcl = is_reserved(&[], name) && !is_unsupported(name);
    let is_of_files = match kind {
        FileKind::Modulefile => {
            command_names().iter().any(|other| *other == name) && !is_unsupported_command(name)
        }
        FileKind::Defaults => name == "module-version",
    };
    is_of_tcl || is_of_files
}
