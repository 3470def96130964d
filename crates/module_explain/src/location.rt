//! Where the modulefile failed that a request is refused for.
ghost use Rattle.std.specs.Prelude.{◌≡◌, ◌<◌, false, is_none, IfErr, IfNone, IfOk, IfSome, string_bytes};
ghost use Rattle.envvars.specs.Texts.{texts_in};
ghost use Rattle.filetree.specs.Agreement.{ReadsOn};
ghost use Rattle.modulefile_run.specs.Running.{file_reason_of};
ghost use Rattle.tcltext.specs.chars.Runs.{Text};
ghost use Rattle.tcltext.specs.script.View.{script_view};
ghost use Rattle.tcltext.specs.declared.script.piece.ByteRange as code;
ghost use Rattle.modules.specs.Answers.{cause_of};
ghost use Rattle.module_explain.specs.Commands as commands;
ghost use Rattle.module_explain.specs.Locations.{IsLocated, IsNoScript, IsNotLocated, IsThere};
ghost use Rattle.module_explain.specs.FailedPaths.{IsDeviceOnlyIf};

use crate::refused::RefusedRequest;
use filetree::Tree;
use message::texts::copies;
use modulefile_run::wants_memory;
use modules::transient_failures::unless_transient;
use modules::{Refusal, RefusedFile, RunFault, script_at};
use std::alloc::{AllocError, Global};
use tclrules::FaultPlace;
use tcltext::chars::{TextFault, split_close};
use tcltext::script::{ByteRange, Script, parse_pieces};

/// Where a modulefile failed.
#[derive(Debug, Drop)]
pub struct FileExplanation {
    /// The full name of the module.
    pub module: String,
    /// The path of its file.
    pub path: String,
    /// The line of the file, from 1.
    pub line: usize,
    /// The command, with all that stands behind it up to the next one.
    pub command: String,
    /// What the file has said before.
    pub messages: Vec<String>,
}

/// The script at a path, if there is one.
fn script_if_there<T: Tree>(
    alloc: Global,
    tree: &mut T,
    path: &str,
) -> Result<Option<String>, Refusal>
    ensures reads { ReadsOn T.agrees T.failures tree.old tree.new }
    ensures gave_up { IfErr result (λ refusal.
        IsDeviceOnlyIf (cause_of refusal) (T.failures tree.old < T.failures tree.new)) }
    ensures there { IfOk result (λ o. IfSome o (λ text. IsThere (T.agrees tree.new) path.now (string_bytes text))) }
    ensures none { IfOk result (λ o. IfNone o (IsNoScript (T.agrees tree.new) path.now)) }
{
    match unless_transient(script_at(alloc, tree, path))? {
        Ok(text) => Ok(Some(text)),
        Err(_) => Ok(None),
    }
}

/// What stands from an offset of a text on, up to the end of the braces around it.
fn rest_of_braces(text: &str, offset: usize) -> &str
    ensures { result.now ≡ commands.rest_of_braces text.now offset }
{
    let range = ByteRange {
        start: offset,
        end: text.len(),
    };
    let rest = range.of(text);
    match split_close(rest) {
        Some((inside, _)) => inside,
        None => rest,
    }
}

/// Where the first command of a script ends: at the second, or else with the script.
fn first_end(script: &Script<ByteRange>, len: usize) -> usize
    ensures { (shown : code.ByteRange → Text) → result ≡ commands.first_end len (script_view shown script.now) }
{
    match script.commands.get(1) {
        Some(second) => second.offset,
        None => len,
    }
}

/// Where the first command of a text ends; with the text where that is no script.
fn first_end_in(alloc: Global, text: &str) -> Result<usize, AllocError>
    ensures { IfOk result (λ end. end ≡ commands.first_end_in text.now) }
{
    match parse_pieces(alloc, &text) {
        Ok(script) => Ok(first_end(&script, text.len())),
        Err(TextFault::OutOfMemory) => Err(AllocError),
        Err(
            TextFault::OpenBrace(_)
            | TextFault::OpenQuote(_)
            | TextFault::OpenBracket(_)
            | TextFault::JoinedToClose(_)
            | TextFault::TooDeep
            | TextFault::BadCharacter(_)
            | TextFault::BadExpression(_)
            | TextFault::TooLong,
        ) => Ok(text.len()),
    }
}

/// The command of a text at an offset, with all that stands behind it up to the next one.
fn command_at(alloc: Global, text: &str, offset: usize) -> Result<&str, AllocError>
    ensures { IfOk result (λ command. command.now ≡ commands.command_at text.now offset) }
{
    let rest = rest_of_braces(text, offset);
    let end = first_end_in(alloc, rest)?;
    let range = ByteRange { start: 0, end };
    Ok(range.of(rest))
}

/// The explanation of a file that stopped at this place of its text.
fn explanation_of(
    alloc: Global,
    file: &RefusedFile,
    place: FaultPlace,
    text: &str,
) -> Result<FileExplanation, AllocError>
    ensures module { IfOk result (λ x. string_bytes x.module ≡ string_bytes file.now.name) }
    ensures path { IfOk result (λ x. string_bytes x.path ≡ string_bytes file.now.path) }
    ensures line { IfOk result (λ x. x.line ≡ place.line) }
    ensures command { IfOk result (λ x. string_bytes x.command ≡ commands.command_at text.now place.innermost) }
    ensures messages { IfOk result (λ x. texts_in x.messages ≡ texts_in file.now.messages) }
{
    let command = command_at(alloc, text, place.innermost)?;
    Ok(FileExplanation {
        module: String::from_str(alloc, file.name.as_str())?,
        path: String::from_str(alloc, file.path.as_str())?,
        line: place.line,
        command: String::from_str(alloc, command)?,
        messages: copies(alloc, file.messages.as_slice())?,
    })
}

/// Where the modulefile failed that a request is refused for, if a command of it had begun and the file is there.
///
/// It fails where memory ran out, in the evaluation too, or the device failed.
pub(crate) fn explain_file<T: Tree>(
    refused: RefusedRequest<'_>,
    fault: &RunFault,
    tree: &mut T,
) -> Result<Option<FileExplanation>, Refusal>
    ensures reads { ReadsOn T.agrees T.failures tree.old tree.new }
    ensures gave_up { IfErr result (λ refusal.
        IsDeviceOnlyIf (cause_of refusal) (T.failures tree.old < T.failures tree.new)) }
    ensures caused { IfOk result (λ o. is_none (file_reason_of fault.now) ≡ false) }
    ensures located { IfOk result (λ o. IfSome o (λ x.
        IfSome (file_reason_of fault.now) (λ reason. IsLocated (T.agrees tree.new) reason x))) }
    ensures none { IfOk result (λ o. IfNone o (IfSome (file_reason_of fault.now) (IsNotLocated (T.agrees tree.new)))) }
{
    if wants_memory(fault) {
        return Err(Refusal::OutOfMemory);
    }
    let Some(file) = &fault.file else {
        return Ok(None);
    };
    let Some(place) = file.place else {
        return Ok(None);
    };
    match script_if_there(refused.alloc, tree, file.path.as_str())? {
        Some(text) => Ok(Some(explanation_of(refused.alloc, file, place, text.as_str())?)),
        None => Ok(None),
    }
}
