//! What an accepted command answers, and what is written of it.
ghost use Rattle.std.specs.Prelude.{◌≡◌, ◌++◌, ◌∷◌, [], map, string_bytes, vec_items, IfOk, OnOk};
ghost use Rattle.envvars.specs.Texts.{slice_texts, texts_in};
ghost use Rattle.module_subcommands.specs.Replies as spec;
ghost use Rattle.module_subcommands.specs.Writings.{writing_view};

use crate::asking::Asking;
use crate::writing::{Condition, Stream, Writing, always, stream_of};
use envvars::fields::{deduplicated, slices};
use module_words::protocol::{Asker, Place, SHOWN_BY_PAGER, refusal_status};
use std::alloc::{AllocError, Global};
use terminal::text::shown_lines;

/// The lines by which the shell starts the program that a site has behind commands.
#[derive(Debug, Drop)]
pub struct After {
    /// The path of the program, where there may be one.
    pub program: Option<String>,
    /// The lines.
    pub lines: String,
}

/// What is answered where modules were loaded or unloaded.
#[derive(Debug, Drop)]
pub struct ChangedModules {
    /// What is said of modules that were put in.
    pub said: String,
    /// The messages of modulefiles.
    pub messages: Vec<String>,
    /// The text for the shell.
    pub text: String,
    /// What starts the site's program behind that.
    pub after: After,
    /// What is said behind all of names that no loaded module has.
    pub hints: String,
}

/// A report.
#[derive(Debug, Drop)]
pub struct Report {
    /// Why it is empty, as a line.
    pub aside: String,
    /// Where it goes.
    pub place: Place,
    /// What goes there.
    pub bytes: Vec<u8>,
}

/// What an accepted command answers.
#[derive(Debug, Drop)]
pub enum Reply {
    /// Modules were loaded or unloaded.
    Changed(ChangedModules),
    /// The list of directories that are searched is another one.
    Searched {
        /// The directories that were added.
        added: Vec<String>,
        /// The text for the shell.
        text: String,
    },
    /// A report.
    Reported(Report),
    /// A text that the function shows by its pager, or nothing where it has to ask again.
    Paged(String),
    /// Yes or no.
    Truth(bool),
    /// Nothing is to be said.
    Nothing,
}

/// A line of the program's own as standard error shows it: a terminal isn't steered by it.
///
/// Errors: memory runs out.
pub fn own_line(alloc: Global, is_terminal: bool, line: String) -> Result<String, AllocError>
    ensures { IfOk result (λ shown. string_bytes shown ≡ spec.own_line is_terminal (string_bytes line)) }
{
    if is_terminal {
        return shown_lines(alloc, line.as_str());
    }
    Ok(line)
}

/// A line of the program's own.
fn own_writing(alloc: Global, is_terminal: bool, line: String) -> Result<Writing, AllocError>
    ensures { IfOk result (λ w. writing_view w ≡ spec.own_writing is_terminal (string_bytes line)) }
{
    let line = own_line(alloc, is_terminal, line)?;
    Ok(always(Stream::Error, line.into_bytes()))
}

/// Adds messages of modulefiles.
fn push_messages(writes: &mut Vec<Writing>, messages: Vec<String>) -> Result<(), AllocError>
    ensures { OnOk result (map writing_view writes.new.items
        ≡ map writing_view writes.old.items ++ map spec.message_writing (texts_in messages)) }
{
    for message in messages {
        writes.push(always(Stream::Error, message.into_bytes()))?;
    }
    Ok(())
}

/// Adds the lines that start a site's program.
fn push_after(writes: &mut Vec<Writing>, after: After) -> Result<(), AllocError>
    ensures { OnOk result (map writing_view writes.new.items
        ≡ map writing_view writes.old.items ++ spec.after_writings after) }
{
    let After { program, lines } = after;
    if let Some(path) = program {
        writes.push(Writing {
            stream: Stream::Output,
            condition: Condition::IfProgram(path),
            bytes: lines.into_bytes(),
        })?;
    }
    Ok(())
}

/// What is written where modules were loaded or unloaded.
fn changed_writings(
    alloc: Global,
    is_terminal: bool,
    changed: ChangedModules,
) -> Result<Vec<Writing>, AllocError>
    ensures { IfOk result (λ v. map writing_view v.items ≡ spec.changed_writings is_terminal changed) }
{
    let mut writes = Vec::new(alloc);
    writes.push(own_writing(alloc, is_terminal, changed.said)?)?;
    push_messages(&mut writes, changed.messages)?;
    writes.push(always(Stream::Output, changed.text.into_bytes()))?;
    push_after(&mut writes, changed.after)?;
    Ok(writes)
}

/// The line that is said of a directory, where none is there.
fn missing_writing(alloc: Global, is_terminal: bool, path: &str) -> Result<Writing, AllocError>
    ensures { IfOk result (λ w. writing_view w ≡ spec.missing_writing is_terminal path.now) }
{
    let mut line = String::from_str(alloc, "There is no directory '")?;
    line.push_str(path)?;
    line.push_str("' yet.\n")?;
    let line = own_line(alloc, is_terminal, line)?;
    Ok(Writing {
        stream: Stream::Error,
        condition: Condition::UnlessDirectory(String::from_str(alloc, path)?),
        bytes: line.into_bytes(),
    })
}

/// Adds the lines of directories that may not be there.
fn push_missing(
    alloc: Global,
    writes: &mut Vec<Writing>,
    is_terminal: bool,
    paths: &[&str],
) -> Result<(), AllocError>
    ensures { OnOk result (map writing_view writes.new.items
        ≡ map writing_view writes.old.items ++ map (spec.missing_writing is_terminal) (slice_texts paths.now)) }
{
    for path in paths {
        writes.push(missing_writing(alloc, is_terminal, path)?)?;
    }
    Ok(())
}

/// What is written where other directories are searched: of each that was added a line, once.
fn searched_writings(
    alloc: Global,
    is_terminal: bool,
    added: &[String],
    text: String,
) -> Result<Vec<Writing>, AllocError>
    ensures { IfOk result (λ v. map writing_view v.items
        ≡ spec.searched_writings is_terminal (map string_bytes added.now) (string_bytes text)) }
{
    let paths = slices(alloc, added)?;
    let paths = deduplicated(alloc, paths.as_slice())?;
    let mut writes = Vec::new(alloc);
    push_missing(alloc, &mut writes, is_terminal, paths.as_slice())?;
    writes.push(always(Stream::Output, text.into_bytes()))?;
    Ok(writes)
}

/// What is written of a report.
fn reported_writings(
    alloc: Global,
    is_terminal: bool,
    asker: Asker,
    report: Report,
) -> Result<Vec<Writing>, AllocError>
    ensures { IfOk result (λ v. map writing_view v.items ≡ spec.reported_writings is_terminal asker report) }
{
    let mut writes = Vec::new(alloc);
    writes.push(own_writing(alloc, is_terminal, report.aside)?)?;
    let stream = stream_of(asker, report.place);
    writes.push(always(stream, report.bytes))?;
    Ok(writes)
}

/// A text that goes to standard output.
fn output_writings(alloc: Global, text: String) -> Result<Vec<Writing>, AllocError>
    ensures { IfOk result (λ v. map writing_view v.items ≡ spec.output_writing (string_bytes text) ∷ []) }
{
    let mut writes = Vec::new(alloc);
    writes.push(always(Stream::Output, text.into_bytes()))?;
    Ok(writes)
}

/// What is written of an answer, in turn.
///
/// Errors: memory runs out.
pub fn writings_of(alloc: Global, asking: &Asking, reply: Reply) -> Result<Vec<Writing>, AllocError>
    ensures { IfOk result (λ v. map writing_view v.items
        ≡ spec.writings_of asking.now.site.streams.error asking.now.asker reply) }
{
    let is_terminal = asking.site.streams.error;
    match reply {
        Reply::Changed(changed) => changed_writings(alloc, is_terminal, changed),
        Reply::Searched { added, text } => {
            searched_writings(alloc, is_terminal, added.as_slice(), text)
        }
        Reply::Reported(report) => reported_writings(alloc, is_terminal, asking.asker, report),
        Reply::Paged(text) => output_writings(alloc, text),
        Reply::Truth(_) | Reply::Nothing => Ok(Vec::new(alloc)),
    }
}

/// What is said behind all that is written.
pub fn hints_of(reply: &Reply) -> &str
    ensures { result.now ≡ spec.hints_of reply.entry.now }
{
    match reply {
        Reply::Changed(changed) => changed.hints.as_str(),
        _ => "",
    }
}

/// The status of an answer: `no` has that of a refusal, and what a pager shows its own.
pub fn status_of(asking: &Asking, reply: &Reply) -> u8
    ensures { result ≡ spec.status_of asking.now.shell asking.now.asker reply.now }
{
    match reply {
        Reply::Truth(false) => refusal_status(asking.shell, asking.asker),
        Reply::Paged(_) => SHOWN_BY_PAGER,
        _ => 0,
    }
}
