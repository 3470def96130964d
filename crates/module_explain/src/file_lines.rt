//! The lines that say where a modulefile failed.
ghost use Rattle.std.specs.Prelude.{◌≡◌, ◌++◌, flat_map, map, IfOk, OnOk, string_bytes};
ghost use Rattle.std.specs.Str.Lines.{lines};
ghost use Rattle.module_explain.specs.FileLines as spec;

use crate::location::FileExplanation;
use crate::shortened::push_command;
use itoa::Buffer;
use std::alloc::{AllocError, Global};
use terminal::text::shown;

/// Adds a text as a terminal shows it.
fn push_shown(alloc: Global, text: &mut String, part: &str) -> Result<(), AllocError>
    ensures { OnOk result (string_bytes text.new ≡ string_bytes text.old ++ spec.shown part.now) }
{
    text.push_str(shown(alloc, part)?.as_str())
}

/// The lines of a text.
fn lines_of<'a>(alloc: Global, text: &'a str) -> Result<Vec<&'a str>, AllocError>
    ensures { IfOk result (λ v. map (λ x. x.now) v.items ≡ lines text.entry.now) }
{
    text.lines().collect(alloc)
}

/// Adds lines as a terminal shows them.
fn push_lines(alloc: Global, text: &mut String, lines: &[&str]) -> Result<(), AllocError>
    ensures { OnOk result (string_bytes text.new ≡ string_bytes text.old
        ++ flat_map spec.shown_line (map (λ x. x.now) lines.now)) }
{
    for line in lines {
        push_shown(alloc, text, line)?;
        text.push('\n')?;
    }
    Ok(())
}

/// Adds the lines of messages.
fn push_messages(alloc: Global, text: &mut String, messages: &[String]) -> Result<(), AllocError>
    ensures { OnOk result (string_bytes text.new ≡ string_bytes text.old
        ++ flat_map spec.message_lines (map string_bytes messages.now)) }
{
    for message in messages {
        let lines = lines_of(alloc, message.as_str())?;
        push_lines(alloc, text, lines.as_slice())?;
    }
    Ok(())
}

/// Adds the module and its file.
fn push_file(alloc: Global, text: &mut String, file: &FileExplanation) -> Result<(), AllocError>
    ensures { OnOk result (string_bytes text.new ≡ string_bytes text.old ++ spec.file_text file.now) }
{
    text.push_str("  ")?;
    push_shown(alloc, text, file.module.as_str())?;
    text.push_str(" (")?;
    push_shown(alloc, text, file.path.as_str())
}

/// Adds the number of a line.
fn push_line(text: &mut String, line: usize) -> Result<(), AllocError>
    ensures { OnOk result (string_bytes text.new ≡ string_bytes text.old ++ spec.line_text line) }
{
    let mut digits = Buffer::new();
    text.push_str(", line ")?;
    text.push_str(digits.format(line))
}

/// Adds the command, and the end of the line.
fn push_rest(alloc: Global, text: &mut String, file: &FileExplanation) -> Result<(), AllocError>
    ensures { OnOk result (string_bytes text.new ≡ string_bytes text.old ++ spec.rest_text file.now) }
{
    text.push_str("): ")?;
    push_command(alloc, text, file.command.as_str())?;
    text.push('\n')
}

/// Adds the line of the place: the module, its file and the line there, and the command.
fn push_place(alloc: Global, text: &mut String, file: &FileExplanation) -> Result<(), AllocError>
    ensures { OnOk result (string_bytes text.new ≡ string_bytes text.old ++ spec.place_line file.now) }
{
    push_file(alloc, text, file)?;
    push_line(text, file.line)?;
    push_rest(alloc, text, file)
}

/// The lines for a user at a terminal: what the file has said before, and then the module, its file, the line there and
/// the command.
///
/// It fails for want of memory alone.
pub fn user_lines(alloc: Global, file: &FileExplanation) -> Result<String, AllocError>
    ensures { IfOk result (λ text. string_bytes text ≡ spec.user_text file.now) }
{
    let mut text = String::new(alloc);
    push_messages(alloc, &mut text, file.messages.as_slice())?;
    push_place(alloc, &mut text, file)?;
    Ok(text)
}

/// The line for a log: the file, and the line there.
///
/// It fails for want of memory alone.
pub fn log_line(alloc: Global, file: &FileExplanation) -> Result<String, AllocError>
    ensures { IfOk result (λ text. string_bytes text ≡ spec.log_text file.now) }
{
    let mut text = String::from_str(alloc, "  in ")?;
    text.push_str(file.path.as_str())?;
    push_line(&mut text, file.line)?;
    text.push('\n')?;
    Ok(text)
}
