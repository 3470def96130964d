//! The first line of a command, shortened for a terminal.
ghost use Rattle.std.specs.Prelude.{◌≡◌, ◌++◌, chars, flat_map, IfOk, OnOk, string_bytes};
ghost use Rattle.std.specs.Str.{trim_end};
ghost use Rattle.terminal.specs.text.Shown.{shown_char};
ghost use Rattle.module_explain.specs.FileLines as spec;

use std::alloc::{AllocError, Global};
use terminal::text::steers;

/// A command is shown up to so many characters.
const WIDTH: usize = 60;

/// The text up to its first newline.
fn up_to_newline(text: &str) -> &str
    ensures { result.now ≡ spec.up_to_newline text.now }
{
    match text.split_once('\n') {
        Some((line, _)) => line,
        None => text,
    }
}

/// The text without one semicolon at its end.
fn without_semicolon(text: &str) -> &str
    ensures { result.now ≡ spec.without_semicolon text.now }
{
    text.strip_suffix(';').unwrap_or(text)
}

/// The first line of a command, without the white space and one semicolon at its end.
fn first_line(command: &str) -> &str
    ensures { result.now ≡ spec.first_line command.now }
{
    without_semicolon(up_to_newline(command).trim_end()).trim_end()
}

/// Adds what a terminal shows of a character.
fn push_shown(text: &mut String, c: char) -> Result<(), AllocError>
    ensures { OnOk result (string_bytes text.new ≡ string_bytes text.old ++ shown_char c) }
{
    text.push(if steers(c) { '?' } else { c })
}

/// Adds what a terminal shows of characters.
fn push_characters(text: &mut String, characters: &[char]) -> Result<(), AllocError>
    ensures { OnOk result (string_bytes text.new ≡ string_bytes text.old ++ flat_map shown_char characters.now) }
{
    for c in characters {
        push_shown(text, *c)?;
    }
    Ok(())
}

/// Adds what a terminal shows of so many of these characters, and three dots where there are more.
fn push_front(text: &mut String, characters: &[char], most: usize) -> Result<(), AllocError>
    ensures { OnOk result (string_bytes text.new ≡ string_bytes text.old ++ spec.front_text most characters.now) }
{
    if characters.len() <= most {
        return push_characters(text, characters);
    }
    push_characters(text, &characters[..most])?;
    text.push_str("...")
}

/// The characters of a text.
fn characters_of(alloc: Global, text: &str) -> Result<Vec<char>, AllocError>
    ensures { IfOk result (λ v. v.items ≡ chars text.now) }
{
    text.chars().collect(alloc)
}

/// Adds the first line of a command as a terminal shows it, shortened.
pub(crate) fn push_command(
    alloc: Global,
    text: &mut String,
    command: &str,
) -> Result<(), AllocError>
    ensures { OnOk result (string_bytes text.new ≡ string_bytes text.old ++ spec.command_text command.now) }
{
    let characters = characters_of(alloc, first_line(command))?;
    push_front(text, characters.as_slice(), WIDTH)
}
