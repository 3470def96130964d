//! The commands of modulefiles (modulefile(5)), read from their words.
ghost use Rattle.std.specs.Prelude.{map, string_bytes};
ghost use Rattle.message.specs.Answers.{Gives};
ghost use Rattle.modulefile.specs.Calls.{without_option, getenv_form, puts_form, field_form, alone, info_form};
ghost use Rattle.modulefile.specs.Calls.{is_loaded_form, call_of};
ghost use Rattle.modulefile.specs.CallViews.{reason_of, call_view, field_view, form_view};

use crate::call_fault::CallFault;
use crate::commands::{Command, Form, command_named};
use crate::recording::{
    conflict_form, no_option, path_form, prereq_form, push_form, set_form, unset_form, whatis_form,
};
use crate::records::Record;
use std::alloc::Global;

/// What `module-info` answers with its first word alone, and tests where a second word follows.
#[derive(Clone, Copy, Debug, PartialEq, Eq)]
pub enum InfoField {
    /// What the file is evaluated for, `load` or `unload` or another mode.
    Mode,
    /// The shell that gets the text, by its name.
    Shell,
    /// The family of that shell, by its name.
    ShellType,
}

/// A command of a modulefile, whose words fit it. It borrows them, but for those that it copied into a record.
#[derive(Drop)]
pub enum Call<'a> {
    /// A command that leaves this record.
    Adds(Record),
    /// `puts ?-nonewline? stderr TEXT`
    Puts { text: &'a str, newline: bool },
    /// `getenv VAR ?default?`; without a default it is empty.
    Getenv { var: &'a str, default: &'a str },
    /// `is-loaded ?NAME...?`
    IsLoaded(&'a [String]),
    /// `module-info name`
    OwnName,
    /// `module-info specified`
    TypedName,
    /// `module-info FIELD`
    Info(InfoField),
    /// `module-info FIELD WORD`
    InfoTest(InfoField, &'a str),
}

/// Reads the words of `getenv`.
fn getenv_form(words: &[String]) -> Result<Call<'_>, CallFault>
    ensures { Gives reason_of call_view result (without_option getenv_form (map string_bytes words.entry.now)) }
{
    match no_option(words)? {
        [var] => Ok(Call::Getenv { var, default: "" }),
        [var, default] => Ok(Call::Getenv { var, default }),
        _ => Err(CallFault::BadArguments),
    }
}

/// Reads the words of `is-loaded`.
fn loaded_form(words: &[String]) -> Result<Call<'_>, CallFault>
    ensures { Gives reason_of call_view result (without_option is_loaded_form (map string_bytes words.entry.now)) }
{
    Ok(Call::IsLoaded(no_option(words)?))
}

/// Reads the words of `puts`. The evaluator hands on only the channel `stderr` and a text, or `-nonewline` before them.
fn puts_form(words: &[String]) -> Result<Call<'_>, CallFault>
    ensures { Gives reason_of call_view result (puts_form (map string_bytes words.entry.now)) }
{
    match words {
        [_, text] => Ok(Call::Puts {
            text,
            newline: true,
        }),
        [_, _, text] => Ok(Call::Puts {
            text,
            newline: false,
        }),
        _ => Err(CallFault::BadArguments),
    }
}

/// Reads the words of `module-info` after its first: none, or one that is tested.
fn field_form(field: InfoField, words: &[String]) -> Result<Call<'_>, CallFault>
    ensures { Gives reason_of call_view result (field_form (field_view field) (map string_bytes words.entry.now)) }
{
    match words {
        [] => Ok(Call::Info(field)),
        [word] => Ok(Call::InfoTest(field, word)),
        _ => Err(CallFault::BadArguments),
    }
}

/// The call, which takes no further word.
fn alone<'a>(call: Call<'a>, words: &[String]) -> Result<Call<'a>, CallFault>
    ensures { Gives reason_of call_view result (alone (call_view call.entry) (map string_bytes words.entry.now)) }
{
    match words {
        [] => Ok(call),
        _ => Err(CallFault::BadArguments),
    }
}

/// Reads the words of `module-info`, of which the first names what it is about.
fn info_form<'a>(alloc: Global, words: &'a [String]) -> Result<Call<'a>, CallFault>
    ensures { Gives reason_of call_view result (info_form (map string_bytes words.entry.now)) }
{
    let [field, others @ ..] = words else {
        return Err(CallFault::BadArguments);
    };
    match field.as_str() {
        "mode" => field_form(InfoField::Mode, others),
        "name" => alone(Call::OwnName, others),
        "specified" => alone(Call::TypedName, others),
        "shell" => field_form(InfoField::Shell, others),
        "shelltype" => field_form(InfoField::ShellType, others),
        other => Err(CallFault::unsupported_info(alloc, other)),
    }
}

/// Reads the words of a command.
fn read<'a>(alloc: Global, command: &Command, words: &'a [String]) -> Result<Call<'a>, CallFault>
    ensures { Gives reason_of call_view result
        (form_view command.now.form command.now.name.now (map string_bytes words.entry.now)) }
{
    match command.form {
        Form::Set => set_form(alloc, words),
        Form::Unset => unset_form(alloc, words),
        Form::Push => push_form(alloc, words),
        Form::Path(edit) => path_form(alloc, edit, words),
        Form::Conflict => conflict_form(alloc, words),
        Form::Prereq => prereq_form(alloc, words),
        Form::Whatis => whatis_form(alloc, words),
        Form::Getenv => getenv_form(words),
        Form::IsLoaded => loaded_form(words),
        Form::Info => info_form(alloc, words),
        Form::Puts => puts_form(words),
        Form::OfDefaultFiles => Err(CallFault::Unknown),
        Form::Unsupported => Err(CallFault::unsupported(alloc, command.name)),
    }
}

/// The command that these words call, the first of which is its name. Nothing of the environment is looked at.
///
/// Errors: `Unknown`, no such command is known; `LeftOut` (19), the command, or this part of it, is unsupported;
/// `BadArguments` (56), the words don't fit the command, as a wrong number of them, an option, or a delimiter that
/// isn't one character from the space to the tilde; or `OutOfMemory`.
#[tactic(auto, unfolding(crate::specs::Calls::call_of))]
pub fn call_of<'a>(alloc: Global, words: &'a [String]) -> Result<Call<'a>, CallFault>
    ensures { Gives reason_of call_view result (call_of (map string_bytes words.entry.now)) }
{
    let [name, others @ ..] = words else {
        return Err(CallFault::Unknown);
    };
    match command_named(name) {
        Some(command) => read(alloc, command, others),
        None => Err(CallFault::Unknown),
    }
}
