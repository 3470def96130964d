//! The answers to commands of default files, by their words alone (modulefile(5)).
ghost use Rattle.std.specs.Prelude.{◌≡◌, map, string_bytes};
ghost use Rattle.tclrules.specs.Names.{is_among};
ghost use Rattle.lookup.specs.DefaultFileResults.{version_answer, renaming_commands, named_answer, answer_to};
ghost use Rattle.lookup.specs.CommandAnswers.{answer_view};

use modulefile::is_unsupported_command;

/// The answer to a command.
#[derive(Clone, Copy)]
pub(crate) enum CommandAnswer<'a> {
    /// It is a `module-version` command, and is collected.
    NewRecord,
    /// It is done, and adds nothing.
    Dropped,
    /// It is refused by the fault of this number.
    Refused(u16),
    /// The command of this name is unsupported on purpose.
    LeftOut(&'a str),
    /// No such command is known.
    Unknown,
}

/// Whether a command of this name gives a module another name, or hides, forbids or tags modules.
#[tactic(auto, unfolding(crate::specs::DefaultFileResults::renaming_commands))]
fn is_renaming(name: &str) -> bool
    ensures { result ≡ is_among renaming_commands name.now }
{
    match name {
        "module-alias" | "module-virtual" | "module-hide" => true,
        "module-forbid" | "module-tag" => true,
        _ => false,
    }
}

/// The answer to `module-version`, by all its words.
fn version_command_answer(words: &[String]) -> CommandAnswer<'static>
    ensures { answer_view result (map string_bytes words.now) ≡ version_answer (map string_bytes words.now) }
{
    match words {
        [_command, _name, _word, ..] => CommandAnswer::NewRecord,
        _ => CommandAnswer::Refused(56),
    }
}

fn named_command_answer<'a>(name: &'a str, words: &[String]) -> CommandAnswer<'a>
    ensures { answer_view result (map string_bytes words.now)
        ≡ named_answer name.entry.now (map string_bytes words.now) }
{
    if name == "module-version" {
        version_command_answer(words)
    } else if name == "puts" {
        CommandAnswer::Dropped
    } else if is_renaming(name) {
        CommandAnswer::Refused(45)
    } else if is_unsupported_command(name) {
        CommandAnswer::LeftOut(name)
    } else {
        CommandAnswer::Unknown
    }
}

/// The answer to a command, by its words, the first of which is its name.
pub(crate) fn command_answer<'a>(words: &'a [String]) -> CommandAnswer<'a>
    ensures { answer_view result (map string_bytes words.entry.now) ≡ answer_to (map string_bytes words.entry.now) }
{
    match words {
        [name, ..] => named_command_answer(name, words),
        [] => CommandAnswer::Unknown,
    }
}
