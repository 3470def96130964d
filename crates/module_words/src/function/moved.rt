//! The words of the subcommands that load and unload.
ghost use Rattle.std.specs.Prelude.{◌≡◌, codes, find, map, string_bytes};
ghost use Rattle.std.specs.Option.{option_map, option_copied};
ghost use Rattle.message.specs.Answers.{Gives};
ghost use Rattle.envvars.specs.Environment.{lookup};
ghost use Rattle.module_words.specs.function.Moved as spec;
ghost use Rattle.module_words.specs.function.Moved.{moved_view};
ghost use Rattle.module_words.specs.function.Faults.{reason_of};
ghost use Rattle.module_words.specs.subcommands.Meanings.{is_option};

use crate::function::fault::FunctionFault;
use crate::subcommands::{CommandOption, Subcommand, WordFault, option_of};
use envvars::{Env, Vars};

/// The names that are loaded, unloaded or switched.
#[derive(Clone, Copy, Debug)]
pub struct MovedNames<'a> {
    /// Whether what they need, or what needs them, is moved with them.
    pub is_automatic: bool,
    /// The names.
    pub names: &'a [String],
}

/// The variable that is `1` where each load and unload is automated.
const AUTO_HANDLING: &str = "MODULES_AUTO_HANDLING";

/// Whether the user has each load and unload automated.
fn is_set(env: &Env) -> bool
    ensures { result ≡ spec.is_set (lookup env.now) }
{
    env.get(AUTO_HANDLING) == Some("1")
}

/// Whether the subcommand is one that can be automated.
fn can_be_automatic(subcommand: Subcommand) -> bool
    ensures { result ≡ spec.can_be_automatic subcommand }
{
    match subcommand {
        Subcommand::Load | Subcommand::Unload => true,
        _ => false,
    }
}

/// Whether a word is the option that automates a subcommand.
fn is_automating(subcommand: Subcommand, word: &str) -> bool
    ensures { result ≡ spec.is_automating subcommand word.now }
{
    match option_of(subcommand, word) {
        Some(CommandOption::Automatic) => true,
        _ => false,
    }
}

/// The first of the words that begins with a hyphen.
pub(crate) fn option_in(words: &[String]) -> Option<&String>
    ensures { option_map string_bytes (option_copied result) ≡ find is_option (map string_bytes words.entry.now) }
{
    words.iter().find(|word| word.as_str().starts_with('-'))
}

/// The words as names, where none is an option.
fn names_alone<'a>(
    is_automatic: bool,
    words: &'a [String],
) -> Result<MovedNames<'a>, FunctionFault<'a>>
    ensures { Gives reason_of moved_view result (spec.names_alone is_automatic (map string_bytes words.entry.now)) }
{
    match option_in(words) {
        Some(word) => Err(FunctionFault::Word(WordFault::NoOption(word.as_str()))),
        None => Ok(MovedNames {
            is_automatic,
            names: words,
        }),
    }
}

/// The names among the words of a subcommand that loads, unloads or switches, and whether it is automated: a load or an
/// unload is by its first word, or by the user's variable.
///
/// The only error is `Word`, with the first word that begins with a hyphen and isn't that option.
pub fn moved_names<'a>(
    subcommand: Subcommand,
    env: &Env,
    words: &'a [String],
) -> Result<MovedNames<'a>, FunctionFault<'a>>
    ensures { Gives reason_of moved_view result
        (spec.moved_names subcommand (lookup env.now) (map string_bytes words.entry.now)) }
{
    if let [first, rest @ ..] = words {
        if is_automating(subcommand, first.as_str()) {
            return names_alone(true, rest);
        }
    }
    names_alone(can_be_automatic(subcommand) && is_set(env), words)
}
