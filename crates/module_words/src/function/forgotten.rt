//! The words of the subcommand that forgets modules.
ghost use Rattle.std.specs.Prelude.{◌≡◌, map, string_bytes};
ghost use Rattle.message.specs.Answers.{Gives};
ghost use Rattle.module_words.specs.function.Faults.{reason_of};
ghost use Rattle.module_words.specs.function.Forgotten as spec;
ghost use Rattle.module_words.specs.function.Forgotten.{forgotten_view};

use crate::function::fault::FunctionFault;
use crate::function::moved::option_in;
use crate::subcommands::{CommandOption, Subcommand, WordFault, option_of};

/// The names of modules that are forgotten.
#[derive(Clone, Copy, Debug)]
pub struct ForgottenNames<'a> {
    /// Whether they are forgotten too where their files are there.
    pub settings_stay: bool,
    /// The names.
    pub names: &'a [String],
}

/// Whether a word is the option by which settings stay.
fn is_staying(word: &str) -> bool
    ensures { result ≡ spec.is_staying word.now }
{
    match option_of(Subcommand::Forget, word) {
        Some(CommandOption::SettingsStay) => true,
        _ => false,
    }
}

/// The words as names, where there are some and none is an option.
fn names_alone<'a>(
    settings_stay: bool,
    words: &'a [String],
) -> Result<ForgottenNames<'a>, FunctionFault<'a>>
    ensures { Gives reason_of forgotten_view result
        (spec.names_alone settings_stay (map string_bytes words.entry.now)) }
{
    if words.is_empty() {
        return Err(FunctionFault::BadArguments);
    }
    match option_in(words) {
        Some(word) => Err(FunctionFault::Word(WordFault::NoOption(word.as_str()))),
        None => Ok(ForgottenNames {
            settings_stay,
            names: words,
        }),
    }
}

/// The names among the words of `forget`, and whether settings stay, by its first word.
///
/// The errors: `Word`, with the first other word that begins with a hyphen; `BadArguments`, there is no name.
pub fn forgotten_names<'a>(words: &'a [String]) -> Result<ForgottenNames<'a>, FunctionFault<'a>>
    ensures { Gives reason_of forgotten_view result
        (spec.forgotten_names (map string_bytes words.entry.now)) }
{
    if let [first, rest @ ..] = words {
        if is_staying(first.as_str()) {
            return names_alone(true, rest);
        }
    }
    names_alone(false, words)
}
