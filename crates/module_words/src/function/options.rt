//! The options of `use` and `unuse`, and the words behind them.
ghost use Rattle.std.specs.Prelude.{◌≡◌, map, string_bytes};
ghost use Rattle.message.specs.Answers.{Gives};
ghost use Rattle.module_words.specs.function.Faults.{reason_of};
ghost use Rattle.module_words.specs.function.Options as spec;
ghost use Rattle.module_words.specs.function.Views.{texts_of, end_view};

use crate::function::fault::FunctionFault;
use crate::subcommands::{CommandOption, Subcommand, WordFault, option_of};
use envstate::paths::End;

/// The words, where there are some.
fn some_words<'a>(words: &'a [String]) -> Result<&'a [String], FunctionFault<'a>>
    ensures { Gives reason_of texts_of result (spec.some_words (map string_bytes words.entry.now)) }
{
    match words {
        [] => Err(FunctionFault::BadArguments),
        [_, ..] => Ok(words),
    }
}

/// The end at which an option of `use` puts directories, in place of this one.
fn end_by(option: CommandOption, end: End) -> End
    ensures { result ≡ spec.end_by option end }
{
    match option {
        CommandOption::Behind => End::Back,
        CommandOption::InFront => End::Front,
        _ => end,
    }
}

/// The words of `use` behind its options, and the end at which they are put: options stand first, the last of them
/// counts, and `--` ends them.
pub(crate) fn words_to_use<'a>(
    end: End,
    words: &'a [String],
) -> Result<(End, &'a [String]), FunctionFault<'a>>
    ensures { Gives reason_of end_view result (spec.words_to_use end (map string_bytes words.entry.now)) }
{
    let [first, rest @ ..] = words else {
        return Err(FunctionFault::BadArguments);
    };
    let word = first.as_str();
    if word == "--" {
        return Ok((end, some_words(rest)?));
    }
    if let Some(option) = option_of(Subcommand::Use, word) {
        return words_to_use(end_by(option, end), rest);
    }
    if word.starts_with('-') {
        return Err(FunctionFault::Word(WordFault::NoOption(word)));
    }
    Ok((end, words))
}

/// The words of `unuse`, which has no option; `--` may stand before them.
pub(crate) fn words_to_unuse<'a>(words: &'a [String]) -> Result<&'a [String], FunctionFault<'a>>
    ensures { Gives reason_of texts_of result (spec.words_to_unuse (map string_bytes words.entry.now)) }
{
    let [word, rest @ ..] = words else {
        return Err(FunctionFault::BadArguments);
    };
    let word = word.as_str();
    if word == "--" {
        return some_words(rest);
    }
    if word.starts_with('-') {
        return Err(FunctionFault::Word(WordFault::NoOption(word)));
    }
    Ok(words)
}
