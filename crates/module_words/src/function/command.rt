//! The command of a subcommand and its words.
ghost use Rattle.std.specs.Prelude.{map, string_bytes};
ghost use Rattle.std.specs.Option.{option_map};
ghost use Rattle.module_words.specs.function.Answers as spec;
ghost use Rattle.module_words.specs.function.Views.{Answers};

use crate::function::answer::Answer;
use crate::function::edits::{answer_of_unuse, answer_of_use};
use crate::function::fault::FunctionFault;
use crate::function::loaded::answer_of_loaded;
use crate::subcommands::Subcommand;
use envvars::Env;
use std::alloc::Global;

/// What a subcommand with these words answers.
pub(crate) fn answer_of<'a>(
    alloc: Global,
    subcommand: Subcommand,
    words: &'a [String],
    env: &Env,
    working: Option<&str>,
) -> Result<Answer, FunctionFault<'a>>
    ensures { Answers result (spec.answer_of (option_map (λ w. w.now) working.entry) env.now subcommand
        (map string_bytes words.entry.now)) }
{
    match subcommand {
        Subcommand::Use => answer_of_use(alloc, words, env, working),
        Subcommand::Unuse => answer_of_unuse(alloc, words, env, working),
        Subcommand::IsLoaded => answer_of_loaded(alloc, words, env),
        other => Err(FunctionFault::NotHere(other)),
    }
}
