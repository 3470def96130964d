//! `use` and `unuse`: what they change in an environment.
ghost use Rattle.std.specs.Prelude.{map, string_bytes};
ghost use Rattle.std.specs.Option.{option_map};
ghost use Rattle.module_words.specs.function.Answers as spec;
ghost use Rattle.module_words.specs.function.Views.{Answers};

use crate::function::answer::Answer;
use crate::function::fault::FunctionFault;
use crate::function::options::{words_to_unuse, words_to_use};
use crate::modulepath::{
    directories_to_unuse, directories_to_use, unuse_directories, use_directories,
};
use envstate::paths::End;
use envvars::{Env, Working};
use std::alloc::Global;

/// What `use` with these words answers.
pub(crate) fn answer_of_use<'a>(
    alloc: Global,
    words: &'a [String],
    env: &Env,
    working: Option<&str>,
) -> Result<Answer, FunctionFault<'a>>
    ensures { Answers result
        (spec.used (option_map (λ w. w.now) working.entry) env.now (map string_bytes words.entry.now)) }
{
    let (end, words) = words_to_use(End::Front, words)?;
    let paths = directories_to_use(alloc, working, words)?;
    let mut copy = Working::over(env);
    use_directories(alloc, &mut copy, working, end, paths.as_slice())?;
    let changes = copy.into_changes()?;
    Ok(Answer::Changes {
        changes,
        added: paths,
    })
}

/// What `unuse` with these words answers.
pub(crate) fn answer_of_unuse<'a>(
    alloc: Global,
    words: &'a [String],
    env: &Env,
    working: Option<&str>,
) -> Result<Answer, FunctionFault<'a>>
    ensures { Answers result
        (spec.unused (option_map (λ w. w.now) working.entry) env.now (map string_bytes words.entry.now)) }
{
    let words = words_to_unuse(words)?;
    let paths = directories_to_unuse(alloc, working, words)?;
    let mut copy = Working::over(env);
    unuse_directories(alloc, &mut copy, working, paths.as_slice())?;
    let changes = copy.into_changes()?;
    Ok(Answer::Changes {
        changes,
        added: Vec::new(alloc),
    })
}
