//! What a command of the function prints, and its status.
ghost use Rattle.std.specs.Prelude.{◌≡◌, map, IfOk, IfErr, string_bytes};
ghost use Rattle.std.specs.Option.{option_map};
ghost use Rattle.envvars.specs.Texts.{texts_in};
ghost use Rattle.module_words.specs.function.Answers.{answer_of};
ghost use Rattle.module_words.specs.function.Outputs.{GivesOutput};
ghost use Rattle.module_words.specs.function.Views.{IsPrinted, IsUnprinted, added_in, status_in};

use crate::function::answer::Answer;
use crate::function::command::answer_of;
use crate::function::output_fault::OutputFault;
use crate::subcommands::Subcommand;
use envvars::Env;
use shelltext::{PrintFault, Shell, print_changes};
use std::alloc::{AllocError, Global};

/// What a command prints, and its status.
#[derive(Debug, Drop)]
pub struct FunctionOutput {
    /// What goes to standard output.
    pub text: String,
    /// The status: 1 for no, and else 0.
    pub status: u8,
    /// The absolute paths of the directories that `use` adds, in the order of its words, each as often as it is named.
    pub added: Vec<String>,
}

/// The text of an answer for the shell.
fn text_of(alloc: Global, shell: Shell, answer: &Answer) -> Result<String, PrintFault>
    ensures printed { IfOk result (λ text. IsPrinted shell answer.now (string_bytes text)) }
    ensures fault { IfErr result (IsUnprinted shell answer.now) }
{
    match answer {
        Answer::Changes { changes, .. } => print_changes(alloc, shell, changes.as_slice()),
        Answer::Truth(_) => Ok(String::new(alloc)),
    }
}

/// The status of an answer.
fn status_of(answer: &Answer) -> u8
    ensures { result ≡ status_in answer.now }
{
    match answer {
        Answer::Truth(false) => 1,
        Answer::Changes { .. } | Answer::Truth(true) => 0,
    }
}

/// The directories that are searched from then on.
fn added_by(alloc: Global, answer: Answer) -> Vec<String>
    ensures { texts_in result ≡ added_in answer }
{
    match answer {
        Answer::Changes { added, .. } => added,
        Answer::Truth(_) => Vec::new(alloc),
    }
}

/// What a subcommand with these words prints, with its status: relative directories are taken from the working directory.
///
/// `use` and `unuse` print the text that makes of the environment, as the shell reads it, exactly the one in which
/// MODULEPATH is the new list, and nothing else differs; of `use` the directories are named besides. `is-loaded` prints
/// nothing, and its status says whether one of the names means a loaded module, or without names whether there is one.
///
/// The errors: `Refused`, the subcommand is another one, or the words don't fit it, the loaded modules are inconsistent,
/// or memory ran out; `Unprinted`, the shell has no text for the changes, or memory ran out.
pub fn function_output<'a>(
    alloc: Global,
    shell: Shell,
    subcommand: Subcommand,
    words: &'a [String],
    env: &Env,
    working: Option<&str>,
) -> Result<FunctionOutput, OutputFault<'a>>
    ensures { GivesOutput shell result
        (answer_of (option_map (λ w. w.now) working.entry) env.now subcommand (map string_bytes words.entry.now)) }
{
    let answer = answer_of(alloc, subcommand, words, env, working)?;
    let text = text_of(alloc, shell, &answer)?;
    let status = status_of(&answer);
    let added = added_by(alloc, answer);
    Ok(FunctionOutput {
        text,
        status,
        added,
    })
}
