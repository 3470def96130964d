//! What a file asks, with the answer.
ghost use Rattle.std.specs.Prelude.{◌≡◌, ◌++◌, ◌∷◌, [], map, string_bytes, IfOk, OnOk, OnErr};
ghost use Rattle.std.specs.Option.{option_map};
ghost use Rattle.tclrules.specs.Oracle.{OfCommand, OfVariable};
ghost use Rattle.modulefile.specs.Answers.{question_answer};
ghost use Rattle.modulefile_run.specs.Questions.{questions_in};

use message::texts::copies;
use std::alloc::{AllocError, Global};

/// What a file asked, and what was answered (modulefile(5)).
#[derive(Debug, Drop)]
pub enum Question {
    /// The words of a command, as `getenv HOME` or `module-info mode`, and its answer.
    Command(Vec<String>, String),
    /// A variable of the environment, as `$env(HOME)`, and its value, if it was set.
    Variable(String, Option<String>),
}

/// Adds the words of a command, with its answer.
pub(crate) fn add_command(
    alloc: Global,
    asked: &mut Vec<Question>,
    words: &[String],
    answer: &str,
) -> Result<(), AllocError>
    ensures ok { OnOk result (questions_in asked.new.items ≡ questions_in asked.old.items
        ++ OfCommand (map string_bytes words.now) (question_answer answer.now) ∷ []) }
    ensures err { OnErr result (asked.new.items ≡ asked.old.items) }
{
    let words = copies(alloc, words)?;
    let answer = String::from_str(alloc, answer)?;
    asked.push(Question::Command(words, answer))?;
    Ok(())
}

/// A copy of a text, if it is there.
fn copied(alloc: Global, text: &Option<String>) -> Result<Option<String>, AllocError>
    ensures { IfOk result (λ copy. option_map string_bytes copy ≡ option_map string_bytes text.now) }
{
    match text {
        Some(text) => Ok(Some(String::from_str(alloc, text.as_str())?)),
        None => Ok(None),
    }
}

/// Adds a variable of the environment, with its value.
pub(crate) fn add_variable(
    alloc: Global,
    asked: &mut Vec<Question>,
    name: &str,
    value: &Option<String>,
) -> Result<(), AllocError>
    ensures ok { OnOk result (questions_in asked.new.items ≡ questions_in asked.old.items
        ++ OfVariable name.now (option_map string_bytes value.now) ∷ []) }
    ensures err { OnErr result (asked.new.items ≡ asked.old.items) }
{
    let name = String::from_str(alloc, name)?;
    let value = copied(alloc, value)?;
    asked.push(Question::Variable(name, value))?;
    Ok(())
}
