//! The variables that a modulefile reads, and the first of its questions that doesn't have a stable answer.
ghost use Rattle.std.specs.Prelude.{◌≡◌, ◌++◌, [], not, map, position, string_bytes, IfOk, OnOk};
ghost use Rattle.std.specs.List.{cons_option};
ghost use Rattle.std.specs.Option.{option_map};
ghost use Rattle.envvars.specs.Texts.{slice_texts};
ghost use Rattle.tclrules.specs.Oracle.{OracleAnswer, OfCommand};
ghost use Rattle.modulefile.specs.RecordViews.{record_view};
ghost use Rattle.modulefile_run.specs.Questions.{question_view, questions_in};
ghost use Rattle.audit_laws.specs.determinism.StableInput.{read_by, variables_read};
ghost use Rattle.audit_laws.specs.determinism.Contexts.{has_stable_answer};

use crate::determinism::asking::has_stable_answer;
use modulefile::{Call, CallFault, call_of};
use modulefile_run::{FileRun, Question};
use std::alloc::{AllocError, Global};

/// The place of the first question that doesn't have a stable answer beside the records of its file, whose evaluations
/// in the contexts that it asks for are equivalent or not; `None` where each keeps it.
///
/// The only error is want of memory.
pub fn first_unkept(alloc: Global, alike: bool, ran: &FileRun) -> Result<Option<usize>, AllocError>
    ensures { IfOk result (λ place. place ≡ position (λ q. not (has_stable_answer alike
        (map record_view ran.now.records.items) (question_view q))) ran.now.asked.items) }
{
    for (place, question) in ran.asked.iter().enumerate() {
        if !has_stable_answer(alloc, alike, ran.records.as_slice(), question)? {
            return Ok(Some(place));
        }
    }
    Ok(None)
}

/// The variable that a question of these words reads.
fn read_by_words(alloc: Global, words: &[String]) -> Result<Option<&str>, AllocError>
    ensures { IfOk result (λ variable. (answer : OracleAnswer) → option_map (λ name. name.now) variable
        ≡ read_by (OfCommand (map string_bytes words.entry.now) answer)) }
{
    match call_of(alloc, words) {
        Ok(Call::Getenv { var, .. }) => Ok(Some(var)),
        Err(CallFault::OutOfMemory) => Err(AllocError),
        _ => Ok(None),
    }
}

/// The variable that a question reads.
fn read_by(alloc: Global, question: &Question) -> Result<Option<&str>, AllocError>
    ensures { IfOk result (λ variable. option_map (λ name. name.now) variable
        ≡ read_by (question_view question.entry.now)) }
{
    match question {
        Question::Variable(name, _) => Ok(Some(name.as_str())),
        Question::Command(words, _) => read_by_words(alloc, words.as_slice()),
    }
}

/// Adds the variable that a question reads, if it reads one.
fn push_read<'a>(
    alloc: Global,
    names: &mut Vec<&'a str>,
    question: &'a Question,
) -> Result<(), AllocError>
    ensures { OnOk result (slice_texts names.new.items
        ≡ slice_texts names.old.items ++ cons_option (read_by (question_view question.entry.now)) []) }
{
    if let Some(name) = read_by(alloc, question)? {
        names.push(name)?;
    }
    Ok(())
}

/// The variables that questions read, in their order, one as often as it is read.
///
/// The only error is want of memory.
pub fn variables_read(alloc: Global, questions: &[Question]) -> Result<Vec<&str>, AllocError>
    ensures { IfOk result (λ names. slice_texts names.items ≡ variables_read (questions_in questions.entry.now)) }
{
    let mut names = Vec::new(alloc);
    for question in questions {
        push_read(alloc, &mut names, question)?;
    }
    Ok(names)
}
