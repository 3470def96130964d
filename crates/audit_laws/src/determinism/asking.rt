//! What a modulefile's questions ask of the context of its evaluation, and which of them have stable answers.
ghost use Rattle.std.specs.Prelude.{◌≡◌, map, string_bytes, IfOk};
ghost use Rattle.std.specs.Option.{option_map};
ghost use Rattle.tclrules.specs.Oracle.{OracleAnswer, OfCommand};
ghost use Rattle.modulefile.specs.CallViews.{field_view};
ghost use Rattle.modulefile.specs.RecordViews.{record_view};
ghost use Rattle.modulefile_run.specs.Questions.{question_view, questions_in};
ghost use Rattle.audit_laws.specs.determinism.StableInput as resting;
ghost use Rattle.audit_laws.specs.determinism.Contexts as ways;

use crate::determinism::stable_input::is_stable_input;
use modulefile::{Call, CallFault, InfoField, Record, call_of};
use modulefile_run::Question;
use std::alloc::{AllocError, Global};

/// What questions ask of the context of an evaluation.
#[derive(Clone, Copy)]
pub(crate) struct AskedOfContext {
    /// For the mode, or whether the file is half of a switch.
    pub(crate) mode: bool,
    /// For the shell.
    pub(crate) shell: bool,
}

/// What a question of these words asks of the context.
fn field_by_words(alloc: Global, words: &[String]) -> Result<Option<InfoField>, AllocError>
    ensures { IfOk result (λ field. (answer : OracleAnswer) → option_map field_view field
        ≡ resting.field_of (OfCommand (map string_bytes words.now) answer)) }
{
    match call_of(alloc, words) {
        Ok(Call::Info(field)) | Ok(Call::InfoTest(field, _)) => Ok(Some(field)),
        Err(CallFault::OutOfMemory) => Err(AllocError),
        _ => Ok(None),
    }
}

/// What a question asks of the context.
fn field_of(alloc: Global, question: &Question) -> Result<Option<InfoField>, AllocError>
    ensures { IfOk result (λ field. option_map field_view field ≡ resting.field_of (question_view question.now)) }
{
    match question {
        Question::Variable(_, _) => Ok(None),
        Question::Command(words, _) => field_by_words(alloc, words.as_slice()),
    }
}

/// Whether this is the mode.
fn is_mode(field: Option<InfoField>) -> bool
    ensures { result ≡ resting.is_mode (option_map field_view field) }
{
    matches!(field, Some(InfoField::Mode))
}

/// Whether this is of the shell.
fn is_shell(field: Option<InfoField>) -> bool
    ensures { result ≡ resting.is_shell (option_map field_view field) }
{
    matches!(field, Some(InfoField::Shell | InfoField::ShellType))
}

/// What questions ask of the context.
pub(crate) fn asked_of_context(
    alloc: Global,
    questions: &[Question],
) -> Result<AskedOfContext, AllocError>
    ensures mode { IfOk result (λ asked. asked.mode ≡ resting.asks_mode (questions_in questions.now)) }
    ensures shell { IfOk result (λ asked. asked.shell ≡ resting.asks_shell (questions_in questions.now)) }
{
    let mut mode = false;
    let mut shell = false;
    for question in questions {
        let field = field_of(alloc, question)?;
        mode |= is_mode(field);
        shell |= is_shell(field);
    }
    Ok(AskedOfContext { mode, shell })
}

/// Whether a question of these words asks for the context.
fn words_ask_context(alloc: Global, words: &[String]) -> Result<bool, AllocError>
    ensures { IfOk result (λ asks. (answer : OracleAnswer) → asks
        ≡ resting.asks_context (OfCommand (map string_bytes words.now) answer)) }
{
    match call_of(alloc, words) {
        Ok(Call::Info(_)) | Ok(Call::InfoTest(_, _)) | Ok(Call::IsLoaded(_)) => Ok(true),
        Err(CallFault::OutOfMemory) => Err(AllocError),
        _ => Ok(false),
    }
}

/// Whether a question asks for the context.
fn asks_context(alloc: Global, question: &Question) -> Result<bool, AllocError>
    ensures { IfOk result (λ asks. asks ≡ resting.asks_context (question_view question.now)) }
{
    match question {
        Question::Variable(_, _) => Ok(false),
        Question::Command(words, _) => words_ask_context(alloc, words.as_slice()),
    }
}

/// Whether a question has a stable answer beside these records: it asks for a variable that is a stable input, or for
/// the context, where the evaluations in the contexts that are asked for are equivalent.
///
/// The only error is want of memory.
pub fn has_stable_answer(
    alloc: Global,
    alike: bool,
    records: &[Record],
    question: &Question,
) -> Result<bool, AllocError>
    ensures { IfOk result (λ kept.
        kept ≡ ways.has_stable_answer alike (map record_view records.now) (question_view question.now)) }
{
    if !is_stable_input(alloc, records, question)? {
        return Ok(false);
    }
    Ok(alike || !asks_context(alloc, question)?)
}
