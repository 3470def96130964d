//! What a modulefile asks of what is loaded, and each choice of answers to it.
ghost use Rattle.std.specs.Prelude.{◌≡◌, [], ◌∷◌, ◌++◌, flat_map, map, string_bytes, IfOk, OnOk};
ghost use Rattle.std.specs.List.{list_all, list_any, cons_option};
ghost use Rattle.std.specs.Option.{option_map};
ghost use Rattle.modulename.specs.ModuleName.{means};
ghost use Rattle.envvars.specs.Texts.{texts_in};
ghost use Rattle.tclrules.specs.Oracle.{OracleAnswer, OfCommand};
ghost use Rattle.modulefile_run.specs.Questions.{question_view, questions_in};
ghost use Rattle.audit_laws.specs.determinism.StableInput as resting;
ghost use Rattle.audit_laws.specs.determinism.StableInput.{asks_mode, asks_shell};
ghost use Rattle.audit_laws.specs.determinism.LoadedAnswers as spec;
ghost use Rattle.audit_laws.specs.determinism.ContextViews.{text_lists};

use crate::determinism::asking::{AskedOfContext, asked_of_context};
use crate::determinism::undone::same_texts;
use message::texts::{copies, with_copies};
use modulefile::{Call, CallFault, call_of};
use modulefile_run::Question;
use modulename::means;
use std::alloc::{AllocError, Global};

/// How many questions of what is loaded are answered by each choice. With more of them it would take more than eight
/// evaluations to try each choice in each context of the mode and the shell, and none is tried.
fn most_questions(asked: AskedOfContext) -> usize
    ensures { result ≡ spec.most_questions asked.mode asked.shell }
{
    match (asked.mode, asked.shell) {
        (false, false) => 3,
        (true, false) => 1,
        (_, true) => 0,
    }
}

/// The names for which a question of these words asks.
fn names_by_words(alloc: Global, words: &[String]) -> Result<Option<&[String]>, AllocError>
    ensures { IfOk result (λ names. (answer : OracleAnswer) → option_map (λ texts. map string_bytes texts.now) names
        ≡ resting.names_of (OfCommand (map string_bytes words.entry.now) answer)) }
{
    match call_of(alloc, words) {
        Ok(Call::IsLoaded(names)) => Ok(Some(names)),
        Err(CallFault::OutOfMemory) => Err(AllocError),
        _ => Ok(None),
    }
}

/// The names for which a question asks whether one means a loaded module.
fn names_of(alloc: Global, question: &Question) -> Result<Option<&[String]>, AllocError>
    ensures { IfOk result (λ names. option_map (λ texts. map string_bytes texts.now) names
        ≡ resting.names_of (question_view question.entry.now)) }
{
    match question {
        Question::Variable(_, _) => Ok(None),
        Question::Command(words, _) => names_by_words(alloc, words.as_slice()),
    }
}

/// Whether the names are those of one of the questions.
fn is_one_of(names: &[String], questions: &[&[String]]) -> bool
    ensures { result ≡ spec.is_one_of (map string_bytes names.now) (text_lists questions.now) }
{
    questions.iter().any(|question| same_texts(names, question))
}

/// Whether each of the questions is one of the others.
pub(crate) fn are_all_among(questions: &[&[String]], others: &[&[String]]) -> bool
    ensures { result
        ≡ list_all (λ names. spec.is_one_of names (text_lists others.now)) (text_lists questions.now) }
{
    questions.iter().all(|names| is_one_of(names, others))
}

/// Adds a question of what is loaded, unless it is there.
fn push_new<'a>(questions: &mut Vec<&'a [String]>, names: &'a [String]) -> Result<(), AllocError>
    ensures { OnOk result (text_lists questions.new.items
        ≡ spec.once_after (text_lists questions.old.items) (map string_bytes names.entry.now ∷ [])) }
{
    if !is_one_of(names, questions.as_slice()) {
        questions.push(names)?;
    }
    Ok(())
}

/// Adds what a question asks of what is loaded, unless it is there or asks nothing of it.
fn push_question<'a>(
    alloc: Global,
    questions: &mut Vec<&'a [String]>,
    question: &'a Question,
) -> Result<(), AllocError>
    ensures { OnOk result (text_lists questions.new.items ≡ spec.once_after (text_lists questions.old.items)
        (cons_option (resting.names_of (question_view question.entry.now)) [])) }
{
    if let Some(names) = names_of(alloc, question)? {
        push_new(questions, names)?;
    }
    Ok(())
}

/// The questions of what is loaded, by their names, each once.
pub(crate) fn distinct_questions(
    alloc: Global,
    asked: &[Question],
) -> Result<Vec<&[String]>, AllocError>
    ensures { IfOk result (λ questions. text_lists questions.items
        ≡ spec.distinct_questions (questions_in asked.entry.now)) }
{
    let mut questions = Vec::new(alloc);
    for question in asked {
        push_question(alloc, &mut questions, question)?;
    }
    Ok(questions)
}

/// Whether questions ask so little of what is loaded that each choice of answers is tried.
///
/// The only error is want of memory.
pub fn are_few(alloc: Global, asked: &[Question]) -> Result<bool, AllocError>
    ensures { IfOk result (λ few. few ≡ spec.are_few (questions_in asked.now)) }
{
    let of_way = asked_of_context(alloc, asked)?;
    Ok(distinct_questions(alloc, asked)?.len() <= most_questions(of_way))
}

/// The questions of what is loaded that are answered by each choice, where the context is asked for so.
pub(crate) fn questions_tried(
    alloc: Global,
    of_way: AskedOfContext,
    asked: &[Question],
) -> Result<Vec<&[String]>, AllocError>
    requires mode { of_way.mode ≡ asks_mode (questions_in asked.now) }
    requires shell { of_way.shell ≡ asks_shell (questions_in asked.now) }
    ensures { IfOk result (λ questions. text_lists questions.items
        ≡ spec.questions_tried (questions_in asked.entry.now)) }
{
    let questions = distinct_questions(alloc, asked)?;
    if questions.len() > most_questions(of_way) {
        return Ok(Vec::new(alloc));
    }
    Ok(questions)
}

/// The choices with the names of one question more among those whose answer is no.
fn answered_no(
    alloc: Global,
    choices: &[Vec<String>],
    names: &[String],
) -> Result<Vec<Vec<String>>, AllocError>
    ensures { IfOk result (λ new. map texts_in new.items
        ≡ map (λ denied. denied ++ map string_bytes names.now) (map texts_in choices.now)) }
{
    let mut new = Vec::new(alloc);
    for choice in choices {
        new.push(with_copies(alloc, copies(alloc, choice.as_slice())?, names)?)?;
    }
    Ok(new)
}

/// Adds to the choices of answers, of which one is yes, those to one question more, behind questions of these names.
fn push_choices(
    alloc: Global,
    choices: &mut Vec<Vec<String>>,
    before: &[String],
    names: &[String],
) -> Result<(), AllocError>
    ensures { OnOk result (map texts_in choices.new.items ≡ map texts_in choices.old.items
        ++ map string_bytes before.now ∷ map (λ denied. denied ++ map string_bytes names.now) (map texts_in choices.old.items)) }
{
    let mut denied = answered_no(alloc, choices.as_slice(), names)?;
    choices.push(copies(alloc, before)?)?;
    choices.append(&mut denied)?;
    Ok(())
}

/// Whether one of the names means the module.
fn is_meant(module: &str, names: &[String]) -> bool
    ensures { result ≡ list_any (λ name. means name module.now) (map string_bytes names.now) }
{
    names.iter().any(|name| means(name.as_str(), module))
}

/// Adds a name, unless one of the others means it.
fn push_unless_meant(
    alloc: Global,
    loaded: &mut Vec<String>,
    name: &str,
    others: &[String],
) -> Result<(), AllocError>
    ensures { OnOk result (texts_in loaded.new
        ≡ texts_in loaded.old ++ spec.loaded_beside (name.now ∷ []) (map string_bytes others.now)) }
{
    if !is_meant(name, others) {
        loaded.push(String::from_str(alloc, name)?)?;
    }
    Ok(())
}

/// Those of the names that none of the others means.
fn loaded_beside(
    alloc: Global,
    names: &[String],
    others: &[String],
) -> Result<Vec<String>, AllocError>
    ensures { IfOk result (λ loaded. texts_in loaded
        ≡ spec.loaded_beside (map string_bytes names.now) (map string_bytes others.now)) }
{
    let mut loaded = Vec::new(alloc);
    for name in names {
        push_unless_meant(alloc, &mut loaded, name.as_str(), others)?;
    }
    Ok(loaded)
}

/// What is loaded by each choice of answers of which one is yes.
pub(crate) fn loaded_lists(
    alloc: Global,
    questions: &[&[String]],
) -> Result<Vec<Vec<String>>, AllocError>
    ensures { IfOk result (λ lists. map texts_in lists.items ≡ spec.loaded_lists (text_lists questions.now)) }
{
    let (choices, names) = choices(alloc, questions)?;
    let mut lists = Vec::new(alloc);
    for denied in &choices {
        lists.push(loaded_beside(alloc, names.as_slice(), denied.as_slice())?)?;
    }
    Ok(lists)
}

/// The choices of answers of which one is yes, by the names in the questions whose answer is no; and the names in all.
fn choices(
    alloc: Global,
    questions: &[&[String]],
) -> Result<(Vec<Vec<String>>, Vec<String>), AllocError>
    ensures choices { IfOk result (λ found. map texts_in found.0.items ≡ spec.choices (text_lists questions.now)) }
    ensures names { IfOk result (λ found. texts_in found.1 ≡ flat_map (λ names. names) (text_lists questions.now)) }
{
    let mut choices = Vec::new(alloc);
    let mut all = Vec::new(alloc);
    for names in questions {
        push_choices(alloc, &mut choices, all.as_slice(), names)?;
        all = with_copies(alloc, all, names)?;
    }
    Ok((choices, all))
}
