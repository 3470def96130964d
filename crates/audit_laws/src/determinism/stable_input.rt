//! On what the answers to a modulefile's questions depend.
ghost use Rattle.std.specs.Prelude.{◌≡◌, map, string_bytes, IfOk};
ghost use Rattle.std.specs.List.{list_all, list_any};
ghost use Rattle.std.specs.Option.{option_map};
ghost use Rattle.envvars.specs.Texts.{has};
ghost use Rattle.tclrules.specs.Oracle.{OracleAnswer, OfCommand};
ghost use Rattle.modulefile.specs.Records.{variable_of};
ghost use Rattle.modulefile.specs.RecordViews.{record_view};
ghost use Rattle.modulefile_run.specs.Questions.{question_view, questions_in};
ghost use Rattle.audit_laws.specs.determinism.StableInput as spec;
ghost use Rattle.audit_laws.specs.determinism.StableInput.{shell_variables, is_variable, is_stable_variable};

use envvars::is_protected;
use modulefile::{Call, CallFault, Record, call_of};
use modulefile_run::{FileRun, Question};
use std::alloc::{AllocError, Global};

/// Whether the variable is one that shells change by themselves.
#[tactic(auto, unfolding(crate::specs::determinism::StableInput::shell_variables))]
fn is_of_shells(variable: &str) -> bool
    ensures { result ≡ has variable.now shell_variables }
{
    matches!(
        variable,
        "PWD"
            | "OLDPWD"
            | "SHLVL"
            | "_"
            | "RANDOM"
            | "SRANDOM"
            | "SECONDS"
            | "EPOCHSECONDS"
            | "EPOCHREALTIME"
            | "LINENO"
            | "LINES"
            | "COLUMNS"
            | "PPID"
            | "BASHPID"
            | "PIPESTATUS"
            | "OPTIND"
            | "OPTARG"
            | "REPLY"
            | "HISTCMD"
    )
}

/// The variable that a record names, if it names one.
fn variable_of(recorded: &Record) -> Option<&str>
    ensures { option_map (λ name. name.now) result ≡ variable_of (record_view recorded.now) }
{
    match recorded {
        Record::Set { var, .. }
        | Record::Unset { var, .. }
        | Record::Push { var, .. }
        | Record::Path { var, .. } => Some(var.as_str()),
        Record::Conflict(_) | Record::Prereq(_) | Record::Whatis(_) => None,
    }
}

/// Whether a record names the variable.
fn names(recorded: &Record, variable: &str) -> bool
    ensures { result ≡ is_variable variable.now (variable_of (record_view recorded.now)) }
{
    match variable_of(recorded) {
        Some(name) => variable == name,
        None => false,
    }
}

/// Whether one of the records names the variable.
fn is_named(records: &[Record], variable: &str) -> bool
    ensures { result ≡ list_any (λ r. is_variable variable.now (variable_of (record_view r))) records.now }
{
    records.iter().any(|recorded| names(recorded, variable))
}

/// Whether the variable is a stable input beside these records: it is none of the tool's, none that shells change by
/// themselves, and none that the records name.
fn is_stable_variable(records: &[Record], variable: &str) -> bool
    ensures { result ≡ is_stable_variable (map record_view records.now) variable.now }
{
    !is_protected(variable) && !is_of_shells(variable) && !is_named(records, variable)
}

/// Whether a question of these words has a stable input.
fn is_stable_call(alloc: Global, records: &[Record], words: &[String]) -> Result<bool, AllocError>
    ensures { IfOk result (λ rested. (answer : OracleAnswer)
        → rested ≡ spec.is_stable_input (map record_view records.now) (OfCommand (map string_bytes words.now) answer)) }
{
    match call_of(alloc, words) {
        Ok(Call::Getenv { var, .. }) => Ok(is_stable_variable(records, var)),
        Ok(Call::IsLoaded(names)) => Ok(!names.is_empty()),
        Ok(Call::Info(_)) | Ok(Call::InfoTest(_, _)) => Ok(true),
        Err(CallFault::OutOfMemory) => Err(AllocError),
        _ => Ok(false),
    }
}

/// Whether a question has a stable input beside these records: it asks for a variable that is one, or for the context of
/// the evaluation, by names where it asks what is loaded.
pub(crate) fn is_stable_input(
    alloc: Global,
    records: &[Record],
    question: &Question,
) -> Result<bool, AllocError>
    ensures { IfOk result (λ rested.
        rested ≡ spec.is_stable_input (map record_view records.now) (question_view question.now)) }
{
    match question {
        Question::Variable(name, _) => Ok(is_stable_variable(records, name.as_str())),
        Question::Command(words, _) => is_stable_call(alloc, records, words.as_slice()),
    }
}

/// Whether each question of an evaluation has a stable input beside the records that it left.
pub(crate) fn are_stable_inputs(alloc: Global, ran: &FileRun) -> Result<bool, AllocError>
    ensures { IfOk result (λ rested. rested ≡ list_all (spec.is_stable_input (map record_view ran.now.records.items))
        (questions_in ran.now.asked.items)) }
{
    for question in &ran.asked {
        if !is_stable_input(alloc, ran.records.as_slice(), question)? {
            return Ok(false);
        }
    }
    Ok(true)
}
