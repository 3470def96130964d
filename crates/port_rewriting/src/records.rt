//! Records as commands: their text, which is read again as the evaluator reads it.
ghost use Rattle.std.specs.Prelude.{◌≡◌, IfOk, IfSome, IsTrue, map, string_bytes};
ghost use Rattle.modulefile.specs.RecordViews.{record_view};
ghost use Rattle.tcltext.specs.script.View.{command_view, word_view};
ghost use Rattle.port_rewriting.specs.Leaving.{plain, HasRecord, Leave, Leaves};
ghost use Rattle.port_rewriting.specs.RecordViews.{records_view, shown, texts_in, AreTexts, commands_view};

use modulefile::{Call, CallFault, Record, call_of};
use std::alloc::{AllocError, Global};
use tcltext::chars::TextFault;
use tcltext::script::{Command, Word, WordContent, parse_script};

/// Adds a command of these first words, and of others, on a line of its own where another is before it.
fn push_command(text: &mut String, front: &str, words: &[String]) -> Result<(), AllocError> {
    if !text.is_empty() {
        text.push('\n')?;
    }
    text.push_str(front)?;
    for word in words {
        text.push(' ')?;
        text.push_str(word.as_str())?;
    }
    Ok(())
}

/// Adds the command that leaves a record, where one is written for records of its kind.
fn push_record(alloc: Global, text: &mut String, record: &Record) -> Result<(), AllocError> {
    match record {
        Record::Prereq(names) => push_command(text, "prereq", names.as_slice()),
        Record::Conflict(names) => push_command(text, "conflict", names.as_slice()),
        Record::Set { var, value } => {
            let command = format!(in alloc; "setenv {var} {value}")?;
            push_command(text, command.as_str(), &[])
        }
        Record::Path {
            edit,
            var,
            elements,
            ..
        } => {
            let name = edit.command();
            let front = format!(in alloc; "{name} {var}")?;
            push_command(text, front.as_str(), elements.as_slice())
        }
        _ => Ok(()),
    }
}

/// Whether both have the same texts in the same order.
fn same_texts(one: &[String], other: &[String]) -> bool
    ensures { IsTrue result → map string_bytes one.now ≡ map string_bytes other.now }
{
    one == other
}

/// Whether two records are the same, of the kinds that are written.
fn same_record(one: &Record, other: &Record) -> bool
    ensures { IsTrue result → record_view one.now ≡ record_view other.now }
{
    match (one, other) {
        (Record::Prereq(names), Record::Prereq(others)) => same_texts(names, others),
        (Record::Conflict(names), Record::Conflict(others)) => same_texts(names, others),
        (
            Record::Set { var, value },
            Record::Set {
                var: other_var,
                value: other_value,
            },
        ) => var.as_str() == other_var.as_str() && value.as_str() == other_value.as_str(),
        (
            Record::Path {
                edit,
                delim,
                var,
                elements,
            },
            Record::Path {
                edit: other_edit,
                delim: other_delim,
                var: other_var,
                elements: others,
            },
        ) => {
            *edit == *other_edit
                && delim.character == other_delim.character
                && var.as_str() == other_var.as_str()
                && same_texts(elements, others)
        }
        _ => false,
    }
}

/// The text that a word is, where nothing is substituted in it.
fn text_of<'t>(word: &Word<&'t str>) -> Option<&'t str>
    ensures { IfSome result (λ text. word_view shown word.now ≡ plain text.now) }
{
    match &word.content {
        WordContent::Bare(text) if !word.expands => Some(*text),
        _ => None,
    }
}

/// The texts that words are, where each is one.
fn texts_of(alloc: Global, words: &[Word<&str>]) -> Result<Option<Vec<String>>, AllocError>
    ensures { IfOk result (λ found. IfSome found (λ texts. AreTexts words.now (texts_in texts))) }
{
    let mut texts = Vec::new(alloc);
    for word in words {
        match text_of(word) {
            Some(text) => texts.push(String::from_str(alloc, text)?)?,
            None => return Ok(None),
        }
    }
    Ok(Some(texts))
}

/// Whether a command leaves a record.
#[tactic(auto, using(crate::proofs::Reading::called_for))]
fn leaves(alloc: Global, command: &Command<&str>, wanted: &Record) -> Result<bool, AllocError>
    ensures { IfOk result (λ b. IsTrue b → HasRecord (command_view shown command.now).words (record_view wanted.now)) }
{
    let Some(words) = texts_of(alloc, command.words.as_slice())? else {
        return Ok(false);
    };
    match call_of(alloc, words.as_slice()) {
        Ok(Call::Adds(found)) => Ok(same_record(&found, wanted)),
        Err(CallFault::OutOfMemory) => Err(AllocError),
        _ => Ok(false),
    }
}

/// Whether commands leave these records, one each.
fn all_leave(
    alloc: Global,
    commands: &[Command<&str>],
    records: &[Record],
) -> Result<bool, AllocError>
    ensures { IfOk result (λ b. IsTrue b → Leave (commands_view commands.now) (records_view records.now)) }
{
    match (commands, records) {
        ([], []) => Ok(true),
        ([command, commands @ ..], [record, records @ ..]) => {
            Ok(leaves(alloc, command, record)? && all_leave(alloc, commands, records)?)
        }
        _ => Ok(false),
    }
}

/// Whether the commands of a text leave these records.
#[tactic(auto, using(crate::proofs::Reading::script_leaves))]
fn is_read_as(alloc: Global, text: &str, records: &[Record]) -> Result<bool, AllocError>
    ensures { IfOk result (λ b. IsTrue b → Leaves text.now (records_view records.now)) }
{
    match parse_script(alloc, text) {
        Ok(script) => all_leave(alloc, script.commands.as_slice(), records),
        Err(TextFault::OutOfMemory) => Err(AllocError),
        Err(_) => Ok(false),
    }
}

/// The text of commands that leave these records; none where it would be read in another way.
pub(crate) fn written(alloc: Global, records: &[Record]) -> Result<Option<String>, AllocError>
    ensures { IfOk result (λ found. IfSome found (λ text. Leaves (string_bytes text) (records_view records.now))) }
{
    let mut text = String::new(alloc);
    for record in records {
        push_record(alloc, &mut text, record)?;
    }
    if is_read_as(alloc, text.as_str(), records)? {
        Ok(Some(text))
    } else {
        Ok(None)
    }
}
