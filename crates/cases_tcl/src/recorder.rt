//! A host in memory, which records what a script asks of it.
ghost use Rattle.std.specs.Prelude.{◌≡◌, ◌++◌, ◌∷◌, [], true, IfOk, OnOk, OnErr, string_bytes, map};
ghost use Rattle.std.specs.Option.{option_map};
ghost use Rattle.tclrules.specs.Recording.{commands_of_recorder, record_texts, pair_texts, message_in};
ghost use Rattle.tclrules.specs.Oracle.{OfCommand, Done, Nothing};
ghost use Rattle.tclrules.specs.Variables.{Variables, lookup};
ghost use Rattle.cases_tcl.specs.Asking.{asked_view};

use message::texts::copies;
use std::alloc::{AllocError, Global};
use tclrules::{Host, HostAnswer};

/// What a script asked its host.
#[derive(Drop)]
pub(crate) enum Asked {
    /// The mode, by these words.
    Mode(Vec<String>),
    /// This variable of the environment.
    Variable(String),
}

/// Records the words of each `setenv` and the message of each `puts`, answers its mode to `mode`, refuses `conflict` by
/// 51, and has no other command. Its environment never changes.
#[derive(Drop)]
pub(crate) struct Recorder {
    /// Where its memory comes from.
    pub(crate) alloc: Global,
    /// What `mode` answers.
    pub(crate) mode: String,
    /// The environment variables with their values.
    pub(crate) environment: Vec<(String, String)>,
    /// The words of each command that was recorded.
    pub(crate) records: Vec<Vec<String>>,
    /// The messages.
    pub(crate) messages: Vec<String>,
    /// What was asked.
    pub(crate) asked: Vec<Asked>,
    /// The number by which a command was refused last.
    pub(crate) refused: Option<u16>,
}

/// The names of its commands but `puts`, which is Tcl's.
const RESERVED: [&str; 3] = ["setenv", "mode", "conflict"];

/// The names that no procedure may have.
#[tactic(auto, unfolding(tclrules::specs::Recording::commands_of_recorder))]
fn reserved() -> &'static [&'static str]
    ensures { map (λ n. n.now) result.now ≡ commands_of_recorder }
{
    &RESERVED
}

fn push_copy(
    records: &mut Vec<Vec<String>>,
    alloc: Global,
    words: &[String],
) -> Result<(), AllocError>
    ensures ok { OnOk result (map record_texts records.new.items
        ≡ map record_texts records.old.items ++ map string_bytes words.now ∷ []) }
    ensures err { OnErr result (records.new.items ≡ records.old.items) }
{
    let copy = copies(alloc, words)?;
    records.push(copy)?;
    Ok(())
}

fn joined(alloc: Global, text: &str, ending: &str) -> Result<String, AllocError>
    ensures { IfOk result (λ t. string_bytes t ≡ text.now ++ ending.now) }
{
    let mut message = String::from_str(alloc, text)?;
    message.push_str(ending)?;
    Ok(message)
}

/// The message of `puts ?-nonewline? stderr text`: the text, with a newline unless there is an option.
fn message_of(alloc: Global, words: &[String]) -> Result<Option<String>, AllocError>
    ensures { IfOk result (λ m. option_map string_bytes m ≡ message_in (map string_bytes words.now)) }
{
    match words {
        [_, _, text] => Ok(Some(joined(alloc, text.as_str(), "\n")?)),
        [_, _, _, text] => Ok(Some(joined(alloc, text.as_str(), "")?)),
        _ => Ok(None),
    }
}

/// The value of a variable of this environment, if it is set.
fn value_of(
    alloc: Global,
    environment: &[(String, String)],
    name: &str,
) -> Result<Option<String>, AllocError>
    ensures { IfOk result (λ v. option_map string_bytes v ≡ lookup (pair_texts environment.now) name.now) }
{
    for (key, value) in environment {
        if name == key.as_str() {
            return Ok(Some(String::from_str(alloc, value.as_str())?));
        }
    }
    Ok(None)
}

/// A copy of the mode, for which these words asked.
fn answer_mode(
    alloc: Global,
    mode: &String,
    asked: &mut Vec<Asked>,
    words: &[String],
) -> Result<String, AllocError>
    ensures answer { IfOk result (λ answer. string_bytes answer ≡ string_bytes mode.now) }
    ensures asked { (environment : Variables) → OnOk result (
        map (asked_view (string_bytes mode.now) environment) asked.new.items
        ≡ map (asked_view (string_bytes mode.now) environment) asked.old.items
        ++ OfCommand (map string_bytes words.now) (Done (string_bytes mode.now) Nothing true) ∷ []) }
{
    let words = copies(alloc, words)?;
    let answer = String::from_str(alloc, mode.as_str())?;
    asked.push(Asked::Mode(words))?;
    Ok(answer)
}

impl Host for Recorder {
    ghost use Rattle.std.specs.Prelude.{string_bytes, map, option_map};
    ghost use Rattle.tclrules.specs.Oracle.{unnamed};
    ghost use Rattle.cases_tcl.specs.Asking.{asked_view};
    ghost use Rattle.tclrules.specs.Recording.{commands_of_recorder, answer_of, record_texts, pair_texts, value_in};

    ghost trace = { λ r. record {
      records = map record_texts r.records.items;
      messages = map string_bytes r.messages.items;
      asked = map (asked_view (string_bytes r.mode) (pair_texts r.environment.items)) r.asked.items;
      refused = option_map unnamed r.refused;
    } };

    ghost oracle = { λ r. record {
      reserved = commands_of_recorder;
      command = answer_of (string_bytes r.mode);
      variable = value_in (pair_texts r.environment.items);
    } };

    fn reserved(&self) -> &'static [&'static str] {
        reserved()
    }

    fn command(&mut self, words: &[String]) -> HostAnswer {
        let [name, ..] = words else {
            return HostAnswer::Unknown;
        };
        if name.as_str() == "setenv" {
            if push_copy(&mut self.records, self.alloc, words).is_err() {
                return HostAnswer::OutOfMemory;
            }
            HostAnswer::Done(String::new(self.alloc))
        } else if name.as_str() == "puts" {
            let Ok(text) = message_of(self.alloc, words) else {
                return HostAnswer::OutOfMemory;
            };
            let Some(message) = text else {
                return HostAnswer::Unknown;
            };
            if self.messages.push(message).is_err() {
                return HostAnswer::OutOfMemory;
            }
            HostAnswer::Done(String::new(self.alloc))
        } else if name.as_str() == "mode" {
            match answer_mode(self.alloc, &self.mode, &mut self.asked, words) {
                Ok(mode) => HostAnswer::Done(mode),
                Err(_) => HostAnswer::OutOfMemory,
            }
        } else if name.as_str() == "conflict" {
            self.refused = Some(51);
            HostAnswer::Refused(51)
        } else {
            HostAnswer::Unknown
        }
    }

    fn read_env(&mut self, name: &str) -> Result<Option<String>, AllocError> {
        let value = value_of(self.alloc, self.environment.as_slice(), name)?;
        let name = String::from_str(self.alloc, name)?;
        self.asked.push(Asked::Variable(name))?;
        Ok(value)
    }
}
