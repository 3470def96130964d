//! The host of a default file: it does the commands that Tcl hasn't (modulefile(5)).
ghost use Rattle.std.specs.Prelude.{◌≡◌, ◌++◌, ◌∷◌, [], map, string_bytes, OnOk, OnErr};
ghost use Rattle.lookup.specs.CommandAnswers.{texts_of_words};

use crate::command_answers::{CommandAnswer, command_answer};
use message::texts::copies;
use modulefile::command_names;
use std::alloc::{AllocError, Global};
use tclrules::{Host, HostAnswer};

/// Collects the `module-version` commands of a default file. To the file each variable of the environment is unset, and
/// what it writes is dropped.
#[derive(Drop)]
pub(crate) struct DefaultHost {
    pub(crate) alloc: Global,
    /// The words of each `module-version` command.
    pub(crate) commands: Vec<Vec<String>>,
    /// The variables of the environment that were read.
    pub(crate) asked: Vec<String>,
    /// The number of the fault of a refused command.
    pub(crate) refused: Option<u16>,
}

impl DefaultHost {
    /// Adds a `module-version` command by its words.
    fn add_command(&mut self, words: &[String]) -> Result<(), AllocError>
        ensures added { OnOk result (map texts_of_words self.new.commands.items
            ≡ map texts_of_words self.old.commands.items ++ map string_bytes words.now ∷ []) }
        ensures same { OnErr result (self.new.commands.items ≡ self.old.commands.items) }
        ensures asked { self.new.asked ≡ self.old.asked }
        ensures refused { self.new.refused ≡ self.old.refused }
    {
        let words = copies(self.alloc, words)?;
        self.commands.push(words)?;
        Ok(())
    }
}

impl Host for DefaultHost {
    ghost use Rattle.std.specs.Prelude.{[], map, option_map};
    ghost use Rattle.tclrules.specs.Oracle.{unnamed};
    ghost use Rattle.lookup.specs.DefaultFileResults.{default_oracle, unset_read};
    ghost use Rattle.lookup.specs.CommandAnswers.{texts_of_words};

    ghost trace = { λ h. record {
      records = map texts_of_words h.commands.items;
      messages = [];
      asked = map unset_read h.asked.items;
      refused = option_map unnamed h.refused;
    } };

    ghost oracle = { λ h. default_oracle };

    fn reserved(&self) -> &'static [&'static str] {
        command_names()
    }

    fn command(&mut self, words: &[String]) -> HostAnswer {
        match command_answer(words) {
            CommandAnswer::NewRecord => match self.add_command(words) {
                Ok(()) => HostAnswer::Done(String::new(self.alloc)),
                Err(_) => HostAnswer::OutOfMemory,
            },
            CommandAnswer::Dropped => HostAnswer::Done(String::new(self.alloc)),
            CommandAnswer::Refused(number) => {
                self.refused = Some(number);
                HostAnswer::Refused(number)
            }
            CommandAnswer::LeftOut(name) => match String::from_str(self.alloc, name) {
                Ok(name) => HostAnswer::LeftOut(name),
                Err(_) => HostAnswer::OutOfMemory,
            },
            CommandAnswer::Unknown => HostAnswer::Unknown,
        }
    }

    fn read_env(&mut self, name: &str) -> Result<Option<String>, AllocError> {
        let name = String::from_str(self.alloc, name)?;
        self.asked.push(name)?;
        Ok(None)
    }
}
