//! The host of a modulefile: it does the commands that Tcl hasn't (modulefile(5)).
ghost use Rattle.std.specs.Prelude.{◌≡◌, ◌++◌, ◌∷◌, [], List, None, Some, Ok, map, string_bytes, IfOk, IfErr, IfSome, OnOk};
ghost use Rattle.std.specs.Prelude.{OnErr, false};
ghost use Rattle.envvars.specs.Texts.{Text, texts_in};
ghost use Rattle.envvars.specs.Changes.{applied, new_values_in};
ghost use Rattle.tclrules.specs.Oracle.{Nothing, Message, Done};
ghost use Rattle.modulefile.specs.Judgments.{RecordReason};
ghost use Rattle.modulefile.specs.Calls.{CallReason, bad_record, adds_record, call_of};
ghost use Rattle.modulefile.specs.CallViews.{HasReason, call_view, field_view};
ghost use Rattle.modulefile.specs.RecordViews.{mode_view, record_view};
ghost use Rattle.modulefile_run.specs.RecordAnswers.{HasFault};
ghost use Rattle.modulefile.specs.Answers.{command_answer, any_loaded, question_answer, not_done, variable_answer};
ghost use Rattle.modulefile.specs.Answers.{truth, field_text, field_test, value_shown};
ghost use Rattle.modulefile.specs.Files.{ran_of};
ghost use Rattle.modulefile_run.specs.declared.run_stop.RunStop.TheVariants.{OutOfMemory};
ghost use Rattle.modulefile_run.specs.Running.{ran_view, eval_stop, stop_of};
ghost use Rattle.modulefile_run.specs.Journals.{environment_so_far, journal_state};
ghost use Rattle.modulefile_run.specs.Hosting.{context_of, trace_of, refusal_view, message_of, Replies};

use crate::command_refusal::CommandRefusal;
use crate::context::FileContext;
use crate::journal::{FinishedFile, Journal};
use crate::question::{Question, add_command, add_variable};
use crate::questions::{any_loaded, is_mode, mode_word, truth};
use crate::run::{FileDraft, FileRun, StoppedRun, refusal};
use crate::run_fault::RunFault;
use envvars::{EnvFault, Vars, is_variable_name};
use modulefile::{Call, CallFault, InfoField, Mode, Record, RecordFault, call_of, command_names};
use std::alloc::{AllocError, Global};
use tclrules::{EvalFault, Host, HostAnswer};

/// Does the commands of a file, over the environment from before it.
pub(crate) struct Runner<'a, V: Vars> {
    pub alloc: Global,
    pub context: FileContext<'a>,
    pub journal: Journal<'a, V>,
    pub messages: Vec<String>,
    pub asked: Vec<Question>,
    /// Why the last refused command was refused: the evaluator has its number alone, and this has the name as well.
    pub refusal: Option<CommandRefusal>,
}

// By hand: `derive(Drop)` would ask for `V: Drop`, and the variables are borrowed.
impl<'a, V: Vars> Drop for Runner<'a, V> {
    fn drop(self) {
        let Runner {
            alloc: _alloc,
            context: _context,
            journal: _journal,
            messages: _messages,
            asked: _asked,
            refusal: _refusal,
        } = self;
    }
}

impl<'a, V: Vars> Runner<'a, V> {
    /// The host of a file before its first command.
    pub(crate) fn over(alloc: Global, context: FileContext<'a>, before: &'a V) -> Self
        ensures journal { result.journal
            ≡ journal_state context.entry.mode context.entry.name.now (V.vars before.entry.now) [] }
        ensures context { result.context ≡ context.entry }
        ensures messages { result.messages.items ≡ [] }
        ensures asked { result.asked.items ≡ [] }
        ensures refusal { result.refusal ≡ None }
    {
        Runner {
            alloc,
            context,
            journal: Journal::over(alloc, context.mode, context.name, before),
            messages: Vec::new(alloc),
            asked: Vec::new(alloc),
            refusal: None,
        }
    }

    /// The answer to words that call no command.
    fn not_done(&mut self, fault: CallFault) -> HostAnswer
        ensures replies { (words : List Text) (reason : CallReason) → HasReason reason fault
            → Replies words (not_done reason) result (trace_of self.old) (trace_of self.new) }
        ensures same { context_of self.new ≡ context_of self.old }
    {
        match fault {
            CallFault::OutOfMemory => HostAnswer::OutOfMemory,
            CallFault::Unknown => HostAnswer::Unknown,
            CallFault::LeftOut(name) => HostAnswer::LeftOut(name),
            CallFault::BadArguments => {
                self.refusal = Some(CommandRefusal::BadArguments);
                HostAnswer::Refused(56)
            }
        }
    }

    /// Refuses a command by the number of the fault, and remembers the fault for the refusal of the file.
    fn refuse(&mut self, fault: RecordFault) -> HostAnswer
        ensures replies { (words : List Text) (reason : RecordReason) → HasFault reason fault
            → Replies words (not_done (bad_record reason)) result (trace_of self.old) (trace_of self.new) }
        ensures same { context_of self.new ≡ context_of self.old }
    {
        if fault.is_out_of_memory() {
            return HostAnswer::OutOfMemory;
        }
        let number = fault.number();
        self.refusal = Some(CommandRefusal::BadRecord(fault));
        HostAnswer::Refused(number)
    }

    /// Adds the record of a command to the journal, where it has its effect.
    fn add_record(&mut self, words: &[String], recorded: Record) -> HostAnswer
        requires { call_of (map string_bytes words.now) ≡ Ok (adds_record (record_view recorded)) }
        ensures replies { Replies (map string_bytes words.now) (command_answer (context_of self.old)
            (environment_so_far self.old.journal) (map string_bytes words.now)
            (call_of (map string_bytes words.now))) result (trace_of self.old) (trace_of self.new) }
        ensures same { context_of self.new ≡ context_of self.old }
    {
        match self.journal.add_command(words, recorded) {
            Ok(()) => HostAnswer::Done(String::new(self.alloc)),
            Err(fault) => self.refuse(fault),
        }
    }

    /// Adds a message, with a newline or without.
    fn add_message(&mut self, text: &str, newline: bool) -> HostAnswer
        ensures replies { (words : List Text) → Replies words (Done [] (Message (message_of text.now newline)) false)
            result (trace_of self.old) (trace_of self.new) }
        ensures same { context_of self.new ≡ context_of self.old }
    {
        match push_message(self.alloc, &mut self.messages, text, newline) {
            Ok(()) => HostAnswer::Done(String::new(self.alloc)),
            Err(_) => HostAnswer::OutOfMemory,
        }
    }

    /// Answers the words of a question, which the file has then asked.
    fn answer_question(&mut self, words: &[String], text: Result<String, AllocError>) -> HostAnswer
        ensures replies { (t : Text) → IfOk text (λ s. string_bytes s ≡ t) → Replies (map string_bytes words.now)
            (question_answer t) result (trace_of self.old) (trace_of self.new) }
        ensures same { context_of self.new ≡ context_of self.old }
    {
        let Ok(text) = text else {
            return HostAnswer::OutOfMemory;
        };
        match add_command(self.alloc, &mut self.asked, words, text.as_str()) {
            Ok(()) => HostAnswer::Done(text),
            Err(_) => HostAnswer::OutOfMemory,
        }
    }

    /// Answers `module-info name`, which is no question: a name is the same in every context of the file.
    fn own_name(&self) -> HostAnswer
        ensures replies { (words : List Text) → Replies words (Done self.now.journal.module_name Nothing false) result
            (trace_of self.now) (trace_of self.now) }
    {
        match String::from_str(self.alloc, self.journal.module_name()) {
            Ok(name) => HostAnswer::Done(name),
            Err(_) => HostAnswer::OutOfMemory,
        }
    }

    /// The value of a variable, or else the default; in the mode `display` the variable itself, as `$VAR`.
    fn value_shown(&mut self, var: &str, default: &str) -> Result<String, AllocError>
        ensures value { IfOk result (λ t. string_bytes t
            ≡ value_shown (mode_view self.old.journal.mode) (environment_so_far self.old.journal) var.now default.now) }
        ensures trace { trace_of self.new ≡ trace_of self.old }
        ensures same { context_of self.new ≡ context_of self.old }
    {
        match self.journal.mode() {
            Mode::Display => format!(in self.alloc; "${var}"),
            Mode::Load | Mode::Unload | Mode::Whatis => match self.journal.value(var)? {
                Some(value) => Ok(value),
                None => String::from_str(self.alloc, default),
            },
        }
    }

    /// Answers `getenv`.
    fn getenv(&mut self, words: &[String], var: &str, default: &str) -> HostAnswer
        ensures replies { Replies (map string_bytes words.now) (variable_answer var.now
            (value_shown (mode_view self.old.journal.mode)
            (environment_so_far self.old.journal) var.now default.now)) result
            (trace_of self.old) (trace_of self.new) }
        ensures same { context_of self.new ≡ context_of self.old }
    {
        if is_variable_name(var) {
            let value = self.value_shown(var, default);
            self.answer_question(words, value)
        } else {
            self.refuse(RecordFault::Env(EnvFault::bad_variable(self.alloc, var)))
        }
    }

    /// What `module-info` answers with its first word alone.
    fn field_text(&self, field: InfoField) -> &'static str
        ensures { result.now ≡ field_text (context_of self.now) (field_view field) }
    {
        match field {
            InfoField::Mode => mode_word(self.journal.mode()),
            InfoField::Shell => self.context.shell.name(),
            InfoField::ShellType => self.context.shell.family().name(),
        }
    }

    /// Whether what `module-info` is about has this word.
    fn field_test(&self, field: InfoField, word: &str) -> bool
        ensures { result ≡ field_test (context_of self.now) (field_view field) word.now }
    {
        match field {
            InfoField::Mode => is_mode(self.journal.mode(), self.context.in_switch, word),
            InfoField::Shell => word == self.context.shell.name(),
            InfoField::ShellType => word == self.context.shell.family().name(),
        }
    }

    /// Answers `is-loaded`: whether a name means a loaded module, or without a name whether any is loaded.
    fn is_loaded(&mut self, words: &[String], names: &[String]) -> HostAnswer
        ensures replies { Replies (map string_bytes words.now) (question_answer (truth (any_loaded
            (map string_bytes names.now) (map string_bytes self.old.context.loaded.now)))) result
            (trace_of self.old) (trace_of self.new) }
        ensures same { context_of self.new ≡ context_of self.old }
    {
        let is_true = any_loaded(names, self.context.loaded);
        self.answer_question(words, String::from_str(self.alloc, truth(is_true)))
    }

    /// What the file leaves, where its evaluation ended without a fault. It fails for `OutOfMemory` alone.
    pub(crate) fn finish(self) -> Result<FileDraft, RunFault>
        ensures ok { IfOk result (λ draft. ran_of (context_of self.entry) (trace_of self.entry)
            ≡ Ok (ran_view draft.ran (applied (new_values_in draft.changes) self.entry.journal.before))) }
        ensures only { IfErr result (λ fault. fault.stop ≡ OutOfMemory) }
    {
        let Runner {
            alloc: _alloc,
            context: _context,
            journal,
            messages,
            asked,
            refusal: _refusal,
        } = self;
        let FinishedFile { records, changes } = journal.finish()?;
        let ran = FileRun {
            records,
            messages,
            asked,
        };
        Ok(FileDraft { ran, changes })
    }

    /// Why the file is refused whose evaluation ended with this fault, and what it had said.
    pub(crate) fn stop(self, fault: EvalFault) -> StoppedRun
        ensures stop { IfSome (stop_of result.stop) (λ stop. eval_stop fault
            (refusal_view self.entry.refusal) ≡ Some stop) }
        ensures messages { result.messages ≡ self.entry.messages }
    {
        let Runner {
            alloc: _alloc,
            context: _context,
            journal: _journal,
            messages,
            asked: _asked,
            refusal: command,
        } = self;
        StoppedRun {
            stop: refusal(fault, command),
            messages,
        }
    }

    /// Does a command, and answers it.
    fn answer(&mut self, words: &[String], call: Call<'_>) -> HostAnswer
        requires { call_of (map string_bytes words.now) ≡ Ok (call_view call) }
        ensures replies { Replies (map string_bytes words.now) (command_answer (context_of self.old)
            (environment_so_far self.old.journal) (map string_bytes words.now)
            (call_of (map string_bytes words.now))) result (trace_of self.old) (trace_of self.new) }
        ensures same { context_of self.new ≡ context_of self.old }
    {
        let alloc = self.alloc;
        match call {
            Call::Adds(record) => self.add_record(words, record),
            Call::Puts { text, newline } => self.add_message(text, newline),
            Call::Getenv { var, default } => self.getenv(words, var, default),
            Call::OwnName => self.own_name(),
            Call::IsLoaded(names) => self.is_loaded(words, names),
            Call::TypedName => {
                let typed = self.context.typed;
                self.answer_question(words, String::from_str(alloc, typed))
            }
            Call::Info(field) => {
                let text = self.field_text(field);
                self.answer_question(words, String::from_str(alloc, text))
            }
            Call::InfoTest(field, word) => {
                let is_true = self.field_test(field, word);
                self.answer_question(words, String::from_str(alloc, truth(is_true)))
            }
        }
    }
}

/// Adds a message, with a newline or without.
fn push_message(
    alloc: Global,
    messages: &mut Vec<String>,
    text: &str,
    newline: bool,
) -> Result<(), AllocError>
    ensures ok { OnOk result (texts_in messages.new ≡ texts_in messages.old ++ message_of text.now newline ∷ []) }
    ensures err { OnErr result (texts_in messages.new ≡ texts_in messages.old) }
{
    let message = message(alloc, text, newline)?;
    messages.push(message)?;
    Ok(())
}

/// The text of a message, with a newline or without.
fn message(alloc: Global, text: &str, newline: bool) -> Result<String, AllocError>
    ensures { IfOk result (λ m. string_bytes m ≡ message_of text.now newline) }
{
    let mut message = String::from_str(alloc, text)?;
    if newline {
        message.push('\n')?;
    }
    Ok(message)
}

impl<'a, V: Vars> Host for Runner<'a, V> {
    ghost use Rattle.std.specs.Prelude.{◌≡◌, map, string_bytes};
    ghost use Rattle.tclrules.specs.Hosts.{Answers};
    ghost use Rattle.modulefile.specs.Calls.{call_of};
    ghost use Rattle.modulefile.specs.Answers.{oracle_of};
    ghost use Rattle.modulefile_run.specs.Journals.{environment_so_far};
    ghost use Rattle.modulefile_run.specs.Hosting.{context_of, trace_of};

    ghost trace = { λ r. trace_of r };

    ghost oracle = { λ r. oracle_of (context_of r) };

    fn reserved(&self) -> &'static [&'static str] {
        command_names()
    }

    fn command(&mut self, words: &[String]) -> HostAnswer
        ensures answer { Answers (oracle_of (context_of self.old)) (map string_bytes words.now) result
            (trace_of self.old) (trace_of self.new) }
        ensures same { oracle_of (context_of self.new) ≡ oracle_of (context_of self.old) }
    {
        match call_of(self.alloc, words) {
            Ok(call) => self.answer(words, call),
            Err(fault) => self.not_done(fault),
        }
    }

    fn read_env(&mut self, name: &str) -> Result<Option<String>, AllocError> {
        let value = self.journal.value(name)?;
        add_variable(self.alloc, &mut self.asked, name, &value)?;
        Ok(value)
    }
}
