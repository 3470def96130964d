//! What a modulefile has done so far: its accepted commands, and the environment that they make.
ghost use Rattle.std.specs.Prelude.{◌≡◌, ◌++◌, ◌∷◌, [], Ok, map, string_bytes, OnOk, OnErr, IfOk, IfErr};
ghost use Rattle.std.specs.Option.{option_map};
ghost use Rattle.envvars.specs.Environment.{lookup};
ghost use Rattle.envvars.specs.Changes.{applied, new_values_in};
ghost use Rattle.envvars.specs.declared.fault.EnvFault.TheVariants.{OutOfMemory};
ghost use Rattle.modulefile.specs.Effects.{effect, effects};
ghost use Rattle.modulefile.specs.Calls.{adds_record, call_of};
ghost use Rattle.modulefile.specs.Answers.{records_in};
ghost use Rattle.modulefile.specs.RecordViews.{mode_view, record_view};
ghost use Rattle.modulefile_run.specs.RecordAnswers.{IsEdited};
ghost use Rattle.modulefile_run.specs.Journals.{environment_so_far, journal_state, words_in, AddsCommand};

use crate::accepted::{AcceptedCommand, RememberedWords};
use crate::batched_vars::BatchedVars;
use envvars::{Change, EnvFault, Vars};
use modulefile::{Mode, Record, RecordFault};
use std::alloc::{AllocError, Global};
use std::marker::Model;
use std::snapshot::Snapshot;

/// The accepted commands of a module's file so far, and the environment that their records make of the one before the
/// file, which is unchanged.
pub(crate) struct Journal<'a, V: Vars> {
    alloc: Global,
    mode: Mode,
    module_name: &'a str,
    entries: Vec<AcceptedCommand>,
    working: BatchedVars<'a, V>,
}

// By hand: `derive(Drop)` would ask for `V: Drop`, and the variables are borrowed.
impl<'a, V: Vars> Drop for Journal<'a, V> {
    fn drop(self) {
        let Journal {
            alloc: _alloc,
            mode: _mode,
            module_name: _module_name,
            entries: _entries,
            working: _working,
        } = self;
    }
}

impl<'a, V: Vars> Model for Journal<'a, V> {
    ghost use Rattle.modulefile.specs.RecordViews.{mode_view};
    ghost use Rattle.modulefile_run.specs.Journals.{JournalState, journal_state, journal_code, IsJournal, words_of};

    ghost Value = { JournalState };

    ghost coded = { journal_code };

    ghost view = { λ a. journal_state a.mode a.module_name.now a.working.old (words_of a.entries.items) };

    ghost invariant = { λ a. IsJournal (mode_view a.mode) a.module_name.now a.working.old a.working.new a.entries.items };
}

/// The records of an accepted file, and the changes that they make of the environment.
#[derive(Drop)]
pub(crate) struct FinishedFile {
    pub records: Vec<Record>,
    pub changes: Vec<Change>,
}

/// The words of a command, for contracts alone.
fn remembered(words: &[String]) -> RememberedWords
    ensures { words_in result ≡ map string_bytes words.now }
{
    let mut remembered = RememberedWords::Empty;
    for word in words {
        remembered = RememberedWords::WithLast(Snapshot::of(&remembered), Snapshot::of(word));
    }
    remembered
}

/// Adds an entry, where its record has its effect on `working`. Else neither changes.
fn add_entry<V: Vars>(
    mode: Mode,
    module_name: &str,
    entry: AcceptedCommand,
    entries: &mut Vec<AcceptedCommand>,
    working: &mut BatchedVars<'_, V>,
) -> Result<(), RecordFault>
    ensures ok { OnOk result (entries.new.items ≡ entries.old.items ++ entry ∷ []) }
    ensures err { OnErr result (entries.new.items ≡ entries.old.items) }
    ensures edits { IsEdited result working.old.new working.new.new
        (effect (mode_view mode) module_name.now (record_view entry.recorded) working.old.new) }
    ensures base { working.new.old ≡ working.old.old }
{
    entries.reserve(1)?;
    working.make_effect(mode, module_name, &entry.recorded)?;
    entries.push_reserved(entry);
    Ok(())
}

/// The records of the entries, in order.
fn records_of(alloc: Global, entries: Vec<AcceptedCommand>) -> Result<Vec<Record>, AllocError>
    ensures { IfOk result (λ v. v.items ≡ map (λ entry. entry.recorded) entries.items) }
{
    let mut records = Vec::with_capacity(alloc, entries.len())?;
    for entry in entries {
        let AcceptedCommand {
            words: _words,
            recorded,
        } = entry;
        records.push(recorded)?;
    }
    Ok(records)
}

impl<'a, V: Vars> Journal<'a, V> {
    /// A journal without entries over the environment before the file.
    pub(crate) fn over(alloc: Global, mode: Mode, module_name: &'a str, before: &'a V) -> Self
        ensures { result ≡ journal_state mode module_name.entry.now (V.vars before.entry.now) [] }
    {
        Journal {
            alloc,
            mode,
            module_name,
            entries: Vec::new(alloc),
            working: BatchedVars::over(alloc, before),
        }
    }

    /// What the file is evaluated for.
    pub(crate) fn mode(&self) -> Mode
        ensures { result ≡ self.now.mode }
    {
        self.mode
    }

    /// The full name of its module.
    pub(crate) fn module_name(&self) -> &str
        ensures { result.now ≡ self.now.module_name }
    {
        self.module_name
    }

    /// The value of a variable, as the file finds it.
    pub(crate) fn value(&mut self, name: &str) -> Result<Option<String>, AllocError>
        ensures value { IfOk result (λ v. option_map string_bytes v ≡ lookup (environment_so_far self.old) name.now) }
        ensures same { self.new ≡ self.old }
    {
        self.working.value(name)
    }

    /// Adds an accepted command by its words and its record, where the record has its effect. Else nothing changes.
    pub(crate) fn add_command(
        &mut self,
        words: &[String],
        recorded: Record,
    ) -> Result<(), RecordFault>
        requires { call_of (map string_bytes words.now) ≡ Ok (adds_record (record_view recorded)) }
        ensures { AddsCommand result (map string_bytes words.now) (record_view recorded) self.old self.new }
    {
        let words = remembered(words);
        add_entry(
            self.mode,
            self.module_name,
            AcceptedCommand { words, recorded },
            &mut self.entries,
            &mut self.working,
        )
    }

    /// The records, and their changes of the environment. It fails for `OutOfMemory` alone.
    pub(crate) fn finish(self) -> Result<FinishedFile, EnvFault>
        ensures records { IfOk result (λ file. records_in self.entry.words ≡ Ok (map record_view file.records.items)) }
        ensures changes { IfOk result (λ file. effects (mode_view self.entry.mode) self.entry.module_name
            (map record_view file.records.items) self.entry.before
            ≡ Ok (applied (new_values_in file.changes) self.entry.before)) }
        ensures only { IfErr result (λ e. e ≡ OutOfMemory) }
    {
        let Journal {
            alloc,
            mode: _mode,
            module_name: _module_name,
            entries,
            working,
        } = self;
        let records = records_of(alloc, entries)?;
        let changes = working.into_edits()?;
        Ok(FinishedFile { records, changes })
    }
}
