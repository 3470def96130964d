//! Variables on which edits of one path variable, one after another, are made as one edit.
ghost use Rattle.std.specs.Prelude.{◌≡◌, string_bytes, IfOk, IfErr};
ghost use Rattle.std.specs.Option.{option_map};
ghost use Rattle.envvars.specs.Environment.{lookup};
ghost use Rattle.envvars.specs.Changes.{applied, new_values_in};
ghost use Rattle.envvars.specs.declared.fault.EnvFault.TheVariants.{OutOfMemory};
ghost use Rattle.modulefile.specs.Effects.{effect};
ghost use Rattle.modulefile.specs.RecordViews.{mode_view, record_view};
ghost use Rattle.modulefile_run.specs.RecordAnswers.{IsEdited};

use crate::batch::{PathBatch, batch_after, path_change, waits, write_waiting};
use crate::effects::{edit, judge};
use envvars::{Change, EnvFault, Vars, Working};
use modulefile::{Mode, Record, RecordFault};
use std::alloc::{AllocError, Global};
use std::marker::Model;

/// A working copy of variables, and the edits of the last path variable that wait to be made on it as one: a list that
/// grows isn't read and written anew by each edit. A further edit of the same kind waits, until something else is
/// edited or a variable is read.
pub(crate) struct BatchedVars<'a, V: Vars> {
    alloc: Global,
    working: Working<'a, V>,
    last: Option<PathBatch>,
}

// By hand: `derive(Drop)` would ask for `V: Drop`, and the variables are borrowed.
impl<'a, V: Vars> Drop for BatchedVars<'a, V> {
    fn drop(self) {
        let BatchedVars {
            alloc: _alloc,
            working: _working,
            last: _last,
        } = self;
    }
}

impl<'a, V: Vars> Model for BatchedVars<'a, V> {
    ghost use Rattle.envvars.specs.Edited.{Edited, edited_code};
    ghost use Rattle.modulefile_run.specs.Batches.{with_waiting, CanWait};

    ghost Value = { Edited };

    ghost coded = { edited_code };

    ghost view = { λ a. record { old = a.working.old; new = with_waiting a.last a.working.new } };

    ghost invariant = { λ a. CanWait a.last a.working.new };
}

impl<'a, V: Vars> BatchedVars<'a, V> {
    /// A working copy without edits.
    pub(crate) fn over(alloc: Global, before: &'a V) -> Self
        ensures old { result.old ≡ V.vars before.entry.now }
        ensures new { result.new ≡ V.vars before.entry.now }
    {
        BatchedVars {
            alloc,
            working: Working::over_vars(alloc, before),
            last: None,
        }
    }

    /// The value of a variable.
    pub(crate) fn value(&mut self, name: &str) -> Result<Option<String>, AllocError>
        ensures value { IfOk result (λ v. option_map string_bytes v ≡ lookup self.old.new name.now) }
        ensures same { self.new ≡ self.old }
    {
        if write_waiting(self.alloc, &self.last, &mut self.working).is_err() {
            return Err(AllocError);
        }
        self.last = None;
        match self.working.get(name) {
            None => Ok(None),
            Some(value) => Ok(Some(String::from_str(self.alloc, value)?)),
        }
    }

    /// Makes the effect of a record of a module, in a mode, or lets it wait: the record is judged in every mode, and
    /// then loading or unloading edits the variables.
    ///
    /// It is refused, in this order, by `BadVariable` (32), `Protected` (33) and `BadValue` (37), or by
    /// `BadModuleName` (44) of the first name that is ill spelled, in every mode, and then by `CounterFull` (34) or
    /// `BadStack` (36); or by `OutOfMemory`. The variables are then as they were.
    pub(crate) fn make_effect(
        &mut self,
        mode: Mode,
        owner: &str,
        recorded: &Record,
    ) -> Result<(), RecordFault>
        ensures edits { IsEdited result self.old.new self.new.new
            (effect (mode_view mode) owner.now (record_view recorded.now) self.old.new) }
        ensures base { self.new.old ≡ self.old.old }
    {
        judge(self.alloc, recorded)?;
        let change = path_change(mode, recorded);
        if let Some(change) = &change {
            if waits(self.alloc, change, &mut self.last, &self.working)? {
                return Ok(());
            }
        }
        let batch = batch_after(self.alloc, change)?;
        write_waiting(self.alloc, &self.last, &mut self.working)?;
        self.last = None;
        edit(self.alloc, mode, owner, recorded, &mut self.working)?;
        self.last = batch;
        Ok(())
    }

    /// Each name that was edited, once, with its value now: made in the variables below, these changes give these
    /// ones. The only error is `OutOfMemory`.
    pub(crate) fn into_edits(self) -> Result<Vec<Change>, EnvFault>
        ensures ok { IfOk result (λ v. applied (new_values_in v) self.entry.old ≡ self.entry.new) }
        ensures only { IfErr result (λ e. e ≡ OutOfMemory) }
    {
        let BatchedVars {
            alloc,
            mut working,
            last,
        } = self;
        write_waiting(alloc, &last, &mut working)?;
        working.into_edits()
    }
}
