//! A working environment: edits over an environment that stays unchanged.
ghost use Rattle.std.specs.Prelude.{◌≡◌, IfOk, IfErr};
ghost use Rattle.envvars.specs.Changes.{AreChanges, applied, new_values_in};
ghost use Rattle.envvars.specs.declared.fault.EnvFault.TheVariants.{OutOfMemory};

use crate::change::Change;
use crate::difference::{changes_over, edits};
use crate::env::Env;
use crate::fault::EnvFault;
use crate::table::{Table, found, make_changes, write_entry, write_value};
use crate::vars::Vars;
use indexmap::IndexMap;
use std::alloc::Global;
use std::marker::Model;

/// Edits over variables that stay unchanged: over an environment, or over another working one. The time of
/// an edit depends on what it touches, and not on how many variables are set.
pub struct Working<'a, B: Vars = Env> {
    /// The variables below, which stay unchanged.
    old: &'a B,
    /// The names that were edited, with their values now.
    touched: Table,
    /// Where the table takes its memory.
    alloc: Global,
}

// Not derived: it is dropped by one call, so a proof needn't look into its table at each exit.
impl<'a, B: Vars> Drop for Working<'a, B> {
    fn drop(self) {
        let Working {
            old: _old,
            touched: _touched,
            alloc: _alloc,
        } = self;
    }
}

impl<'a, B: Vars> Model for Working<'a, B> {
    ghost use Rattle.envvars.specs.Tables.{written_over};
    ghost use Rattle.envvars.specs.Edited.{Edited, edited_code};

    ghost Value = { Edited };

    ghost coded = { edited_code };

    ghost view = { λ a. record { old = B.vars a.old.now; new = written_over (B.vars a.old.now) a.touched.entries } };
}

impl<'a> Working<'a, Env> {
    /// A working environment over an environment, with no edit so far.
    pub fn over(old: &'a Env) -> Self
        ensures old { result.old ≡ old.entry.now }
        ensures new { result.new ≡ old.entry.now }
    {
        Working::over_vars(old.alloc(), old)
    }
}

impl<'a, B: Vars> Working<'a, B> {
    /// A working environment over any variables, with no edit so far.
    pub fn over_vars(alloc: Global, old: &'a B) -> Self
        ensures old { result.old ≡ B.vars old.entry.now }
        ensures new { result.new ≡ B.vars old.entry.now }
    {
        Working {
            old,
            touched: IndexMap::new(alloc),
            alloc,
        }
    }

    /// Each name whose value differs from that in the environment below, once, in the order of bytes. The time depends
    /// on what was edited. The only error is `OutOfMemory`.
    pub fn into_changes(self) -> Result<Vec<Change>, EnvFault>
        ensures ok { IfOk result (λ v. AreChanges self.entry.old self.entry.new (new_values_in v)) }
        ensures only { IfErr result (λ e. e ≡ OutOfMemory) }
    {
        let Working {
            old,
            touched,
            alloc,
        } = self;
        Ok(changes_over(alloc, old, touched)?)
    }

    /// Each name that was edited, once, with its value now, in no certain order: made in the environment below, these
    /// changes give this one. The only error is `OutOfMemory`.
    pub fn into_edits(self) -> Result<Vec<Change>, EnvFault>
        ensures ok { IfOk result (λ v. applied (new_values_in v) self.entry.old ≡ self.entry.new) }
        ensures only { IfErr result (λ e. e ≡ OutOfMemory) }
    {
        let Working {
            old: _old,
            touched,
            alloc,
        } = self;
        Ok(edits(alloc, touched)?)
    }
}

impl<'a, B: Vars> Vars for Working<'a, B> {
    ghost vars = { λ working. working.new };

    ghost base = { λ working. working.old };

    fn get(&self, name: &str) -> Option<&str> {
        match found(&self.touched, name) {
            Some(value) => value,
            None => self.old.get(name),
        }
    }

    fn set(&mut self, name: &str, value: &str) -> Result<(), EnvFault> {
        write_entry(self.alloc, &mut self.touched, name, Some(value))?;
        Ok(())
    }

    fn put(&mut self, name: &str, value: String) -> Result<(), EnvFault> {
        write_value(self.alloc, &mut self.touched, name, Some(value))?;
        Ok(())
    }

    fn unset(&mut self, name: &str) -> Result<(), EnvFault> {
        write_entry(self.alloc, &mut self.touched, name, None)?;
        Ok(())
    }

    fn apply(&mut self, changes: Vec<Change>) -> Result<(), EnvFault> {
        make_changes(&mut self.touched, changes)?;
        Ok(())
    }
}
