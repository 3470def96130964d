//! An environment that owns its variables: those that it was given, and over them those that were written since.
ghost use Rattle.std.specs.Prelude.{◌≡◌, false, None, map, filter, is_some, string_bytes, OnOk, OnErr, IfOk, IfErr};
ghost use Rattle.std.specs.Option.{option_map};
ghost use Rattle.std.specs.FinMap as finite;
ghost use Rattle.envvars.specs.Texts.{Text, has, slice_texts};
ghost use Rattle.envvars.specs.Environment.{lookup};
ghost use Rattle.envvars.specs.EnvironmentBlock.{environment_of};
ghost use Rattle.envvars.specs.Changes.{applied, new_values_in};
ghost use Rattle.envvars.specs.declared.fault.EnvFault.TheVariants.{OutOfMemory};

use crate::change::Change;
use crate::fault::EnvFault;
use crate::fields::owned;
use crate::given::GivenVariables;
use crate::table::{
    Table, found, make_changes, push_names_of, sorted_once, write_entry, write_value,
};
use crate::vars::Vars;
use indexmap::IndexMap;
use std::alloc::{AllocError, Global};
use std::marker::Model;

/// The variables that are set, with their values (environ(7)): a finite map from names to texts.
pub struct Env {
    /// The variables of the block that it was made of.
    given: GivenVariables,
    /// The variables that were set since, over those, with their values. A name without a value is unset.
    written: Table,
    /// Where the table and all copies take their memory.
    alloc: Global,
}

// Not derived: it is dropped by one call, so a proof needn't look into its table at each exit.
impl Drop for Env {
    fn drop(self) {
        let Env {
            given: _given,
            written: _written,
            alloc: _alloc,
        } = self;
    }
}

impl Model for Env {
    ghost use Rattle.std.specs.FinMap as finite;
    ghost use Rattle.envvars.specs.Environment.{Environment, environment_code};
    ghost use Rattle.envvars.specs.Tables.{written_over};
    ghost use Rattle.envvars.specs.Given.{variables_of, IsChained};

    ghost Value = { Environment };

    ghost coded = { environment_code };

    ghost view = { λ a. written_over (variables_of a.given) a.written.entries };

    ghost invariant = { λ a. IsChained a.given };
}

impl Env {
    /// An environment in which no variable is set.
    pub fn new(alloc: Global) -> Self
        ensures { result ≡ finite.empty }
    {
        Env {
            given: GivenVariables::new(alloc),
            written: IndexMap::new(alloc),
            alloc,
        }
    }

    /// The environment of a block of entries `NAME=VALUE`, each ended by NUL (environ(7)). An entry without `=`, or
    /// without a name in UTF-8 before it, is passed over. Of several entries for one name the first counts, and its
    /// variable is unset where the value isn't UTF-8. The block is kept, and no value is copied. The only error is
    /// `OutOfMemory`.
    pub fn from_block(alloc: Global, block: Vec<u8>) -> Result<Self, EnvFault>
        ensures ok { IfOk result (λ env. env ≡ environment_of block.items) }
        ensures only { IfErr result (λ e. e ≡ OutOfMemory) }
    {
        Ok(Env {
            given: GivenVariables::read(alloc, block)?,
            written: IndexMap::new(alloc),
            alloc,
        })
    }

    /// The allocator of the environment.
    pub fn alloc(&self) -> Global {
        self.alloc
    }

    /// The value of a variable; none where it is unset.
    pub fn get(&self, name: &str) -> Option<&str>
        ensures { option_map (λ x. x.now) result ≡ lookup self.now name.now }
    {
        match found(&self.written, name) {
            Some(value) => value,
            None => self.given.get(name),
        }
    }

    /// Sets a variable. Any name and any value are accepted. The only error is `OutOfMemory`, which leaves the
    /// environment unchanged.
    pub fn set(&mut self, name: &str, value: &str) -> Result<(), EnvFault>
        ensures ok { OnOk result (self.new ≡ finite.insert self.old name.now value.now) }
        ensures err { OnErr result (self.new ≡ self.old) }
        ensures only { IfErr result (λ e. e ≡ OutOfMemory) }
    {
        write_entry(self.alloc, &mut self.written, name, Some(value))?;
        Ok(())
    }

    /// Sets a variable to a value that is handed over. The only error is `OutOfMemory`, which leaves the environment
    /// unchanged.
    pub fn put(&mut self, name: &str, value: String) -> Result<(), EnvFault>
        ensures ok { OnOk result (self.new ≡ finite.insert self.old name.now (string_bytes value)) }
        ensures err { OnErr result (self.new ≡ self.old) }
        ensures only { IfErr result (λ e. e ≡ OutOfMemory) }
    {
        write_value(self.alloc, &mut self.written, name, Some(value))?;
        Ok(())
    }

    /// Unsets a variable. It takes no memory, and an unset variable stays as it is.
    pub fn unset(&mut self, name: &str)
        ensures { self.new ≡ finite.remove self.old name.now }
    {
        let _ = self.written.swap_remove(name);
        self.given.unset(name);
    }

    /// A copy of the environment. The only error is `OutOfMemory`.
    pub fn copy(&self) -> Result<Env, EnvFault>
        ensures ok { IfOk result (λ copy. copy ≡ self.now) }
        ensures only { IfErr result (λ e. e ≡ OutOfMemory) }
    {
        Ok(Env {
            given: self.given.copy()?,
            written: self.written.clone()?,
            alloc: self.alloc,
        })
    }

    /// The names of the variables that are set, in the order of their bytes. The only error is `OutOfMemory`.
    pub fn names(&self) -> Result<Vec<String>, EnvFault>
        ensures ok { IfOk result (λ names. map string_bytes names.items ≡ finite.keys self.now) }
        ensures only { IfErr result (λ e. e ≡ OutOfMemory) }
    {
        let mut names = Vec::new(self.alloc);
        self.push_names(&mut names)?;
        keep_set(&mut names, self);
        let names = sorted_once(names);
        Ok(owned(self.alloc, names.as_slice())?)
    }

    /// Appends the names that were given or written: every variable that is set, and perhaps some that are unset; some
    /// may come twice.
    pub fn push_names<'a>(&'a self, names: &mut Vec<&'a str>) -> Result<(), AllocError>
        ensures { OnOk result ((n : Text) → has n (slice_texts names.new.items) ≡ false
            → (has n (slice_texts names.old.items) ≡ false) × (lookup self.entry.now n ≡ None)) }
    {
        push_names_of(names, &self.written)?;
        self.given.push_names(names)?;
        Ok(())
    }
}

impl Vars for Env {
    ghost use Rattle.std.specs.FinMap as finite;

    ghost vars = { λ env. env };

    ghost base = { λ _. finite.empty };

    fn get(&self, name: &str) -> Option<&str> {
        self.get(name)
    }

    fn set(&mut self, name: &str, value: &str) -> Result<(), EnvFault> {
        self.set(name, value)
    }

    fn put(&mut self, name: &str, value: String) -> Result<(), EnvFault> {
        self.put(name, value)
    }

    fn unset(&mut self, name: &str) -> Result<(), EnvFault> {
        self.unset(name);
        Ok(())
    }

    fn apply(&mut self, changes: Vec<Change>) -> Result<(), EnvFault> {
        make_changes(&mut self.written, changes)?;
        Ok(())
    }
}

/// Retains the names of variables that are set.
fn keep_set(names: &mut Vec<&str>, env: &Env)
    ensures { slice_texts names.new.items ≡ filter (λ n. is_some (lookup env.now n)) (slice_texts names.old.items) }
{
    names.retain(|name| env.get(*name).is_some());
}
