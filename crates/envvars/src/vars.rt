//! The interface of everything that holds variables: an environment, or a working environment over one.
ghost use Rattle.std.specs.Prelude.{◌≡◌, ◌↔◌, map, string_bytes, IsTrue, IfErr, OnOk, OnErr};
ghost use Rattle.std.specs.Option.{option_map};
ghost use Rattle.std.specs.FinMap as finite;
ghost use Rattle.envvars.specs.Environment.{Environment, lookup};
ghost use Rattle.envvars.specs.Changes.{applied, new_values_in};
ghost use Rattle.envvars.specs.declared.fault.EnvFault.TheVariants.{OutOfMemory};

use crate::change::Change;
use crate::fault::EnvFault;

/// Variables that can be read and edited: a finite map from names to texts (environ(7)). The only error of each call is
/// `OutOfMemory`, and a refused call changes nothing.
pub trait Vars {
    /// The variables that are set, with their values.
    ghost vars: { Self → Environment };

    /// The environment below these variables, which no call changes.
    ghost base: { Self → Environment };

    /// The value of a variable; none where it is unset. It takes no memory.
    fn get(&self, name: &str) -> Option<&str>
        ensures { option_map (λ x. x.now) result ≡ lookup (vars self.now) name.now };

    /// Sets a variable. Any name and any value are accepted.
    fn set(&mut self, name: &str, value: &str) -> Result<(), EnvFault>
        ensures ok { OnOk result (vars self.new ≡ finite.insert (vars self.old) name.now value.now) }
        ensures err { OnErr result (vars self.new ≡ vars self.old) }
        ensures only { IfErr result (λ e. e ≡ OutOfMemory) }
        ensures base { base self.new ≡ base self.old };

    /// Sets a variable to a value that is handed over, as `set` does to a copy.
    fn put(&mut self, name: &str, value: String) -> Result<(), EnvFault>
        ensures ok { OnOk result (vars self.new ≡ finite.insert (vars self.old) name.now (string_bytes value)) }
        ensures err { OnErr result (vars self.new ≡ vars self.old) }
        ensures only { IfErr result (λ e. e ≡ OutOfMemory) }
        ensures base { base self.new ≡ base self.old };

    /// Unsets a variable.
    fn unset(&mut self, name: &str) -> Result<(), EnvFault>
        ensures ok { OnOk result (vars self.new ≡ finite.remove (vars self.old) name.now) }
        ensures err { OnErr result (vars self.new ≡ vars self.old) }
        ensures only { IfErr result (λ e. e ≡ OutOfMemory) }
        ensures base { base self.new ≡ base self.old };

    /// Makes all the changes, from the first to the last, or none of them.
    fn apply(&mut self, changes: Vec<Change>) -> Result<(), EnvFault>
        ensures ok { OnOk result (vars self.new ≡ applied (new_values_in changes) (vars self.old)) }
        ensures err { OnErr result (vars self.new ≡ vars self.old) }
        ensures only { IfErr result (λ e. e ≡ OutOfMemory) }
        ensures base { base self.new ≡ base self.old };
}

/// Whether a variable has this value; where there is none, whether it is unset.
pub fn has_value<V: Vars>(env: &V, name: &str, value: Option<&str>) -> bool
    ensures { IsTrue result ↔ (lookup (V.vars env.now) name.now ≡ option_map (λ x. x.now) value.entry) }
{
    env.get(name) == value
}
