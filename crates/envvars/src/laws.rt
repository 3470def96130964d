//! Laws of environments and of their differences. Each is a function that does nothing: its contract is the law.
ghost use Rattle.std.specs.Prelude.{◌≡◌, List, Option, bytes_eq, if◌then◌else◌};
ghost use Rattle.envvars.specs.Texts.{Text};
ghost use Rattle.envvars.specs.Environment.{Environment, lookup, with_value};
ghost use Rattle.envvars.specs.Changes.{NewValue, AreChanges, applied};

/// A variable that is set or unset has that value, and every other is unchanged. Environments in which every variable
/// has the same value are equal.
pub fn variables()
    ensures written { (e : Environment) (name : Text) (value : Option Text) (q : Text)
        → lookup (with_value e name value) q ≡ (if bytes_eq q name then value else lookup e q) }
    ensures same { (d e : Environment) → ((q : Text) → lookup d q ≡ lookup e q) → d ≡ e }
{}

/// The difference of two environments, applied to the first, gives the second.
pub fn changes()
    ensures { (old new : Environment) (cs : List NewValue) → AreChanges old new cs → applied cs old ≡ new }
{}
