//! Uses as keys, by which they are found in tables.
ghost use Rattle.std.specs.Prelude.{◌≡◌};
ghost use Rattle.audit_certificate.specs.UseViews.{use_view, used_view};
ghost use Rattle.audit_certificate.specs.UseKeys.{key_view, used_key_view};

use crate::uses::{UsedVariable, VariableUse};

/// A use, as a key.
#[derive(Clone, Copy, PartialEq, Eq, Hash)]
pub(crate) enum UseKey<'a> {
    /// The variable is set.
    Set,
    /// It is unset, and has this value else.
    Unset(&'a str),
    /// It is unset, and absent else.
    Absent,
    /// It is a path with this delimiter.
    Path(char),
    /// It is a stack.
    Stack,
    /// It is read.
    Read,
}

/// The key of a use.
pub(crate) fn key_of(used: &VariableUse) -> UseKey<'_>
    ensures { key_view result ≡ use_view used.entry.now }
{
    match used {
        VariableUse::Fixed(None) => UseKey::Set,
        VariableUse::Fixed(Some(value)) => UseKey::Unset(value.as_str()),
        VariableUse::Absent => UseKey::Absent,
        VariableUse::Pathed(delim) => UseKey::Path(delim.character),
        VariableUse::Stacked => UseKey::Stack,
        VariableUse::Read => UseKey::Read,
    }
}

/// A variable with a use of it, as a key.
#[derive(Clone, Copy, PartialEq, Eq, Hash)]
pub(crate) struct UsedKey<'a> {
    /// The name of the variable.
    variable: &'a str,
    /// The use.
    used: UseKey<'a>,
}

/// The key of a variable with a use of it.
pub(crate) fn used_key(used: &UsedVariable) -> UsedKey<'_>
    ensures { used_key_view result ≡ used_view used.entry.now }
{
    UsedKey {
        variable: used.variable.as_str(),
        used: key_of(&used.used),
    }
}
