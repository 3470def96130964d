//! A change of one variable, as a list of changes holds it.
ghost use Rattle.std.specs.Prelude.{◌≡◌, ◌++◌, ◌∷◌, [], string_bytes, OnOk};
ghost use Rattle.std.specs.Option.{option_map};
ghost use Rattle.envvars.specs.Changes.{new_values_in};

use std::alloc::{AllocError, Global};

/// A variable's name and its new value; no value where the change unsets the variable.
#[derive(Debug, Drop)]
pub struct Change {
    pub name: String,
    pub value: Option<String>,
}

/// Appends the change of a variable to a value, or to none.
pub fn push_change(
    alloc: Global,
    changes: &mut Vec<Change>,
    name: &str,
    value: Option<String>,
) -> Result<(), AllocError>
    ensures { OnOk result (new_values_in changes.new
        ≡ new_values_in changes.old ++ (name.now, option_map string_bytes value) ∷ []) }
{
    let name = String::from_str(alloc, name)?;
    changes.push(Change { name, value })?;
    Ok(())
}
