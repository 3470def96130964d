//! Whether a path variable is in order.
ghost use Rattle.std.specs.Prelude.{◌≡◌, ◌↔◌, ◌<◌, string_bytes, IfOk, IsTrue};
ghost use Rattle.std.specs.Option.{option_map};
ghost use Rattle.envvars.specs.Environment.{lookup};
ghost use Rattle.envstate.specs.paths.PathOrder.{IsPathInOrder};

use crate::paths::path::PathTexts;
use crate::paths::texts::read_path;
use crate::paths::writing::write_path;
use envvars::{Env, has_value, share_name};
use std::alloc::{AllocError, Global};

/// Whether a variable and that of its counters have these texts.
fn are_held(env: &Env, variable: &str, share: &str, texts: &PathTexts) -> bool
    ensures { IsTrue result ↔ (lookup env.now variable.now ≡ option_map string_bytes texts.now.elements)
        × (lookup env.now share.now ≡ option_map string_bytes texts.now.counters) }
{
    has_value(env, variable, texts.elements.as_deref())
        && has_value(env, share, texts.counters.as_deref())
}

/// Whether a path variable is in order with this delimiter: whether what its two texts are read as is written as these
/// texts. The delimiter is ASCII.
pub fn is_path_in_order(
    alloc: Global,
    env: &Env,
    variable: &str,
    delim: char,
) -> Result<bool, AllocError>
    requires { delim < 128 }
    ensures { IfOk result (λ b. IsTrue b ↔ IsPathInOrder env.now variable.now delim) }
{
    let share = share_name(alloc, variable)?;
    let mut path = read_path(alloc, delim, env.get(variable), env.get(share.as_str()))?;
    let written = write_path(alloc, delim, &mut path)?;
    Ok(are_held(env, variable, share.as_str(), &written))
}
