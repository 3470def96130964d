//! Whether a path variable takes more additions, whatever their elements are.
ghost use Rattle.std.specs.Prelude.{◌≡◌, ◌<◌, IfOk, true, nat_le};
ghost use Rattle.std.specs.List.{list_all};
ghost use Rattle.indexmap.specs.IndexMap.{values};
ghost use Rattle.envstate.specs.paths.Paths.{HasRoom};
ghost use Rattle.envstate.specs.paths.PathVariables.{path_in};

use crate::paths::path::Counters;
use crate::paths::texts::read_path;
use envvars::{Vars, share_name};
use std::alloc::{AllocError, Global};

/// Whether no counter is more than this.
fn are_at_most(counters: &Counters<'_>, most: u32) -> bool
    ensures { result ≡ list_all (λ count. nat_le count most) (values counters.now) }
{
    counters.values().all(|count| *count <= most)
}

/// Whether so many additions to a path variable can't make a counter too large, whatever their elements are. The
/// delimiter is ASCII. Where no counter is written, the elements aren't read.
pub fn has_room<V: Vars>(
    alloc: Global,
    env: &V,
    var: &str,
    delim: char,
    more: u32,
) -> Result<bool, AllocError>
    requires { delim < 128 }
    ensures { IfOk result (λ b. b ≡ true → HasRoom (path_in (V.vars env.now) var.now delim) more) }
{
    let share = share_name(alloc, var)?;
    let Some(counts) = env.get(share.as_str()) else {
        return Ok(more < u32::MAX);
    };
    let path = read_path(alloc, delim, env.get(var), Some(counts))?;
    Ok(are_at_most(&path.counters, u32::MAX - more))
}
