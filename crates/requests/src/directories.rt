//! Where modules are searched for.
ghost use Rattle.std.specs.Prelude.{◌≡◌};
ghost use Rattle.requests.specs.Steps.{modulepath};

use envvars::Vars;

/// MODULEPATH (module(1)), or the empty text where it is unset.
pub fn modulepath<V: Vars>(env: &V) -> &str
    ensures { result.now ≡ modulepath (V.vars env.now) }
{
    match env.get("MODULEPATH") {
        None => "",
        Some(text) => text,
    }
}
