//! The parts of module names.
ghost use Rattle.std.specs.Prelude.{◌≡◌};
ghost use Rattle.modulename.specs.ModuleName.{parts};
ghost use Rattle.requests.specs.Steps as steps;

/// The first part of a name, as `gcc` of `gcc/9`.
pub fn first_part(name: &str) -> &str
    ensures { result.now ≡ steps.first_part (parts name.entry.now) }
{
    match name.split_once('/') {
        Some((first, _)) => first,
        None => name,
    }
}
