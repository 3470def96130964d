//! The first parts of modules' names, by which `conflict` means all versions of a module at once.
ghost use Rattle.std.specs.Prelude.{◌≡◌};
ghost use Rattle.audit_certificate.specs.Users.{first_part};

/// The first part of a name, or the whole name where it has one part.
pub(crate) fn first_part(name: &str) -> &str
    ensures { result.now ≡ first_part name.now }
{
    match name.split_once('/') {
        Some((first, _)) => first,
        None => name,
    }
}
