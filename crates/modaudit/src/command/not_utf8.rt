//! The variables that aren't UTF-8 and concern a certificate.
ghost use Rattle.std.specs.Prelude.{◌≡◌, ◌++◌, map, IfOk, OnOk, string_bytes};
ghost use Rattle.envvars.specs.Texts.{texts_in};
ghost use Rattle.modaudit.specs.command.NotUtf8 as spec;

use audit_certificate::UsedVariable;
use envvars::is_protected;
use std::alloc::{AllocError, Global};

/// Whether the certificate has a use or a read of the variable.
fn is_used(certificate: &[UsedVariable], name: &str) -> bool
    ensures { result ≡ spec.is_used certificate.now name.now }
{
    certificate
        .iter()
        .any(|used| used.variable.as_str() == name)
}

/// Adds a copy of the variable's name, where it concerns the certificate, or the tool keeps it itself.
fn push_if_concerned(
    alloc: Global,
    names: &mut Vec<String>,
    certificate: &[UsedVariable],
    name: &str,
) -> Result<(), AllocError>
    ensures { OnOk result (texts_in names.new ≡ texts_in names.old ++ spec.if_concerned certificate.now name.now) }
{
    if is_protected(name) || is_used(certificate, name) {
        names.push(String::from_str(alloc, name)?)?;
    }
    Ok(())
}

/// Those of the variables that certified modules use or read, or that the tool keeps itself.
pub(crate) fn concerned(
    alloc: Global,
    certificate: &[UsedVariable],
    names: &[String],
) -> Result<Vec<String>, AllocError>
    ensures { IfOk result (λ kept. texts_in kept ≡ spec.concerned certificate.now (map string_bytes names.now)) }
{
    let mut kept = Vec::new(alloc);
    for name in names {
        push_if_concerned(alloc, &mut kept, certificate, name.as_str())?;
    }
    Ok(kept)
}
