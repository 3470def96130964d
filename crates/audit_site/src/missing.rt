//! Directories of a site that aren't there.
ghost use Rattle.std.specs.Prelude.{◌≡◌, ◌<◌, ◌∷◌, [], ◌++◌, if◌then◌else◌, map, IfOk, IfErr, OnOk, string_bytes};
ghost use Rattle.envvars.specs.Texts.{texts_in};
ghost use Rattle.filetree.specs.Agreement.{FailsAt, InEachPair, ReadsOn};
ghost use Rattle.modules.specs.Answers.{is_failure};
ghost use Rattle.audit_certificate.specs.RecordUses.{IsAmong};
ghost use Rattle.audit_site.specs.Missing as spec;
ghost use Rattle.audit_site.specs.WalkParts.{GivesUp};

use filetree::Tree;
use modules::Refusal;
use std::alloc::{AllocError, Global};

/// Whether no directory is at the path.
///
/// Errors: a device that failed, at that path; want of memory.
fn is_missing<T: Tree>(tree: &mut T, dir: &str) -> Result<bool, Refusal>
    ensures reads { ReadsOn T.agrees T.failures tree.old tree.new }
    ensures answer { IfOk result (λ missing. InEachPair (T.agrees tree.new) (λ files listings.
        spec.is_missing listings dir.now ≡ missing)) }
    ensures cause { IfErr result (GivesUp (T.failures tree.old < T.failures tree.new)) }
    ensures failed { FailsAt is_failure (T.failed tree.old) (T.failed tree.new) result (λ at. at ≡ dir.now) }
{
    let names = tree.entries(dir)?;
    Ok(names.is_none())
}

/// Adds the directory, if it is missing.
fn add_if(is_missing: bool, dir: String, missing: &mut Vec<String>) -> Result<(), AllocError>
    ensures { OnOk result (map string_bytes missing.new.items
        ≡ map string_bytes missing.old.items ++ (if is_missing then string_bytes dir ∷ [] else [])) }
{
    if is_missing {
        missing.push(dir)?;
    }
    Ok(())
}

/// Those of the directories that aren't there, in their order.
///
/// Errors: a device that failed, at the path of one of them; want of memory.
pub(crate) fn missing_among<T: Tree>(
    alloc: Global,
    tree: &mut T,
    dirs: Vec<String>,
) -> Result<Vec<String>, Refusal>
    ensures reads { ReadsOn T.agrees T.failures tree.old tree.new }
    ensures answer { IfOk result (λ missing. InEachPair (T.agrees tree.new) (λ files listings.
        texts_in missing ≡ spec.missing_among listings (texts_in dirs))) }
    ensures cause { IfErr result (GivesUp (T.failures tree.old < T.failures tree.new)) }
    ensures failed { FailsAt is_failure (T.failed tree.old) (T.failed tree.new) result (λ at.
        IsAmong at (texts_in dirs)) }
{
    let mut missing = Vec::new(alloc);
    for dir in dirs {
        let absent = is_missing(tree, dir.as_str())?;
        add_if(absent, dir, &mut missing)?;
    }
    Ok(missing)
}
