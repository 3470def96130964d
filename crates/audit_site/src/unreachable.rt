//! Directories of a site that can be reached only through modules that aren't deterministic.
ghost use Rattle.std.specs.Prelude.{◌≡◌, ◌++◌, [], map, flat_map, string_bytes, IfOk, OnOk};
ghost use Rattle.filetree.specs.Modulefiles.{directories};
ghost use Rattle.audit_laws.specs.site.DirectorySets.{with_directories};
ghost use Rattle.audit_site.specs.Audits.{addition_of};
ghost use Rattle.audit_site.specs.Unreachable.{stable_additions, is_stable_directory, additions_after, additions_among};
ghost use Rattle.audit_site.specs.Unreachable.{addition_unless};
ghost use Rattle.audit_site.specs.Mentions.{known_in};
ghost use Rattle.audit_site.specs.DeterministicRuns.{evaluated_file};

use crate::auditing::AddedDirectory;
use crate::directories::{push_deterministic, push_evaluated};
use crate::walk::Evaluation;
use audit_laws::site::directory_set::{Directories, in_order, push_directories};
use indexmap::IndexSet;
use std::alloc::{AllocError, Global};

/// The directories of a MODULEPATH, and those that deterministic modules add.
fn stable_directories(
    alloc: Global,
    modulepath: &str,
    evaluations: &[Evaluation],
) -> Result<Directories, AllocError>
    ensures { IfOk result (λ deterministic. map string_bytes deterministic.keys
        ≡ with_directories [] (directories modulepath.now ++ flat_map stable_additions evaluations.now)) }
{
    let mut deterministic = IndexSet::new(alloc);
    push_directories(alloc, &mut deterministic, modulepath)?;
    for evaluation in evaluations {
        push_deterministic(alloc, &mut deterministic, evaluation)?;
    }
    Ok(deterministic)
}

/// Whether the directory is among these.
fn has_directory(dirs: &Directories, dir: &str) -> bool
    ensures { result ≡ known_in dirs.now.keys dir.now }
{
    dirs.contains(dir)
}

/// Adds a directory that the module adds, unless it is one of the deterministic ones.
fn push_unless(
    alloc: Global,
    deterministic: &Directories,
    module: &Evaluation,
    dir: &str,
    found: &mut Vec<AddedDirectory>,
) -> Result<(), AllocError>
    ensures { OnOk result (map addition_of found.new.items ≡ map addition_of found.old.items
        ++ addition_unless (known_in deterministic.now.keys dir.now) (evaluated_file module.now) dir.now) }
{
    if !has_directory(deterministic, dir) {
        found.push(AddedDirectory {
            name: String::from_str(alloc, module.name.as_str())?,
            path: String::from_str(alloc, module.path.as_str())?,
            directory: String::from_str(alloc, dir)?,
        })?;
    }
    Ok(())
}

/// Adds those of the directories that the module adds which are none of the deterministic ones.
fn push_each(
    alloc: Global,
    deterministic: &Directories,
    module: &Evaluation,
    dirs: &[String],
    found: &mut Vec<AddedDirectory>,
) -> Result<(), AllocError>
    ensures { OnOk result (map addition_of found.new.items ≡ map addition_of found.old.items
        ++ additions_among (known_in deterministic.now.keys) (evaluated_file module.now) (map string_bytes dirs.now)) }
{
    for dir in dirs {
        push_unless(alloc, deterministic, module, dir.as_str(), found)?;
    }
    Ok(())
}

/// Adds the directories that an evaluated module adds and that are none of the deterministic ones, each once.
fn push_unreachable(
    alloc: Global,
    deterministic: &Directories,
    module: &Evaluation,
    found: &mut Vec<AddedDirectory>,
) -> Result<(), AllocError>
    ensures { OnOk result (map addition_of found.new.items ≡ map addition_of found.old.items
        ++ additions_after (known_in deterministic.now.keys) module.now) }
{
    let mut added = IndexSet::new(alloc);
    push_evaluated(alloc, &mut added, module)?;
    let dirs = in_order(alloc, added)?;
    push_each(alloc, deterministic, module, dirs.as_slice(), found)
}

/// The directories that the evaluated modules add and that are none of the deterministic ones, module by module.
fn unreachable_beside(
    alloc: Global,
    deterministic: &Directories,
    evaluations: &[Evaluation],
) -> Result<Vec<AddedDirectory>, AllocError>
    ensures { IfOk result (λ found. map addition_of found.items
        ≡ flat_map (additions_after (known_in deterministic.now.keys)) evaluations.now) }
{
    let mut found = Vec::new(alloc);
    for module in evaluations {
        push_unreachable(alloc, deterministic, module, &mut found)?;
    }
    Ok(found)
}

/// What the evaluated modules in turn add that neither the MODULEPATH has nor a deterministic one of them adds.
pub(crate) fn unreachable_directories(
    alloc: Global,
    modulepath: &str,
    evaluations: &[Evaluation],
) -> Result<Vec<AddedDirectory>, AllocError>
    ensures { IfOk result (λ found. map addition_of found.items
        ≡ flat_map (additions_after (is_stable_directory modulepath.now evaluations.now)) evaluations.now) }
{
    let deterministic = stable_directories(alloc, modulepath, evaluations)?;
    unreachable_beside(alloc, &deterministic, evaluations)
}
