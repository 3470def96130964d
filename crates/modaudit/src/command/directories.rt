//! The directories of the command line: whether each is there, and the environment that has them as its MODULEPATH.
ghost use Rattle.std.specs.Prelude.{◌≡◌, ◌<◌, true, false, map, IfOk, IfErr, OnOk, string_bytes};
ghost use Rattle.filetree.specs.Agreement.{FailsAt, FailsWhere, ReadsOn};
ghost use Rattle.modaudit.specs.command.Audits as spec;
ghost use Rattle.modaudit.specs.command.Audits.{IsDirectory, AreDirectories, has_directory};
ghost use Rattle.modaudit.specs.command.Faults.{is_failure};
ghost use Rattle.modaudit.specs.command.Looked.{DirectoriesLookAt};
ghost use Rattle.modaudit.specs.command.Steps.{IsTransient, IsListing, NamesNoDirectory, IsDirectoryFault};
ghost use Rattle.modaudit.specs.command.Steps.{AreDirectoriesFault, IsModulepathFault};

use crate::command::audit_fault::AuditFault;
use envvars::Env;
use envvars::fields::{join, slices};
use filetree::Tree;
use requests::modulepath;
use search::directories;
use std::alloc::{AllocError, Global};

/// Whether the text has a colon.
fn has_colon(dir: &str) -> bool
    ensures { result ≡ spec.has_colon dir.now }
{
    dir.as_bytes().iter().any(|c| *c == b':')
}

/// Whether MODULEPATH can't hold the text as one directory: it is empty, or has a colon.
pub(crate) fn is_no_element(dir: &str) -> bool
    ensures { result ≡ spec.is_no_element dir.now }
{
    dir == "" || has_colon(dir)
}

/// Whether a directory is at the path, which is listed.
fn is_listed<T: Tree>(tree: &mut T, dir: &str) -> Result<bool, AuditFault>
    ensures reads { ReadsOn T.agrees T.failures tree.old tree.new }
    ensures answer { IfOk result (IsListing (T.agrees tree.new) dir.now) }
    ensures cause { IfErr result (IsTransient (T.failures tree.old < T.failures tree.new)) }
    ensures failed { FailsAt is_failure (T.failed tree.old) (T.failed tree.new) result (λ at. at ≡ dir.now) }
{
    let names = tree.entries(dir)?;
    Ok(names.is_some())
}

/// The fault of a word that names no directory.
fn no_directory(alloc: Global, dir: &str) -> AuditFault
    ensures { NamesNoDirectory result dir.now }
{
    match String::from_str(alloc, dir) {
        Ok(dir) => AuditFault::NotADirectory(dir),
        Err(e) => AuditFault::from(e),
    }
}

/// Whether a directory is at the path, and MODULEPATH can hold its path.
fn judge_directory<T: Tree>(alloc: Global, tree: &mut T, dir: &str) -> Result<(), AuditFault>
    ensures reads { ReadsOn T.agrees T.failures tree.old tree.new }
    ensures there { OnOk result (IsDirectory (T.agrees tree.new) dir.now) }
    ensures cause { IfErr result (IsDirectoryFault (T.agrees tree.new) (T.failures tree.old < T.failures tree.new)
        dir.now) }
    ensures failed { FailsAt is_failure (T.failed tree.old) (T.failed tree.new) result (λ at.
        (at ≡ dir.now) × (spec.is_no_element dir.now ≡ false)) }
{
    if is_no_element(dir) {
        return Err(no_directory(alloc, dir));
    }
    if !is_listed(tree, dir)? {
        return Err(no_directory(alloc, dir));
    }
    Ok(())
}

/// Whether each of the paths is that of a directory that MODULEPATH can hold.
pub(crate) fn judge_directories<T: Tree>(
    alloc: Global,
    tree: &mut T,
    dirs: &[String],
) -> Result<(), AuditFault>
    ensures reads { ReadsOn T.agrees T.failures tree.old tree.new }
    ensures there { OnOk result (AreDirectories (T.agrees tree.new) (map string_bytes dirs.now)) }
    ensures cause { IfErr result (AreDirectoriesFault (T.agrees tree.new) (T.failures tree.old < T.failures tree.new)
        (map string_bytes dirs.now)) }
    ensures failed { FailsWhere is_failure T.agrees T.failed tree.old tree.new result (λ files listings.
        DirectoriesLookAt listings (map string_bytes dirs.now)) }
{
    for dir in dirs {
        judge_directory(alloc, tree, dir.as_str())?;
    }
    Ok(())
}

/// The environment that is judged: where there are directories, with these as its MODULEPATH.
pub(crate) fn judged_env(alloc: Global, env: Env, dirs: &[String]) -> Result<Env, AuditFault>
    ensures set { IfOk result (λ judged. judged ≡ spec.judged_env env (map string_bytes dirs.now)) }
    ensures cause { IfErr result (IsTransient ⊥) }
{
    if dirs.is_empty() {
        return Ok(env);
    }
    let dirs = slices(alloc, dirs)?;
    let text = join(alloc, dirs.as_slice(), ':')?;
    let mut judged = env;
    // The counters are those of the MODULEPATH that was there.
    judged.unset("__MODULES_SHARE_MODULEPATH");
    judged.set("MODULEPATH", text.as_str())?;
    Ok(judged)
}

/// Whether the MODULEPATH of an environment has a directory.
fn has_directory(alloc: Global, env: &Env) -> Result<bool, AllocError>
    ensures { IfOk result (λ has. has ≡ has_directory env.now) }
{
    Ok(!directories(alloc, modulepath(env))?.is_empty())
}

/// Whether there is a site: the MODULEPATH that is judged has a directory.
pub(crate) fn judge_modulepath(alloc: Global, env: &Env) -> Result<(), AuditFault>
    ensures begins { OnOk result (has_directory env.now ≡ true) }
    ensures cause { IfErr result (IsModulepathFault env.now) }
{
    if has_directory(alloc, env)? {
        Ok(())
    } else {
        Err(AuditFault::EmptyModulepath)
    }
}
