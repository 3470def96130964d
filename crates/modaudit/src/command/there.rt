//! Whether a directory of MODULEPATH is there.
ghost use Rattle.std.specs.Prelude.{◌≡◌, map, IfOk, string_bytes};
ghost use Rattle.std.specs.List.{list_all};
ghost use Rattle.envvars.specs.Texts.{has, slice_texts};
ghost use Rattle.modaudit.specs.command.Audits as spec;

use crate::command::readable::is_among;
use audit_report::ReadableAudit;
use envvars::Env;
use requests::modulepath;
use search::directories;
use std::alloc::{AllocError, Global};

/// Whether each of the directories is among those that aren't there.
fn are_missing(dirs: &[&str], missing: &[String]) -> bool
    ensures { result ≡ list_all (λ dir. has dir (map string_bytes missing.now)) (slice_texts dirs.now) }
{
    dirs.iter().all(|dir| is_among(missing, *dir))
}

/// Whether no directory of the MODULEPATH that was judged is there, and nothing that can't be read.
pub(crate) fn is_nothing_there(
    alloc: Global,
    judged: &Env,
    audit: &ReadableAudit,
) -> Result<bool, AllocError>
    ensures { IfOk result (λ nothing. nothing ≡ spec.is_nothing_there judged.now audit.now) }
{
    let dirs = directories(alloc, modulepath(judged))?;
    let missing = audit.found.missing_directories.as_slice();
    Ok(audit.unreadable.is_empty() && are_missing(dirs.as_slice(), missing))
}
