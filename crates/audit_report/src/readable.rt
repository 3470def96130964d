//! An audit of what can be read of a site, the paths of what can't, and dry runs of the modules.
ghost use Rattle.std.specs.Prelude.{◌≡◌, ◌++◌, OnOk, flat_map};
ghost use Rattle.audit_report.specs.Readable as spec;

use crate::fields::{push_field, push_text};
use audit_dry_runs::DryRun;
use audit_site::SiteAudit;
use std::alloc::AllocError;

/// What an audit finds of a site without what can't be read, what that is, and what dry runs of its modules find.
#[derive(Debug, Drop)]
pub struct ReadableAudit {
    /// What is found elsewhere than at these paths.
    pub found: SiteAudit,
    /// The paths of the files and directories that can't be read.
    pub unreadable: Vec<String>,
    /// For each of the modules, in their order, what its dry run finds; `None` for one that isn't tried.
    pub dry_runs: Vec<Option<DryRun>>,
    /// The variables that the process has and the environment hasn't, since they aren't UTF-8, of those that certified
    /// modules use or read, or that the tool keeps itself.
    pub not_utf8: Vec<String>,
}

/// Adds the line of a path that can't be read.
fn push_unreadable_path(report: &mut Vec<u8>, path: &str) -> Result<(), AllocError>
    ensures { OnOk result (report.new.items ≡ report.old.items ++ spec.unreadable path.now) }
{
    push_text(report, "\trefused\tReading failed\t")?;
    push_field(report, path)?;
    push_text(report, "\n")
}

/// Adds a line for each path that can't be read.
pub(crate) fn push_unreadable(report: &mut Vec<u8>, paths: &[String]) -> Result<(), AllocError>
    ensures { OnOk result (report.new.items ≡ report.old.items ++ flat_map spec.unreadable_line paths.now) }
{
    for path in paths {
        push_unreadable_path(report, path.as_str())?;
    }
    Ok(())
}

/// Whether the path is one of those that can't be read.
pub(crate) fn is_unreadable(unreadable: &[String], path: &str) -> bool
    ensures { result ≡ spec.is_unreadable unreadable.now path.now }
{
    unreadable.iter().any(|other| path == other.as_str())
}
