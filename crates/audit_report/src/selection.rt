//! Which modules a report names, and how many of them are certified.
ghost use Rattle.std.specs.Prelude.{◌≡◌, ◌≤◌, length};
ghost use Rattle.audit_site.specs.Audits.{is_certified};
ghost use Rattle.audit_report.specs.Words as spec;

use crate::words::standing_word;
use audit_site::{AuditStanding, AuditedModule};

/// Which modules a report names. It counts all of them in either case.
#[derive(Clone, Copy, Debug, PartialEq, Eq)]
pub enum Selection {
    /// Each module.
    Each,
    /// The modules that aren't certified.
    NotCertified,
}

impl Selection {
    /// Whether a report names a module that stands so.
    pub(crate) fn names(self, standing: &AuditStanding) -> bool
        ensures { result ≡ spec.is_named self standing.now }
    {
        match self {
            Selection::Each => true,
            Selection::NotCertified => !is_certified(standing),
        }
    }
}

/// Whether a module that stands so is certified.
fn is_certified(standing: &AuditStanding) -> bool
    ensures { result ≡ is_certified standing.now }
{
    match standing {
        AuditStanding::Certified => true,
        AuditStanding::Unstable(_)
        | AuditStanding::OneWay(_)
        | AuditStanding::Inconsistent { .. }
        | AuditStanding::Excluded
        | AuditStanding::Clashes(_)
        | AuditStanding::Refused(_) => false,
    }
}

/// How many of the modules are certified.
pub(crate) fn certified_count(modules: &[AuditedModule]) -> usize
    ensures value { result ≡ spec.certified_count modules.now }
    ensures bound { result ≤ length modules.now }
{
    let mut count = 0;
    for module in modules {
        if is_certified(&module.standing) {
            count += 1;
        }
    }
    count
}

/// How many of the modules stand so, by the word for it.
pub(crate) fn standing_count(word: &str, modules: &[AuditedModule]) -> usize
    ensures value { result ≡ spec.standing_count word.now modules.now }
    ensures bound { result ≤ length modules.now }
{
    let mut count = 0;
    for module in modules {
        if standing_word(&module.standing) == word {
            count += 1;
        }
    }
    count
}
