//! The names that a module is in conflict with, read once from its records, and the user whose clash is looked for.
ghost use Rattle.std.specs.Prelude.{◌≡◌, ◌||◌, [], ◌∷◌, map, string_bytes, IfOk, OnOk};
ghost use Rattle.envvars.specs.Texts.{Text, has};
ghost use Rattle.modulefile.specs.Records.{conflict_names};
ghost use Rattle.modulefile.specs.RecordViews.{record_view};
ghost use Rattle.audit_certificate.specs.Conflicts.{has_name};

use crate::users::User;
use indexmap::IndexSet;
use modulefile::Record;
use std::alloc::{AllocError, Global};

/// Names of modules, or of their first parts.
pub(crate) type Names<'a> = IndexSet<&'a str>;

fn enter_names<'a>(entered: &mut Names<'a>, names: &'a [String]) -> Result<(), AllocError>
    ensures { OnOk result ((name : Text) → has_name entered.new name
        ≡ (has_name entered.old name || has name (map string_bytes names.entry.now))) }
{
    for name in names {
        entered.insert(name.as_str())?;
    }
    Ok(())
}

/// Enters the names of a `conflict`; other records have none.
fn enter_conflict<'a>(entered: &mut Names<'a>, recorded: &'a Record) -> Result<(), AllocError>
    ensures { OnOk result ((name : Text) → has_name entered.new name
        ≡ (has_name entered.old name || has name (conflict_names (record_view recorded.entry.now ∷ [])))) }
{
    enter_names(entered, recorded.conflicts())
}

/// The names that the records are in conflict with.
pub(crate) fn conflict_names<'a>(
    alloc: Global,
    records: &'a [Record],
) -> Result<Names<'a>, AllocError>
    ensures { IfOk result (λ names. (name : Text) → has_name names name
        ≡ has name (conflict_names (map record_view records.entry.now))) }
{
    let mut names = IndexSet::new(alloc);
    for recorded in records {
        enter_conflict(&mut names, recorded)?;
    }
    Ok(names)
}

/// The user whose clash is looked for.
#[derive(Drop)]
pub(crate) struct UserInQuestion<'a> {
    /// It, with its use.
    pub(crate) user: User<'a>,
    /// The names that its module is in conflict with.
    pub(crate) conflicts: &'a Names<'a>,
    ghost named: { (name : Text) → has_name conflicts.now name
        ≡ has name (conflict_names (map record_view user.owner.now.records.items)) },
}

impl UserInQuestion<'_> {
    /// Whether a conflict of its module excludes all modules whose names have this first part.
    pub(crate) fn excludes_versions_of(&self, root: &str) -> bool
        ensures { result ≡ has root.now (conflict_names (map record_view self.now.user.owner.now.records.items)) }
    {
        self.conflicts.contains(root)
    }
}
