//! Two ways in which a module uses one variable.
ghost use Rattle.std.specs.Prelude.{◌≡◌, true, not, ◌++◌, find, map, string_bytes, IfOk, MatchOption};
ghost use Rattle.std.specs.Option.{option_map};
ghost use Rattle.envvars.specs.Fields.{colon};
ghost use Rattle.modulefile.specs.RecordViews.{record_view};
ghost use Rattle.reversal.specs.VariableUses as variable_uses;
ghost use Rattle.audit_certificate.specs.RecordUses.{is_same_use, modulepath};
ghost use Rattle.audit_certificate.specs.Steps.{are_consistent};
ghost use Rattle.audit_certificate.specs.UseViews.{use_view, used_view};
ghost use Rattle.audit_certificate.specs.Candidates.{uses_with};
ghost use Rattle.audit_site.specs.Walks.{AreUsedTwice};

use audit_certificate::{UsedVariable, VariableUse, first_unlike, uses_of};
use modulefile::{Delimiter, Record};
use std::alloc::{AllocError, Global};

/// Two uses of one variable that differ.
#[derive(Drop)]
pub struct UnlikeUses {
    /// The variable.
    pub variable: String,
    /// How it is used.
    pub one: VariableUse,
    /// How it is used besides.
    pub other: VariableUse,
}

/// MODULEPATH, as a path with colons.
fn directories_use(alloc: Global) -> Result<UsedVariable, AllocError>
    ensures { IfOk result (λ used. used_view used ≡ (modulepath, variable_uses.Pathed colon)) }
{
    Ok(UsedVariable {
        variable: String::from_str(alloc, "MODULEPATH")?,
        used: VariableUse::Pathed(Delimiter::COLON),
    })
}

/// The first use of a variable in another way: that of the directories, or one of the module's own.
fn find_unlike<'a>(
    one: &UsedVariable,
    directories: &'a [UsedVariable],
    used: &'a [UsedVariable],
) -> Option<&'a UsedVariable>
    ensures { option_map (λ x. used_view x.now) result ≡ find (λ other. not (is_same_use (used_view one.now) other))
        (map used_view directories.entry.now ++ map used_view used.entry.now) }
{
    match first_unlike(one, directories) {
        Some(other) => Some(other),
        None => first_unlike(one, used),
    }
}

/// Copies of two uses of one variable.
fn unlike_of(
    alloc: Global,
    one: &UsedVariable,
    other: &UsedVariable,
) -> Result<UnlikeUses, AllocError>
    ensures variable { IfOk result (λ unlike. string_bytes unlike.variable ≡ (used_view one.now).0) }
    ensures one { IfOk result (λ unlike. use_view unlike.one ≡ (used_view one.now).1) }
    ensures other { IfOk result (λ unlike. use_view unlike.other ≡ (used_view other.now).1) }
{
    Ok(UnlikeUses {
        variable: String::from_str(alloc, one.variable.as_str())?,
        one: one.used.copy(alloc)?,
        other: other.used.copy(alloc)?,
    })
}

/// Two ways in which one variable is used, of which the second may be that of MODULEPATH as a path with colons; `None`
/// where the uses are consistent.
fn unlike_uses(alloc: Global, used: &[UsedVariable]) -> Result<Option<UnlikeUses>, AllocError>
    ensures { IfOk result (λ found. MatchOption found (are_consistent (map used_view used.now) ≡ true)
        (AreUsedTwice (map used_view used.now))) }
{
    let directories = [directories_use(alloc)?];
    for one in used {
        if let Some(other) = find_unlike(one, &directories, used) {
            return Ok(Some(unlike_of(alloc, one, other)?));
        }
    }
    Ok(None)
}

/// Two ways in which a module with these records and these reads uses one variable, as `unlike_uses` finds them.
pub(crate) fn unlike_in(
    alloc: Global,
    records: &[Record],
    reads: &[String],
) -> Result<Option<UnlikeUses>, AllocError>
    ensures { IfOk result (λ found. MatchOption found
        (are_consistent (uses_with (map record_view records.now) (map string_bytes reads.now)) ≡ true)
        (AreUsedTwice (uses_with (map record_view records.now) (map string_bytes reads.now)))) }
{
    let used = uses_of(alloc, records, reads)?;
    unlike_uses(alloc, used.as_slice())
}
