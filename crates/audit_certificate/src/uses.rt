//! How modules use variables: by their records, each by itself, and by what they read.
ghost use Rattle.std.specs.Prelude.{◌≡◌, ◌++◌, [], ◌∷◌, find, map, not, string_bytes, IfOk, OnOk};
ghost use Rattle.std.specs.Option.{option_map};
ghost use Rattle.modulefile.specs.RecordViews.{record_view};
ghost use Rattle.reversal.specs.VariableUses as variable_uses;
ghost use Rattle.audit_certificate.specs.RecordUses as uses;
ghost use Rattle.audit_certificate.specs.Candidates.{read_of, uses_with};
ghost use Rattle.audit_certificate.specs.Clashes as clashes;
ghost use Rattle.audit_certificate.specs.UseViews.{use_view, used_view};

use modulefile::{Delimiter, PathEdit, Record};
use std::alloc::{AllocError, Global};

/// How a module uses a variable: one that a record of it names, or that its file reads.
#[derive(Debug, Drop)]
pub enum VariableUse {
    /// It sets the variable, which is unset else; or it unsets the variable, which else has this value.
    Fixed(Option<String>),
    /// It unsets the variable, which has no value else either.
    Absent,
    /// It uses the variable as a path with this delimiter.
    Pathed(Delimiter),
    /// It uses the variable as a stack.
    Stacked,
    /// A file reads the variable; no record does.
    Read,
}

impl VariableUse {
    /// A copy of the use.
    pub fn copy(&self, alloc: Global) -> Result<VariableUse, AllocError>
        ensures { IfOk result (λ copy. use_view copy ≡ use_view self.now) }
    {
        match self {
            VariableUse::Fixed(None) => Ok(VariableUse::Fixed(None)),
            VariableUse::Fixed(Some(value)) => {
                let value = String::from_str(alloc, value.as_str())?;
                Ok(VariableUse::Fixed(Some(value)))
            }
            VariableUse::Absent => Ok(VariableUse::Absent),
            VariableUse::Pathed(delim) => Ok(VariableUse::Pathed(*delim)),
            VariableUse::Stacked => Ok(VariableUse::Stacked),
            VariableUse::Read => Ok(VariableUse::Read),
        }
    }
}

/// A variable, and a use of it.
#[derive(Debug, Drop)]
pub struct UsedVariable {
    /// The name of the variable.
    pub variable: String,
    /// How it is used.
    pub used: VariableUse,
}

/// A copy of the name of a variable, with this use.
fn use_of(alloc: Global, variable: &str, used: VariableUse) -> Result<UsedVariable, AllocError>
    ensures { IfOk result (λ p. used_view p ≡ (variable.now, use_view used)) }
{
    Ok(UsedVariable {
        variable: String::from_str(alloc, variable)?,
        used,
    })
}

/// The variable that a record uses, and how; `None` where it names no variable, or removes elements.
fn use_by(alloc: Global, recorded: &Record) -> Result<Option<UsedVariable>, AllocError>
    ensures { IfOk result (λ found. option_map used_view found ≡ variable_uses.use_by (record_view recorded.now)) }
{
    match recorded {
        Record::Set { var, value: _ } => {
            use_of(alloc, var.as_str(), VariableUse::Fixed(None)).map(Some)
        }
        Record::Unset {
            var,
            value: Some(value),
        } => {
            let value = String::from_str(alloc, value.as_str())?;
            use_of(alloc, var.as_str(), VariableUse::Fixed(Some(value))).map(Some)
        }
        Record::Unset { var, value: None } => {
            use_of(alloc, var.as_str(), VariableUse::Absent).map(Some)
        }
        Record::Push { var, value: _ } => {
            use_of(alloc, var.as_str(), VariableUse::Stacked).map(Some)
        }
        Record::Path {
            edit: PathEdit::Remove,
            ..
        } => Ok(None),
        Record::Path { delim, var, .. } => {
            use_of(alloc, var.as_str(), VariableUse::Pathed(*delim)).map(Some)
        }
        Record::Conflict(_) | Record::Prereq(_) | Record::Whatis(_) => Ok(None),
    }
}

fn push_use(
    alloc: Global,
    used: &mut Vec<UsedVariable>,
    recorded: &Record,
) -> Result<(), AllocError>
    ensures { OnOk result (map used_view used.new.items
        ≡ map used_view used.old.items ++ uses.used_by (record_view recorded.now ∷ [])) }
{
    if let Some(by_record) = use_by(alloc, recorded)? {
        used.push(by_record)?;
    }
    Ok(())
}

/// What the records use, in their order.
fn used_by(alloc: Global, records: &[Record]) -> Result<Vec<UsedVariable>, AllocError>
    ensures { IfOk result (λ used. map used_view used.items ≡ uses.used_by (map record_view records.now)) }
{
    let mut used = Vec::new(alloc);
    for recorded in records {
        push_use(alloc, &mut used, recorded)?;
    }
    Ok(used)
}

/// Adds a use of each variable that is read.
fn push_reads(
    alloc: Global,
    used: &mut Vec<UsedVariable>,
    reads: &[String],
) -> Result<(), AllocError>
    ensures { OnOk result (map used_view used.new.items
        ≡ map used_view used.old.items ++ map read_of (map string_bytes reads.now)) }
{
    for variable in reads {
        used.push(use_of(alloc, variable.as_str(), VariableUse::Read)?)?;
    }
    Ok(())
}

/// What a module uses: what its records do, in their order, and then what its file reads.
pub fn uses_of(
    alloc: Global,
    records: &[Record],
    reads: &[String],
) -> Result<Vec<UsedVariable>, AllocError>
    ensures { IfOk result (λ used. map used_view used.items
        ≡ uses_with (map record_view records.now) (map string_bytes reads.now)) }
{
    let mut used = used_by(alloc, records)?;
    push_reads(alloc, &mut used, reads)?;
    Ok(used)
}

/// Whether modules that are loaded at once may use a variable in these two ways: both as a path with one delimiter,
/// both as a stack, both as absent, or both read it.
pub fn are_compatible(one: &VariableUse, other: &VariableUse) -> bool
    ensures { result ≡ clashes.are_compatible (use_view one.now) (use_view other.now) }
{
    match (one, other) {
        (VariableUse::Pathed(one), VariableUse::Pathed(other)) => {
            one.character == other.character
        }
        (VariableUse::Stacked, VariableUse::Stacked)
        | (VariableUse::Absent, VariableUse::Absent)
        | (VariableUse::Read, VariableUse::Read) => true,
        _ => false,
    }
}

/// Whether a start can agree with both uses of a variable.
fn agree_at_start(one: &VariableUse, other: &VariableUse) -> bool
    ensures { result ≡ clashes.agree_at_start (use_view one.now) (use_view other.now) }
{
    match (one, other) {
        (VariableUse::Fixed(None), VariableUse::Fixed(None)) => true,
        (VariableUse::Fixed(Some(one)), VariableUse::Fixed(Some(other))) => {
            one.as_str() == other.as_str()
        }
        (VariableUse::Fixed(_), VariableUse::Fixed(_)) => false,
        (VariableUse::Fixed(value), VariableUse::Absent)
        | (VariableUse::Absent, VariableUse::Fixed(value)) => value.is_none(),
        _ => true,
    }
}

/// Whether the use is a read.
pub(crate) fn is_read(used: &VariableUse) -> bool
    ensures { result ≡ uses.is_read (use_view used.now) }
{
    match used {
        VariableUse::Read => true,
        VariableUse::Fixed(_)
        | VariableUse::Absent
        | VariableUse::Pathed(_)
        | VariableUse::Stacked => false,
    }
}

/// Whether two uses are one.
fn same_use(one: &VariableUse, other: &VariableUse) -> bool
    ensures { result ≡ uses.same_use (use_view one.now) (use_view other.now) }
{
    match (one, other) {
        (VariableUse::Fixed(None), VariableUse::Fixed(None)) => true,
        (VariableUse::Fixed(Some(one)), VariableUse::Fixed(Some(other))) => {
            one.as_str() == other.as_str()
        }
        (VariableUse::Pathed(one), VariableUse::Pathed(other)) => {
            one.character == other.character
        }
        (VariableUse::Stacked, VariableUse::Stacked)
        | (VariableUse::Absent, VariableUse::Absent)
        | (VariableUse::Read, VariableUse::Read) => true,
        _ => false,
    }
}

/// Whether two uses of one variable clash, by candidates that are mutually exclusive or aren't.
pub fn uses_clash(apart: bool, one: &VariableUse, other: &VariableUse) -> bool
    ensures { result ≡ clashes.uses_clash apart (use_view one.now) (use_view other.now) }
{
    !(apart || are_compatible(one, other)) || !agree_at_start(one, other)
}

/// Whether the first use is a read, or they are of two variables, or are one.
fn is_alike(one: &UsedVariable, other: &UsedVariable) -> bool
    ensures { result ≡ uses.is_same_use (used_view one.now) (used_view other.now) }
{
    is_read(&one.used)
        || (one.variable.as_str() != other.variable.as_str() || same_use(&one.used, &other.used))
}

/// The first of the uses that uses the same variable in another way than this one, unless this is a read.
pub fn first_unlike<'a>(
    one: &UsedVariable,
    all_used: &'a [UsedVariable],
) -> Option<&'a UsedVariable>
    ensures { option_map (λ x. used_view x.now) result
        ≡ find (λ other. not (uses.is_same_use (used_view one.now) other)) (map used_view all_used.entry.now) }
{
    all_used.iter().find(|other| !is_alike(one, other))
}
