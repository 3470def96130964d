//! A clash of each of some modules with another one of them.
ghost use Rattle.std.specs.Prelude.{◌≡◌, List, map, string_bytes, IfOk};
ghost use Rattle.audit_certificate.specs.Candidates as candidates;
ghost use Rattle.audit_certificate.specs.CandidateViews.{candidate_view};
ghost use Rattle.audit_certificate.specs.Candidates.{uses_of_all};
ghost use Rattle.audit_certificate.specs.Certificates.{selected};
ghost use Rattle.audit_certificate.specs.Ranks.{users_of_one_use};
ghost use Rattle.audit_certificate.specs.UseViews.{use_view, used_view};
ghost use Rattle.audit_certificate.specs.ClashAnswers.{IsAnswer, AreAnswers, without_clashes};
ghost use Rattle.audit_certificate.specs.ClashAnswers.{IsClashBetween};
ghost use Rattle.audit_certificate.specs.EachOnce.{each_once};
ghost use Rattle.audit_certificate.specs.Users.{AreUsersOf, uses_of_modules};
ghost use Rattle.audit_certificate.specs.UserViews.{user_view};
ghost use Rattle.audit_certificate.specs.Tables.{users_at};
ghost use Rattle.audit_certificate.specs.Tallies.{HasCounts};
ghost use Rattle.audit_certificate.specs.UsingModules.{candidate_in};

use crate::candidate::Candidate;
use crate::conflicts::conflict_names;
use crate::distinct_uses::unclashed_uses;
use crate::keys::key_of;
use crate::module_uses::{UsingModule, using_modules};
use crate::ranks::ranks;
use crate::table::VariableTable;
use crate::tally::{Tally, UsageCount};
use crate::users::ClashingUsers;
use crate::uses::{UsedVariable, VariableUse};
use std::alloc::{AllocError, Global};

/// The clash of a module with another.
#[derive(Debug, Drop)]
pub struct Clash {
    /// The variable that both use.
    pub variable: String,
    /// The module's own use of it.
    pub own: VariableUse,
    /// The use of the other.
    pub theirs: VariableUse,
    /// The full name of the other module.
    pub other_name: String,
    /// The path of its file.
    pub other_path: String,
    /// How many of the modules use the variable as the other does.
    pub alike: usize,
}

/// The clash between two users of a variable.
fn clash_between(
    alloc: Global,
    tally: &Tally<'_>,
    users: ClashingUsers<'_>,
) -> Result<Clash, AllocError>
    ensures clash { IfOk result (IsClashBetween (user_view users.entry.own) (user_view users.entry.other)) }
    ensures alike { IfOk result (λ clash. (ms : List candidates.Candidate) → HasCounts tally.now (uses_of_modules ms)
        → clash.alike ≡ users_of_one_use ms (string_bytes clash.variable) (use_view clash.theirs)) }
{
    let ClashingUsers { own, other } = users;
    let variable = String::from_str(alloc, own.used.variable.as_str())?;
    let theirs = other.used.used.copy(alloc)?;
    let alike = tally.count(UsageCount {
        variable: variable.as_str(),
        used: Some(key_of(&theirs)),
        root: None,
    });
    Ok(Clash {
        variable,
        other_name: String::from_str(alloc, other.owner.name.as_str())?,
        other_path: String::from_str(alloc, other.owner.path.as_str())?,
        own: own.used.used.copy(alloc)?,
        theirs,
        alike,
    })
}

/// A clash of one of the modules with one of those in a table.
fn clash_of<'a>(
    alloc: Global,
    tally: &Tally<'a>,
    table: &VariableTable<'a>,
    candidate: &'a UsingModule<'a>,
) -> Result<Option<Clash>, AllocError>
    ensures { IfOk result (λ answer. (ms : List candidates.Candidate) → HasCounts tally.now (uses_of_modules ms)
        → AreUsersOf (users_at table.now) (uses_of_modules (selected ms))
        → IsAnswer ms (candidate_in candidate.entry.now) answer) }
{
    let conflicts = conflict_names(alloc, candidate.owner.records.as_slice())?;
    match table.clash_of(candidate, &conflicts) {
        Some(users) => Ok(Some(clash_between(alloc, tally, users)?)),
        None => Ok(None),
    }
}

/// A clash of each of the modules with one of those in a table.
fn answers_of<'a>(
    alloc: Global,
    tally: &Tally<'a>,
    table: &VariableTable<'a>,
    users: &'a [UsingModule<'a>],
) -> Result<Vec<Option<Clash>>, AllocError>
    ensures { IfOk result (λ found. (ms : List candidates.Candidate) → HasCounts tally.now (uses_of_modules ms)
        → AreUsersOf (users_at table.now) (uses_of_modules (selected ms))
        → AreAnswers ms (map candidate_in users.entry.now) found.items) }
{
    let mut found = Vec::new(alloc);
    for candidate in users {
        found.push(clash_of(alloc, tally, table, candidate)?)?;
    }
    Ok(found)
}

/// What is found of the clashes of some modules with those of them that are selected.
#[derive(Debug, Drop)]
pub struct FoundClashes {
    /// For each of the modules, in their order, a clash with one that is selected; `None` where it is selected itself,
    /// since it clashes with none of these.
    pub answers: Vec<Option<Clash>>,
    /// What those use and read that clash with none: each use once, in the order in which they first stand.
    pub unclashed_uses: Vec<UsedVariable>,
    /// For each of the modules beside them, in their order, a clash with one that is selected; `None` where it clashes
    /// with none.
    pub beside: Vec<Option<Clash>>,
}

/// The clashes of modules, and of others beside them, with those of the first that are selected.
fn clashes_of<'a>(
    alloc: Global,
    users: &'a [UsingModule<'a>],
    others: &'a [UsingModule<'a>],
) -> Result<FoundClashes, AllocError>
    ensures answers { IfOk result (λ found.
        AreAnswers (map candidate_in users.entry.now) (map candidate_in users.entry.now) found.answers.items) }
    ensures uses { IfOk result (λ found. map used_view found.unclashed_uses.items
        ≡ each_once (uses_of_all (without_clashes (map candidate_in users.entry.now) found.answers.items))) }
    ensures beside { IfOk result (λ found.
        AreAnswers (map candidate_in users.entry.now) (map candidate_in others.entry.now) found.beside.items) }
{
    let tally = Tally::of(alloc, users)?;
    let ranks = ranks(alloc, &tally, users)?;
    let table = VariableTable::of_taken(alloc, ranks.as_slice())?;
    let answers = answers_of(alloc, &tally, &table, users)?;
    let unclashed_uses = unclashed_uses(alloc, users, answers.as_slice())?;
    let beside = answers_of(alloc, &tally, &table, others)?;
    Ok(FoundClashes {
        answers,
        unclashed_uses,
        beside,
    })
}

/// Of candidates that clash those that are selected, so many that none more can: the others have a clash with one of
/// these. What those that are selected use and read. And of other modules, which have no part in who is selected, a
/// clash with one that does.
///
/// The only error is want of memory.
pub fn clashes(
    alloc: Global,
    candidates: &[Candidate],
    others: &[Candidate],
) -> Result<FoundClashes, AllocError>
    ensures answers { IfOk result (λ found.
        AreAnswers (map candidate_view candidates.now) (map candidate_view candidates.now) found.answers.items) }
    ensures uses { IfOk result (λ found. map used_view found.unclashed_uses.items
        ≡ each_once (uses_of_all (without_clashes (map candidate_view candidates.now) found.answers.items))) }
    ensures beside { IfOk result (λ found.
        AreAnswers (map candidate_view candidates.now) (map candidate_view others.now) found.beside.items) }
{
    let users = using_modules(alloc, candidates)?;
    let others = using_modules(alloc, others)?;
    clashes_of(alloc, users.as_slice(), others.as_slice())
}
