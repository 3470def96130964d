//! The order in which modules are certified: those first that have the fewest competitors.
ghost use Rattle.std.specs.Prelude.{◌≡◌, List, map, IfOk};
ghost use Rattle.std.specs.List.Sorted.{IsPermutation, IsSortedBy};
ghost use Rattle.std.specs.Ordering.{is_lt};
ghost use Rattle.audit_certificate.specs.Candidates as candidates;
ghost use Rattle.audit_certificate.specs.Users.{uses_of_modules};
ghost use Rattle.audit_certificate.specs.Tallies.{HasCounts};
ghost use Rattle.audit_certificate.specs.RankedModule.{ranked_module, ranked_order, AreRanked};
ghost use Rattle.audit_certificate.specs.UsingModules.{candidate_in};

use crate::module_uses::UsingModule;
use crate::tally::Tally;
use std::alloc::{AllocError, Global};
use std::cmp::Ordering;

/// A module, and how many competitors it has.
#[derive(Clone, Copy)]
pub(crate) struct RankedModule<'a> {
    /// How many competitors it has.
    pub(crate) competitors: usize,
    /// The module with what it uses.
    pub(crate) candidate: &'a UsingModule<'a>,
}

/// The order of two modules.
fn ranked_order(left: &RankedModule<'_>, right: &RankedModule<'_>) -> Ordering
    ensures { result ≡ ranked_order left.now right.now }
{
    let (module, other) = (left.candidate.owner, right.candidate.owner);
    match left.competitors.cmp(&right.competitors) {
        Ordering::Equal => match module.name.as_str().cmp(other.name.as_str()) {
            Ordering::Equal => module.path.as_str().cmp(other.path.as_str()),
            order => order,
        },
        order => order,
    }
}

/// Each module with how many competitors it has.
fn with_competitors<'a>(
    alloc: Global,
    tally: &Tally<'a>,
    users: &'a [UsingModule<'a>],
) -> Result<Vec<RankedModule<'a>>, AllocError>
    ensures modules { IfOk result (λ ranks. map ranked_module ranks.items ≡ map candidate_in users.entry.now) }
    ensures competitors { IfOk result (λ ranks. (ms : List candidates.Candidate) → HasCounts tally.now (uses_of_modules ms)
        → AreRanked ms ranks.items) }
{
    let mut ranks = Vec::with_capacity(alloc, users.len())?;
    for candidate in users {
        let competitors = tally.competitors(alloc, candidate)?;
        ranks.push(RankedModule {
            competitors,
            candidate,
        })?;
    }
    Ok(ranks)
}

/// Puts modules in their order.
fn sort(ranks: &mut Vec<RankedModule<'_>>)
    ensures same { IsPermutation ranks.old.items ranks.new.items }
    ensures sorted { IsSortedBy (λ r s. is_lt (ranked_order r s)) ranks.new.items }
{
    ranks.sort_unstable_by(|left, right| ranked_order(left, right));
}

/// The modules in their order.
pub(crate) fn ranks<'a>(
    alloc: Global,
    tally: &Tally<'a>,
    users: &'a [UsingModule<'a>],
) -> Result<Vec<RankedModule<'a>>, AllocError>
    ensures same { IfOk result (λ ranks.
        IsPermutation (map candidate_in users.entry.now) (map ranked_module ranks.items)) }
    ensures competitors { IfOk result (λ ranks. (ms : List candidates.Candidate) → HasCounts tally.now (uses_of_modules ms)
        → AreRanked ms ranks.items) }
    ensures sorted { IfOk result (λ ranks. IsSortedBy (λ r s. is_lt (ranked_order r s)) ranks.items) }
{
    let mut ranks = with_competitors(alloc, tally, users)?;
    sort(&mut ranks);
    Ok(ranks)
}
