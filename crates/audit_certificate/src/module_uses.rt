//! Candidates with what they use, computed once for each.
ghost use Rattle.std.specs.Prelude.{◌≡◌, map, IfOk};
ghost use Rattle.audit_certificate.specs.CandidateViews.{candidate_view};
ghost use Rattle.audit_certificate.specs.Candidates.{uses_of};
ghost use Rattle.audit_certificate.specs.EachOnce.{each_once};
ghost use Rattle.audit_certificate.specs.UseViews.{used_view};

use crate::candidate::Candidate;
use crate::distinct_uses::each_once;
use crate::uses::{UsedVariable, uses_of};
use std::alloc::{AllocError, Global};

/// A candidate with what it uses.
#[derive(Drop)]
pub(crate) struct UsingModule<'a> {
    /// The candidate.
    pub(crate) owner: &'a Candidate,
    /// What its records use and what it reads, each use once.
    pub(crate) used: Vec<UsedVariable>,
    ghost exact: { map used_view used.items ≡ each_once (uses_of (candidate_view owner.now)) },
}

impl<'a> UsingModule<'a> {
    /// The candidate with what it uses.
    fn of(alloc: Global, owner: &'a Candidate) -> Result<UsingModule<'a>, AllocError>
        ensures { IfOk result (λ using. using.owner.now ≡ owner.entry.now) }
    {
        let all_used = uses_of(alloc, owner.records.as_slice(), owner.reads.as_slice())?;
        Ok(UsingModule {
            owner,
            used: each_once(alloc, all_used.as_slice())?,
        })
    }
}

/// Each candidate with what it uses.
pub(crate) fn using_modules<'a>(
    alloc: Global,
    candidates: &'a [Candidate],
) -> Result<Vec<UsingModule<'a>>, AllocError>
    ensures { IfOk result (λ users. map (λ using. candidate_view using.owner.now) users.items
        ≡ map candidate_view candidates.entry.now) }
{
    let mut users = Vec::new(alloc);
    for candidate in candidates {
        users.push(UsingModule::of(alloc, candidate)?)?;
    }
    Ok(users)
}
