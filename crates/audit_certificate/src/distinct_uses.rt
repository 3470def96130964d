//! What the modules use that clash with no other one, each use once.
ghost use Rattle.std.specs.Prelude.{◌≡◌, [], List, map, IfOk, OnOk};
ghost use Rattle.indexmap.specs.IndexSet.{insert_key, insert_all};
ghost use Rattle.reversal.specs.VariableUses as variable_uses;
ghost use Rattle.audit_certificate.specs.Candidates.{uses_of_all};
ghost use Rattle.audit_certificate.specs.UseViews.{used_view};
ghost use Rattle.audit_certificate.specs.ClashAnswers.{without_clash, without_clashes};
ghost use Rattle.audit_certificate.specs.EachOnce.{same_used, each_once};
ghost use Rattle.audit_certificate.specs.UseKeys.{HasUses};
ghost use Rattle.audit_certificate.specs.UsingModules.{candidate_in};

use crate::answers::Clash;
use crate::keys::{UsedKey, used_key};
use crate::module_uses::UsingModule;
use crate::uses::UsedVariable;
use indexmap::IndexSet;
use std::alloc::{AllocError, Global};

/// A copy of a variable with a use of it.
fn copy_of(alloc: Global, used: &UsedVariable) -> Result<UsedVariable, AllocError>
    ensures { IfOk result (λ copy. used_view copy ≡ used_view used.now) }
{
    Ok(UsedVariable {
        variable: String::from_str(alloc, used.variable.as_str())?,
        used: used.used.copy(alloc)?,
    })
}

/// Uses, each once, in the order in which they first stand.
#[derive(Drop)]
struct DistinctUses<'a> {
    /// The uses.
    uses: Vec<UsedVariable>,
    /// The uses as keys, to find one by what it is.
    keys: IndexSet<UsedKey<'a>>,
}

impl<'a> DistinctUses<'a> {
    /// No uses.
    fn new(alloc: Global) -> DistinctUses<'a>
        ensures { HasUses result [] }
    {
        DistinctUses {
            uses: Vec::new(alloc),
            keys: IndexSet::new(alloc),
        }
    }

    /// Adds a use, unless it is there.
    fn add(&mut self, alloc: Global, used: &'a UsedVariable) -> Result<(), AllocError>
        ensures { OnOk result ((ps : List variable_uses.UsedVariable) → HasUses self.old ps
            → HasUses self.new (insert_key same_used ps (used_view used.entry.now))) }
    {
        if self.keys.insert(used_key(used))? {
            self.uses.push(copy_of(alloc, used)?)?;
        }
        Ok(())
    }

    /// Adds uses, each unless it is there.
    fn add_all(&mut self, alloc: Global, all_used: &'a [UsedVariable]) -> Result<(), AllocError>
        ensures { OnOk result ((ps : List variable_uses.UsedVariable) → HasUses self.old ps
            → HasUses self.new (insert_all same_used ps (map used_view all_used.entry.now))) }
    {
        for used in all_used {
            self.add(alloc, used)?;
        }
        Ok(())
    }

    /// Adds what a module uses, where its answer is that it clashes with none.
    fn add_unclashed(
        &mut self,
        alloc: Global,
        candidate: &'a UsingModule<'a>,
        answer: &Option<Clash>,
    ) -> Result<(), AllocError>
        ensures { OnOk result ((ps : List variable_uses.UsedVariable) → HasUses self.old ps → HasUses self.new
            (insert_all same_used ps (uses_of_all (without_clash (candidate_in candidate.entry.now) answer.now)))) }
    {
        match answer {
            None => self.add_all(alloc, candidate.used.as_slice()),
            Some(_) => Ok(()),
        }
    }
}

/// The uses, each once, in the order in which they first stand.
pub(crate) fn each_once(
    alloc: Global,
    all_used: &[UsedVariable],
) -> Result<Vec<UsedVariable>, AllocError>
    ensures { IfOk result (λ found. map used_view found.items ≡ each_once (map used_view all_used.now)) }
{
    let mut once = DistinctUses::new(alloc);
    once.add_all(alloc, all_used)?;
    let DistinctUses { uses, keys: _ } = once;
    Ok(uses)
}

/// What those of the modules use whose answers are that they clash with none, each use once.
pub(crate) fn unclashed_uses<'a>(
    alloc: Global,
    users: &'a [UsingModule<'a>],
    answers: &[Option<Clash>],
) -> Result<Vec<UsedVariable>, AllocError>
    ensures { IfOk result (λ found. map used_view found.items
        ≡ each_once (uses_of_all (without_clashes (map candidate_in users.entry.now) answers.now))) }
{
    let mut once = DistinctUses::new(alloc);
    for (candidate, answer) in users.iter().zip(answers) {
        once.add_unclashed(alloc, candidate, answer)?;
    }
    let DistinctUses { uses, keys: _ } = once;
    Ok(uses)
}
