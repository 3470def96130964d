//! How many users each variable has, by the ways in which they use it and the first parts of their names.
ghost use Rattle.std.specs.Prelude.{◌≡◌, ◌+◌, ◌-◌, [], ◌∷◌, List, map, None, Some, IfOk, OnOk};
ghost use Rattle.std.specs.List.{count_by};
ghost use Rattle.std.specs.Option.{option_map};
ghost use Rattle.envvars.specs.Texts.{Text, has};
ghost use Rattle.modulefile.specs.Records as records;
ghost use Rattle.reversal.specs.VariableUses.{Untouched};
ghost use Rattle.audit_certificate.specs.Candidates as candidates;
ghost use Rattle.audit_certificate.specs.Users.{ModuleUse, uses_of_module, uses_of_modules};
ghost use Rattle.audit_certificate.specs.Ranks.{is_competitor, competitors};
ghost use Rattle.audit_certificate.specs.UserViews.{user_view};
ghost use Rattle.audit_certificate.specs.UseKeys.{key_view};
ghost use Rattle.audit_certificate.specs.Conflicts.{has_name};
ghost use Rattle.audit_certificate.specs.Tallies.{counted_at, HasCounts, CountsMore, CountsOne};
ghost use Rattle.audit_certificate.specs.Tallies.{is_user, is_excluded_user, is_other_user, is_open_competitor};
ghost use Rattle.audit_certificate.specs.UsingModules.{candidate_in};

use crate::conflicts::{Names, conflict_names};
use crate::keys::{UseKey, key_of};
use crate::module_uses::UsingModule;
use crate::users::User;
use crate::uses::{are_compatible, is_read};
use indexmap::IndexMap;
use std::alloc::{AllocError, Global};

/// What is counted: the users of a variable, and of these those alone with one way of using it, or with one first part
/// of their names.
#[derive(Clone, Copy, PartialEq, Eq, Hash)]
pub(crate) struct UsageCount<'a> {
    pub(crate) variable: &'a str,
    pub(crate) used: Option<UseKey<'a>>,
    pub(crate) root: Option<&'a str>,
}

/// The sum. One beyond `usize` would be of more users than memory can hold.
fn sum_of(one: usize, other: usize) -> Result<usize, AllocError>
    ensures { IfOk result (λ sum. sum ≡ one + other) }
{
    one.checked_add(other).ok_or(AllocError)
}

/// How many users each variable has.
#[derive(Drop)]
pub(crate) struct Tally<'a> {
    counts: IndexMap<UsageCount<'a>, usize>,
}

impl<'a> Tally<'a> {
    /// The tally of no users.
    fn new(alloc: Global) -> Tally<'a>
        ensures { HasCounts result [] }
    {
        Tally {
            counts: IndexMap::new(alloc),
        }
    }

    /// How many of these there are.
    pub(crate) fn count(&self, counted: UsageCount<'_>) -> usize
        ensures { result ≡ counted_at self.now counted.entry }
    {
        match self.counts.get(&counted) {
            Some(count) => *count,
            None => 0,
        }
    }

    /// Counts one more of these.
    fn add(&mut self, counted: UsageCount<'a>) -> Result<(), AllocError>
        ensures { OnOk result (CountsOne self.old self.new counted.entry) }
    {
        let number = sum_of(self.count(counted), 1)?;
        self.counts.insert(counted, number)?;
        Ok(())
    }

    /// Counts a user.
    fn enter(&mut self, user: User<'a>) -> Result<(), AllocError>
        ensures { OnOk result (CountsMore self.old self.new (user_view user.entry ∷ [])) }
    {
        let variable = user.variable();
        let used = Some(key_of(&user.used.used));
        let root = Some(user.root());
        self.add(UsageCount {
            variable,
            used: None,
            root: None,
        })?;
        self.add(UsageCount {
            variable,
            used: None,
            root,
        })?;
        self.add(UsageCount {
            variable,
            used,
            root: None,
        })?;
        self.add(UsageCount {
            variable,
            used,
            root,
        })?;
        Ok(())
    }

    /// Counts what a module uses.
    fn enter_module(&mut self, candidate: &'a UsingModule<'a>) -> Result<(), AllocError>
        ensures { OnOk result (CountsMore self.old self.new (uses_of_module (candidate_in candidate.entry.now))) }
    {
        for used in &candidate.used {
            let owner = candidate.owner;
            self.enter(User { owner, used })?;
        }
        Ok(())
    }

    /// The tally of what the modules use.
    pub(crate) fn of(alloc: Global, users: &'a [UsingModule<'a>]) -> Result<Tally<'a>, AllocError>
        ensures { IfOk result (λ tally. HasCounts tally (uses_of_modules (map candidate_in users.entry.now))) }
    {
        let mut tally = Tally::new(alloc);
        for candidate in users {
            tally.enter_module(candidate)?;
        }
        Ok(tally)
    }

    /// How many use the variable, in the way that is given, if one is, of whose names the first part is one of these.
    fn excluded<'u>(
        &self,
        variable: &'u str,
        used: Option<UseKey<'u>>,
        names: &Names<'u>,
    ) -> Result<usize, AllocError>
        ensures { IfOk result (λ number. (us : List ModuleUse) → HasCounts self.now us → number
            ≡ count_by (is_excluded_user variable.now (option_map key_view used.entry) (has_name names.now)) us) }
    {
        let roots = names.as_slice();
        let mut number = 0_usize;
        for name in roots {
            let root = Some(*name);
            let count = self.count(UsageCount {
                variable,
                used,
                root,
            });
            number = sum_of(number, count)?;
        }
        Ok(number)
    }

    /// How many use the variable, in the way that is given, if one is, of whose names the first part is none of these.
    fn others<'u>(
        &self,
        variable: &'u str,
        used: Option<UseKey<'u>>,
        names: &Names<'u>,
    ) -> Result<usize, AllocError>
        ensures { IfOk result (λ number. (us : List ModuleUse) → HasCounts self.now us → number
            ≡ count_by (is_other_user variable.now (option_map key_view used.entry) (has_name names.now)) us) }
    {
        let root = None;
        let all = self.count(UsageCount {
            variable,
            used,
            root,
        });
        Ok(all.saturating_sub(self.excluded(variable, used, names)?))
    }

    /// How many aren't compatible with this user, whose module is in conflict with these names, and aren't excluded by
    /// it with all versions.
    fn open_competitors<'u>(&self, user: User<'u>, names: &Names<'u>) -> Result<usize, AllocError>
        requires { (name : Text) → has_name names.now name
            ≡ has name (records.conflict_names (user_view user).owner.records) }
        ensures { IfOk result (λ number. (us : List ModuleUse) → HasCounts self.now us
            → number ≡ count_by (is_open_competitor (user_view user.entry)) us) }
    {
        let variable = user.variable();
        let used = &user.used.used;
        let others = self.others(variable, None, names)?;
        if !are_compatible(used, used) {
            return Ok(others);
        }
        let alike = self.others(variable, Some(key_of(used)), names)?;
        Ok(others.saturating_sub(alike))
    }

    /// How many use the variable in another way than to read it.
    fn beside_readers(&self, variable: &str) -> usize
        ensures { (us : List ModuleUse) → HasCounts self.now us → result
            ≡ count_by (is_user variable.now None) us - count_by (is_user variable.now (Some Untouched)) us }
    {
        let all = self.count(UsageCount {
            variable,
            used: None,
            root: None,
        });
        let readers = self.count(UsageCount {
            variable,
            used: Some(UseKey::Read),
            root: None,
        });
        all.saturating_sub(readers)
    }

    /// How many competitors this user has, whose module is in conflict with these names.
    fn competitors_of<'u>(&self, user: User<'u>, names: &Names<'u>) -> Result<usize, AllocError>
        requires { (name : Text) → has_name names.now name
            ≡ has name (records.conflict_names (user_view user).owner.records) }
        ensures { IfOk result (λ number. (us : List ModuleUse) → HasCounts self.now us
            → number ≡ count_by (is_competitor (user_view user.entry)) us) }
    {
        let variable = user.variable();
        if is_read(&user.used.used) {
            return Ok(self.beside_readers(variable));
        }
        self.open_competitors(user, names)
    }

    /// How many competitors a candidate has.
    pub(crate) fn competitors<'u>(
        &self,
        alloc: Global,
        candidate: &'u UsingModule<'u>,
    ) -> Result<usize, AllocError>
        ensures { IfOk result (λ number. (ms : List candidates.Candidate) → HasCounts self.now (uses_of_modules ms)
            → number ≡ competitors ms (candidate_in candidate.entry.now)) }
    {
        let names = conflict_names(alloc, candidate.owner.records.as_slice())?;
        let mut number = 0_usize;
        for used in &candidate.used {
            let owner = candidate.owner;
            let competitors = self.competitors_of(User { owner, used }, &names)?;
            number = sum_of(number, competitors)?;
        }
        Ok(number)
    }
}
