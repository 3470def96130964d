//! The table of variables: who uses each and how, so that a clash is found without comparing all pairs of modules. It
//! compares those that exclude one another by the conflicts of the ones in the table.
ghost use Rattle.std.specs.Prelude.{◌≡◌, [], map, IfOk, OnOk};
ghost use Rattle.std.specs.Option.{option_map};
ghost use Rattle.envvars.specs.Texts.{Text, has};
ghost use Rattle.modulefile.specs.Records.{conflict_names};
ghost use Rattle.audit_certificate.specs.Users.{Enters, EntersAll, AreUsersOf, IsClashAmong, IsFoundOf, uses_of_module};
ghost use Rattle.audit_certificate.specs.Takes.{TakesNext};
ghost use Rattle.audit_certificate.specs.Users.{uses_of_modules};
ghost use Rattle.audit_certificate.specs.UserViews.{user_view, users_view};
ghost use Rattle.audit_certificate.specs.Conflicts.{has_name};
ghost use Rattle.audit_certificate.specs.Tables.{users_at};
ghost use Rattle.audit_certificate.specs.UsingModules.{candidate_in};
ghost use Rattle.audit_certificate.specs.RankedModule.{ranked_module, taken};

use crate::conflicts::{Names, UserInQuestion, conflict_names};
use crate::module_uses::UsingModule;
use crate::ranks::RankedModule;
use crate::users::{ClashingUsers, User};
use crate::variables::VariableUsers;
use indexmap::IndexMap;
use std::alloc::{AllocError, Global};

/// The users of each variable.
#[derive(Drop)]
pub(crate) struct VariableTable<'a> {
    /// The users, by the variable's name.
    variables: IndexMap<&'a str, VariableUsers<'a>>,
}

impl<'a> VariableTable<'a> {
    /// The table of no variable.
    pub(crate) fn new(alloc: Global) -> VariableTable<'a>
        ensures { (variable : Text) → users_at result variable ≡ [] }
    {
        VariableTable {
            variables: IndexMap::new(alloc),
        }
    }

    /// Enters the first user of a variable.
    fn begin_variable(&mut self, alloc: Global, user: User<'a>) -> Result<(), AllocError>
        requires { users_at self.old (user_view user).used.0 ≡ [] }
        ensures { OnOk result (Enters (users_at self.old) (users_at self.new) (user_view user.entry)) }
    {
        let users = VariableUsers::of_one(alloc, user)?;
        self.variables.insert(user.variable(), users)?;
        Ok(())
    }

    /// Enters a user.
    pub(crate) fn enter(&mut self, alloc: Global, user: User<'a>) -> Result<(), AllocError>
        ensures { OnOk result (Enters (users_at self.old) (users_at self.new) (user_view user.entry)) }
    {
        match self.variables.get_mut(user.variable()) {
            Some(users) => users.push(alloc, user),
            None => self.begin_variable(alloc, user),
        }
    }

    /// Enters what a module uses.
    fn enter_module(
        &mut self,
        alloc: Global,
        candidate: &'a UsingModule<'a>,
    ) -> Result<(), AllocError>
        ensures { OnOk result (EntersAll (users_at self.old) (users_at self.new)
            (uses_of_module (candidate_in candidate.entry.now))) }
    {
        for used in &candidate.used {
            let owner = candidate.owner;
            self.enter(alloc, User { owner, used })?;
        }
        Ok(())
    }

    /// A user of the seeker's variable that clashes with it.
    fn first_clash(&self, seeker: &UserInQuestion<'_>) -> Option<User<'a>>
        ensures { IsClashAmong (user_view seeker.now.user)
            (users_at self.now (user_view seeker.now.user).used.0) (option_map user_view result) }
    {
        self.variables
            .get(seeker.user.variable())?
            .first_clash(seeker)
    }

    /// The first use of a module by which it clashes with another, and that one.
    pub(crate) fn clash_of(
        &self,
        candidate: &'a UsingModule<'a>,
        conflicts: &Names<'a>,
    ) -> Option<ClashingUsers<'a>>
        requires { (name : Text) → has_name conflicts.now name
            ≡ has name (conflict_names (candidate_in candidate.now).records) }
        ensures { IsFoundOf (users_at self.now) (uses_of_module (candidate_in candidate.entry.now))
            (option_map users_view result) }
    {
        for used in &candidate.used {
            let own = User {
                owner: candidate.owner,
                used,
            };
            let seeker = UserInQuestion {
                user: own,
                conflicts: &*conflicts,
            };
            if let Some(other) = self.first_clash(&seeker) {
                return Some(ClashingUsers { own, other });
            }
        }
        None
    }

    /// Enters what a module uses, unless it clashes with one of those in the table.
    fn enter_next(
        &mut self,
        alloc: Global,
        candidate: &'a UsingModule<'a>,
    ) -> Result<(), AllocError>
        ensures { OnOk result (TakesNext (users_at self.old) (users_at self.new) (candidate_in candidate.entry.now)) }
    {
        let conflicts = conflict_names(alloc, candidate.owner.records.as_slice())?;
        match self.clash_of(candidate, &conflicts) {
            Some(_) => Ok(()),
            None => self.enter_module(alloc, candidate),
        }
    }

    /// The table of what those use that are taken, in the order of the modules: each that clashes with none before it.
    pub(crate) fn of_taken(
        alloc: Global,
        ranks: &[RankedModule<'a>],
    ) -> Result<VariableTable<'a>, AllocError>
        ensures { IfOk result (λ table. AreUsersOf (users_at table)
            (uses_of_modules (taken (map ranked_module ranks.now)))) }
    {
        let mut table = VariableTable::new(alloc);
        for ranked in ranks {
            table.enter_next(alloc, ranked.candidate)?;
        }
        Ok(table)
    }
}
