//! The users of one variable, by the ways in which they use it.
ghost use Rattle.std.specs.Prelude.{◌≡◌, ◌<◌, [], length, IfOk, IfSome, OnOk};
ghost use Rattle.std.specs.List.{HoldsAt};
ghost use Rattle.std.specs.Option.{option_map};
ghost use Rattle.audit_certificate.specs.UseViews.{use_view};
ghost use Rattle.audit_certificate.specs.Users.{HasOneMore, IsClashAmong};
ghost use Rattle.audit_certificate.specs.UserViews.{user_view};
ghost use Rattle.audit_certificate.specs.Tables.{users_in};

use crate::conflicts::UserInQuestion;
use crate::keys::{UseKey, key_of};
use crate::usage_groups::UsageGroup;
use crate::users::User;
use crate::uses::VariableUse;
use indexmap::IndexMap;
use std::alloc::{AllocError, Global};

/// The users of one variable, by the ways in which they use it.
#[derive(Drop)]
pub(crate) struct VariableUsers<'a> {
    /// The users, by their ways.
    pub(crate) ways: Vec<UsageGroup<'a>>,
    /// Where the group of each use is. Speed alone rests on it: a group that it missed would be begun anew.
    places: IndexMap<UseKey<'a>, usize>,
}

impl<'a> VariableUsers<'a> {
    /// The one user of a variable.
    pub(crate) fn of_one(alloc: Global, user: User<'a>) -> Result<VariableUsers<'a>, AllocError>
        ensures { IfOk result (λ users. HasOneMore [] (users_in users.ways.items) (user_view user.entry)) }
    {
        let mut users = VariableUsers {
            ways: Vec::new(alloc),
            places: IndexMap::new(alloc),
        };
        users.begin_usage(alloc, user)?;
        Ok(users)
    }

    /// The place of the group of this use, if one is known.
    fn place_of(&self, used: &VariableUse) -> Option<usize>
        ensures place { IfSome result (λ place. place < length self.now.ways.items) }
        ensures used { IfSome result (HoldsAt (λ way. use_view used.now ≡ use_view way.used.now) self.now.ways.items) }
    {
        let place = *self.places.get(&key_of(used))?;
        let way = self.ways.get(place)?;
        if key_of(used) == key_of(way.used) {
            Some(place)
        } else {
            None
        }
    }

    /// Adds a user with a new group.
    fn begin_usage(&mut self, alloc: Global, user: User<'a>) -> Result<(), AllocError>
        ensures { OnOk result (HasOneMore (users_in self.old.ways.items) (users_in self.new.ways.items)
            (user_view user.entry)) }
    {
        let place = self.ways.len();
        let way = UsageGroup::of_one(alloc, user)?;
        self.ways.push(way)?;
        self.places.insert(key_of(&user.used.used), place)?;
        Ok(())
    }

    /// Adds a user.
    pub(crate) fn push(&mut self, alloc: Global, user: User<'a>) -> Result<(), AllocError>
        ensures { OnOk result (HasOneMore (users_in self.old.ways.items) (users_in self.new.ways.items)
            (user_view user.entry)) }
    {
        match self.place_of(&user.used.used) {
            Some(place) => self.ways[place].push(alloc, user),
            None => self.begin_usage(alloc, user),
        }
    }

    /// A user that clashes with the seeker.
    pub(crate) fn first_clash(&self, seeker: &UserInQuestion<'_>) -> Option<User<'a>>
        ensures { IsClashAmong (user_view seeker.now.user) (users_in self.now.ways.items)
            (option_map user_view result) }
    {
        for way in &self.ways {
            if let Some(other) = way.first_clash(seeker) {
                return Some(other);
            }
        }
        None
    }
}
