//! Users of one variable that use it in one way, by groups of versions.
ghost use Rattle.std.specs.Prelude.{◌≡◌, ◌<◌, [], length, Some, IfOk, IfSome, OnOk};
ghost use Rattle.std.specs.List.{HoldsAt};
ghost use Rattle.std.specs.Option.{option_map};
ghost use Rattle.audit_certificate.specs.RecordUses.{IsAmong};
ghost use Rattle.audit_certificate.specs.UseViews.{use_view};
ghost use Rattle.audit_certificate.specs.Users.{ModuleUse, HasOneMore, IsClashAmong};
ghost use Rattle.audit_certificate.specs.UserViews.{user_view};
ghost use Rattle.audit_certificate.specs.VersionGroups.{all_members};

use crate::conflicts::UserInQuestion;
use crate::users::User;
use crate::uses::{VariableUse, are_compatible};
use crate::version_groups::VersionGroup;
use indexmap::IndexMap;
use std::alloc::{AllocError, Global};

/// Users of one variable that use it in one way.
#[derive(Drop)]
pub(crate) struct UsageGroup<'a> {
    /// How they use it.
    pub(crate) used: &'a VariableUse,
    /// The users, by groups of versions.
    pub(crate) families: Vec<VersionGroup<'a>>,
    /// Where the group of versions of each first part is. Speed alone rests on it: a group that it missed would be
    /// begun anew.
    pub(crate) places: IndexMap<&'a str, usize>,
    ghost alike: { (y : ModuleUse) → IsAmong y (all_members families.items) → y.used.1 ≡ use_view used.now },
}

impl<'a> UsageGroup<'a> {
    /// The way of one user.
    pub(crate) fn of_one(alloc: Global, user: User<'a>) -> Result<UsageGroup<'a>, AllocError>
        ensures { IfOk result (λ way. HasOneMore [] (all_members way.families.items) (user_view user.entry)) }
    {
        let mut way = UsageGroup {
            used: &user.used.used,
            families: Vec::new(alloc),
            places: IndexMap::new(alloc),
        };
        way.begin_versions(alloc, user)?;
        Ok(way)
    }

    /// The place of a family of this first part, if one is known.
    fn place_of(&self, root: &str) -> Option<usize>
        ensures place { IfSome result (λ place. place < length self.now.families.items) }
        ensures root { IfSome result (HoldsAt (λ family. root.now ≡ family.root.now) self.now.families.items) }
    {
        let place = *self.places.get(root)?;
        let family = self.families.get(place)?;
        if root == family.root {
            Some(place)
        } else {
            None
        }
    }

    /// Adds a user to a new family.
    fn begin_versions(&mut self, alloc: Global, user: User<'a>) -> Result<(), AllocError>
        requires { (user_view user).used.1 ≡ use_view self.old.used.now }
        ensures { OnOk result (HasOneMore (all_members self.old.families.items)
            (all_members self.new.families.items) (user_view user.entry)) }
    {
        let place = self.families.len();
        let family = VersionGroup::of_one(alloc, user)?;
        self.families.push(family)?;
        self.places.insert(user.root(), place)?;
        Ok(())
    }

    /// Adds a user to its family.
    pub(crate) fn push(&mut self, alloc: Global, user: User<'a>) -> Result<(), AllocError>
        requires { (user_view user).used.1 ≡ use_view self.old.used.now }
        ensures { OnOk result (HasOneMore (all_members self.old.families.items)
            (all_members self.new.families.items) (user_view user.entry)) }
    {
        match self.place_of(user.root()) {
            Some(place) => self.families[place].push(user),
            None => self.begin_versions(alloc, user),
        }
    }

    /// The first user of its own family that clashes with the seeker.
    fn clash_in_own_versions(&self, seeker: &UserInQuestion<'_>) -> Option<User<'a>>
        ensures { IfSome result (λ other. IsClashAmong (user_view seeker.now.user)
            (all_members self.now.families.items) (Some (user_view other))) }
    {
        let place = self.place_of(seeker.user.root())?;
        self.families[place].first_clash(seeker, self.used)
    }

    /// The first user of any family that clashes with the seeker.
    fn clash_in_version_groups(&self, seeker: &UserInQuestion<'_>) -> Option<User<'a>>
        ensures { IsClashAmong (user_view seeker.now.user) (all_members self.now.families.items)
            (option_map user_view result) }
    {
        for family in &self.families {
            if let Some(other) = family.first_clash(seeker, self.used) {
                return Some(other);
            }
        }
        None
    }

    /// A user that clashes with the seeker. None does where the uses are compatible. The seeker's own versions are
    /// looked at first: those that don't exclude one another clash there at once.
    pub(crate) fn first_clash(&self, seeker: &UserInQuestion<'_>) -> Option<User<'a>>
        ensures { IsClashAmong (user_view seeker.now.user) (all_members self.now.families.items)
            (option_map user_view result) }
    {
        if are_compatible(&seeker.user.used.used, self.used) {
            return None;
        }
        let own = self.clash_in_own_versions(seeker);
        if own.is_some() {
            return own;
        }
        self.clash_in_version_groups(seeker)
    }
}
