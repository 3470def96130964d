//! Users of one variable whose names have one first part: a `conflict` with this part excludes all of them at once.
ghost use Rattle.std.specs.Prelude.{◌≡◌, ◌++◌, ◌&&◌, [], ◌∷◌, map, not, if◌then◌else◌, is_ok, IfOk};
ghost use Rattle.std.specs.Option.{option_map};
ghost use Rattle.envvars.specs.Texts.{has};
ghost use Rattle.modulefile.specs.Records.{conflict_names};
ghost use Rattle.audit_certificate.specs.RecordUses.{IsAmong, is_read as is_read_use};
ghost use Rattle.audit_certificate.specs.UseViews.{use_view};
ghost use Rattle.audit_certificate.specs.Users.{ModuleUse, first_part, IsClashAmong};
ghost use Rattle.audit_certificate.specs.UserViews.{user_view};

use crate::conflicts::UserInQuestion;
use crate::users::{User, first_clash_among};
use crate::uses::{VariableUse, is_read, uses_clash};
use std::alloc::{AllocError, Global};

/// Users of one variable whose names have one first part.
#[derive(Drop)]
pub(crate) struct VersionGroup<'a> {
    /// The first part of their names.
    pub(crate) root: &'a str,
    /// The users.
    pub(crate) users: Vec<User<'a>>,
    ghost rooted: { (y : ModuleUse) → IsAmong y (map user_view users.items) → first_part y.owner.name ≡ root.now },
}

impl<'a> VersionGroup<'a> {
    /// The family of one user.
    pub(crate) fn of_one(alloc: Global, user: User<'a>) -> Result<VersionGroup<'a>, AllocError>
        ensures { IfOk result (λ family. map user_view family.users.items ≡ user_view user.entry ∷ []) }
    {
        let mut users = Vec::new(alloc);
        users.push(user)?;
        Ok(VersionGroup {
            root: user.root(),
            users,
        })
    }

    /// Adds a user whose name has the same first part.
    pub(crate) fn push(&mut self, user: User<'a>) -> Result<(), AllocError>
        requires { first_part (user_view user).owner.name ≡ self.old.root.now }
        ensures { map user_view self.new.users.items ≡ (if is_ok result
            then map user_view self.old.users.items ++ user_view user.entry ∷ []
            else map user_view self.old.users.items) }
    {
        self.users.push(user)?;
        Ok(())
    }

    /// Whether the seeker's conflicts keep it apart from the whole group of versions. None of them counts where it
    /// reads the variable.
    fn is_mutually_exclusive(&self, seeker: &UserInQuestion<'_>) -> bool
        ensures { result ≡ (not (is_read_use (user_view seeker.now.user).used.1)
            && has self.now.root.now (conflict_names (user_view seeker.now.user).owner.records)) }
    {
        !is_read(&seeker.user.used.used) && seeker.excludes_versions_of(self.root)
    }

    /// The first user that clashes with the seeker, where all use the variable in this way. None is looked at where a
    /// start can agree with both uses, and the seeker is mutually exclusive with the whole group of versions.
    pub(crate) fn first_clash(
        &self,
        seeker: &UserInQuestion<'_>,
        way: &VariableUse,
    ) -> Option<User<'a>>
        requires { (y : ModuleUse) → IsAmong y (map user_view self.now.users.items) → y.used.1 ≡ use_view way.now }
        ensures { IsClashAmong (user_view seeker.now.user) (map user_view self.now.users.items)
            (option_map user_view result) }
    {
        if self.is_mutually_exclusive(seeker) && !uses_clash(true, &seeker.user.used.used, way) {
            return None;
        }
        first_clash_among(seeker.user, self.users.as_slice())
    }
}
