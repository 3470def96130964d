//! Users of variables, and whether two of them clash.
ghost use Rattle.std.specs.Prelude.{◌≡◌, find, map};
ghost use Rattle.std.specs.Option.{option_map};
ghost use Rattle.audit_certificate.specs.Users.{first_part, do_users_clash};
ghost use Rattle.audit_certificate.specs.UserViews.{user_view};

use crate::candidate::Candidate;
use crate::names::first_part;
use crate::pairs::{are_mutually_exclusive, is_other};
use crate::uses::{UsedVariable, uses_clash};

/// A candidate, and one of its uses of a variable.
#[derive(Clone, Copy)]
pub(crate) struct User<'a> {
    /// The candidate.
    pub(crate) owner: &'a Candidate,
    /// One of its uses.
    pub(crate) used: &'a UsedVariable,
}

impl<'a> User<'a> {
    /// The first part of the module's name.
    pub(crate) fn root(self) -> &'a str
        ensures { result.now ≡ first_part (user_view self.entry).owner.name }
    {
        first_part(self.owner.name.as_str())
    }

    /// The name of the variable.
    pub(crate) fn variable(self) -> &'a str
        ensures { result.now ≡ (user_view self.entry).used.0 }
    {
        self.used.variable.as_str()
    }
}

/// A user of a variable, and another with which it clashes.
#[derive(Clone, Copy)]
pub(crate) struct ClashingUsers<'a> {
    /// The user.
    pub(crate) own: User<'a>,
    /// The other, of another module.
    pub(crate) other: User<'a>,
}

/// Whether two users of one variable are of two modules and clash.
fn do_clash(one: User<'_>, other: User<'_>) -> bool
    ensures { result ≡ do_users_clash (user_view one.entry) (user_view other.entry) }
{
    is_other(one.owner, other.owner)
        && uses_clash(
            are_mutually_exclusive(one.owner, other.owner, &one.used.used, &other.used.used),
            &one.used.used,
            &other.used.used,
        )
}

/// The first of the users of a variable that is of another module and clashes with this one.
pub(crate) fn first_clash_among<'a>(user: User<'_>, others: &[User<'a>]) -> Option<User<'a>>
    ensures { option_map user_view result
        ≡ find (do_users_clash (user_view user.entry)) (map user_view others.entry.now) }
{
    for other in others {
        if do_clash(user, *other) {
            return Some(*other);
        }
    }
    None
}
