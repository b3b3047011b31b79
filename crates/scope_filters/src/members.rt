//! Members of groups.
ghost use Rattle.std.specs.Prelude.{◌≡◌};
ghost use Rattle.scope_filters.specs.Contexts.{Context, is_member};

use hub_kit::names::{GroupName, UserName};

/// The groups that the hub knows, and who is in them.
pub trait Members {
    ghost context: { Self → Context };

    /// Whether the user is a member of the group. A group that isn't known has no members.
    fn is_member(&self, user: &UserName, group: &GroupName) -> bool
        ensures { result ≡ is_member (context self.now) user.now group.now };

    /// The members of the group.
    fn members(&self, group: &GroupName) -> &[UserName]
        ensures { result.now ≡ context self.now group.now };
}
