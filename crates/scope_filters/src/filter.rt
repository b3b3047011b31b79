//! Filters: which objects a scope is about.
ghost use Rattle.std.specs.Prelude.{◌≡◌};
ghost use Rattle.scope_filters.specs.Admits as spec;
ghost use Rattle.scope_filters.specs.FilterOrder.{filter_exact};

use crate::members::Members;
use crate::object::Object;
use hub_kit::key::Key;
use hub_kit::names::{GroupName, ServerKey, ServiceName, UserName};
use scope_names::action::Action;

/// Which objects a scope of a holder is about. `OwnerOf` is a user without the user's servers, and comes only of two
/// servers of one user: both let the user's name be read, and nothing else.
#[derive(Clone, Copy, PartialEq, Eq, PartialOrd, Ord)]
pub enum Filter {
    All,
    User(UserName),
    Group(GroupName),
    Server(ServerKey),
    Service(ServiceName),
    OwnerOf(UserName),
}

impl Key for Filter {
    ghost exact = { filter_exact };
}

impl Filter {
    /// Whether the filter admits the action on the object. Takes no memory.
    pub fn admits<M: Members>(&self, action: Action, object: &Object, members: &M) -> bool
        ensures { result ≡ spec.admits action (M.context members.now) self.now object.now }
    {
        match self {
            Filter::All => true,
            Filter::User(u) => match object {
                Object::User(w) => *u == *w,
                Object::Server(k) => *u == k.user,
                _ => false,
            },
            Filter::Group(g) => match object {
                Object::Group(h) => *g == *h,
                Object::User(u) => members.is_member(u, g),
                Object::Server(k) => members.is_member(&k.user, g),
                _ => false,
            },
            Filter::Server(k) => match object {
                Object::Server(l) => *k == *l,
                Object::User(u) => reads_names(action) && k.user == *u,
                _ => false,
            },
            Filter::Service(v) => match object {
                Object::Service(w) => *v == *w,
                _ => false,
            },
            Filter::OwnerOf(u) => match object {
                Object::User(w) => *u == *w,
                _ => false,
            },
        }
    }
}

/// Whether the action is the one that a server's filter admits on the server's user.
fn reads_names(action: Action) -> bool
    ensures { result ≡ spec.reads_names action }
{
    matches!(action, Action::ReadUsersName)
}
