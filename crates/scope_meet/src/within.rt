//! One filter against another.
ghost use Rattle.std.specs.Prelude.{◌≡◌};
ghost use Rattle.scope_filters.specs.Admits as admits;
ghost use Rattle.scope_meet.specs.Meets as spec;

use scope_filters::filter::Filter;
use scope_filters::members::Members;
use scope_names::action::Action;

/// Whether the second filter admits all that the first does. Takes no memory.
pub fn is_within<M: Members>(action: &Action, f: &Filter, g: &Filter, members: &M) -> bool
    ensures { result ≡ spec.within action.now (M.context members.now) f.now g.now }
{
    match g {
        Filter::All => true,
        Filter::User(u) => match f {
            Filter::User(w) => *w == *u,
            Filter::Server(k) => k.user == *u,
            Filter::OwnerOf(w) => *w == *u,
            _ => false,
        },
        Filter::Group(g) => match f {
            Filter::User(u) => members.is_member(u, g),
            Filter::Group(h) => *h == *g,
            Filter::Server(k) => members.is_member(&k.user, g),
            Filter::OwnerOf(w) => members.is_member(w, g),
            _ => false,
        },
        Filter::Server(l) => match f {
            Filter::Server(k) => *k == *l,
            Filter::OwnerOf(w) => reads_names(action) && *w == l.user,
            _ => false,
        },
        Filter::Service(w) => match f {
            Filter::Service(v) => *v == *w,
            _ => false,
        },
        Filter::OwnerOf(w) => match f {
            Filter::OwnerOf(u) => *u == *w,
            _ => false,
        },
    }
}

/// Whether the action is the one that a server's filter admits on the server's user.
pub fn reads_names(action: &Action) -> bool
    ensures { result ≡ admits.reads_names action.now }
{
    matches!(action, Action::ReadUsersName)
}
