//! What a grant is asked about an action. Nothing here takes memory.
ghost use Rattle.std.specs.Prelude.{◌≡◌, false, IsTrue, ◌↔◌, List, [], ◌∷◌};
ghost use Rattle.std.specs.FinMap as map;
ghost use Rattle.scope_filters.specs.declared.filter.Filter.{Filter};
ghost use Rattle.scope_filters.specs.declared.object.Object.{Object};
ghost use Rattle.scope_filters.specs.Contexts.{Context};
ghost use Rattle.scope_filters.specs.Grants.{grant_admits};
ghost use Rattle.scope_meet.specs.Named.{IsObject, IsFilter, AdmitsSomething};

use scope_filters::filter::Filter;
use scope_filters::grant::{Filters, Grant};
use scope_filters::members::Members;
use scope_filters::object::Object;
use scope_names::action::Action;

/// Whether the grant admits the action on the object. It looks the action up and tries the filters under it; nothing grows with the
/// number of users but what `is_member` takes.
pub fn admits<M: Members>(grant: &Grant, action: Action, object: &Object, members: &M) -> bool
    ensures { result ≡ grant_admits (M.context members.now) grant.now action object.now }
{
    match grant.at(&action) {
        Some(filters) => filters.admits(action, object, members),
        None => false,
    }
}

/// Whether the grant admits the action on some object at all, whoever is in the groups.
pub fn holds_any(grant: &Grant, action: Action) -> bool
    ensures { (m : Context) → IsTrue result ↔ AdmitsSomething m grant.now action }
{
    match grant.at(&action) {
        Some(filters) => has_filter(filters),
        None => false,
    }
}

/// Whether there is a filter. Each filter admits some object, that of its own name.
fn has_filter(filters: &Filters) -> bool
    ensures named { IsTrue result → (f : Filter) (fs : List Filter) → map.keys filters.now ≡ f ∷ fs → IsFilter f }
    ensures some { IsTrue result → map.keys filters.now ≡ [] → ⊥ }
    ensures none { result ≡ false → map.keys filters.now ≡ [] }
{
    match filters.iter().next() {
        Some(filter) => {
            names_are_names(filter);
            true
        }
        None => false,
    }
}

/// The names in a filter are names, as its types have them. Does nothing.
pub fn names_are_names(filter: &Filter)
    ensures { IsFilter filter.now }
{
    match filter {
        Filter::All => {}
        Filter::User(user) => {
            user.as_str();
        }
        Filter::Group(group) => {
            group.as_str();
        }
        Filter::Server(key) => {
            key.user.as_str();
            key.server.as_str();
        }
        Filter::Service(service) => {
            service.as_str();
        }
        Filter::OwnerOf(user) => {
            user.as_str();
        }
    }
}
