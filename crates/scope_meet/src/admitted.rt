//! Which objects of one kind a grant admits an action on: every one, or those of some names.
ghost use Rattle.std.specs.Prelude.{◌≡◌, ◌++◌, false, List, OnOk, IfOk};
ghost use Rattle.std.specs.FinMap as map;
ghost use Rattle.std.specs.List.{flat_map, list_any};
ghost use Rattle.keyed_rows.specs.Sorted.{is_among};
ghost use Rattle.scope_filters.specs.declared.filter.Filter.{Filter};
ghost use Rattle.scope_filters.specs.declared.object.Object.{Object};
ghost use Rattle.scope_filters.specs.declared.object.Object.TheVariants as Ob;
ghost use Rattle.scope_filters.specs.Admits.{admits, any_admits};
ghost use Rattle.scope_filters.specs.Contexts.{Context};
ghost use Rattle.scope_filters.specs.Grants.{grant_admits};
ghost use Rattle.scope_names.specs.declared.action.Action.{Action};
ghost use Rattle.scope_meet.specs.Admitted.{is_admitted};
ghost use Rattle.scope_meet.specs.FilterNames as spec;
ghost use Rattle.scope_meet.specs.NamesAdmitted.{users_are_named, groups_are_named, services_are_named};

use crate::within::reads_names;
use hub_kit::key::Key;
use hub_kit::names::{GroupName, ServiceName, UserName};
use keyed_rows::sorted::Sorted;
use scope_filters::filter::Filter;
use scope_filters::grant::{Filters, Grant};
use scope_filters::members::Members;
use scope_names::action::Action;
use std::alloc::{AllocError, Global};

/// Every object of a kind, or those of some names, kept in the tables or not.
#[derive(Drop)]
pub enum Admitted<K: Key> {
    Every,
    These(Sorted<K>),
}

/// The names of one kind of objects.
pub trait Named: Key + Copy {
    ghost object_of: { Self → Object };

    /// The names that a filter names, by itself or as the members of its group.
    ghost named_by: { Action → Context → Filter → List Self };

    /// Adds the names that a filter names.
    fn push_named<M: Members>(
        names: &mut Vec<Self>,
        action: &Action,
        filter: &Filter,
        members: &M,
    ) -> Result<(), AllocError>
        ensures { OnOk result (names.new.items ≡ names.old.items ++ named_by action.now (M.context members.now) filter.now) };

    /// A name is among them exactly where the filter admits its object, unless it admits every one.
    ghost named: { (a : Action) (m : Context) (f : Filter) (x : Self) → spec.is_all f ≡ false
        → is_among Self.Ord.cmp x (named_by a m f) ≡ admits a m f (object_of x) };
}

impl Named for UserName {
    ghost object_of = { Ob.User };

    ghost named_by = { spec.users_named };

    ghost named = { users_are_named };

    fn push_named<M: Members>(
        names: &mut Vec<UserName>,
        action: &Action,
        filter: &Filter,
        members: &M,
    ) -> Result<(), AllocError> {
        match filter {
            Filter::User(user) | Filter::OwnerOf(user) => names.push(*user)?,
            Filter::Group(group) => names.extend_from_slice(members.members(group))?,
            Filter::Server(key) if reads_names(action) => names.push(key.user)?,
            _ => {}
        }
        Ok(())
    }
}

impl Named for GroupName {
    ghost object_of = { Ob.Group };

    ghost named_by = { spec.groups_named };

    ghost named = { groups_are_named };

    fn push_named<M: Members>(
        names: &mut Vec<GroupName>,
        _action: &Action,
        filter: &Filter,
        _members: &M,
    ) -> Result<(), AllocError> {
        if let Filter::Group(group) = filter {
            names.push(*group)?;
        }
        Ok(())
    }
}

impl Named for ServiceName {
    ghost object_of = { Ob.Service };

    ghost named_by = { spec.services_named };

    ghost named = { services_are_named };

    fn push_named<M: Members>(
        names: &mut Vec<ServiceName>,
        _action: &Action,
        filter: &Filter,
        _members: &M,
    ) -> Result<(), AllocError> {
        if let Filter::Service(service) = filter {
            names.push(*service)?;
        }
        Ok(())
    }
}

/// The objects of one kind on which the grant admits the action. It goes over the filters under the action, and over the members of
/// their groups; nothing grows with the number of objects but what a look at a group takes.
pub fn those_admitted<K: Named, M: Members>(
    alloc: Global,
    grant: &Grant,
    action: Action,
    members: &M,
) -> Result<Admitted<K>, AllocError>
    ensures { IfOk result (λ who. (name : K) → is_admitted K.Ord.cmp who name ≡ grant_admits (M.context members.now) grant.now action
        (K.object_of name)) }
{
    match grant.at(&action) {
        Some(filters) => admitted_by(alloc, filters, action, members),
        None => Ok(Admitted::These(Sorted::new(alloc))),
    }
}

/// The objects of one kind that one of the filters admits.
fn admitted_by<K: Named, M: Members>(
    alloc: Global,
    filters: &Filters,
    action: Action,
    members: &M,
) -> Result<Admitted<K>, AllocError>
    ensures { IfOk result (λ who. (name : K) → is_admitted K.Ord.cmp who name ≡ any_admits action (M.context members.now)
        (map.keys filters.now) (K.object_of name)) }
{
    if has_all(filters) {
        return Ok(Admitted::Every);
    }
    let names = named_by(alloc, filters, &action, members)?;
    Ok(Admitted::These(Sorted::from_vec(names)))
}

/// Whether one of the filters admits every object.
fn has_all(filters: &Filters) -> bool
    ensures { result ≡ list_any spec.is_all (map.keys filters.now) }
{
    filters.iter().any(|filter| matches!(filter, Filter::All))
}

/// The names that the filters name, each as often as it is named.
fn named_by<K: Named, M: Members>(
    alloc: Global,
    filters: &Filters,
    action: &Action,
    members: &M,
) -> Result<Vec<K>, AllocError>
    ensures { IfOk result (λ names. names.items ≡ flat_map (K.named_by action.now (M.context members.now)) (map.keys filters.now)) }
{
    let mut names = Vec::new(alloc);
    for filter in filters.iter() {
        K::push_named(&mut names, action, filter, members)?;
    }
    Ok(names)
}
