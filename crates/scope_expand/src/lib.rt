//! What scopes mean for their holder, as a grant that the code can look up and intersect.
//! `expand` carries it: its grant admits an action on an object exactly where some scope means, for the holder, a plain scope that
//! covers the action and admits it; `join` admits what either grant does. `scope_meet` and the rights of the hub's owners stand on it.
#![tactic(auto)]

ghost use Rattle.std.specs.Prelude.{◌≡◌, Bool, ◌&&◌, ◌||◌, ◌++◌, IsTrue, ◌↔◌, OnOk, OnErr, IfOk};
ghost use Rattle.std.specs.List.{flat_map};
ghost use Rattle.scope_names.specs.declared.action.Action.{Action};
ghost use Rattle.scope_names.specs.Coverage.{is_among};
ghost use Rattle.scope_filters.specs.declared.filter.Filter.{Filter};
ghost use Rattle.scope_filters.specs.declared.object.Object.{Object};
ghost use Rattle.scope_filters.specs.Contexts.{Context};
ghost use Rattle.scope_filters.specs.Grants.{grant_admits};
ghost use Rattle.scope_expand.specs.Meaning.{means, plain_scopes, under, IsMeant};
ghost use Rattle.scope_expand.specs.Meaning as spec;
ghost use Rattle.scope_expand.specs.Passes.{passes, HasNoOwnerOf};
ghost use Rattle.scope_expand.specs.Covering.{GrantsCovered, CoversMore, IsJoin, row_passes};

use hub_kit::names::ServerKey;
use scope_filters::filter::Filter;
use scope_filters::grant::{Filters, Grant};
use scope_filters::holder::{Holder, Owner};
use scope_filters::scope::{RawFilter, RawScope};
use scope_names::action::Action;
use scope_names::table::ScopeTable;
use std::alloc::{AllocError, Global};

/// A scope that names its filter: what a scope as written means for a holder. Contracts alone speak of it.
#[derive(Clone, Copy)]
pub struct PlainScope {
    pub action: Action,
    pub filter: Filter,
}

/// The grant of all that the scopes mean for the holder, in the table's scopes. `!user` and `!service` are the holder's owner
/// where the owner is one, and `!server` the server that the holder's token was issued for; where there is none the scope means
/// nothing. `self` is JupyterHub's list of an owner's own scopes, `inherit` means nothing here. The grant has exactly the filters that the
/// scopes mean, under each action that they cover.
pub fn expand(
    alloc: Global,
    table: &ScopeTable,
    scopes: &[RawScope],
    holder: &Holder,
) -> Result<Grant, AllocError>
    ensures admits { IfOk result (λ grant. (m : Context) (a : Action) (x : Object) → IsTrue (grant_admits m grant a x)
        ↔ IsMeant table.now scopes.now holder.now m a x) }
    ensures rows { IfOk result (GrantsCovered table.now (plain_scopes scopes.now holder.now)) }
    ensures owners { IfOk result HasNoOwnerOf }
{
    grant_of(alloc, table, scopes, holder)
}

/// Adds to a grant all that another grants. Without memory the grant is as it was.
pub fn join(into: &mut Grant, other: &Grant) -> Result<(), AllocError>
    ensures admits { OnOk result ((m : Context) (a : Action) (x : Object)
        → grant_admits m into.new a x ≡ (grant_admits m into.old a x || grant_admits m other.now a x)) }
    ensures owners { OnOk result (HasNoOwnerOf into.old → HasNoOwnerOf other.now → HasNoOwnerOf into.new) }
    ensures kept { OnErr result (into.new ≡ into.old) }
{
    let grant = joined(into, other)?;
    *into = grant;
    Ok(())
}

/// The grant of all that the scopes mean for the holder.
fn grant_of(
    alloc: Global,
    table: &ScopeTable,
    scopes: &[RawScope],
    holder: &Holder,
) -> Result<Grant, AllocError>
    ensures { IfOk result (λ grant. GrantsCovered table.now (plain_scopes scopes.now holder.now) grant) }
{
    let mut grant = Grant::new(alloc);
    for scope in scopes {
        add_meaning(&mut grant, table, scope, holder)?;
    }
    Ok(grant)
}

/// Adds what a scope means for the holder.
fn add_meaning(
    grant: &mut Grant,
    table: &ScopeTable,
    scope: &RawScope,
    holder: &Holder,
) -> Result<(), AllocError>
    ensures { OnOk result (CoversMore table.now grant.old (means scope.now holder.now) grant.new) }
{
    match scope {
        RawScope::Plain { action, filter } => {
            add_under(grant, table, action, &filter_meant(filter, holder))
        }
        RawScope::SelfScope => add_profile(grant, table, &owning_user(&holder.owner)),
        RawScope::Inherit => Ok(()),
    }
}

/// Adds the scopes of an owner's own things, filtered, or nothing without a filter.
fn add_profile(
    grant: &mut Grant,
    table: &ScopeTable,
    filter: &Option<Filter>,
) -> Result<(), AllocError>
    ensures { OnOk result (CoversMore table.now grant.old (flat_map (λ a. under a filter.now) spec.profile) grant.new) }
{
    add_each_under(
        grant,
        table,
        &[
            Action::ReadUsers,
            Action::UsersActivity,
            Action::Servers,
            Action::Tokens,
            Action::AccessServers,
            Action::ReadShares,
            Action::UsersShares,
        ],
        filter,
    )
}

fn add_each_under(
    grant: &mut Grant,
    table: &ScopeTable,
    actions: &[Action],
    filter: &Option<Filter>,
) -> Result<(), AllocError>
    ensures { OnOk result (CoversMore table.now grant.old (flat_map (λ a. under a filter.now) actions.now) grant.new) }
{
    for action in actions {
        add_under(grant, table, action, filter)?;
    }
    Ok(())
}

/// Adds a scope of the action, filtered, or nothing without a filter.
fn add_under(
    grant: &mut Grant,
    table: &ScopeTable,
    action: &Action,
    filter: &Option<Filter>,
) -> Result<(), AllocError>
    ensures { OnOk result (CoversMore table.now grant.old (under action.now filter.now) grant.new) }
{
    match filter {
        Some(filter) => add_each(grant, table.covered(*action), filter),
        None => Ok(()),
    }
}

/// The filter that a filter as written means for the holder.
fn filter_meant(filter: &RawFilter, holder: &Holder) -> Option<Filter>
    ensures { result ≡ spec.filter_meant filter.now holder.now }
{
    match filter {
        RawFilter::Unfiltered => Some(Filter::All),
        RawFilter::User(user) => Some(Filter::User(*user)),
        RawFilter::Group(group) => Some(Filter::Group(*group)),
        RawFilter::Server(server) => Some(Filter::Server(*server)),
        RawFilter::Service(service) => Some(Filter::Service(*service)),
        RawFilter::HolderUser => owning_user(&holder.owner),
        RawFilter::HolderServer => server_of_issue(&holder.issued_for),
        RawFilter::HolderService => owning_service(&holder.owner),
    }
}

fn owning_user(owner: &Owner) -> Option<Filter>
    ensures { result ≡ spec.owning_user owner.now }
{
    match owner {
        Owner::User(user) => Some(Filter::User(*user)),
        Owner::Service(_) => None,
    }
}

fn owning_service(owner: &Owner) -> Option<Filter>
    ensures { result ≡ spec.owning_service owner.now }
{
    match owner {
        Owner::User(_) => None,
        Owner::Service(service) => Some(Filter::Service(*service)),
    }
}

fn server_of_issue(issued_for: &Option<ServerKey>) -> Option<Filter>
    ensures { result ≡ spec.server_of_issue issued_for.now }
{
    match issued_for {
        Some(server) => Some(Filter::Server(*server)),
        None => None,
    }
}

/// Adds a filter under each of the actions.
fn add_each(grant: &mut Grant, actions: &[Action], filter: &Filter) -> Result<(), AllocError>
    ensures { OnOk result ((p : Filter → Bool) (a : Action)
        → passes p grant.new a ≡ (passes p grant.old a || (is_among a actions.now && p filter.now))) }
{
    for action in actions {
        grant.add(*action, *filter)?;
    }
    Ok(())
}

/// The grant of all that either of two grants.
fn joined(one: &Grant, other: &Grant) -> Result<Grant, AllocError>
    ensures { IfOk result (IsJoin one.now other.now) }
{
    let mut grant = one.fresh();
    add_all(&mut grant, one)?;
    add_all(&mut grant, other)?;
    Ok(grant)
}

fn add_all(into: &mut Grant, other: &Grant) -> Result<(), AllocError>
    ensures { OnOk result (IsJoin into.old other.now into.new) }
{
    for (action, filters) in other.iter() {
        add_filters(into, action, filters)?;
    }
    Ok(())
}

/// Adds filters under an action.
fn add_filters(into: &mut Grant, action: &Action, filters: &Filters) -> Result<(), AllocError>
    ensures { OnOk result ((p : Filter → Bool) (a : Action)
        → passes p into.new a ≡ (passes p into.old a || row_passes p a (action.now, filters.now))) }
{
    for filter in filters.iter() {
        into.add(*action, *filter)?;
    }
    Ok(())
}
