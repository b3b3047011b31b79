//! What is shown of groups and services.
ghost use Rattle.std.specs.Prelude.{◌≡◌, ◌++◌, List, IfOk};
ghost use Rattle.scope_filters.specs.Grants.{grant_admits};
ghost use Rattle.hub_view.specs.Json.{Member};
ghost use Rattle.hub_view.specs.Body.{body_tokens};
ghost use Rattle.hub_view.specs.Made.{holds};
ghost use Rattle.hub_view.specs.Fields as spec;

use crate::body::Body;
use crate::fields::Fields;
use crate::members::line;
use crate::parts::{fixed, names};
use crate::word::Word;
use hub_kit::names::{RoleName, ServiceName};
use hub_rows::records::Group;
use scope_filters::grant::Grant;
use scope_filters::members::Members;
use scope_filters::object::Object;
use scope_meet::asks::admits;
use scope_names::action::Action;
use std::alloc::{AllocError, Global};

/// The group as the rights show it: `kind` and `name` under `read:groups:name`, `roles` under `read:roles:groups`, `users` under
/// `read:groups`. The roles are those that name the group, in the order of names.
pub fn group_body<M: Members>(
    alloc: Global,
    m: &M,
    rights: &Grant,
    group: &Group,
    roles: &[RoleName],
) -> Result<Body, AllocError>
    ensures { IfOk result (λ body. body_tokens body ≡ spec.group_body (grant_admits (M.context m.now) rights.now) group.now roles.now) }
{
    let object = Object::Group(group.name);
    let named = admits(rights, Action::ReadGroupsName, &object, m);
    let with_roles = admits(rights, Action::ReadRolesGroups, &object, m);
    let whole = admits(rights, Action::ReadGroups, &object, m);
    let mut fields = Fields::new(alloc, 4);
    fields.add(named, Word::Kind, Ok(fixed(Word::Group)));
    fields.add(named, Word::Name, line(alloc, group.name.as_str()));
    fields.add(with_roles, Word::Roles, names(alloc, roles));
    fields.add(whole, Word::Users, names(alloc, group.users.as_slice()));
    fields.into_body()
}

/// The service as the rights show it: `kind` and `name` under `read:services:name`, `roles` under `read:roles:services`. The roles
/// are those that name the service, in the order of names.
pub fn service_body<M: Members>(
    alloc: Global,
    m: &M,
    rights: &Grant,
    service: &ServiceName,
    roles: &[RoleName],
) -> Result<Body, AllocError>
    ensures { IfOk result (λ body. body_tokens body ≡ spec.service_body (grant_admits (M.context m.now) rights.now) service.now roles.now) }
{
    let mut fields = Fields::new(alloc, 3);
    add_service(alloc, m, rights, &mut fields, false, service, roles);
    fields.into_body()
}

/// Adds the service's fields. Where the service is `named`, kind and name need no right.
pub fn add_service<M: Members>(
    alloc: Global,
    m: &M,
    rights: &Grant,
    fields: &mut Fields,
    named: bool,
    service: &ServiceName,
    roles: &[RoleName],
)
    ensures { (before : List Member) → holds fields.old before
        → holds fields.new (before ++ spec.service_members (grant_admits (M.context m.now) rights.now) named service.now roles.now) }
{
    let object = Object::Service(*service);
    let named = named || admits(rights, Action::ReadServicesName, &object, m);
    let with_roles = admits(rights, Action::ReadRolesServices, &object, m);
    fields.add(named, Word::Kind, Ok(fixed(Word::Service)));
    fields.add(named, Word::Name, line(alloc, service.as_str()));
    fields.add(with_roles, Word::Roles, names(alloc, roles));
}
