//! Who the caller is: the caller's user or service, with kind and name in any case.
ghost use Rattle.std.specs.Prelude.{◌≡◌, ◌++◌, List, IfOk};
ghost use Rattle.scope_filters.specs.Grants.{grant_admits};
ghost use Rattle.hub_view.specs.Json.{Member};
ghost use Rattle.hub_view.specs.Body.{body_tokens};
ghost use Rattle.hub_view.specs.Made.{holds};
ghost use Rattle.hub_view.specs.Fields as spec;

use crate::body::Body;
use crate::facts::UserFacts;
use crate::fields::Fields;
use crate::groups::add_service;
use crate::parts::scopes;
use crate::users::{add_servers, add_user};
use crate::word::Word;
use hub_kit::names::{RoleName, ServerKey, ServiceName};
use scope_filters::grant::Grant;
use scope_filters::members::Members;
use scope_filters::object::Object;
use scope_filters::scope::RawScope;
use scope_meet::asks::admits;
use scope_names::action::Action;
use std::alloc::{AllocError, Global};

/// The identity of a user: `kind` and `name`, the other fields as `user_body` shows them, `scopes` as the token keeps them, and
/// where a server is asked for `access`, whether `access:servers` is admitted on it.
pub fn user_identity<M: Members>(
    alloc: Global,
    m: &M,
    rights: &Grant,
    facts: &UserFacts,
    token_scopes: &[RawScope],
    server: &Option<ServerKey>,
) -> Result<Body, AllocError>
    ensures { IfOk result (λ body. body_tokens body ≡ spec.user_identity (grant_admits (M.context m.now) rights.now) facts.now
        token_scopes.now server.now) }
{
    let mut fields = access(alloc, m, rights, server);
    add_user(alloc, m, rights, &mut fields, true, facts);
    fields.add(true, Word::Scopes, scopes(alloc, token_scopes));
    add_servers(alloc, m, rights, &mut fields, facts);
    fields.into_body()
}

/// The identity of a service: `kind` and `name`, `roles` as `service_body` shows them, and `scopes` and `access` as for a user.
pub fn service_identity<M: Members>(
    alloc: Global,
    m: &M,
    rights: &Grant,
    service: &ServiceName,
    roles: &[RoleName],
    token_scopes: &[RawScope],
    server: &Option<ServerKey>,
) -> Result<Body, AllocError>
    ensures { IfOk result (λ body. body_tokens body ≡ spec.service_identity (grant_admits (M.context m.now) rights.now) service.now
        roles.now token_scopes.now server.now) }
{
    let mut fields = access(alloc, m, rights, server);
    add_service(alloc, m, rights, &mut fields, true, service, roles);
    fields.add(true, Word::Scopes, scopes(alloc, token_scopes));
    fields.into_body()
}

/// The member `access`, where a server is asked for.
fn access<M: Members>(alloc: Global, m: &M, rights: &Grant, server: &Option<ServerKey>) -> Fields
    ensures { holds result (spec.access_member (grant_admits (M.context m.now) rights.now) server.now) }
{
    let mut fields = Fields::new(alloc, 10);
    if let Some(key) = server {
        let enters = admits(rights, Action::AccessServers, &Object::Server(*key), m);
        fields.add(true, Word::Access, Ok(Body::Truth(enters)));
    }
    fields
}
