//! What a call needs of its token, whether that is held and allowed, and whether what it speaks of is there.
ghost use Rattle.std.specs.Prelude.{◌≡◌, ◌∷◌, Option, Some, None, true, false, IfOk};
ghost use Rattle.std.specs.FinMap as map;
ghost use Rattle.hub_core.specs.Answer as spec;
ghost use Rattle.hub_core.specs.Judged.{HasHeld};
ghost use Rattle.scope_meet.specs.declared.inside.Inside.TheVariants.{Yes};
ghost use Rattle.scope_names.specs.declared.action.Action.{Action};
ghost use Rattle.hub_core.specs.Needs as need;
ghost use Rattle.hub_machine.specs.Replies.{first_refusal};
ghost use Rattle.hub_calls.specs.Rights.{may_of};
ghost use Rattle.hub_tables.specs.Lookups.{has_server, same_owner};
ghost use Rattle.scope_filters.specs.declared.holder.Owner.TheVariants as Own;

use crate::need::Need;
use access_calls::grant_calls::client_refusal;
use admin_rules::roles::is_fixed_role;
use hub_kit::names::{GroupName, RoleName, ServerKey, ServiceName, UserName};
use hub_kit::text::Text;
use hub_machine::call::Call;
use hub_machine::machine::Machine;
use hub_machine::refusal::Refusal;
use oauth_flow::clients::{ClientOwner, whose as client_owner};
use scope_filters::grant::Grant;
use scope_filters::holder::Owner;
use scope_filters::object::Object;
use scope_meet::asks::{admits, holds_any};
use scope_names::action::Action;
use shares::lists::{CodesOf, SharesOf, is_code_of};
use std::alloc::{AllocError, Global};

/// What a call needs of its token.
pub(crate) fn needs(call: &Call) -> Need
    ensures { result ≡ need.needs call.now }
{
    match call {
        Call::GetVersion | Call::GetIdentity { .. } | Call::PostTrade { .. } => Need::GoodToken,
        Call::GetAuthorize { ask } => needs_client(&whose_client(&ask.client_id)),
        Call::GetInfo => Need::On(Action::ReadHub, Object::Hub),
        Call::GetUsers { .. } => Need::Held(Action::ListUsers),
        Call::PostUsers { .. } | Call::PatchUser { .. } => Need::On(
            Action::AdminUsers,
            Object::Hub,
        ),
        Call::GetUser { user } => Need::On(Action::ReadUsersName, Object::User(*user)),
        Call::PostUser { user } => Need::On(Action::AdminUsers, Object::User(*user)),
        Call::DeleteUser { user } => Need::On(Action::DeleteUsers, Object::User(*user)),
        Call::PostActivity { user, .. } => Need::On(Action::UsersActivity, Object::User(*user)),
        Call::PostServer { server } => Need::On(Action::Servers, Object::Server(*server)),
        Call::DeleteServer { server, .. } => Need::On(
            Action::DeleteServers,
            Object::Server(*server),
        ),
        Call::GetTokens { user } | Call::GetToken { user, .. } => Need::On(
            Action::ReadTokens,
            Object::User(*user),
        ),
        Call::PostToken { ask } => Need::On(Action::Tokens, Object::User(ask.owner)),
        Call::DeleteToken { user, .. } => Need::On(Action::Tokens, Object::User(*user)),
        Call::GetShares { whose, .. } => needs_shares(whose),
        Call::AcceptCode { user, .. } => Need::On(Action::UsersShares, Object::User(*user)),
        Call::GetCodes { whose, .. } => needs_codes(whose),
        Call::PostShare { server, .. }
        | Call::PatchShare { server, .. }
        | Call::DeleteShares { server }
        | Call::PostCode { server, .. }
        | Call::DeleteCodes { server, .. } => Need::On(Action::Shares, Object::Server(*server)),
        Call::GetGroups { .. } => Need::Held(Action::ListGroups),
        Call::GetGroup { group } => Need::On(Action::ReadGroupsName, Object::Group(*group)),
        Call::PostGroup { group, .. } => Need::On(Action::AdminGroups, Object::Group(*group)),
        Call::DeleteGroup { group } => Need::On(Action::DeleteGroups, Object::Group(*group)),
        Call::JoinGroup { group, .. } | Call::LeaveGroup { group, .. } => Need::On(
            Action::Groups,
            Object::Group(*group),
        ),
        Call::GetServices { .. } => Need::Held(Action::ListServices),
        Call::GetService { service } => Need::On(
            Action::ReadServicesName,
            Object::Service(*service),
        ),
        Call::PostService { service } | Call::DeleteService { service } => {
            Need::On(Action::AdminServices, Object::Service(*service))
        }
        Call::GetRoles { .. }
        | Call::GetRole { .. }
        | Call::PutRole { .. }
        | Call::DeleteRole { .. } => { Need::On(Action::AdminRoles, Object::Hub) }
        Call::GetProxy | Call::PostProxy => Need::On(Action::Proxy, Object::Hub),
    }
}

fn needs_shares(whose: &SharesOf) -> Need
    ensures { result ≡ need.needs_shares whose.now }
{
    match whose {
        SharesOf::Recipient(user) => Need::On(Action::ReadUsersShares, Object::User(*user)),
        SharesOf::Owner(user) => Need::On(Action::ReadShares, Object::User(*user)),
        SharesOf::Server(server) => Need::On(Action::ReadShares, Object::Server(*server)),
    }
}

fn needs_codes(whose: &CodesOf) -> Need
    ensures { result ≡ need.needs_codes whose.now }
{
    match whose {
        CodesOf::Owner(user) => Need::On(Action::ReadShares, Object::User(*user)),
        CodesOf::Server(server) => Need::On(Action::ReadShares, Object::Server(*server)),
    }
}

/// Access to the server or the service whose client asks.
fn needs_client(owner: &Option<ClientOwner>) -> Need
    ensures { result ≡ need.needs_client owner.now }
{
    match owner {
        Some(ClientOwner::Server(server)) => Need::On(
            Action::AccessServers,
            Object::Server(*server),
        ),
        Some(ClientOwner::Service(service)) => Need::On(
            Action::AccessServices,
            Object::Service(*service),
        ),
        None => Need::On(Action::AccessServers, Object::Hub),
    }
}

/// Whose the client of an id is.
fn whose_client(id: &Option<Text>) -> Option<ClientOwner>
    ensures { result ≡ need.whose_client id.now }
{
    match id {
        None => None,
        Some(id) => client_owner(id),
    }
}

/// Whether the call needs a token.
pub(crate) fn needs_token(call: &Call) -> bool
    ensures { result ≡ need.needs_token call.now }
{
    match call {
        Call::GetVersion | Call::PostTrade { .. } => false,
        _ => true,
    }
}

/// Whether the grant has an action that is needed, on some object at all.
pub(crate) fn is_held(rights: &Grant, need: Need) -> bool
    ensures { HasHeld rights.now result need }
{
    match need {
        Need::GoodToken => true,
        Need::Held(action) => holds_any(rights, action),
        Need::On(action, _) => holds_any(rights, action),
    }
}

fn has_user(hub: &Machine, user: &UserName) -> bool
    ensures { result ≡ map.contains_key hub.now.tables.users user.now }
{
    hub.tables().user(user).is_some()
}

fn has_server(hub: &Machine, server: &ServerKey) -> bool
    ensures { result ≡ has_server hub.now.tables server.now }
{
    has_user(hub, &server.user)
        && (server.server.as_bytes().is_empty() || hub.tables().server(server).is_some())
}

/// Whether a token is kept under the id, and it is the user's.
fn has_token(hub: &Machine, user: &UserName, id: u64) -> bool
    ensures { result ≡ need.has_token hub.now.tables user.now id }
{
    match hub.tables().token(id) {
        None => false,
        Some(token) => is_of_user(&token.owner, user),
    }
}

fn is_of_user(owner: &Owner, user: &UserName) -> bool
    ensures { result ≡ same_owner owner.now (Own.User user.now) }
{
    match owner {
        Owner::User(name) => name == user,
        Owner::Service(_) => false,
    }
}

/// Whether the one whose shares are asked for is there.
fn has_sharer(hub: &Machine, whose: &SharesOf) -> bool
    ensures { result ≡ need.has_sharer hub.now.tables whose.now }
{
    match whose {
        SharesOf::Recipient(user) | SharesOf::Owner(user) => has_user(hub, user),
        SharesOf::Server(server) => has_server(hub, server),
    }
}

/// Whether the one whose share codes are asked for is there.
fn has_offerer(hub: &Machine, whose: &CodesOf) -> bool
    ensures { result ≡ need.has_offerer hub.now.tables whose.now }
{
    match whose {
        CodesOf::Owner(user) => has_user(hub, user),
        CodesOf::Server(server) => has_server(hub, server),
    }
}

/// Whether the share code that is named, if one is, is of the server.
fn has_code(hub: &Machine, server: &ServerKey, id: Option<u64>) -> bool
    ensures { result ≡ need.has_code hub.now.tables server.now id }
{
    match id {
        None => true,
        Some(id) => has_code_at(hub, server, id),
    }
}

fn has_code_at(hub: &Machine, server: &ServerKey, id: u64) -> bool
    ensures { result ≡ need.is_code_at server.now (map.get hub.now.tables.codes id) }
{
    match hub.tables().code(id) {
        None => false,
        Some(code) => is_code_of(&CodesOf::Server(*server), code),
    }
}

fn has_group(hub: &Machine, group: &GroupName) -> bool
    ensures { result ≡ map.contains_key hub.now.tables.groups group.now }
{
    hub.tables().group(group).is_some()
}

fn has_service(hub: &Machine, service: &ServiceName) -> bool
    ensures { result ≡ map.contains_key hub.now.tables.services service.now }
{
    hub.tables().service(service).is_some()
}

fn has_role(hub: &Machine, role: &RoleName) -> bool
    ensures { result ≡ map.contains_key hub.now.tables.roles role.now }
{
    hub.tables().role(role).is_some()
}

/// Whether what the call speaks of is there.
pub(crate) fn is_there(hub: &Machine, call: &Call) -> bool
    ensures { result ≡ need.is_there hub.now.tables call.now }
{
    match call {
        Call::GetUser { user }
        | Call::GetTokens { user }
        | Call::PatchUser { user, .. }
        | Call::DeleteUser { user }
        | Call::PostActivity { user, .. } => has_user(hub, user),
        Call::PostServer { server } => has_user(hub, &server.user),
        Call::DeleteServer { server, .. } => has_server(hub, server),
        Call::PostToken { ask } => has_user(hub, &ask.owner),
        Call::GetToken { user, id } | Call::DeleteToken { user, id } => has_token(hub, user, *id),
        Call::GetShares { whose, .. } => has_sharer(hub, whose),
        Call::AcceptCode { user, .. } => has_user(hub, user),
        Call::PostShare { server, .. }
        | Call::PatchShare { server, .. }
        | Call::DeleteShares { server }
        | Call::PostCode { server, .. } => has_server(hub, server),
        Call::GetCodes { whose, .. } => has_offerer(hub, whose),
        Call::DeleteCodes { server, id } => has_server(hub, server) && has_code(hub, server, *id),
        Call::GetGroup { group }
        | Call::DeleteGroup { group }
        | Call::JoinGroup { group, .. }
        | Call::LeaveGroup { group, .. } => { has_group(hub, group) }
        Call::GetService { service } | Call::DeleteService { service } => has_service(hub, service),
        Call::GetRole { role } => has_role(hub, role),
        Call::DeleteRole { role } => is_fixed_role(role) || has_role(hub, role),
        _ => true,
    }
}

/// Why no client asks for an authorization, if none does. No other call needs a client.
fn no_client(alloc: Global, hub: &Machine, call: &Call) -> Result<Option<Refusal>, AllocError>
    ensures { IfOk result (λ r. r ≡ spec.if_no_client hub.now.tables call.now) }
{
    match call {
        Call::GetAuthorize { ask } => client_refusal(alloc, hub, ask),
        _ => Ok(None),
    }
}

/// The first refusal of the client that asks, and then of the rights, if one comes.
pub(crate) fn first_refusal(
    alloc: Global,
    hub: &Machine,
    rights: &Grant,
    is_held: bool,
    call: &Call,
) -> Result<Option<Refusal>, AllocError>
    ensures { IfOk result (λ r. r ≡ first_refusal
        (spec.if_no_client hub.now.tables call.now ∷ spec.action_rules
        (record { may = may_of hub.now rights.now; is_held = is_held; inside = Yes }) (need.needs call.now))) }
{
    match no_client(alloc, hub, call)? {
        Some(refusal) => Ok(Some(refusal)),
        None => Ok(action_refusal(hub, rights, is_held, needs(call))),
    }
}

/// The first refusal of the rights, if one comes.
fn action_refusal(hub: &Machine, rights: &Grant, is_held: bool, need: Need) -> Option<Refusal>
    ensures { result ≡ first_refusal (spec.action_rules (record { may = may_of hub.now rights.now; is_held = is_held; inside = Yes })
        need) }
{
    match need {
        Need::GoodToken => None,
        Need::Held(action) => {
            if is_held {
                None
            } else {
                Some(Refusal::Needs(action))
            }
        }
        Need::On(action, object) => {
            if !is_held {
                Some(Refusal::Needs(action))
            } else if admits(rights, action, &object, hub.tables()) {
                None
            } else {
                Some(Refusal::NotFound)
            }
        }
    }
}
