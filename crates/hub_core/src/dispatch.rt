//! What the own rules of each call answer: one arm for each call.
ghost use Rattle.std.specs.Prelude.{◌≡◌, List, IfOk};
ghost use Rattle.hub_core.specs.Answer as spec;
ghost use Rattle.hub_machine.specs.Answers.{answer_view};
ghost use Rattle.hub_calls.specs.Rights.{may_of};
ghost use Rattle.hub_calls.specs.RoleCalls as calls;

use access_calls::code_calls::{accept_code, delete_codes, get_codes, post_code};
use access_calls::grant_calls::{get_authorize, post_trade};
use access_calls::share_calls::{delete_shares, get_shares, patch_share, post_share};
use access_calls::token_calls::{delete_token, get_token, get_tokens, post_token};
use hub_calls::group_calls::{
    delete_group, get_group, get_groups, join_group, leave_group, post_group,
};
use hub_calls::proxy_calls::leave;
use hub_calls::role_calls::{delete_role, get_role, get_roles, put_role, role_of};
use hub_calls::server_calls::post_activity;
use hub_calls::service_calls::{delete_service, get_service, get_services, post_service};
use hub_calls::starts::post_server;
use hub_calls::stops::delete_server;
use hub_calls::user_calls::{
    delete_user, get_identity, get_info, get_user, get_users, get_version, patch_user, post_user,
    post_users,
};
use hub_kit::list::List;
use hub_kit::moment::Moment;
use hub_kit::names::{GroupName, RoleName, ServiceName, UserName};
use hub_machine::answer::Answer;
use hub_machine::call::Call;
use hub_machine::machine::Machine;
use hub_rows::records::Token;
use scope_filters::grant::Grant;
use scope_filters::scope::RawScope;
use scope_meet::inside::Inside;
use std::alloc::{AllocError, Global};

/// What the rules of `PUT /roles/{role}` answer, for the role with these lists.
fn put_role_with(
    alloc: Global,
    hub: &Machine,
    name: &RoleName,
    scopes: &List<RawScope>,
    users: &List<UserName>,
    groups: &List<GroupName>,
    services: &List<ServiceName>,
) -> Result<Answer, AllocError>
    ensures { IfOk result (λ answer. answer_view answer ≡ calls.put_role hub.now
        (calls.role_of name.now scopes.now users.now groups.now services.now)) }
{
    let role = role_of(
        alloc,
        name,
        scopes.as_slice(),
        users.as_slice(),
        groups.as_slice(),
        services.as_slice(),
    )?;
    let answer = put_role(alloc, hub, &role);
    // in one call, since it has many parts
    drop(role);
    answer
}

/// What the call's own rules answer.
pub(crate) fn row(
    alloc: Global,
    hub: &Machine,
    now: Moment,
    draw: Option<[u8; 16]>,
    token: &Token,
    rights: &Grant,
    inside: Inside,
    call: &Call,
) -> Result<Answer, AllocError>
    ensures { IfOk result (λ answer. answer_view answer ≡ spec.row hub.now (may_of hub.now rights.now) inside now draw token.now call.now) }
{
    match call {
        Call::GetVersion => get_version(alloc),
        Call::GetInfo => get_info(alloc, hub),
        Call::GetIdentity { for_server } => get_identity(alloc, hub, rights, token, for_server),
        Call::GetUsers { page } => get_users(alloc, hub, rights, *page),
        Call::PostUsers { usernames, admin } => {
            post_users(alloc, hub, rights, now, usernames.as_slice(), *admin)
        }
        Call::GetUser { user } => get_user(alloc, hub, rights, user),
        Call::PostUser { user } => post_user(alloc, hub, rights, now, user),
        Call::PatchUser { user, admin } => patch_user(alloc, hub, rights, user, *admin),
        Call::DeleteUser { user } => delete_user(alloc, hub, user),
        Call::PostActivity {
            user,
            last_activity,
            servers,
        } => post_activity(alloc, hub, now, user, *last_activity, servers.as_slice()),
        Call::PostServer { server } => post_server(alloc, hub, now, draw, server),
        Call::DeleteServer { server, remove } => delete_server(alloc, hub, server, *remove),
        Call::GetTokens { user } => get_tokens(alloc, hub, user),
        Call::PostToken { ask } => post_token(alloc, hub, now, draw, inside, ask),
        Call::GetToken { id, .. } => get_token(alloc, hub, *id),
        Call::DeleteToken { id, .. } => delete_token(alloc, hub, *id),
        Call::GetShares { whose, page } => get_shares(alloc, hub, whose, *page),
        Call::AcceptCode { user, code } => accept_code(alloc, hub, now, user, code),
        Call::PostShare { server, to, scopes } => {
            post_share(alloc, hub, now, server, to, scopes.as_slice())
        }
        Call::PatchShare { server, to, scopes } => {
            patch_share(alloc, hub, server, to, scopes.as_slice())
        }
        Call::DeleteShares { server } => delete_shares(alloc, hub, server),
        Call::GetCodes { whose, page } => get_codes(alloc, hub, whose, *page),
        Call::PostCode {
            server,
            scopes,
            expires_in,
        } => post_code(
            alloc,
            hub,
            now,
            draw,
            server,
            scopes.as_slice(),
            *expires_in,
        ),
        Call::DeleteCodes { server, id } => delete_codes(alloc, hub, server, *id),
        Call::GetGroups { page } => get_groups(alloc, hub, rights, *page),
        Call::GetGroup { group } => get_group(alloc, hub, rights, group),
        Call::PostGroup { group, users } => post_group(alloc, hub, rights, group, users.as_slice()),
        Call::DeleteGroup { group } => delete_group(alloc, hub, group),
        Call::JoinGroup { group, users } => join_group(alloc, hub, rights, group, users.as_slice()),
        Call::LeaveGroup { group, users } => leave_group(
            alloc,
            hub,
            rights,
            group,
            users.as_slice(),
        ),
        Call::GetServices { page } => get_services(alloc, hub, rights, *page),
        Call::GetService { service } => get_service(alloc, hub, rights, service),
        Call::PostService { service } => post_service(alloc, hub, rights, service),
        Call::DeleteService { service } => delete_service(alloc, hub, service),
        Call::GetRoles { page } => get_roles(alloc, hub, *page),
        Call::GetRole { role } => get_role(alloc, hub, role),
        Call::PutRole {
            role,
            scopes,
            users,
            groups,
            services,
        } => put_role_with(alloc, hub, role, scopes, users, groups, services),
        Call::DeleteRole { role } => delete_role(alloc, hub, role),
        Call::GetAuthorize { ask } => get_authorize(alloc, hub, now, draw, &token.owner, ask),
        Call::PostTrade { ask } => post_trade(alloc, hub, now, draw, ask),
        Call::GetProxy | Call::PostProxy => Ok(leave()),
    }
}

/// What a call answers that needs no token.
pub(crate) fn by_nobody(
    alloc: Global,
    hub: &Machine,
    now: Moment,
    draw: Option<[u8; 16]>,
    call: &Call,
) -> Result<Answer, AllocError>
    ensures { IfOk result (λ answer. answer_view answer ≡ spec.by_nobody hub.now now draw call.now) }
{
    match call {
        Call::PostTrade { ask } => post_trade(alloc, hub, now, draw, ask),
        _ => get_version(alloc),
    }
}
