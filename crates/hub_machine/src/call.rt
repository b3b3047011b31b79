//! What is asked of the hub.
use hub_kit::list::List;
use hub_kit::moment::Moment;
use hub_kit::names::{GroupName, RoleName, ServerKey, ServerName, ServiceName, UserName};
use hub_kit::text::Text;
use hub_rows::keys::Recipient;
use hub_view::Page;
use oauth_flow::asks::{AuthorizeAsk, TradeAsk};
use scope_filters::scope::RawScope;
use shares::lists::{CodesOf, SharesOf};
use token_store::issuing::TokenAsk;

/// A call of JupyterHub's REST API, named by its method and what it is on. The fields are the path's names, the query's keys and
/// the body's keys, in this order; of a list that can be paged it is the page, of a new token and of the authorization code grant all
/// that is asked, and of whom a server is shared with the recipient, where exactly one is named.
#[derive(Drop)]
pub enum Call {
    /// `GET /`: the version. It needs no token.
    GetVersion,
    /// `GET /info`: how many targets there are, and how many are leased.
    GetInfo,
    /// `GET /user`: who the token's owner is, and where a server is named, whether the caller has access to it.
    GetIdentity {
        for_server: Option<ServerKey>,
    },
    /// `GET /users`
    GetUsers {
        page: Page,
    },
    /// `POST /users`. There is a name, and the names are distinct.
    PostUsers {
        usernames: List<UserName>,
        admin: bool,
    },
    /// `GET /users/{user}`
    GetUser {
        user: UserName,
    },
    /// `POST /users/{user}`
    PostUser {
        user: UserName,
    },
    /// `PATCH /users/{user}`
    PatchUser {
        user: UserName,
        admin: bool,
    },
    /// `DELETE /users/{user}`
    DeleteUser {
        user: UserName,
    },
    /// `POST /users/{user}/activity`. Of each of the servers its name, and when it was last active, if that is told, in the order
    /// of names.
    PostActivity {
        user: UserName,
        last_activity: Option<Moment>,
        servers: List<(ServerName, Option<Moment>)>,
    },
    /// `POST /users/{user}/server` and `POST /users/{user}/servers/{server}`. It draws.
    PostServer {
        server: ServerKey,
    },
    /// `DELETE /users/{user}/server` and `DELETE /users/{user}/servers/{server}`
    DeleteServer {
        server: ServerKey,
        remove: bool,
    },
    /// `GET /users/{user}/tokens`
    GetTokens {
        user: UserName,
    },
    /// `POST /users/{user}/tokens`. It draws.
    PostToken {
        ask: TokenAsk,
    },
    /// `GET /users/{user}/tokens/{id}`
    GetToken {
        user: UserName,
        id: u64,
    },
    /// `DELETE /users/{user}/tokens/{id}`
    DeleteToken {
        user: UserName,
        id: u64,
    },
    /// `GET /users/{user}/shared`, `GET /shares/{owner}` and `GET /shares/{owner}/{server}`
    GetShares {
        whose: SharesOf,
        page: Page,
    },
    /// `POST /users/{user}/shared`
    AcceptCode {
        user: UserName,
        code: Text,
    },
    /// `POST /shares/{owner}/{server}`
    PostShare {
        server: ServerKey,
        to: Option<Recipient>,
        scopes: List<RawScope>,
    },
    /// `PATCH /shares/{owner}/{server}`
    PatchShare {
        server: ServerKey,
        to: Option<Recipient>,
        scopes: List<RawScope>,
    },
    /// `DELETE /shares/{owner}/{server}`
    DeleteShares {
        server: ServerKey,
    },
    /// `GET /share-codes/{owner}` and `GET /share-codes/{owner}/{server}`
    GetCodes {
        whose: CodesOf,
        page: Page,
    },
    /// `POST /share-codes/{owner}/{server}`. It draws.
    PostCode {
        server: ServerKey,
        scopes: List<RawScope>,
        expires_in: u32,
    },
    /// `DELETE /share-codes/{owner}/{server}`
    DeleteCodes {
        server: ServerKey,
        id: Option<u64>,
    },
    /// `GET /groups`
    GetGroups {
        page: Page,
    },
    /// `GET /groups/{group}`
    GetGroup {
        group: GroupName,
    },
    /// `POST /groups/{group}`
    PostGroup {
        group: GroupName,
        users: List<UserName>,
    },
    /// `DELETE /groups/{group}`
    DeleteGroup {
        group: GroupName,
    },
    /// `POST /groups/{group}/users`
    JoinGroup {
        group: GroupName,
        users: List<UserName>,
    },
    /// `DELETE /groups/{group}/users`
    LeaveGroup {
        group: GroupName,
        users: List<UserName>,
    },
    /// `GET /services`
    GetServices {
        page: Page,
    },
    /// `GET /services/{service}`
    GetService {
        service: ServiceName,
    },
    /// `POST /services/{service}`
    PostService {
        service: ServiceName,
    },
    /// `DELETE /services/{service}`
    DeleteService {
        service: ServiceName,
    },
    /// `GET /roles`
    GetRoles {
        page: Page,
    },
    /// `GET /roles/{role}`
    GetRole {
        role: RoleName,
    },
    /// `PUT /roles/{role}`
    PutRole {
        role: RoleName,
        scopes: List<RawScope>,
        users: List<UserName>,
        groups: List<GroupName>,
        services: List<ServiceName>,
    },
    /// `DELETE /roles/{role}`
    DeleteRole {
        role: RoleName,
    },
    /// `GET /oauth2/authorize`. It draws.
    GetAuthorize {
        ask: AuthorizeAsk,
    },
    /// `POST /oauth2/token`. It needs no token, and it draws.
    PostTrade {
        ask: TradeAsk,
    },
    /// `GET /proxy`: the routes of the proxy, which are asked for once the visit is over.
    GetProxy,
    /// `POST /proxy`: the routes are brought into step, once the visit is over.
    PostProxy,
}

/// A call with the token that it brings, and the length of the history that its caller has seen, where it names one.
pub struct Asked {
    pub token: Option<Text>,
    pub seen: Option<u64>,
    pub call: Call,
}

impl Drop for Asked {
    fn drop(self) {
        let Asked {
            token: _,
            seen: _,
            call: _,
        } = self;
    }
}
