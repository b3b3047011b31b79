//! The rows of the twelve kinds, which are numbered from 1 in the order of this file: a full table is named by its number.
//! Ids, generations and the numbers of `Next` begin at 1.
ghost use Rattle.std.specs.Prelude.{◌≡◌, IfOk};

use crate::client_id::ClientId;
use crate::counter::Counter;
use crate::keys::ShareKey;
use crate::shared_scopes::SharedScopes;
use hub_kit::list::List;
use hub_kit::moment::Moment;
use hub_kit::names::{GroupName, RoleName, ServerKey, ServiceName, UserName};
use hub_kit::target::Target;
use hub_kit::text::Text;
use keyed_rows::sorted::Sorted;
use scope_filters::holder::Owner;
use scope_filters::scope::RawScope;
use std::alloc::{AllocError, Global};

/// A user.
#[derive(Clone, Copy)]
pub struct User {
    pub name: UserName,
    pub admin: bool,
    pub created: Moment,
    pub last_activity: Option<Moment>,
}

/// A group of users.
pub struct Group {
    pub name: GroupName,
    pub users: Sorted<UserName>,
}

impl Drop for Group {
    fn drop(self) {
        let Group { name: _, users: _ } = self;
    }
}

impl Group {
    pub fn copy(&self, alloc: Global) -> Result<Group, AllocError>
        ensures { IfOk result (λ copy. copy ≡ self.now) }
    {
        Ok(Group {
            name: self.name,
            users: self.users.copy(alloc)?,
        })
    }
}

/// A service.
#[derive(Clone, Copy)]
pub struct Service {
    pub name: ServiceName,
}

/// A role: its scopes in the order given, and who holds it.
pub struct Role {
    pub name: RoleName,
    pub groups: Sorted<GroupName>,
    pub scopes: List<RawScope>,
    pub services: Sorted<ServiceName>,
    pub users: Sorted<UserName>,
}

impl Drop for Role {
    fn drop(self) {
        let Role {
            name: _,
            groups: _,
            scopes: _,
            services: _,
            users: _,
        } = self;
    }
}

impl Role {
    pub fn copy(&self, alloc: Global) -> Result<Role, AllocError>
        ensures { IfOk result (λ copy. copy ≡ self.now) }
    {
        Ok(Role {
            name: self.name,
            groups: self.groups.copy(alloc)?,
            scopes: copy_scopes(alloc, &self.scopes)?,
            services: self.services.copy(alloc)?,
            users: self.users.copy(alloc)?,
        })
    }
}

/// A token, of whose text only the SHA-256 in hex is kept. `client` is the OAuth client that it was issued to,
/// and `issued_for` the server that it was given to.
pub struct Token {
    pub id: u64,
    pub client: Option<Text>,
    pub created: Moment,
    pub expires_at: Option<Moment>,
    pub hash: Text,
    pub issued_for: Option<ServerKey>,
    pub note: Text,
    pub owner: Owner,
    pub scopes: List<RawScope>,
}

impl Drop for Token {
    fn drop(self) {
        let Token {
            id: _,
            client: _,
            created: _,
            expires_at: _,
            hash: _,
            issued_for: _,
            note: _,
            owner: _,
            scopes: _,
        } = self;
    }
}

impl Token {
    pub fn copy(&self, alloc: Global) -> Result<Token, AllocError>
        ensures { IfOk result (λ copy. copy ≡ self.now) }
    {
        Ok(Token {
            id: self.id,
            client: copy_text(alloc, &self.client)?,
            created: self.created,
            expires_at: self.expires_at,
            hash: self.hash.copy(alloc)?,
            issued_for: self.issued_for,
            note: self.note.copy(alloc)?,
            owner: self.owner,
            scopes: copy_scopes(alloc, &self.scopes)?,
        })
    }
}

/// A server of a user. `started` is when it last began.
#[derive(Clone, Copy)]
pub struct ServerRow {
    pub key: ServerKey,
    pub created: Moment,
    pub last_activity: Option<Moment>,
    pub started: Option<Moment>,
}

/// A target that a server holds. Rows of the first schema have no generation.
pub struct Lease {
    pub target: Target,
    pub server: ServerKey,
    pub generation: Option<u64>,
}

impl Drop for Lease {
    fn drop(self) {
        let Lease {
            target: _,
            server: _,
            generation: _,
        } = self;
    }
}

impl Lease {
    pub fn copy(&self, alloc: Global) -> Result<Lease, AllocError>
        ensures { IfOk result (λ copy. copy ≡ self.now) }
    {
        Ok(Lease {
            target: self.target.copy(alloc)?,
            server: self.server,
            generation: self.generation,
        })
    }
}

/// A share of a server: what its recipient may do with it.
pub struct Share {
    pub key: ShareKey,
    pub created: Moment,
    pub scopes: SharedScopes,
}

impl Drop for Share {
    fn drop(self) {
        let Share {
            key: _,
            created: _,
            scopes: _,
        } = self;
    }
}

impl Share {
    pub fn copy(&self, alloc: Global) -> Result<Share, AllocError>
        ensures { IfOk result (λ copy. copy ≡ self.now) }
    {
        Ok(Share {
            key: self.key,
            created: self.created,
            scopes: self.scopes.copy(alloc)?,
        })
    }
}

/// A code that anyone may turn into a share of the server, until it expires. Only the hash of its text is kept.
pub struct ShareCode {
    pub id: u64,
    pub created: Moment,
    pub expires_at: Moment,
    pub hash: Text,
    pub scopes: List<RawScope>,
    pub server: ServerKey,
}

impl Drop for ShareCode {
    fn drop(self) {
        let ShareCode {
            id: _,
            created: _,
            expires_at: _,
            hash: _,
            scopes: _,
            server: _,
        } = self;
    }
}

impl ShareCode {
    pub fn copy(&self, alloc: Global) -> Result<ShareCode, AllocError>
        ensures { IfOk result (λ copy. copy ≡ self.now) }
    {
        Ok(ShareCode {
            id: self.id,
            created: self.created,
            expires_at: self.expires_at,
            hash: self.hash.copy(alloc)?,
            scopes: copy_scopes(alloc, &self.scopes)?,
            server: self.server,
        })
    }
}

/// A client of OAuth, with the hash of its secret.
pub struct OAuthClient {
    pub id: ClientId,
    pub hash: Text,
    pub redirect_uri: Text,
}

impl Drop for OAuthClient {
    fn drop(self) {
        let OAuthClient {
            id: _,
            hash: _,
            redirect_uri: _,
        } = self;
    }
}

impl OAuthClient {
    pub fn copy(&self, alloc: Global) -> Result<OAuthClient, AllocError>
        ensures { IfOk result (λ copy. copy ≡ self.now) }
    {
        Ok(OAuthClient {
            id: self.id.copy(alloc)?,
            hash: self.hash.copy(alloc)?,
            redirect_uri: self.redirect_uri.copy(alloc)?,
        })
    }
}

/// An authorization code of OAuth, kept under the hash of its text. `token` is the token that it was traded for.
pub struct OAuthCode {
    pub hash: Text,
    pub client: Text,
    pub expires_at: Moment,
    pub owner: UserName,
    pub redirect_uri: Text,
    pub token: Option<u64>,
}

impl Drop for OAuthCode {
    fn drop(self) {
        let OAuthCode {
            hash: _,
            client: _,
            expires_at: _,
            owner: _,
            redirect_uri: _,
            token: _,
        } = self;
    }
}

impl OAuthCode {
    pub fn copy(&self, alloc: Global) -> Result<OAuthCode, AllocError>
        ensures { IfOk result (λ copy. copy ≡ self.now) }
    {
        Ok(OAuthCode {
            hash: self.hash.copy(alloc)?,
            client: self.client.copy(alloc)?,
            expires_at: self.expires_at,
            owner: self.owner,
            redirect_uri: self.redirect_uri.copy(alloc)?,
            token: self.token,
        })
    }
}

/// The next number of a kind.
pub struct Next {
    pub name: Counter,
    pub next: u64,
}

impl Drop for Next {
    fn drop(self) {
        let Next { name: _, next: _ } = self;
    }
}

impl Next {
    pub fn copy(&self, alloc: Global) -> Result<Next, AllocError>
        ensures { IfOk result (λ copy. copy ≡ self.now) }
    {
        Ok(Next {
            name: self.name.copy(alloc)?,
            next: self.next,
        })
    }
}

fn copy_scopes(alloc: Global, scopes: &List<RawScope>) -> Result<List<RawScope>, AllocError>
    ensures { IfOk result (λ copy. copy ≡ scopes.now) }
{
    let copy = Vec::from_slice(alloc, scopes.as_slice())?;
    Ok(List::from_vec(copy))
}

fn copy_text(alloc: Global, text: &Option<Text>) -> Result<Option<Text>, AllocError>
    ensures { IfOk result (λ copy. copy ≡ text.now) }
{
    match text {
        Some(text) => Ok(Some(text.copy(alloc)?)),
        None => Ok(None),
    }
}
