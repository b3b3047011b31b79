//! The rows of all kinds, and what each stands under.
ghost use Rattle.std.specs.Prelude.{◌≡◌, IfOk};
ghost use Rattle.hub_rows.specs.RowKeys.{key_of};

use crate::keys::ShareKey;
use crate::kinds::OfKind;
use crate::records::{
    Group, Lease, Next, OAuthClient, OAuthCode, Role, ServerRow, Service, Share, ShareCode, Token,
    User,
};
use hub_kit::names::{GroupName, RoleName, ServerKey, ServiceName, UserName};
use hub_kit::target::Target;
use hub_kit::text::Text;
use std::alloc::{AllocError, Global};

/// A row of some kind.
#[derive(Drop)]
pub enum Row {
    User(User),
    Group(Group),
    Service(Service),
    Role(Role),
    Token(Token),
    ServerRow(ServerRow),
    Lease(Lease),
    Share(Share),
    ShareCode(ShareCode),
    OAuthClient(OAuthClient),
    OAuthCode(OAuthCode),
    Next(Next),
}

/// The kind of a row, and its key.
#[derive(Drop)]
pub enum RowKey {
    User(UserName),
    Group(GroupName),
    Service(ServiceName),
    Role(RoleName),
    Token(u64),
    ServerRow(ServerKey),
    Lease(Target),
    Share(ShareKey),
    ShareCode(u64),
    OAuthClient(Text),
    OAuthCode(Text),
    Next(Text),
}

impl Row {
    pub fn copy(&self, alloc: Global) -> Result<Row, AllocError>
        ensures { IfOk result (λ copy. copy ≡ self.now) }
    {
        match self {
            Row::User(row) => row.copy_row(alloc),
            Row::Group(row) => row.copy_row(alloc),
            Row::Service(row) => row.copy_row(alloc),
            Row::Role(row) => row.copy_row(alloc),
            Row::Token(row) => row.copy_row(alloc),
            Row::ServerRow(row) => row.copy_row(alloc),
            Row::Lease(row) => row.copy_row(alloc),
            Row::Share(row) => row.copy_row(alloc),
            Row::ShareCode(row) => row.copy_row(alloc),
            Row::OAuthClient(row) => row.copy_row(alloc),
            Row::OAuthCode(row) => row.copy_row(alloc),
            Row::Next(row) => row.copy_row(alloc),
        }
    }

    /// What the row stands under.
    pub fn key(&self, alloc: Global) -> Result<RowKey, AllocError>
        ensures { IfOk result (λ key. key ≡ key_of self.now) }
    {
        match self {
            Row::User(row) => Ok(RowKey::User(row.name)),
            Row::Group(row) => Ok(RowKey::Group(row.name)),
            Row::Service(row) => Ok(RowKey::Service(row.name)),
            Row::Role(row) => Ok(RowKey::Role(row.name)),
            Row::Token(row) => Ok(RowKey::Token(row.id)),
            Row::ServerRow(row) => Ok(RowKey::ServerRow(row.key)),
            Row::Lease(row) => Ok(RowKey::Lease(row.target.copy(alloc)?)),
            Row::Share(row) => Ok(RowKey::Share(row.key)),
            Row::ShareCode(row) => Ok(RowKey::ShareCode(row.id)),
            Row::OAuthClient(row) => Ok(RowKey::OAuthClient(row.id.as_text().copy(alloc)?)),
            Row::OAuthCode(row) => Ok(RowKey::OAuthCode(row.hash.copy(alloc)?)),
            Row::Next(row) => Ok(RowKey::Next(row.name.as_text().copy(alloc)?)),
        }
    }
}

impl RowKey {
    pub fn copy(&self, alloc: Global) -> Result<RowKey, AllocError>
        ensures { IfOk result (λ copy. copy ≡ self.now) }
    {
        match self {
            RowKey::User(name) => Ok(RowKey::User(*name)),
            RowKey::Group(name) => Ok(RowKey::Group(*name)),
            RowKey::Service(name) => Ok(RowKey::Service(*name)),
            RowKey::Role(name) => Ok(RowKey::Role(*name)),
            RowKey::Token(id) => Ok(RowKey::Token(*id)),
            RowKey::ServerRow(key) => Ok(RowKey::ServerRow(*key)),
            RowKey::Lease(target) => Ok(RowKey::Lease(target.copy(alloc)?)),
            RowKey::Share(key) => Ok(RowKey::Share(*key)),
            RowKey::ShareCode(id) => Ok(RowKey::ShareCode(*id)),
            RowKey::OAuthClient(id) => Ok(RowKey::OAuthClient(id.copy(alloc)?)),
            RowKey::OAuthCode(hash) => Ok(RowKey::OAuthCode(hash.copy(alloc)?)),
            RowKey::Next(name) => Ok(RowKey::Next(name.copy(alloc)?)),
        }
    }
}
