//! The key of each kind of rows.
use crate::keys::ShareKey;
use crate::records::{
    Group, Lease, Next, OAuthClient, OAuthCode, Role, ServerRow, Service, Share, ShareCode, Token,
    User,
};
use hub_kit::names::{GroupName, RoleName, ServerKey, ServiceName, UserName};
use hub_kit::target::Target;
use hub_kit::text::Text;
use keyed_rows::keyed::Keyed;

impl Keyed<UserName> for User {
    ghost key_of = { λ row. row.name };

    fn key(&self) -> &UserName {
        &self.name
    }
}

impl Keyed<GroupName> for Group {
    ghost key_of = { λ row. row.name };

    fn key(&self) -> &GroupName {
        &self.name
    }
}

impl Keyed<ServiceName> for Service {
    ghost key_of = { λ row. row.name };

    fn key(&self) -> &ServiceName {
        &self.name
    }
}

impl Keyed<RoleName> for Role {
    ghost key_of = { λ row. row.name };

    fn key(&self) -> &RoleName {
        &self.name
    }
}

impl Keyed<u64> for Token {
    ghost key_of = { λ row. row.id };

    fn key(&self) -> &u64 {
        &self.id
    }
}

impl Keyed<ServerKey> for ServerRow {
    ghost key_of = { λ row. row.key };

    fn key(&self) -> &ServerKey {
        &self.key
    }
}

impl Keyed<Target> for Lease {
    ghost key_of = { λ row. row.target };

    fn key(&self) -> &Target {
        &self.target
    }
}

impl Keyed<ShareKey> for Share {
    ghost key_of = { λ row. row.key };

    fn key(&self) -> &ShareKey {
        &self.key
    }
}

impl Keyed<u64> for ShareCode {
    ghost key_of = { λ row. row.id };

    fn key(&self) -> &u64 {
        &self.id
    }
}

impl Keyed<Text> for OAuthClient {
    ghost key_of = { λ row. row.id };

    fn key(&self) -> &Text {
        self.id.as_text()
    }
}

impl Keyed<Text> for OAuthCode {
    ghost key_of = { λ row. row.hash };

    fn key(&self) -> &Text {
        &self.hash
    }
}

impl Keyed<Text> for Next {
    ghost key_of = { λ row. row.name };

    fn key(&self) -> &Text {
        self.name.as_text()
    }
}
