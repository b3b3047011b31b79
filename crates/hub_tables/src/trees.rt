//! The trees behind the tables.
ghost use Rattle.hub_tables.specs.Empty.{AreEmpty};

use crate::boxed::KeptToken;
use crate::memberships::RoleIndexes;
use crate::owned::{Owners, Parties};
use hub_kit::names::{GroupName, RoleName, ServerKey, ServiceName, UserName};
use hub_kit::target::Target;
use hub_kit::text::Text;
use hub_rows::keys::ShareKey;
use hub_rows::records::{
    Group, Lease, Next, OAuthClient, OAuthCode, Role, ServerRow, Service, Share, ShareCode, User,
};
use row_indexes::members::MemberIndex;
use std::alloc::Global;
use std::collections::BTreeMap;

/// The rows of each kind under their keys, the ids of tokens and share codes under the numbers of their hashes, the ids of tokens under
/// the numbers of their owners, the keys of shares under their parties, and the names of groups and roles under their members.
pub(crate) struct Trees {
    pub users: BTreeMap<UserName, User>,
    pub groups: BTreeMap<GroupName, Group>,
    pub group_users: MemberIndex<UserName, GroupName>,
    pub services: BTreeMap<ServiceName, Service>,
    pub roles: BTreeMap<RoleName, Role>,
    pub role_indexes: RoleIndexes,
    pub tokens: BTreeMap<u64, KeptToken>,
    pub token_ids: BTreeMap<u64, u64>,
    pub token_owners: Owners,
    pub servers: BTreeMap<ServerKey, ServerRow>,
    pub leases: BTreeMap<Target, Lease>,
    pub shares: BTreeMap<ShareKey, Share>,
    pub share_parties: Parties<ShareKey>,
    pub codes: BTreeMap<u64, ShareCode>,
    pub code_ids: BTreeMap<u64, u64>,
    pub clients: BTreeMap<Text, OAuthClient>,
    pub grant_codes: BTreeMap<Text, OAuthCode>,
    pub nexts: BTreeMap<Text, Next>,
}

impl Drop for Trees {
    fn drop(self) {
        let Trees {
            users: _,
            groups: _,
            group_users: _,
            services: _,
            roles: _,
            role_indexes: _,
            tokens: _,
            token_ids: _,
            token_owners: _,
            servers: _,
            leases: _,
            shares: _,
            share_parties: _,
            codes: _,
            code_ids: _,
            clients: _,
            grant_codes: _,
            nexts: _,
        } = self;
    }
}

impl Trees {
    /// Trees with no rows, which take no memory.
    pub fn new(alloc: Global) -> Trees
        ensures { AreEmpty result }
    {
        Trees {
            users: BTreeMap::new(alloc),
            groups: BTreeMap::new(alloc),
            group_users: Some(BTreeMap::new(alloc)),
            services: BTreeMap::new(alloc),
            roles: BTreeMap::new(alloc),
            role_indexes: RoleIndexes::new(alloc),
            tokens: BTreeMap::new(alloc),
            token_ids: BTreeMap::new(alloc),
            token_owners: BTreeMap::new(alloc),
            servers: BTreeMap::new(alloc),
            leases: BTreeMap::new(alloc),
            shares: BTreeMap::new(alloc),
            share_parties: BTreeMap::new(alloc),
            codes: BTreeMap::new(alloc),
            code_ids: BTreeMap::new(alloc),
            clients: BTreeMap::new(alloc),
            grant_codes: BTreeMap::new(alloc),
            nexts: BTreeMap::new(alloc),
        }
    }
}
