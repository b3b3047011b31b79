//! Holders: for whom the scopes of a token or a role are meant.
use hub_kit::names::{ServerKey, ServiceName, UserName};

/// Who a token belongs to, or who holds a role.
#[derive(Clone, Copy, PartialEq, Eq, PartialOrd, Ord)]
pub enum Owner {
    User(UserName),
    Service(ServiceName),
}

/// An owner, and the server for which the token was issued.
#[derive(Clone, Copy, PartialEq, Eq)]
pub struct Holder {
    pub owner: Owner,
    pub issued_for: Option<ServerKey>,
}
