//! Objects: what an action is done on.
use hub_kit::names::{GroupName, ServerKey, ServiceName, UserName};

/// The hub, a user, a group, a server or a service, kept in the tables or not.
#[derive(Clone, Copy, PartialEq, Eq, PartialOrd, Ord)]
pub enum Object {
    Hub,
    User(UserName),
    Group(GroupName),
    Server(ServerKey),
    Service(ServiceName),
}
