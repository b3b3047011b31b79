//! What bodies are made of.
use hub_kit::list::List;
use hub_kit::names::{GroupName, RoleName};
use hub_rows::records::{ServerRow, User};
use server_life::Life;

/// A server and where it stands.
#[derive(Clone, Copy)]
pub struct ServerFacts {
    pub row: ServerRow,
    pub life: Life,
}

/// A user, the groups that the user is in and the roles that the user holds, each in the order of names, and the user's
/// servers in the order of names, each once.
pub struct UserFacts {
    pub user: User,
    pub groups: List<GroupName>,
    pub roles: List<RoleName>,
    pub servers: List<ServerFacts>,
}

impl Drop for UserFacts {
    fn drop(self) {
        let UserFacts {
            user: _,
            groups: _,
            roles: _,
            servers: _,
        } = self;
    }
}
