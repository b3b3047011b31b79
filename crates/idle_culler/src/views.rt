//! What a hub shows of users and their servers.
use hub_kit::list::List;
use hub_kit::moment::Moment;
use hub_kit::names::{ServerName, UserName};

/// What is shown of a live server.
pub struct ServerView {
    pub name: ServerName,
    pub ready: bool,
    pub pending: bool,
    pub started: Option<Moment>,
    pub last_activity: Option<Moment>,
}

impl Drop for ServerView {
    fn drop(self) {
        let ServerView {
            name: _,
            ready: _,
            pending: _,
            started: _,
            last_activity: _,
        } = self;
    }
}

/// What is shown of a user. A field that isn't shown is `None`, and so is an activity that isn't known.
pub struct UserView {
    pub name: UserName,
    pub admin: Option<bool>,
    pub created: Option<Moment>,
    pub last_activity: Option<Moment>,
    pub servers: Option<List<ServerView>>,
}

impl Drop for UserView {
    fn drop(self) {
        let UserView {
            name: _,
            admin: _,
            created: _,
            last_activity: _,
            servers: _,
        } = self;
    }
}
