//! The hub's own words in bodies: the keys of members, and values that are one of a few.
ghost use Rattle.std.specs.Prelude.{◌≡◌};
ghost use Rattle.hub_view.specs.Words.{word_text};

use std::marker::Model;

/// A word of the hub's own. It takes no memory.
#[derive(Clone, Copy)]
pub enum Word {
    Access,
    Admin,
    ApiToken,
    Code,
    Created,
    ExpiresAt,
    Group,
    Groups,
    Id,
    Items,
    Kind,
    LastActivity,
    Limit,
    Message,
    Name,
    Next,
    Note,
    OauthClient,
    Offset,
    Pagination,
    Pending,
    Ready,
    Roles,
    Scopes,
    Server,
    Servers,
    Service,
    Services,
    Spawn,
    Started,
    Status,
    Stop,
    Token,
    Total,
    Url,
    User,
    Users,
}

impl Word {
    pub fn as_str(self) -> &'static str
        ensures { result.now ≡ word_text self }
    {
        match self {
            Word::Access => "access",
            Word::Admin => "admin",
            Word::ApiToken => "api_token",
            Word::Code => "code",
            Word::Created => "created",
            Word::ExpiresAt => "expires_at",
            Word::Group => "group",
            Word::Groups => "groups",
            Word::Id => "id",
            Word::Items => "items",
            Word::Kind => "kind",
            Word::LastActivity => "last_activity",
            Word::Limit => "limit",
            Word::Message => "message",
            Word::Name => "name",
            Word::Next => "next",
            Word::Note => "note",
            Word::OauthClient => "oauth_client",
            Word::Offset => "offset",
            Word::Pagination => "_pagination",
            Word::Pending => "pending",
            Word::Ready => "ready",
            Word::Roles => "roles",
            Word::Scopes => "scopes",
            Word::Server => "server",
            Word::Servers => "servers",
            Word::Service => "service",
            Word::Services => "services",
            Word::Spawn => "spawn",
            Word::Started => "started",
            Word::Status => "status",
            Word::Stop => "stop",
            Word::Token => "token",
            Word::Total => "total",
            Word::Url => "url",
            Word::User => "user",
            Word::Users => "users",
        }
    }
}

/// A key of an object that is one of the hub's own words, which contracts see as its text.
pub struct MemberKey {
    word: Word,
}

impl Drop for MemberKey {
    fn drop(self) {
        let MemberKey { word: _ } = self;
    }
}

impl Model for MemberKey {
    ghost use Rattle.std.specs.Prelude.{ℕ, List};
    ghost use Rattle.hub_view.specs.Words.{word_text};

    ghost Value = { List ℕ };

    ghost view = { λ k. word_text k.word };
}

impl MemberKey {
    pub fn of(word: Word) -> MemberKey
        ensures { result ≡ word_text word }
    {
        MemberKey { word }
    }

    pub fn as_str(&self) -> &str
        ensures { result.now ≡ self.now }
    {
        self.word.as_str()
    }
}
