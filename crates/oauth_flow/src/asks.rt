//! What is asked of the grant, and why it is refused.
ghost use Rattle.std.specs.Prelude.{◌≡◌};
ghost use Rattle.oauth_flow.specs.Asks.{is_text};

use hub_kit::text::Text;
use std::alloc::AllocError;

/// Why the grant is refused, in the words of RFC 6749, section 5.2.
#[derive(Drop)]
pub enum OAuthError {
    InvalidRequest,
    InvalidClient,
    /// With the token that was traded for a used code, where it is kept: it has to be revoked.
    InvalidGrant { revoke: Option<u64> },
    UnsupportedGrantType,
    /// A token of the new token's hash is kept.
    HashKept,
    /// There was no memory.
    Memory,
}

impl From<AllocError> for OAuthError {
    ghost use Rattle.std.specs.Prelude.{◌≡◌};
    ghost use Rattle.oauth_flow.specs.declared.asks.OAuthError.TheVariants.{Memory};

    ghost from_gives = { λ _ e. e ≡ Memory };

    fn from(_: AllocError) -> OAuthError {
        OAuthError::Memory
    }
}

/// The query of an authorization, as far as it has these fields.
pub struct AuthorizeAsk {
    pub response_type: Option<Text>,
    pub client_id: Option<Text>,
    pub redirect_uri: Option<Text>,
    pub state: Option<Text>,
}

impl Drop for AuthorizeAsk {
    fn drop(self) {
        let AuthorizeAsk {
            response_type: _,
            client_id: _,
            redirect_uri: _,
            state: _,
        } = self;
    }
}

/// The form of a trade, as far as it has these fields.
pub struct TradeAsk {
    pub grant_type: Option<Text>,
    pub code: Option<Text>,
    pub redirect_uri: Option<Text>,
    pub client_id: Option<Text>,
    pub client_secret: Option<Text>,
}

impl Drop for TradeAsk {
    fn drop(self) {
        let TradeAsk {
            grant_type: _,
            code: _,
            redirect_uri: _,
            client_id: _,
            client_secret: _,
        } = self;
    }
}

/// Whether a field is there and has this text.
pub(crate) fn is_text(text: &str, field: &Option<Text>) -> bool
    ensures { result ≡ is_text text.now field.now }
{
    match field {
        None => false,
        Some(field) => field.as_bytes() == text.as_bytes(),
    }
}
