//! The door that a guard keeps.
use hub_kit::names::ServerKey;
use hub_kit::target::Target;
use hub_kit::text::Text;

/// One user's server, where it is, where the hub is, the secret of the server's client there, and what kind of cookies browsers get.
pub struct Door {
    pub key: ServerKey,
    pub target: Target,
    pub hub: Target,
    pub secret: Text,
    /// Whether browsers send the cookies over TLS alone (`Secure`, RFC 6265, section 4.1.2.5).
    pub secure_cookies: bool,
}

impl Drop for Door {
    fn drop(self) {
        let Door {
            key: _,
            target: _,
            hub: _,
            secret: _,
            secure_cookies: _,
        } = self;
    }
}
