//! The ids of clients of OAuth.
ghost use Rattle.std.specs.Prelude.{◌≡◌, ◌++◌, Some, None, codes, IfOk, IsTrue, if◌then◌else◌};
ghost use Rattle.std.specs.Option.{option_copied};
ghost use Rattle.hub_rows.specs.ClientIds.{is_client_id, names_client};

use hub_kit::names::{ServerKey, ServiceName, key_text, read_key, read_service};
use hub_kit::text::Text;
use scope_filters::scope::cut;
use std::alloc::{AllocError, Global};
use std::marker::Model;

/// `server:USER/SERVER` or `service:NAME`, which contracts see as that text.
pub struct ClientId {
    text: Text,
}

impl Drop for ClientId {
    fn drop(self) {
        let ClientId { text: _ } = self;
    }
}

impl Model for ClientId {
    ghost use Rattle.std.specs.Prelude.{ℕ, List, IsTrue};
    ghost use Rattle.hub_rows.specs.ClientIds.{is_client_id};

    ghost Value = { List ℕ };

    ghost view = { λ c. c.text };

    ghost invariant = { λ c. IsTrue (is_client_id c.text) };
}

impl ClientId {
    /// The id of the client that a server is.
    pub fn of_server(alloc: Global, key: &ServerKey) -> Result<ClientId, AllocError>
        ensures { IfOk result (λ id. id ≡ codes "server:" ++ (key.now.user ++ codes "/" ++ key.now.server)) }
    {
        let name = key_text(alloc, key)?;
        let mut text = Text::from_str(alloc, "server:")?;
        text.push_str(name.as_str())?;
        Ok(ClientId { text })
    }

    /// The id of the client that a service is.
    pub fn of_service(alloc: Global, service: &ServiceName) -> Result<ClientId, AllocError>
        ensures { IfOk result (λ id. id ≡ codes "service:" ++ service.now) }
    {
        let name = service.as_str();
        let mut text = Text::from_str(alloc, "service:")?;
        text.push_str(name)?;
        Ok(ClientId { text })
    }

    /// The id of a text that is one's. Takes no memory.
    pub fn from_text(text: Text) -> Option<ClientId>
        ensures { result ≡ (if is_client_id text then Some text else None) }
    {
        if is_client_id(text.as_str()) {
            return Some(ClientId { text });
        }
        None
    }

    pub fn as_text(&self) -> &Text
        ensures value { result.now ≡ self.now }
        ensures client { IsTrue (is_client_id self.now) }
    {
        &self.text
    }

    pub fn copy(&self, alloc: Global) -> Result<ClientId, AllocError>
        ensures { IfOk result (λ id. id ≡ self.now) }
    {
        Ok(ClientId {
            text: self.text.copy(alloc)?,
        })
    }
}

fn is_client_id(id: &str) -> bool
    ensures { result ≡ is_client_id id.now }
{
    let (kind, name) = cut(id, ':');
    names_client(kind, name)
}

/// Whether a kind of clients has one of the name.
fn names_client(kind: &str, name: Option<&str>) -> bool
    ensures { result ≡ names_client kind.now (option_copied name.entry) }
{
    match name {
        Some(name) => {
            (kind == "server" && read_key(name.as_bytes()).is_ok())
                || (kind == "service" && read_service(name.as_bytes()).is_ok())
        }
        None => false,
    }
}
