//! Clients of the grant.
ghost use Rattle.std.specs.Prelude.{◌≡◌, Some};
ghost use Rattle.std.specs.Option.{option_copied};
ghost use Rattle.hub_kit.specs.Names.{name_read};
ghost use Rattle.hub_kit.specs.ServerKeys.{key_read};
ghost use Rattle.oauth_flow.specs.Asks.{Tells};
ghost use Rattle.oauth_flow.specs.Clients.{at_uri, client_named, client_of, is_whole, named, of_server, of_service, whose};

use crate::asks::{AuthorizeAsk, OAuthError, is_text};
use hub_kit::names::{ServerKey, ServiceName, read_key, read_service};
use hub_kit::text::Text;
use hub_rows::records::OAuthClient;
use hub_tables::tables::Tables;
use scope_filters::scope::cut;
use std::alloc::Global;

/// Whose a client is.
#[derive(Clone, Copy)]
pub enum ClientOwner {
    Server(ServerKey),
    Service(ServiceName),
}

/// The client that asks for an authorization. The refusals in their order: `InvalidRequest` where a field is missing or the response type
/// isn't `code`; `InvalidClient` where the client isn't kept; `InvalidRequest` where the URI isn't the client's.
pub fn client_of(
    alloc: Global,
    tables: &Tables,
    ask: &AuthorizeAsk,
) -> Result<OAuthClient, OAuthError>
    ensures { Tells (client_of tables.now ask.now) result }
{
    if !is_whole(ask) {
        return Err(OAuthError::InvalidRequest);
    }
    at_uri(
        alloc,
        &ask.redirect_uri,
        client_named(tables, &ask.client_id),
    )
}

fn is_whole(ask: &AuthorizeAsk) -> bool
    ensures { result ≡ is_whole ask.now }
{
    is_text("code", &ask.response_type)
        && ask.client_id.is_some()
        && ask.redirect_uri.is_some()
        && ask.state.is_some()
}

/// The client of an id, where there is an id.
pub(crate) fn client_named<'a>(tables: &'a Tables, id: &Option<Text>) -> Option<&'a OAuthClient>
    ensures { option_copied result ≡ client_named tables.now id.now }
{
    match id {
        None => None,
        Some(id) => tables.client(id),
    }
}

/// A copy of the client, where the URI is its own.
fn at_uri(
    alloc: Global,
    uri: &Option<Text>,
    client: Option<&OAuthClient>,
) -> Result<OAuthClient, OAuthError>
    ensures { Tells (at_uri uri.now (option_copied client.entry)) result }
{
    match client {
        None => Err(OAuthError::InvalidClient),
        Some(client) => {
            if is_text(client.redirect_uri.as_str(), uri) {
                Ok(client.copy(alloc)?)
            } else {
                Err(OAuthError::InvalidRequest)
            }
        }
    }
}

/// Whose a client of this id is: `server:USER/SERVER` a server's, `service:NAME` a service's.
pub fn whose(id: &Text) -> Option<ClientOwner>
    ensures { result ≡ whose id.now }
{
    let (kind, name) = cut(id.as_str(), ':');
    match name {
        None => None,
        Some(name) => named(kind, name),
    }
}

fn named(kind: &str, name: &str) -> Option<ClientOwner>
    ensures { result ≡ named kind.now (Some name.now) }
{
    if kind == "server" {
        of_server(name)
    } else if kind == "service" {
        of_service(name)
    } else {
        None
    }
}

fn of_server(name: &str) -> Option<ClientOwner>
    ensures { result ≡ of_server (key_read name.now) }
{
    match read_key(name.as_bytes()) {
        Ok(server) => Some(ClientOwner::Server(server)),
        Err(_) => None,
    }
}

fn of_service(name: &str) -> Option<ClientOwner>
    ensures { result ≡ of_service (name_read name.now) }
{
    match read_service(name.as_bytes()) {
        Ok(service) => Some(ClientOwner::Service(service)),
        Err(_) => None,
    }
}
