//! Codes that are traded for tokens.
ghost use Rattle.std.specs.Prelude.{◌≡◌, ℕ, List, Err, Some, None, ◌↔◌, IfOk};
ghost use Rattle.std.specs.Option.{option_copied};
ghost use Rattle.hub_tables.specs.State.{State};
ghost use Rattle.oauth_flow.specs.declared.asks.OAuthError.TheVariants.{InvalidGrant};
ghost use Rattle.oauth_flow.specs.declared.asks.TradeAsk.{TradeAsk};
ghost use Rattle.oauth_flow.specs.Asks.{Checks, Tells};
ghost use Rattle.oauth_flow.specs.Trades as spec;

use crate::asks::{OAuthError, TradeAsk, is_text};
use crate::clients::{ClientOwner, client_named, whose};
use hub_kit::hashes::hash_of;
use hub_kit::list::List;
use hub_kit::moment::Moment;
use hub_kit::names::ServerKey;
use hub_kit::text::Text;
use hub_rows::records::{OAuthClient, OAuthCode, Token};
use hub_tables::tables::Tables;
use scope_filters::holder::Owner;
use scope_filters::scope::{RawFilter, RawScope};
use scope_names::action::Action;
use std::alloc::{AllocError, Global};

/// How long a token lives, in seconds.
const LIFE: u64 = 1_209_600;

/// The code as it is used from now on, and the token of this text, under this id, that it is traded for. The refusals in their order:
/// `InvalidRequest` without a grant type; `UnsupportedGrantType` for another than `authorization_code`; `InvalidRequest` where another
/// field is missing; `InvalidClient` where the client isn't kept or the secret isn't its own; `InvalidGrant` where the code isn't kept, is
/// of another client or URI, was used, or is over; `HashKept`. For a used code it tells the token to revoke, where that is kept.
pub fn trade(
    alloc: Global,
    tables: &Tables,
    ask: &TradeAsk,
    text: &Text,
    id: u64,
    now: Moment,
) -> Result<(OAuthCode, Token), OAuthError>
    ensures { Tells (spec.trade tables.now ask.now text.now id now) result }
{
    check(alloc, tables, ask)?;
    let code = code_named(alloc, tables, &ask.code)?;
    on_code(alloc, tables, ask, text, id, now, code)
}

/// Refuses what may not be traded, whatever the code is.
fn check(alloc: Global, tables: &Tables, ask: &TradeAsk) -> Result<(), OAuthError>
    ensures { Checks (spec.refused tables.now ask.now) result }
{
    if ask.grant_type.is_none() {
        return Err(OAuthError::InvalidRequest);
    }
    if !is_text("authorization_code", &ask.grant_type) {
        return Err(OAuthError::UnsupportedGrantType);
    }
    if !is_whole(ask) {
        return Err(OAuthError::InvalidRequest);
    }
    if has_secret(
        alloc,
        &ask.client_secret,
        client_named(tables, &ask.client_id),
    )? {
        Ok(())
    } else {
        Err(OAuthError::InvalidClient)
    }
}

fn is_whole(ask: &TradeAsk) -> bool
    ensures { result ≡ spec.is_whole ask.now }
{
    ask.code.is_some()
        && ask.redirect_uri.is_some()
        && ask.client_id.is_some()
        && ask.client_secret.is_some()
}

/// Whether the secret is the client's.
fn has_secret(
    alloc: Global,
    secret: &Option<Text>,
    client: Option<&OAuthClient>,
) -> Result<bool, AllocError>
    ensures { IfOk result (λ b. b ≡ spec.has_secret secret.now (option_copied client.entry)) }
{
    let Some(client) = client else {
        return Ok(false);
    };
    let Some(secret) = secret else {
        return Ok(false);
    };
    let hash = hash_of(alloc, secret.as_bytes())?;
    Ok(hash == client.hash)
}

/// The kept code of a text.
fn code_named<'a>(
    alloc: Global,
    tables: &'a Tables,
    text: &Option<Text>,
) -> Result<Option<&'a OAuthCode>, AllocError>
    ensures { IfOk result (λ code. option_copied code ≡ spec.code_named tables.now text.now) }
{
    let Some(text) = text else {
        return Ok(None);
    };
    let hash = hash_of(alloc, text.as_bytes())?;
    Ok(tables.grant_code(&hash))
}

fn on_code(
    alloc: Global,
    tables: &Tables,
    ask: &TradeAsk,
    text: &Text,
    id: u64,
    now: Moment,
    code: Option<&OAuthCode>,
) -> Result<(OAuthCode, Token), OAuthError>
    ensures { Tells (spec.on_code tables.now ask.now text.now id now (option_copied code.entry)) result }
{
    let Some(code) = code else {
        return Err(OAuthError::InvalidGrant { revoke: None });
    };
    if !is_asked(ask, code) {
        return Err(OAuthError::InvalidGrant { revoke: None });
    }
    match code.token {
        None => unused(alloc, tables, code, text, id, now),
        Some(token) => Err(OAuthError::InvalidGrant {
            revoke: if_kept(tables, token),
        }),
    }
}

/// Whether the code was made for this client at this URI.
fn is_asked(ask: &TradeAsk, code: &OAuthCode) -> bool
    ensures { result ≡ spec.is_asked ask.now code.now }
{
    is_text(code.client.as_str(), &ask.client_id)
        && is_text(code.redirect_uri.as_str(), &ask.redirect_uri)
}

fn if_kept(tables: &Tables, token: u64) -> Option<u64>
    ensures { result ≡ spec.if_kept tables.now token }
{
    if tables.token(token).is_some() {
        Some(token)
    } else {
        None
    }
}

/// What a code that wasn't used is traded for.
fn unused(
    alloc: Global,
    tables: &Tables,
    code: &OAuthCode,
    text: &Text,
    id: u64,
    now: Moment,
) -> Result<(OAuthCode, Token), OAuthError>
    ensures { Tells (spec.unused tables.now code.now text.now id now) result }
{
    if code.expires_at <= now {
        return Err(OAuthError::InvalidGrant { revoke: None });
    }
    let hash = hash_of(alloc, text.as_bytes())?;
    if is_hash_kept(tables, &hash) {
        return Err(OAuthError::HashKept);
    }
    let token = traded_token(alloc, code, hash, id, now)?;
    let code = used(alloc, code, id)?;
    Ok((code, token))
}

fn is_hash_kept(tables: &Tables, hash: &Text) -> bool
    ensures { result ≡ spec.is_hash_kept tables.now hash.now }
{
    tables.token_of_hash(hash).is_some()
}

/// The code, traded for a token.
fn used(alloc: Global, code: &OAuthCode, token: u64) -> Result<OAuthCode, AllocError>
    ensures { IfOk result (λ used. used ≡ record code.now { token = Some token }) }
{
    let mut used = code.copy(alloc)?;
    used.token = Some(token);
    Ok(used)
}

/// The token of a hash that a code is traded for.
fn traded_token(
    alloc: Global,
    code: &OAuthCode,
    hash: Text,
    id: u64,
    now: Moment,
) -> Result<Token, AllocError>
    ensures { IfOk result (λ token. token ≡ spec.traded_token code.now hash id now) }
{
    let client = whose(&code.client);
    Ok(Token {
        id,
        client: Some(code.client.copy(alloc)?),
        created: now,
        expires_at: Some(now.later(LIFE)),
        hash,
        issued_for: traded_for(client),
        note: Text::new(alloc),
        owner: Owner::User(code.owner),
        scopes: traded_scopes(alloc, client)?,
    })
}

/// The access that a client gives, and the name of the user.
fn traded_scopes(alloc: Global, client: Option<ClientOwner>) -> Result<List<RawScope>, AllocError>
    ensures { IfOk result (λ scopes. scopes ≡ spec.traded_scopes client) }
{
    let Some(client) = client else {
        return Ok(List::new(alloc));
    };
    let name = RawScope::Plain {
        action: Action::ReadUsersName,
        filter: RawFilter::HolderUser,
    };
    Ok(List::from_vec(Vec::from_slice(alloc, &[access(client), name])?))
}

/// Access to the server or the service whose client it is.
fn access(client: ClientOwner) -> RawScope
    ensures { result ≡ spec.access client }
{
    match client {
        ClientOwner::Server(_) => RawScope::Plain {
            action: Action::AccessServers,
            filter: RawFilter::HolderServer,
        },
        ClientOwner::Service(service) => RawScope::Plain {
            action: Action::AccessServices,
            filter: RawFilter::Service(service),
        },
    }
}

fn traded_for(client: Option<ClientOwner>) -> Option<ServerKey>
    ensures { result ≡ spec.traded_for client }
{
    match client {
        Some(ClientOwner::Server(server)) => Some(server),
        _ => None,
    }
}

/// A trade tells a token to revoke exactly where its code was used, and the token that it was traded for is kept.
pub fn used_codes_revoke()
    ensures { (t : State) (ask : TradeAsk) (text : List ℕ) (id now token : ℕ)
        → (spec.trade t ask text id now ≡ Err (InvalidGrant (Some token))) ↔ spec.Revokes t ask token }
{}
