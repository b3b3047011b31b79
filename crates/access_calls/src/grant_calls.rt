//! The calls of the authorization code grant (RFC 6749, section 4.1).
ghost use Rattle.std.specs.Prelude.{◌≡◌, ◌<◌, ◌-◌, ◌^◌, ◌∷◌, [], ◌++◌, codes, Err, IfOk, OnOk, alloc_error};
ghost use Rattle.std.specs.FinMap as map;
ghost use Rattle.hub_tables.specs.Lookups.{next_of};
ghost use Rattle.hub_view.specs.Body.{body_tokens};
ghost use Rattle.hub_machine.specs.Answers.{answer_view, good_view};
ghost use Rattle.hub_machine.specs.Replies as replies;
ghost use Rattle.access_calls.specs.GrantCalls as spec;

use crate::token_calls::{is_without_room, push_token};
use form_urlencoded::Serializer;
use hub_kit::hashes::token_text;
use hub_kit::moment::Moment;
use hub_kit::text::Text;
use hub_machine::answer::{Answer, Good, rows_then};
use hub_machine::machine::Machine;
use hub_machine::planned::Planned;
use hub_machine::refusal::Refusal;
use hub_rows::changes::RowChange;
use hub_rows::records::{OAuthClient, OAuthCode, Token};
use hub_rows::rows::{Row, RowKey};
use hub_tables::tables::Tables;
use hub_view::{Body, add_member, line};
use oauth_flow::asks::{AuthorizeAsk, OAuthError, TradeAsk};
use oauth_flow::clients::client_of;
use oauth_flow::codes::{expired_codes, make_grant_code};
use oauth_flow::trades::trade;
use scope_filters::holder::Owner;
use std::alloc::{AllocError, Global};
use token_store::finding::expired_tokens;
use token_store::keeping::next_id;

/// How long a token lives that a code was traded for, in seconds.
const LIFE_OF_TOKEN: u64 = 1_209_600;

// ---- refusals

/// How a refusal of the rules is said. Want of memory stays that.
fn refusal_said(alloc: Global, error: OAuthError) -> Result<Refusal, AllocError>
    ensures said { IfOk result (λ r. r ≡ spec.refusal_of error) }
    ensures memory { error ≡ OAuthError.Memory → result ≡ Err alloc_error }
{
    match error {
        OAuthError::InvalidRequest => grant_refusal(alloc, "invalid_request"),
        OAuthError::InvalidClient => grant_refusal(alloc, "invalid_client"),
        OAuthError::InvalidGrant { .. } => grant_refusal(alloc, "invalid_grant"),
        OAuthError::UnsupportedGrantType => grant_refusal(alloc, "unsupported_grant_type"),
        OAuthError::HashKept => Ok(Refusal::Exists(Text::from_str(alloc, "token")?)),
        OAuthError::Memory => Err(AllocError),
    }
}

fn grant_refusal(alloc: Global, word: &str) -> Result<Refusal, AllocError>
    ensures { IfOk result (λ r. r ≡ Refusal.Grant word.now) }
{
    Ok(Refusal::Grant(Text::from_str(alloc, word)?))
}

// ---- `GET /oauth2/authorize`

/// Why no client asks for an authorization, if none does.
pub fn client_refusal(
    alloc: Global,
    hub: &Machine,
    ask: &AuthorizeAsk,
) -> Result<Option<Refusal>, AllocError>
    ensures { IfOk result (λ r. r ≡ spec.client_refusal hub.now.tables ask.now) }
{
    match client_of(alloc, hub.tables(), ask) {
        Ok(client) => {
            drop(client);
            Ok(None)
        }
        Err(error) => Ok(Some(refusal_said(alloc, error)?)),
    }
}

/// `GET /oauth2/authorize`, for which 16 bytes were drawn, with a token of this owner.
pub fn get_authorize(
    alloc: Global,
    hub: &Machine,
    now: Moment,
    draw: Option<[u8; 16]>,
    owner: &Owner,
    ask: &AuthorizeAsk,
) -> Result<Answer, AllocError>
    ensures { IfOk result (λ answer. answer_view answer ≡ spec.get_authorize hub.now now draw owner.now ask.now) }
{
    match draw {
        Some(draw) => {
            let text = token_text(alloc, draw)?;
            authorize(alloc, hub.tables(), now, &text, owner, ask)
        }
        None => Ok(Answer::Refuses(Refusal::NoDraw)),
    }
}

/// The answer where the new code would have this text.
fn authorize(
    alloc: Global,
    tables: &Tables,
    now: Moment,
    text: &Text,
    owner: &Owner,
    ask: &AuthorizeAsk,
) -> Result<Answer, AllocError>
    ensures { IfOk result (λ answer. answer_view answer ≡ spec.authorize tables.now now text.now owner.now ask.now) }
{
    match client_of(alloc, tables, ask) {
        Ok(client) => grant_to(alloc, tables, now, text, owner, &ask.state, &client),
        Err(error) => refused(alloc, error),
    }
}

/// The answer of an authorization that is refused. Want of memory stays that.
fn refused(alloc: Global, error: OAuthError) -> Result<Answer, AllocError>
    ensures said { IfOk result (λ a. answer_view a ≡ replies.refuses (spec.refusal_of error)) }
    ensures memory { error ≡ OAuthError.Memory → result ≡ Err alloc_error }
{
    Ok(Answer::Refuses(refusal_said(alloc, error)?))
}

/// The answer to a client that asks, with a token of this owner.
fn grant_to(
    alloc: Global,
    tables: &Tables,
    now: Moment,
    text: &Text,
    owner: &Owner,
    given: &Option<Text>,
    client: &OAuthClient,
) -> Result<Answer, AllocError>
    ensures { IfOk result (λ answer. answer_view answer ≡ spec.grant_to tables.now now text.now owner.now given.now client.now) }
{
    match owner {
        Owner::User(user) => {
            let over = expired_codes(alloc, tables, now)?;
            let code = make_grant_code(alloc, client, user, text, now)?;
            put_code(alloc, tables, over.as_slice(), text, given, &code)
        }
        Owner::Service(_) => Ok(Answer::Refuses(Refusal::NeedsUser)),
    }
}

/// The answer with a new code, which takes the place of those that are over.
fn put_code(
    alloc: Global,
    tables: &Tables,
    over: &[Text],
    text: &Text,
    given: &Option<Text>,
    code: &OAuthCode,
) -> Result<Answer, AllocError>
    ensures { IfOk result (λ answer. answer_view answer ≡ spec.put_code tables.now over.now text.now given.now code.now) }
{
    match code_refusal(alloc, tables, over, code)? {
        Some(refusal) => Ok(Answer::Refuses(refusal)),
        None => granted(alloc, code, over, text, given),
    }
}

/// The first rule that refuses the code.
fn code_refusal(
    alloc: Global,
    tables: &Tables,
    over: &[Text],
    code: &OAuthCode,
) -> Result<Option<Refusal>, AllocError>
    ensures { IfOk result (λ r. r ≡ replies.first_refusal (spec.code_rules tables.now over.now code.now)) }
{
    if tables.grant_code(&code.hash).is_some() {
        return Ok(Some(Refusal::Exists(Text::from_str(alloc, "code")?)));
    }
    if is_full(tables, over) {
        return Ok(Some(Refusal::Full {
            kind: 11,
            limit: tables.limits().codes,
        }));
    }
    Ok(None)
}

/// Whether there is no room for a code more once those that are over have gone.
fn is_full(tables: &Tables, over: &[Text]) -> bool
    ensures { result ≡ spec.is_full tables.now over.now }
{
    let kept = count_of_grant_codes(tables).saturating_sub(over.len());
    tables.limits().codes as usize <= kept
}

fn count_of_grant_codes(tables: &Tables) -> usize
    ensures { result ≡ map.len tables.now.grant_codes }
{
    tables.grant_codes().len()
}

/// The answer with this new code, which tells its text.
fn granted(
    alloc: Global,
    code: &OAuthCode,
    over: &[Text],
    text: &Text,
    given: &Option<Text>,
) -> Result<Answer, AllocError>
    ensures { IfOk result (λ answer. answer_view answer ≡ spec.granted code.now over.now text.now given.now) }
{
    let place = place_of(alloc, &code.redirect_uri, text, text_in(given))?;
    let rows = code_rows(alloc, code, over)?;
    Ok(rows_then(rows, sent_to(place)))
}

/// The text of a field, which is empty where there is none.
fn text_in(field: &Option<Text>) -> &str
    ensures { result.now ≡ spec.text_in field.now }
{
    match field {
        None => "",
        Some(text) => text.as_str(),
    }
}

/// Where the user goes on: at the client's URI, with the code and the state in its query.
fn place_of(alloc: Global, uri: &Text, code: &Text, state: &str) -> Result<Text, AllocError>
    ensures { IfOk result (λ place. place ≡ spec.place_of uri.now code.now state.now) }
{
    let form = grant_form(alloc, code.as_str(), state)?;
    let mut place = uri.copy(alloc)?;
    place.push_str("?")?;
    place.push_str(form.as_str())?;
    Ok(place)
}

/// The code and the state as a form.
fn grant_form(alloc: Global, code: &str, state: &str) -> Result<Text, AllocError>
    ensures { IfOk result (λ text. text ≡ spec.grant_form code.now state.now) }
{
    let mut form = Serializer::new(String::new(alloc));
    form.append_pair("code", code)?;
    form.append_pair("state", state)?;
    Ok(Text::from_string(form.finish()))
}

/// A reply without body that names a place.
fn sent_to(place: Text) -> Good
    ensures { good_view result ≡ spec.sent_to place }
{
    Good {
        status: 302,
        body: Body::Nothing,
        location: Some(place),
        no_store: false,
    }
}

/// The rows of a new code.
fn code_rows(alloc: Global, code: &OAuthCode, over: &[Text]) -> Result<Vec<RowChange>, AllocError>
    ensures { IfOk result (λ rows. rows.items ≡ spec.code_rows code.now over.now) }
{
    let mut rows = Vec::new(alloc);
    rows.push(RowChange::Put(Row::OAuthCode(code.copy(alloc)?)))?;
    push_removals(alloc, &mut rows, over)?;
    Ok(rows)
}

/// Adds the removals of some codes.
fn push_removals(
    alloc: Global,
    rows: &mut Vec<RowChange>,
    hashes: &[Text],
) -> Result<(), AllocError>
    ensures { OnOk result (rows.new.items ≡ rows.old.items ++ spec.removals hashes.now) }
{
    for hash in hashes {
        rows.push(RowChange::Remove(RowKey::OAuthCode(hash.copy(alloc)?)))?;
    }
    Ok(())
}

// ---- `POST /oauth2/token`

/// `POST /oauth2/token`, for which 16 bytes were drawn.
pub fn post_trade(
    alloc: Global,
    hub: &Machine,
    now: Moment,
    draw: Option<[u8; 16]>,
    ask: &TradeAsk,
) -> Result<Answer, AllocError>
    ensures { IfOk result (λ answer. answer_view answer ≡ spec.post_trade hub.now now draw ask.now) }
{
    match draw {
        Some(draw) => {
            let text = token_text(alloc, draw)?;
            trade_for(alloc, hub.tables(), now, &text, ask)
        }
        None => Ok(Answer::Refuses(Refusal::NoDraw)),
    }
}

/// The answer where the new token would have this text.
fn trade_for(
    alloc: Global,
    tables: &Tables,
    now: Moment,
    text: &Text,
    ask: &TradeAsk,
) -> Result<Answer, AllocError>
    ensures { IfOk result (λ answer. answer_view answer ≡ spec.trade_for tables.now now text.now ask.now) }
{
    let id = next_id(alloc, tables)?;
    match trade(alloc, tables, ask, text, id, now) {
        Ok((code, token)) => traded(alloc, tables, now, text, &code, &token),
        Err(error) => refused_trade(alloc, error),
    }
}

/// The answer to a refused trade. Of a used code, the token that it was traded for goes with it. Want of memory stays that.
fn refused_trade(alloc: Global, error: OAuthError) -> Result<Answer, AllocError>
    ensures said { IfOk result (λ a. answer_view a ≡ spec.refused_trade error) }
    ensures memory { error ≡ OAuthError.Memory → result ≡ Err alloc_error }
{
    let token = revoked(&error);
    let refusal = refusal_said(alloc, error)?;
    refuses_without(alloc, token, refusal)
}

/// The token that a used code was traded for, where it is kept.
fn revoked(error: &OAuthError) -> Option<u64>
    ensures { result ≡ spec.revoked error.now }
{
    match error {
        OAuthError::InvalidGrant { revoke } => *revoke,
        _ => None,
    }
}

/// A refusal, with which a token goes, if one does.
fn refuses_without(
    alloc: Global,
    token: Option<u64>,
    refusal: Refusal,
) -> Result<Answer, AllocError>
    ensures { IfOk result (λ a. answer_view a ≡ spec.refuses_without token refusal) }
{
    let Some(token) = token else {
        return Ok(Answer::Refuses(refusal));
    };
    let rows = revocation(alloc, token)?;
    Ok(Answer::RefusesWith {
        change: Planned::of_rows(rows),
        refusal,
    })
}

/// The row of a token that goes.
fn revocation(alloc: Global, token: u64) -> Result<Vec<RowChange>, AllocError>
    ensures { IfOk result (λ rows. rows.items ≡ RowChange.Remove (RowKey.Token token) ∷ []) }
{
    let mut rows = Vec::new(alloc);
    rows.push(RowChange::Remove(RowKey::Token(token)))?;
    Ok(rows)
}

/// The answer with a code that is used from now on and the token that it is traded for, which takes the place of those of its owner
/// that are over.
fn traded(
    alloc: Global,
    tables: &Tables,
    now: Moment,
    text: &Text,
    code: &OAuthCode,
    token: &Token,
) -> Result<Answer, AllocError>
    requires { token.now.id ≡ next_of tables.now (codes "token") }
    ensures { IfOk result (λ answer. answer_view answer ≡ spec.traded tables.now now text.now (code.now, token.now)) }
{
    let over = expired_tokens(alloc, tables, &token.owner, now)?;
    put_traded(alloc, tables, over.as_slice(), text, code, token)
}

/// The same, with the owner's tokens that are over.
fn put_traded(
    alloc: Global,
    tables: &Tables,
    over: &[u64],
    text: &Text,
    code: &OAuthCode,
    token: &Token,
) -> Result<Answer, AllocError>
    requires { token.now.id ≡ next_of tables.now (codes "token") }
    ensures { IfOk result (λ answer. answer_view answer ≡ spec.put_traded tables.now over.now text.now code.now token.now) }
{
    if is_without_room(alloc, tables, over)? {
        return Ok(Answer::Refuses(Refusal::Full {
            kind: 5,
            limit: tables.limits().tokens,
        }));
    }
    let good = bearer(alloc, text)?;
    let rows = trade_rows(alloc, code, token, over)?;
    Ok(rows_then(rows, good))
}

/// The rows of a used code and of the token that it is traded for.
fn trade_rows(
    alloc: Global,
    code: &OAuthCode,
    token: &Token,
    over: &[u64],
) -> Result<Vec<RowChange>, AllocError>
    requires { token.now.id < 2 ^ 64 - 1 }
    ensures { IfOk result (λ rows. rows.items ≡ spec.trade_rows code.now token.now over.now) }
{
    let mut rows = Vec::new(alloc);
    rows.push(RowChange::Put(Row::OAuthCode(code.copy(alloc)?)))?;
    push_token(alloc, &mut rows, token.copy(alloc)?, over)?;
    Ok(rows)
}

/// The reply that tells the text of a traded token (RFC 6749, section 5.1).
fn bearer(alloc: Global, text: &Text) -> Result<Good, AllocError>
    ensures { IfOk result (λ good. good_view good ≡ spec.bearer text.now) }
{
    Ok(Good {
        status: 200,
        body: bearer_body(alloc, text.as_str())?,
        location: None,
        no_store: true,
    })
}

fn bearer_body(alloc: Global, text: &str) -> Result<Body, AllocError>
    ensures { IfOk result (λ body. body_tokens body ≡ spec.bearer_body text.now) }
{
    let mut fields = Vec::new(alloc);
    add_member(alloc, &mut fields, true, "access_token", line(alloc, text)?)?;
    let life = Body::Number(LIFE_OF_TOKEN);
    add_member(alloc, &mut fields, true, "expires_in", life)?;
    add_member(
        alloc,
        &mut fields,
        true,
        "token_type",
        line(alloc, "Bearer")?,
    )?;
    Ok(Body::Pairs(fields))
}
