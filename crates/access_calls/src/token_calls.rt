//! The calls on the tokens of users.
ghost use Rattle.std.specs.Prelude.{◌≡◌, ◌<◌, ◌-◌, ◌^◌, ◌++◌, map as over, IfOk, OnOk};
ghost use Rattle.scope_meet.specs.FilterTexts.{written};
ghost use Rattle.hub_view.specs.Body.{body_tokens, bodies};
ghost use Rattle.hub_rows.specs.declared.changes.RowChange.TheVariants.{Remove};
ghost use Rattle.hub_rows.specs.declared.rows.RowKey.TheVariants as RowKey;
ghost use Rattle.hub_machine.specs.Answers.{answer_view};
ghost use Rattle.hub_machine.specs.Replies as replies;
ghost use Rattle.access_calls.specs.TokenCalls as spec;

use crate::answers::told;
use hub_kit::hashes::{hash_of, token_text};
use hub_kit::moment::Moment;
use hub_kit::names::UserName;
use hub_kit::text::Text;
use hub_machine::answer::{Answer, gives, plain, rows_then};
use hub_machine::machine::Machine;
use hub_machine::refusal::{Refusal, worded};
use hub_rows::changes::RowChange;
use hub_rows::counter::Counter;
use hub_rows::records::{Next, Token};
use hub_rows::rows::{Row, RowKey};
use hub_tables::tables::Tables;
use hub_view::{Body, add_member, new_token_body, token_body};
use scope_filters::filter::Filter;
use scope_filters::holder::Owner;
use scope_filters::known::unknown_scope;
use scope_filters::scope::{RawFilter, RawScope, scope_text};
use scope_meet::inside::Inside;
use std::alloc::{AllocError, Global};
use token_store::finding::expired_tokens;
use token_store::issuing::{TokenAsk, issued};
use token_store::keeping::{is_text_kept, next_id};

/// A kept token.
fn token_at(alloc: Global, hub: &Machine, id: u64) -> Result<Body, AllocError>
    ensures { IfOk result (λ body. body_tokens body ≡ spec.token_at hub.now id) }
{
    match hub.tables().token(id) {
        Some(token) => token_body(alloc, token),
        None => Ok(Body::Nothing),
    }
}

/// The bodies of some tokens.
fn tokens_at(alloc: Global, hub: &Machine, ids: &[u64]) -> Result<Vec<Body>, AllocError>
    ensures { IfOk result (λ made. bodies made.items ≡ over (spec.token_at hub.now) ids.now) }
{
    let mut bodies = Vec::new(alloc);
    for id in ids {
        bodies.push(token_at(alloc, hub, *id)?)?;
    }
    Ok(bodies)
}

/// `GET /users/{user}/tokens`
pub fn get_tokens(alloc: Global, hub: &Machine, user: &UserName) -> Result<Answer, AllocError>
    ensures { IfOk result (λ answer. answer_view answer ≡ spec.get_tokens hub.now user.now) }
{
    let ids = hub.tables().tokens_of(alloc, &Owner::User(*user))?;
    let tokens = tokens_at(alloc, hub, ids.as_slice())?;
    let mut fields = Vec::new(alloc);
    add_member(alloc, &mut fields, true, "api_tokens", Body::Items(tokens))?;
    Ok(gives(200, Body::Pairs(fields)))
}

/// `GET /users/{user}/tokens/{id}`
pub fn get_token(alloc: Global, hub: &Machine, id: u64) -> Result<Answer, AllocError>
    ensures { IfOk result (λ answer. answer_view answer ≡ spec.get_token hub.now id) }
{
    Ok(gives(200, token_at(alloc, hub, id)?))
}

/// `DELETE /users/{user}/tokens/{id}`
pub fn delete_token(alloc: Global, hub: &Machine, id: u64) -> Result<Answer, AllocError>
    ensures { IfOk result (λ answer. answer_view answer ≡ spec.delete_token hub.now id) }
{
    let mut rows = Vec::new(alloc);
    rows.push(RowChange::Remove(RowKey::Token(id)))?;
    Ok(rows_then(rows, plain(204, Body::Nothing)))
}

/// `POST /users/{user}/tokens`, for which 16 bytes were drawn. `inside` tells whether the owner may do all that is asked.
pub fn post_token(
    alloc: Global,
    hub: &Machine,
    now: Moment,
    draw: Option<[u8; 16]>,
    inside: Inside,
    ask: &TokenAsk,
) -> Result<Answer, AllocError>
    ensures { IfOk result (λ answer. answer_view answer ≡ spec.post_token hub.now now draw inside ask.now) }
{
    match draw {
        Some(draw) => {
            let text = token_text(alloc, draw)?;
            issue(alloc, hub, now, &text, inside, ask)
        }
        None => Ok(Answer::Refuses(Refusal::NoDraw)),
    }
}

/// The answer where the new token would have this text.
fn issue(
    alloc: Global,
    hub: &Machine,
    now: Moment,
    text: &Text,
    inside: Inside,
    ask: &TokenAsk,
) -> Result<Answer, AllocError>
    ensures { IfOk result (λ answer. answer_view answer ≡ spec.issue hub.now now text.now inside ask.now) }
{
    let over = expired_tokens(alloc, hub.tables(), &Owner::User(ask.owner), now)?;
    issue_with(alloc, hub, now, text, inside, ask, over.as_slice())
}

/// The same, with the owner's tokens that are over.
fn issue_with(
    alloc: Global,
    hub: &Machine,
    now: Moment,
    text: &Text,
    inside: Inside,
    ask: &TokenAsk,
    over: &[u64],
) -> Result<Answer, AllocError>
    ensures { IfOk result (λ answer. answer_view answer ≡ spec.issue_with hub.now now text.now inside ask.now over.now) }
{
    match refusal(alloc, hub.tables(), over, text, inside, ask)? {
        Some(refusal) => Ok(Answer::Refuses(refusal)),
        None => made(
            alloc,
            new_token(alloc, hub.tables(), now, text, ask)?,
            over,
            text,
        ),
    }
}

/// The first rule that refuses the token.
fn refusal(
    alloc: Global,
    tables: &Tables,
    over: &[u64],
    text: &Text,
    inside: Inside,
    ask: &TokenAsk,
) -> Result<Option<Refusal>, AllocError>
    ensures { IfOk result (λ r. r ≡ replies.first_refusal (spec.token_rules tables.now over.now text.now inside ask.now)) }
{
    if let Some(unknown) = if_unknown(alloc, tables, ask)? {
        return Ok(Some(unknown));
    }
    if let Some(outside) = if_not_held(alloc, inside)? {
        return Ok(Some(outside));
    }
    if is_text_kept(alloc, tables, text)? {
        return Ok(Some(Refusal::Exists(Text::from_str(alloc, "token")?)));
    }
    if is_without_room(alloc, tables, over)? {
        return Ok(Some(Refusal::Full {
            kind: 5,
            limit: tables.limits().tokens,
        }));
    }
    Ok(None)
}

/// The refusal of a scope whose custom name isn't declared.
fn if_unknown(alloc: Global, tables: &Tables, ask: &TokenAsk) -> Result<Option<Refusal>, AllocError>
    ensures { IfOk result (λ r. r ≡ spec.if_unknown tables.now ask.now) }
{
    match unknown_scope(tables.scope_table(), ask.scopes.as_slice()) {
        None => Ok(None),
        Some(scope) => {
            let text = scope_text(alloc, scope)?;
            Ok(Some(worded(alloc, "unknown scope ", text.as_str())?))
        }
    }
}

/// The refusal of a row that the owner doesn't hold whole.
fn if_not_held(alloc: Global, inside: Inside) -> Result<Option<Refusal>, AllocError>
    ensures { IfOk result (λ r. r ≡ spec.if_not_held inside) }
{
    match inside {
        Inside::Yes => Ok(None),
        Inside::NotHeld { action, filter } => {
            let scope = RawScope::Plain {
                action,
                filter: written(filter),
            };
            Ok(Some(Refusal::NotHeld(scope_text(alloc, &scope)?)))
        }
    }
}

/// A filter as a scope is written with it.
fn written(filter: Filter) -> RawFilter
    ensures { result ≡ written filter }
{
    match filter {
        Filter::All | Filter::OwnerOf(_) => RawFilter::Unfiltered,
        Filter::User(user) => RawFilter::User(user),
        Filter::Group(group) => RawFilter::Group(group),
        Filter::Server(server) => RawFilter::Server(server),
        Filter::Service(service) => RawFilter::Service(service),
    }
}

/// Whether there is no room for a token more once those that are over have gone, or no number is left for it.
pub(crate) fn is_without_room(
    alloc: Global,
    tables: &Tables,
    over: &[u64],
) -> Result<bool, AllocError>
    ensures { IfOk result (λ b. b ≡ spec.is_without_room tables.now over.now) }
{
    let next = next_id(alloc, tables)?;
    let kept = tables.count_of_tokens().saturating_sub(over.len());
    Ok(tables.limits().tokens as usize <= kept || next == u64::MAX)
}

/// The token that is asked for, under the next number.
fn new_token(
    alloc: Global,
    tables: &Tables,
    now: Moment,
    text: &Text,
    ask: &TokenAsk,
) -> Result<Token, AllocError>
    ensures { IfOk result (λ token. token ≡ spec.new_token tables.now now text.now ask.now) }
{
    let id = next_id(alloc, tables)?;
    issued(alloc, ask, hash_of(alloc, text.as_bytes())?, id, now)
}

/// The answer with this new token, which tells its text.
fn made(alloc: Global, token: Token, over: &[u64], text: &Text) -> Result<Answer, AllocError>
    requires { token.id < 2 ^ 64 - 1 }
    ensures { IfOk result (λ answer. answer_view answer ≡ spec.made token over.now text.now) }
{
    let body = new_token_body(alloc, &token, text.as_str());
    let rows = token_rows(alloc, token, over);
    told(rows, 201, body)
}

/// The rows of a new token.
fn token_rows(alloc: Global, token: Token, over: &[u64]) -> Result<Vec<RowChange>, AllocError>
    requires { token.id < 2 ^ 64 - 1 }
    ensures { IfOk result (λ rows. rows.items ≡ spec.token_rows token over.now) }
{
    let mut rows = Vec::new(alloc);
    push_token(alloc, &mut rows, token, over)?;
    Ok(rows)
}

/// Adds the rows of a new token.
pub(crate) fn push_token(
    alloc: Global,
    rows: &mut Vec<RowChange>,
    token: Token,
    over: &[u64],
) -> Result<(), AllocError>
    requires { token.id < 2 ^ 64 - 1 }
    ensures { OnOk result (rows.new.items ≡ rows.old.items ++ spec.token_rows token over.now) }
{
    let next = token.id + 1;
    rows.push(RowChange::Put(Row::Token(token)))?;
    let name = Counter::token(alloc)?;
    rows.push(RowChange::Put(Row::Next(Next { name, next })))?;
    push_removals(rows, over)
}

/// Adds the removals of some tokens.
fn push_removals(rows: &mut Vec<RowChange>, ids: &[u64]) -> Result<(), AllocError>
    ensures { OnOk result (rows.new.items ≡ rows.old.items ++ over (λ id. Remove (RowKey.Token id)) ids.now) }
{
    for id in ids {
        rows.push(RowChange::Remove(RowKey::Token(*id)))?;
    }
    Ok(())
}
