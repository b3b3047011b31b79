//! What to do with a request: the hub is asked at most once.
ghost use Rattle.std.specs.Prelude.{◌≡◌, ◌≤◌, ◌<◌, List, length, take, bytes_eq, codes, IfOk};
ghost use Rattle.std.specs.Prelude as prelude;
ghost use Rattle.std.specs.Option.{option_copied};
ghost use Rattle.serde_json.specs.View.{view};
ghost use Rattle.hub_link.specs.Links.{Exchange, Asks};
ghost use Rattle.guard.specs.Access.{access_request};
ghost use Rattle.guard_login.specs.Answers.{Steps};
ghost use Rattle.guard_login.specs.Cookies as cookies;
ghost use Rattle.guard_login.specs.Queries as queries;
ghost use Rattle.guard_login.specs.Signed as spec;
ghost use Rattle.guard_login.specs.Texts as texts;
ghost use Rattle.guard_login.specs.declared.cookies.Cookie.TheVariants as Kind;

use crate::cookies::{Cookie, cookie_of, is_token};
use crate::door::Door;
use crate::nexts::{base_of, next_in};
use crate::queries::{parts_of, text_at};
use crate::texts::{callback_of, trade_text};
use guard::access::{Access, ask_access};
use guard::denials::Denial;
use http_wire::head::Head;
use http_wire::token::token_of;
use hub_devices::link_error::LinkError;
use hub_kit::bytes::Bytes;
use hub_kit::text::Text;
use hub_link::link::HubLink;
use hub_link::replies::read_reply;
use request_parts::body::body_object;
use request_parts::query::form_value;
use serde_json::Value;
use std::alloc::{AllocError, Global};

/// The code that a callback brings, and where the browser goes on.
#[derive(Drop)]
pub struct Called {
    pub code: Text,
    pub next: Bytes,
}

/// What to do with a request: pass it on, refuse it, send the browser to sign in, or give it a token and send it on.
#[derive(Drop)]
pub enum Step {
    Pass,
    Deny(Denial),
    Start,
    Give(Bytes, Bytes),
}

fn is_get(head: &Head) -> bool
    ensures { result ≡ spec.is_get head.now }
{
    head.method.as_str() == "GET"
}

/// The token of the header, else of the cookie.
pub(crate) fn token_given(head: &Head) -> Option<&[u8]>
    ensures { option_copied result ≡ spec.token_given head.now }
{
    match token_of(head) {
        Some(token) => Some(token),
        None => cookie_of(Cookie::Token, head.headers.as_slice()),
    }
}

fn with_next(code: Text, next: Option<Bytes>) -> Result<Called, Denial>
    ensures { result ≡ spec.with_next code next }
{
    match next {
        Some(next) => Ok(Called { code, next }),
        None => Err(Denial::BadNext),
    }
}

/// Whether the state of a cookie is that of a query.
fn is_state(cookie: &[u8], state: &Text) -> bool
    requires { 32 < length cookie.now }
    ensures { result ≡ bytes_eq (take 32 cookie.now) state.now }
{
    &cookie[..32] == state.as_bytes()
}

/// The callback of a sign-in whose cookie is there.
fn checked(
    alloc: Global,
    base: &Text,
    code: Text,
    state: &Text,
    cookie: &[u8],
) -> Result<Result<Called, Denial>, AllocError>
    requires { 32 < length cookie.now }
    ensures { IfOk result (λ call. call ≡ spec.checked base.now (prelude.Some code) (prelude.Some state.now) (prelude.Some cookie.now)) }
{
    if is_state(cookie, state) {
        Ok(with_next(code, next_in(alloc, base.as_bytes(), cookie)?))
    } else {
        Ok(Err(Denial::BadState))
    }
}

/// The code to trade and where the browser goes on, or why the callback is refused.
#[tactic(auto, unfolding(crate::specs::Signed::called))]
fn read_called(
    alloc: Global,
    door: &Door,
    head: &Head,
) -> Result<Result<Called, Denial>, AllocError>
    ensures { IfOk result (λ call. call ≡ spec.called door.now head.now) }
{
    let base = base_of(alloc, &door.key)?;
    let (_, query) = parts_of(head.target.as_slice());
    let Some(code) = form_value(alloc, query, "code")? else {
        return Ok(Err(Denial::BadQuery));
    };
    let Some(state) = form_value(alloc, query, "state")? else {
        return Ok(Err(Denial::BadQuery));
    };
    match cookie_of(Cookie::State, head.headers.as_slice()) {
        Some(cookie) => checked(alloc, &base, code, &state, cookie),
        None => Ok(Err(Denial::BadState)),
    }
}

/// A text as a token, where it has the form of one.
fn as_token(alloc: Global, text: &str) -> Result<Option<Bytes>, AllocError>
    ensures { IfOk result (λ token. token ≡ cookies.in_form Kind.Token (prelude.Some text.now)) }
{
    if is_token(text.as_bytes()) {
        Ok(Some(Bytes::from_slice(alloc, text.as_bytes())?))
    } else {
        Ok(None)
    }
}

fn token_at(alloc: Global, object: &Value) -> Result<Option<Bytes>, AllocError>
    ensures { IfOk result (λ token. token ≡ cookies.in_form Kind.Token (queries.text_at (codes "access_token") (view object.now))) }
{
    match text_at(object, "access_token") {
        Some(text) => as_token(alloc, text),
        None => Ok(None),
    }
}

/// The access token in a body, where it has the form of a cookie.
fn token_in(alloc: Global, body: &[u8]) -> Result<Option<Bytes>, AllocError>
    ensures { IfOk result (λ token. token ≡ spec.token_in body.now) }
{
    match body_object(alloc, body)? {
        Some(object) => token_at(alloc, &object),
        None => Ok(None),
    }
}

/// Whether a body has an error.
fn has_error(alloc: Global, body: &[u8]) -> Result<bool, AllocError>
    ensures { IfOk result (λ has. has ≡ spec.has_error body.now) }
{
    match body_object(alloc, body)? {
        Some(object) => Ok(text_at(&object, "error").is_some()),
        None => Ok(false),
    }
}

fn by_token_said(token: Option<Bytes>) -> Result<Bytes, Denial>
    ensures { result ≡ spec.by_token_said token }
{
    match token {
        Some(token) => Ok(token),
        None => Err(Denial::BadHub),
    }
}

fn by_error_said(said: bool) -> Denial
    ensures { result ≡ spec.by_error_said said }
{
    if said { Denial::SignIn } else { Denial::BadHub }
}

/// The token that a reply with this status and this body gives, or why it gives none.
fn by_trade(alloc: Global, status: u16, body: &[u8]) -> Result<Result<Bytes, Denial>, AllocError>
    ensures { IfOk result (λ token. token ≡ spec.by_trade status body.now) }
{
    if status == 200 {
        return Ok(by_token_said(token_in(alloc, body)?));
    }
    if status == 400 {
        return Ok(Err(by_error_said(has_error(alloc, body)?)));
    }
    Ok(Err(Denial::BadHub))
}

/// The token that the bytes of a reply give, or why they give none.
fn traded(alloc: Global, reply: &[u8]) -> Result<Result<Bytes, Denial>, AllocError>
    ensures { IfOk result (spec.IsTradedBy reply.now) }
{
    match read_reply(reply) {
        Some((status, body)) => by_trade(alloc, status, body),
        None => Ok(Err(Denial::BadHub)),
    }
}

/// Trades a code at the hub.
fn trade<H: HubLink>(
    alloc: Global,
    door: &Door,
    code: &Text,
    link: &mut H,
) -> Result<Result<Bytes, Denial>, AllocError>
    ensures steps { (asks : List Exchange) × Asks H.asked H.does link.old asks link.new
        × Steps (prelude.Some (texts.trade_text door.now code.now)) spec.traded asks (H.faults link.old) (H.faults link.new) result }
    ensures counted { H.faults link.old ≤ H.faults link.new }
{
    let Ok(request) = trade_text(alloc, door, code) else {
        return Err(AllocError);
    };
    let reply = match link.ask(&request) {
        Ok(reply) => reply,
        Err(LinkError::Failed) => return Ok(Err(Denial::Hub)),
        Err(LinkError::Memory) => return Err(AllocError),
    };
    traded(alloc, reply.as_slice())
}

fn sent_back(next: Bytes, token: Result<Bytes, Denial>) -> Step
    ensures { result ≡ spec.sent_back next token }
{
    match token {
        Ok(token) => Step::Give(token, next),
        Err(denial) => Step::Deny(denial),
    }
}

/// The step of a callback whose code is to be traded.
fn step_called<H: HubLink>(
    alloc: Global,
    door: &Door,
    call: Called,
    link: &mut H,
) -> Result<Step, AllocError>
    ensures steps { (asks : List Exchange) × Asks H.asked H.does link.old asks link.new
        × Steps (spec.asks_trade door.now (prelude.Ok call)) (spec.by_called (prelude.Ok call)) asks
        (H.faults link.old) (H.faults link.new) result }
    ensures counted { H.faults link.old ≤ H.faults link.new }
{
    match trade(alloc, door, &call.code, link) {
        Ok(token) => Ok(sent_back(call.next, token)),
        Err(e) => Err(e),
    }
}

/// The step of a callback.
fn step_callback<H: HubLink>(
    alloc: Global,
    door: &Door,
    head: &Head,
    link: &mut H,
) -> Result<Step, AllocError>
    ensures steps { (asks : List Exchange) × Asks H.asked H.does link.old asks link.new
        × Steps (spec.asks_trade door.now (spec.called door.now head.now)) (spec.by_called (spec.called door.now head.now)) asks
        (H.faults link.old) (H.faults link.new) result }
    ensures counted { H.faults link.old ≤ H.faults link.new }
{
    let Ok(read) = read_called(alloc, door, head) else {
        return Err(AllocError);
    };
    match read {
        Ok(call) => step_called(alloc, door, call, link),
        Err(denial) => Ok(Step::Deny(denial)),
    }
}

/// A request that the hub doesn't know by a token.
fn unsigned(head: &Head) -> Step
    ensures { result ≡ spec.unsigned head.now }
{
    if is_get(head) {
        Step::Start
    } else {
        Step::Deny(Denial::NoToken)
    }
}

fn step_of(head: &Head, access: Access) -> Step
    ensures { result ≡ spec.step_of head.now access }
{
    match access {
        Access::Yes => Step::Pass,
        Access::No => Step::Deny(Denial::NoAccess),
        Access::NoToken => unsigned(head),
        Access::BadReply => Step::Deny(Denial::BadHub),
    }
}

/// The step of a request that has a token.
fn step_token<H: HubLink>(
    alloc: Global,
    door: &Door,
    head: &Head,
    token: &[u8],
    link: &mut H,
) -> Result<Step, AllocError>
    ensures steps { (asks : List Exchange) × Asks H.asked H.does link.old asks link.new
        × Steps (prelude.Some (access_request door.now.key token.now)) (spec.by_access head.now) asks
        (H.faults link.old) (H.faults link.new) result }
    ensures counted { H.faults link.old ≤ H.faults link.new }
{
    match ask_access(alloc, &door.key, token, link) {
        Ok(access) => Ok(step_of(head, access)),
        Err(LinkError::Failed) => Ok(Step::Deny(Denial::Hub)),
        Err(LinkError::Memory) => Err(AllocError),
    }
}

/// The step of a request that is no callback.
fn step_other<H: HubLink>(
    alloc: Global,
    door: &Door,
    head: &Head,
    link: &mut H,
) -> Result<Step, AllocError>
    ensures steps { (asks : List Exchange) × Asks H.asked H.does link.old asks link.new
        × Steps (spec.asks_access door.now (spec.token_given head.now)) (spec.by_token head.now (spec.token_given head.now)) asks
        (H.faults link.old) (H.faults link.new) result }
    ensures counted { H.faults link.old ≤ H.faults link.new }
{
    match token_given(head) {
        Some(token) => step_token(alloc, door, head, token, link),
        None => Ok(unsigned(head)),
    }
}

/// Whether a request is the hub's sending back of a browser.
fn is_callback(alloc: Global, door: &Door, head: &Head) -> Result<bool, AllocError>
    ensures { IfOk result (λ is. is ≡ spec.is_callback door.now head.now) }
{
    let callback = callback_of(alloc, &door.key)?;
    let (path, _) = parts_of(head.target.as_slice());
    Ok(is_get(head) && path == callback.as_bytes())
}

/// What to do with a request, by at most one ask.
pub fn next_step<H: HubLink>(
    alloc: Global,
    door: &Door,
    head: &Head,
    link: &mut H,
) -> Result<Step, AllocError>
    ensures steps { (asks : List Exchange) × Asks H.asked H.does link.old asks link.new
        × Steps (spec.asked door.now head.now) (spec.stepped door.now head.now) asks (H.faults link.old) (H.faults link.new) result }
    ensures counted { H.faults link.old ≤ H.faults link.new }
{
    let Ok(callback) = is_callback(alloc, door, head) else {
        return Err(AllocError);
    };
    if callback {
        step_callback(alloc, door, head, link)
    } else {
        step_other(alloc, door, head, link)
    }
}
