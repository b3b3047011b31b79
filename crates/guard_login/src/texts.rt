//! The texts of a sign-in.
ghost use Rattle.std.specs.Prelude.{◌≡◌, ◌++◌, IfOk, OnOk, string_bytes, decimal};
ghost use Rattle.guard_login.specs.Texts as spec;

use crate::door::Door;
use crate::nexts::base_of;
use form_urlencoded::Serializer;
use hub_kit::bytes::Bytes;
use hub_kit::names::ServerKey;
use hub_kit::text::Text;
use std::alloc::{AllocError, Global};

const TRADE_FRONT: &[u8] = b"POST /hub/api/oauth2/token HTTP/1.1\r\nHost: hub\r\n\
    Content-Type: application/x-www-form-urlencoded\r\nContent-Length: ";

const TRADE_END: &[u8] = b"\r\nConnection: close\r\n\r\n";

const AUTHORIZE: &[u8] = b"/hub/api/oauth2/authorize?";

const FOUND: &[u8] = b"HTTP/1.1 302 Found\r\nContent-Length: 0\r\nLocation: ";

const LINE_END: &[u8] = b"\r\n";

const CLOSE: &[u8] = b"Connection: close\r\n\r\n";

const STATE_COOKIE: &[u8] = b"Set-Cookie: hub-guard-state=";

const DOT: &[u8] = b".";

const PATH: &[u8] = b"; Path=";

const COOKIE_END: &[u8] = b"; HttpOnly; SameSite=Lax\r\n";

const SECURE_COOKIE_END: &[u8] = b"; HttpOnly; SameSite=Lax; Secure\r\n";

const TOKEN_COOKIE: &[u8] = b"Set-Cookie: hub-guard=";

const NO_STATE: &[u8] = b"Set-Cookie: hub-guard-state=; Path=";

const GONE: &[u8] = b"; Max-Age=0\r\n";

/// The name of a server's client.
fn client_of(alloc: Global, key: &ServerKey) -> Result<Text, AllocError>
    ensures { IfOk result (λ text. text ≡ spec.client_of key.now) }
{
    let mut text = Text::from_str(alloc, "server:")?;
    text.push_str(key.user.as_str())?;
    text.push_str("/")?;
    text.push_str(key.server.as_str())?;
    Ok(text)
}

/// Where the hub sends a browser back.
pub fn callback_of(alloc: Global, key: &ServerKey) -> Result<Text, AllocError>
    ensures { IfOk result (λ text. text ≡ spec.callback_of key.now) }
{
    let mut text = base_of(alloc, key)?;
    text.push_str("oauth_callback")?;
    Ok(text)
}

#[tactic(auto, unfolding(crate::specs::Texts::authorize_pairs))]
fn authorize_pairs(
    alloc: Global,
    client: &Text,
    callback: &Text,
    state: &Text,
) -> Result<String, AllocError>
    ensures { IfOk result (λ text. string_bytes text ≡ spec.authorize_pairs client.now callback.now state.now) }
{
    let mut form = Serializer::new(String::new(alloc));
    form.append_pair("client_id", client.as_str())?;
    form.append_pair("redirect_uri", callback.as_str())?;
    form.append_pair("response_type", "code")?;
    form.append_pair("state", state.as_str())?;
    Ok(form.finish())
}

fn authorize_form(alloc: Global, key: &ServerKey, state: &Text) -> Result<String, AllocError>
    ensures { IfOk result (λ text. string_bytes text ≡ spec.authorize_form key.now state.now) }
{
    let client = client_of(alloc, key)?;
    let callback = callback_of(alloc, key)?;
    authorize_pairs(alloc, &client, &callback, state)
}

#[tactic(auto, unfolding(crate::specs::Texts::trade_pairs))]
fn trade_pairs(
    alloc: Global,
    client: &Text,
    secret: &Text,
    code: &Text,
    callback: &Text,
) -> Result<String, AllocError>
    ensures { IfOk result (λ text. string_bytes text ≡ spec.trade_pairs client.now secret.now code.now callback.now) }
{
    let mut form = Serializer::new(String::new(alloc));
    form.append_pair("client_id", client.as_str())?;
    form.append_pair("client_secret", secret.as_str())?;
    form.append_pair("code", code.as_str())?;
    form.append_pair("grant_type", "authorization_code")?;
    form.append_pair("redirect_uri", callback.as_str())?;
    Ok(form.finish())
}

#[tactic(auto, unfolding(crate::specs::Texts::trade_form))]
fn trade_form(alloc: Global, door: &Door, code: &Text) -> Result<String, AllocError>
    ensures { IfOk result (λ text. string_bytes text ≡ spec.trade_form door.now code.now) }
{
    let client = client_of(alloc, &door.key)?;
    let callback = callback_of(alloc, &door.key)?;
    trade_pairs(alloc, &client, &door.secret, code, &callback)
}

/// Appends the digits of a number.
fn push_decimal(alloc: Global, text: &mut Bytes, number: usize) -> Result<(), AllocError>
    ensures { OnOk result (text.new ≡ text.old ++ decimal number) }
{
    let digits = format!(in alloc; "{number}")?;
    text.push_all(digits.as_bytes())
}

/// The request that trades a code.
#[tactic(auto, unfolding(crate::specs::Texts::trade_text))]
pub fn trade_text(alloc: Global, door: &Door, code: &Text) -> Result<Bytes, AllocError>
    ensures { IfOk result (λ text. text ≡ spec.trade_text door.now code.now) }
{
    let form = trade_form(alloc, door, code)?;
    let mut text = Bytes::from_slice(alloc, TRADE_FRONT)?;
    push_decimal(alloc, &mut text, form.len())?;
    text.push_all(TRADE_END)?;
    text.push_all(form.as_bytes())?;
    Ok(text)
}

/// Where a browser signs in.
#[tactic(auto, unfolding(crate::specs::Texts::authorize_url))]
fn authorize_url(alloc: Global, door: &Door, state: &Text) -> Result<Bytes, AllocError>
    ensures { IfOk result (λ text. text ≡ spec.authorize_url door.now state.now) }
{
    let form = authorize_form(alloc, &door.key, state)?;
    let mut text = Bytes::from_slice(alloc, door.hub.as_text().as_bytes())?;
    text.push_all(AUTHORIZE)?;
    text.push_all(form.as_bytes())?;
    Ok(text)
}

/// How a line ends that sets a cookie.
fn cookie_end(secure: bool) -> &'static [u8]
    ensures { result.now ≡ spec.cookie_end secure }
{
    if secure {
        SECURE_COOKIE_END
    } else {
        COOKIE_END
    }
}

#[tactic(auto, unfolding(crate::specs::Texts::state_line))]
fn state_line(
    alloc: Global,
    secure: bool,
    base: &Text,
    state: &Text,
    next: &Text,
) -> Result<Bytes, AllocError>
    ensures { IfOk result (λ text. text ≡ spec.state_line secure base.now state.now next.now) }
{
    let mut text = Bytes::from_slice(alloc, STATE_COOKIE)?;
    text.push_all(state.as_bytes())?;
    text.push_all(DOT)?;
    text.push_all(next.as_bytes())?;
    text.push_all(PATH)?;
    text.push_all(base.as_bytes())?;
    text.push_all(cookie_end(secure))?;
    Ok(text)
}

#[tactic(auto, unfolding(crate::specs::Texts::token_line))]
fn token_line(alloc: Global, secure: bool, base: &Text, token: &Bytes) -> Result<Bytes, AllocError>
    ensures { IfOk result (λ text. text ≡ spec.token_line secure base.now token.now) }
{
    let mut text = Bytes::from_slice(alloc, TOKEN_COOKIE)?;
    text.push_all(token.as_slice())?;
    text.push_all(PATH)?;
    text.push_all(base.as_bytes())?;
    text.push_all(cookie_end(secure))?;
    Ok(text)
}

#[tactic(auto, unfolding(crate::specs::Texts::token_lines))]
fn token_lines(alloc: Global, secure: bool, base: &Text, token: &Bytes) -> Result<Bytes, AllocError>
    ensures { IfOk result (λ text. text ≡ spec.token_lines secure base.now token.now) }
{
    let mut text = token_line(alloc, secure, base, token)?;
    text.push_all(NO_STATE)?;
    text.push_all(base.as_bytes())?;
    text.push_all(GONE)?;
    Ok(text)
}

/// Sends a browser to a place, with lines of cookies.
#[tactic(auto, unfolding(crate::specs::Texts::found_text))]
fn found_text(alloc: Global, location: &Bytes, lines: &Bytes) -> Result<Bytes, AllocError>
    ensures { IfOk result (λ text. text ≡ spec.found_text location.now lines.now) }
{
    let mut text = Bytes::from_slice(alloc, FOUND)?;
    text.push_all(location.as_slice())?;
    text.push_all(LINE_END)?;
    text.push_all(lines.as_slice())?;
    text.push_all(CLOSE)?;
    Ok(text)
}

/// Sends a browser to the hub to sign in.
#[tactic(auto, unfolding(crate::specs::Texts::sends_text))]
pub fn sends_text(
    alloc: Global,
    door: &Door,
    state: &Text,
    next: &Text,
) -> Result<Bytes, AllocError>
    ensures { IfOk result (λ text. text ≡ spec.sends_text door.now state.now next.now) }
{
    let base = base_of(alloc, &door.key)?;
    let location = authorize_url(alloc, door, state)?;
    let lines = state_line(alloc, door.secure_cookies, &base, state, next)?;
    found_text(alloc, &location, &lines)
}

/// Sends a browser back to where it wanted to go, with its token.
#[tactic(auto, unfolding(crate::specs::Texts::gives_text))]
pub fn gives_text(
    alloc: Global,
    door: &Door,
    token: &Bytes,
    next: &Bytes,
) -> Result<Bytes, AllocError>
    ensures { IfOk result (λ text. text ≡ spec.gives_text door.now token.now next.now) }
{
    let base = base_of(alloc, &door.key)?;
    let lines = token_lines(alloc, door.secure_cookies, &base, token)?;
    found_text(alloc, next, &lines)
}
