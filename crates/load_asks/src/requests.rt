//! The requests of a job.
ghost use Rattle.std.specs.Prelude.{◌≡◌, ◌++◌, ◌<◌, IfOk, OnOk};
ghost use Rattle.load_asks.specs.Requests as spec;

use hub_kit::bytes::Bytes;
use hub_kit::text::Text;
use std::alloc::{AllocError, Global};

const USERS: &[u8] = b" /hub/api/users/u";

const AUTHORIZATION: &[u8] = b" HTTP/1.1\r\nHost: hub\r\nAuthorization: token ";

const END: &[u8] = b"\r\nConnection: close\r\n\r\n";

const TOKENS: &[u8] = b"/tokens HTTP/1.1\r\nHost: hub\r\nAuthorization: token load-admin-token";

const EMPTY_OBJECT: &[u8] = b"\r\nContent-Length: 2\r\nConnection: close\r\n\r\n{}";

/// The method, and the path of user k.
fn user_front(alloc: Global, method: &[u8], k: u32) -> Result<Bytes, AllocError>
    ensures { IfOk result (λ text. text ≡ spec.user_front method.now k) }
{
    let digits = format!(in alloc; "{k}")?;
    let mut text = Bytes::new(alloc);
    text.push_all(method)?;
    text.push_all(USERS)?;
    text.push_all(digits.as_bytes())?;
    Ok(text)
}

/// Adds what stands behind the path of a request without a body.
fn add_end(text: &mut Bytes, token: &[u8]) -> Result<(), AllocError>
    ensures { OnOk result (text.new ≡ text.old ++ spec.end token.now) }
{
    text.push_all(AUTHORIZATION)?;
    text.push_all(token)?;
    text.push_all(END)
}

/// The request that posts user k.
pub fn user_request(alloc: Global, k: u32) -> Result<Bytes, AllocError>
    ensures { IfOk result (λ text. text ≡ spec.user_request k) }
{
    let mut text = user_front(alloc, b"POST", k)?;
    add_end(&mut text, b"load-admin-token")?;
    Ok(text)
}

/// The request that posts a token for user k.
pub fn token_request(alloc: Global, k: u32) -> Result<Bytes, AllocError>
    ensures { IfOk result (λ text. text ≡ spec.token_request k) }
{
    let mut text = user_front(alloc, b"POST", k)?;
    text.push_all(TOKENS)?;
    text.push_all(EMPTY_OBJECT)?;
    Ok(text)
}

/// The request of a user, by its token, for user k.
pub fn get_request(alloc: Global, token: &Text, k: u32) -> Result<Bytes, AllocError>
    ensures { IfOk result (λ text. text ≡ spec.get_request token.now k) }
{
    let mut text = user_front(alloc, b"GET", k)?;
    add_end(&mut text, token.as_bytes())?;
    Ok(text)
}

/// The request that comes to a guard with a token.
pub fn guarded_request(alloc: Global, token: &Text) -> Result<Bytes, AllocError>
    ensures { IfOk result (λ text. text ≡ spec.guarded_request token.now) }
{
    let mut text = Bytes::new(alloc);
    text.push_all(b"GET /")?;
    add_end(&mut text, token.as_bytes())?;
    Ok(text)
}
