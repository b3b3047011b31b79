//! The requests of a round.
ghost use Rattle.std.specs.Prelude.{◌≡◌, ◌++◌, IfOk, OnOk};
ghost use Rattle.idle_culler.specs.Requests as spec;

use crate::rules::Cull;
use hub_kit::bytes::Bytes;
use hub_kit::names::ServerKey;
use hub_kit::text::Text;
use std::alloc::{AllocError, Global};

/// Adds one line.
fn add_line(text: &mut Bytes, line: &[u8]) -> Result<(), AllocError>
    ensures { OnOk result (text.new ≡ text.old ++ spec.line line.now) }
{
    text.push_all(line)?;
    text.push_all(b"\r\n")
}

/// Adds the rest of the line behind the path, and the headers that every request has at its front.
fn add_front(text: &mut Bytes, token: &Text) -> Result<(), AllocError>
    ensures { OnOk result (text.new ≡ text.old ++ spec.front token.now) }
{
    add_line(text, b" HTTP/1.1")?;
    add_line(text, b"Host: hub")?;
    text.push_all(b"Authorization: token ")?;
    add_line(text, token.as_bytes())
}

/// Adds the header that ends the connection, and the end of the head.
fn add_end(text: &mut Bytes) -> Result<(), AllocError>
    ensures { OnOk result (text.new ≡ text.old ++ spec.end) }
{
    add_line(text, b"Connection: close")?;
    add_line(text, b"")
}

/// The request for the page at an offset.
pub fn page_request(alloc: Global, token: &Text, offset: u64) -> Result<Bytes, AllocError>
    ensures { IfOk result (λ text. text ≡ spec.page_request token.now offset) }
{
    let digits = format!(in alloc; "{offset}")?;
    let mut text = Bytes::new(alloc);
    text.push_all(b"GET /hub/api/users?limit=50&offset=")?;
    text.push_all(digits.as_bytes())?;
    add_front(&mut text, token)?;
    add_line(&mut text, b"Accept: application/jupyterhub-pagination+json")?;
    add_end(&mut text)?;
    Ok(text)
}

/// Adds the path of a server behind its user's.
fn add_server(text: &mut Bytes, key: &ServerKey) -> Result<(), AllocError>
    ensures { OnOk result (text.new ≡ text.old ++ spec.server_path key.now.server) }
{
    if key.server.as_bytes().is_empty() {
        return text.push_all(b"/server");
    }
    text.push_all(b"/servers/")?;
    text.push_all(key.server.as_bytes())
}

/// Adds the path of what is culled.
fn add_path(text: &mut Bytes, cull: &Cull) -> Result<(), AllocError>
    ensures { OnOk result (text.new ≡ text.old ++ spec.path cull.now) }
{
    text.push_all(b"/hub/api/users/")?;
    match cull {
        Cull::Server(key) => {
            text.push_all(key.user.as_bytes())?;
            add_server(text, key)
        }
        Cull::User(user) => text.push_all(user.as_bytes()),
    }
}

/// The request that stops a server or deletes a user.
pub fn deletion_request(alloc: Global, token: &Text, cull: &Cull) -> Result<Bytes, AllocError>
    ensures { IfOk result (λ text. text ≡ spec.deletion_request token.now cull.now) }
{
    let mut text = Bytes::new(alloc);
    text.push_all(b"DELETE ")?;
    add_path(&mut text, cull)?;
    add_front(&mut text, token)?;
    add_end(&mut text)?;
    Ok(text)
}

/// The request that removes a server which is stopped.
pub fn removal_request(alloc: Global, token: &Text, cull: &Cull) -> Result<Bytes, AllocError>
    ensures { IfOk result (λ text. text ≡ spec.removal_request token.now cull.now) }
{
    let mut text = Bytes::new(alloc);
    text.push_all(b"DELETE ")?;
    add_path(&mut text, cull)?;
    add_front(&mut text, token)?;
    add_line(&mut text, b"Content-Length: 15")?;
    add_end(&mut text)?;
    text.push_all(b"{\"remove\":true}")?;
    Ok(text)
}
