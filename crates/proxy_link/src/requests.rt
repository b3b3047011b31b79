//! The requests to a proxy's interface.
ghost use Rattle.std.specs.Prelude.{◌≡◌, ◌++◌, IfOk, OnOk};
ghost use Rattle.std.specs.List.{list_all};
ghost use Rattle.serde_json.specs.View.{members_view};
ghost use Rattle.proxy_link.specs.Requests as spec;

use hub_kit::bytes::Bytes;
use hub_kit::target::Target;
use hub_kit::text::Text;
use serde_json::{Map, Value, put};
use std::alloc::{AllocError, Global};

fn is_path_byte(b: u8) -> bool
    ensures { result ≡ spec.is_path_byte b }
{
    b.is_ascii_alphanumeric()
        || b == b'/'
        || b == b'-'
        || b == b'.'
        || b == b'_'
        || b == b'~'
        || b == b'@'
        || b == b'%'
}

fn begins_with_slash(bytes: &[u8]) -> bool
    ensures { result ≡ spec.begins_with_slash bytes.now }
{
    !bytes.is_empty() && bytes[0] == b'/'
}

fn are_path_bytes(bytes: &[u8]) -> bool
    ensures { result ≡ list_all spec.is_path_byte bytes.now }
{
    bytes.iter().all(|b| is_path_byte(*b))
}

/// Whether a text is a path of the form in which a proxy lists one. Any other would not be a path in a request.
pub fn is_path(path: &Text) -> bool
    ensures { result ≡ spec.is_path path.now }
{
    let bytes = path.as_bytes();
    begins_with_slash(bytes) && are_path_bytes(bytes)
}

/// Adds the rest of the line behind the path, and the headers that every request has at its front.
fn add_front(text: &mut Bytes, secret: &Text) -> Result<(), AllocError>
    ensures { OnOk result (text.new ≡ text.old ++ spec.front secret.now) }
{
    text.push_all(b" HTTP/1.1\r\nHost: proxy\r\nAuthorization: token ")?;
    text.push_all(secret.as_bytes())
}

/// Adds the header that ends the connection, and the end of the head.
fn add_end(text: &mut Bytes) -> Result<(), AllocError>
    ensures { OnOk result (text.new ≡ text.old ++ spec.end) }
{
    text.push_all(b"\r\nConnection: close\r\n\r\n")
}

fn put_serial(
    members: &mut Map<String, Value>,
    alloc: Global,
    serial: Option<u64>,
) -> Result<(), AllocError>
    ensures { OnOk result (members_view members.new.entries ≡ spec.with_serial serial (members_view members.old.entries)) }
{
    match serial {
        Some(n) => put(members, alloc, "serial", Value::from(n)),
        None => Ok(()),
    }
}

fn put_target(
    members: &mut Map<String, Value>,
    alloc: Global,
    target: &Target,
) -> Result<(), AllocError>
    ensures { OnOk result (members_view members.new.entries ≡ spec.with_target target.now (members_view members.old.entries)) }
{
    let text = target.as_text().copy(alloc)?;
    put(members, alloc, "target", Value::String(text.into_string()))
}

/// The members of an addition's body.
fn entry_members(
    alloc: Global,
    target: &Target,
    serial: Option<u64>,
) -> Result<Map<String, Value>, AllocError>
    ensures { IfOk result (λ members. members_view members.entries ≡ spec.entry_members target.now serial) }
{
    let mut members = Map::new(alloc);
    put_serial(&mut members, alloc, serial)?;
    put_target(&mut members, alloc, target)?;
    Ok(members)
}

/// The body of an addition.
fn entry_text(alloc: Global, target: &Target, serial: Option<u64>) -> Result<Text, AllocError>
    ensures { IfOk result (λ text. text ≡ spec.entry_text target.now serial) }
{
    let entry = Value::Object(entry_members(alloc, target, serial)?);
    let text = entry.to_string(alloc);
    drop(entry);
    Ok(Text::from_string(text?))
}

/// Adds the headers of a body, the end of the head, and the body.
fn add_body(alloc: Global, text: &mut Bytes, body: &[u8]) -> Result<(), AllocError>
    ensures { OnOk result (text.new ≡ text.old ++ spec.with_body body.now) }
{
    let length = body.len();
    let digits = format!(in alloc; "{length}")?;
    text.push_all(b"\r\nContent-Type: application/json\r\nContent-Length: ")?;
    text.push_all(digits.as_bytes())?;
    add_end(text)?;
    text.push_all(body)
}

/// The request that adds the route of a path.
pub fn add_request(
    alloc: Global,
    secret: &Text,
    path: &Text,
    target: &Target,
    serial: Option<u64>,
) -> Result<Bytes, AllocError>
    ensures { IfOk result (λ text. text ≡ spec.add_request secret.now path.now target.now serial) }
{
    let body = entry_text(alloc, target, serial)?;
    let mut text = Bytes::new(alloc);
    text.push_all(b"POST /api/routes")?;
    text.push_all(path.as_bytes())?;
    add_front(&mut text, secret)?;
    add_body(alloc, &mut text, body.as_bytes())?;
    Ok(text)
}

/// The request that deletes the route of a path, unless it was added later than the serial says.
pub fn delete_request(
    alloc: Global,
    secret: &Text,
    path: &Text,
    serial: u64,
) -> Result<Bytes, AllocError>
    ensures { IfOk result (λ text. text ≡ spec.delete_request secret.now path.now serial) }
{
    let digits = format!(in alloc; "{serial}")?;
    let mut text = Bytes::new(alloc);
    text.push_all(b"DELETE /api/routes")?;
    text.push_all(path.as_bytes())?;
    text.push_all(b"?serial=")?;
    text.push_all(digits.as_bytes())?;
    add_front(&mut text, secret)?;
    add_end(&mut text)?;
    Ok(text)
}

/// The request for the list of routes.
pub fn list_request(alloc: Global, secret: &Text) -> Result<Bytes, AllocError>
    ensures { IfOk result (λ text. text ≡ spec.list_request secret.now) }
{
    let mut text = Bytes::new(alloc);
    text.push_all(b"GET /api/routes")?;
    add_front(&mut text, secret)?;
    add_end(&mut text)?;
    Ok(text)
}
