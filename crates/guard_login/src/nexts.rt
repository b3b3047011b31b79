//! Where a browser goes on once it is signed in.
ghost use Rattle.std.specs.Prelude.{◌≡◌, ◌<◌, ◌++◌, length, IfOk, OnOk, Some, None, if◌then◌else◌};
ghost use Rattle.std.specs.List.{list_all};
ghost use Rattle.hex.specs.Hex.{decode_of};
ghost use Rattle.guard_login.specs.Nexts as spec;

use hex::FromHexError;
use hub_kit::bytes::Bytes;
use hub_kit::names::ServerKey;
use hub_kit::text::Text;
use std::alloc::{AllocError, Global};

fn push_server(base: &mut Text, server: &str) -> Result<(), AllocError>
    ensures { OnOk result (base.new ≡ base.old ++ spec.server_part server.now) }
{
    if server.is_empty() {
        return Ok(());
    }
    base.push_str(server)?;
    base.push_str("/")
}

/// The base of a server's paths.
pub fn base_of(alloc: Global, key: &ServerKey) -> Result<Text, AllocError>
    ensures { IfOk result (λ base. base ≡ spec.base_of key.now) }
{
    let mut base = Text::from_str(alloc, "/user/")?;
    base.push_str(key.user.as_str())?;
    base.push_str("/")?;
    push_server(&mut base, key.server.as_str())?;
    Ok(base)
}

fn is_next_byte(b: u8) -> bool
    ensures { result ≡ spec.is_next_byte b }
{
    33 <= b && b <= 126 && b != b'\\'
}

fn are_next_bytes(target: &[u8]) -> bool
    ensures { result ≡ list_all spec.is_next_byte target.now }
{
    target.iter().all(|b| is_next_byte(*b))
}

/// Whether a browser may be sent to a target.
fn is_next(base: &[u8], target: &[u8]) -> bool
    ensures { result ≡ spec.is_next base.now target.now }
{
    target.len() <= 1024 && are_next_bytes(target) && target.starts_with(base)
}

/// The target, or the base where the target isn't allowed.
pub fn next_of<'a>(base: &'a [u8], target: &'a [u8]) -> &'a [u8]
    ensures { result.now ≡ spec.next_of base.now target.now }
{
    if is_next(base, target) { target } else { base }
}

fn allowed(alloc: Global, base: &[u8], target: &[u8]) -> Result<Option<Bytes>, AllocError>
    ensures { IfOk result (λ next. next ≡ (if spec.is_next base.now target.now then Some target.now else None)) }
{
    if is_next(base, target) {
        Ok(Some(Bytes::from_slice(alloc, target)?))
    } else {
        Ok(None)
    }
}

/// The target that a text is the hex of, where it is allowed.
fn decoded(alloc: Global, base: &[u8], text: &[u8]) -> Result<Option<Bytes>, AllocError>
    ensures { IfOk result (λ next. next ≡ spec.allowed base.now (decode_of text.now)) }
{
    match hex::decode(alloc, text) {
        Ok(target) => allowed(alloc, base, target.as_slice()),
        Err(e) => match e {
            FromHexError::OutOfMemory => Err(AllocError),
            _ => Ok(None),
        },
    }
}

/// The target that the cookie of a sign-in has, where it is allowed.
pub fn next_in(alloc: Global, base: &[u8], cookie: &[u8]) -> Result<Option<Bytes>, AllocError>
    requires { 32 < length cookie.now }
    ensures { IfOk result (λ next. next ≡ spec.next_in base.now cookie.now) }
{
    decoded(alloc, base, &cookie[33..])
}
