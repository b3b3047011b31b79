//! The reader of targets.
ghost use Rattle.std.specs.Prelude.{◌≡◌, Some, None, true, IfOk, IfErr};
ghost use Rattle.hub_kit.specs.Targets.{target_of, is_a_target, target_text};
ghost use Rattle.url.specs.Parts.{IsValid};

use crate::target::Target;
use crate::text::Text;
use std::alloc::{AllocError, Global};
use url::{ParseError, Url};

/// Why bytes are no target.
#[derive(Clone, Copy, Debug, PartialEq, Eq)]
pub enum TargetError {
    BadTarget,
    Memory,
}

/// Reads a target: a URL (by the URL Standard) of scheme `http` with a host, a port of 1 to 65535, no user, query or
/// fragment, and the path empty or `/`. Without a port it is 80. `BadTarget` comes exactly where the bytes are none.
pub fn read_target(alloc: Global, bytes: &[u8]) -> Result<Target, TargetError>
    ensures ok { IfOk result (λ target. target_of bytes.now ≡ Some target) }
    ensures err { IfErr result (λ e. e ≡ TargetError.BadTarget → target_of bytes.now ≡ None) }
{
    let text = match std::str::from_utf8(bytes) {
        Ok(text) => text,
        Err(_) => return Err(TargetError::BadTarget),
    };
    let url = match Url::parse(alloc, text) {
        Ok(url) => url,
        Err(ParseError::OutOfMemory | ParseError::Overflow) => return Err(TargetError::Memory),
        Err(_) => return Err(TargetError::BadTarget),
    };
    if !is_target(&url) {
        return Err(TargetError::BadTarget);
    }
    match target_of_url(alloc, &url) {
        Ok(target) => Ok(target),
        Err(_) => Err(TargetError::Memory),
    }
}

/// Whether a URL is a target's.
fn is_target(url: &Url) -> bool
    ensures { result ≡ is_a_target url.now }
{
    url.scheme() == "http"
        && url.username().is_empty()
        && url.password().is_none()
        && url.path() == "/"
        && url.query().is_none()
        && url.fragment().is_none()
        && url.port() != Some(0)
}

/// The target of a target's URL.
fn target_of_url(alloc: Global, url: &Url) -> Result<Target, AllocError>
    requires { is_a_target url.now ≡ true }
    ensures { IfOk result (λ target. target ≡ target_text url.now) }
{
    let text = write_target(alloc, url)?;
    Ok(Target::from_text(text))
}

/// `http://HOST:PORT` of a URL.
fn write_target(alloc: Global, url: &Url) -> Result<Text, AllocError>
    ensures valid { IsValid url.now }
    ensures text { IfOk result (λ text. text ≡ target_text url.now) }
{
    let host = match url.host_str() {
        Some(host) => host,
        None => "",
    };
    let port = match url.port() {
        Some(port) => port,
        None => 80,
    };
    let text = format!(in alloc; "http://{host}:{port}")?;
    Ok(Text::from_string(text))
}
