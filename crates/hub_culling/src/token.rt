//! The token in a file.
ghost use Rattle.std.specs.Prelude.{◌≡◌, ◌≤◌, Some, Err, IfOk, IfErr};
ghost use Rattle.std.specs.Io.BufRead.{strip_last};
ghost use Rattle.hub_devices.specs.Faults.{Rises};
ghost use Rattle.hub_words.specs.Values as values;
ghost use Rattle.hub_culling.specs.Tokens as spec;

use crate::cause::Cause;
use addresses::address::is_visible;
use hub_devices::files::Files;
use hub_devices::link_error::LinkError;
use hub_kit::text::Text;
use std::alloc::{AllocError, Global};

/// A file with a token has at most this many bytes.
const MOST: usize = 256;

/// The bytes without the line end behind them.
fn without_line_end(bytes: &[u8]) -> &[u8]
    ensures { result.now ≡ strip_last 10 bytes.now }
{
    match bytes.last() {
        Some(b'\n') => &bytes[..bytes.len() - 1],
        _ => bytes,
    }
}

fn are_visible(bytes: &[u8]) -> bool
    ensures { result ≡ values.are_visible bytes.now }
{
    bytes.iter().all(|b| is_visible(*b))
}

/// Whether bytes are a token's: 8 to 255, each visible ASCII.
fn is_token(bytes: &[u8]) -> bool
    ensures { result ≡ values.is_secret bytes.now }
{
    bytes.len() >= 8 && bytes.len() <= 255 && are_visible(bytes)
}

/// The token that bytes are.
fn token_of(alloc: Global, bytes: &[u8]) -> Result<Option<Text>, AllocError>
    ensures { IfOk result (λ token. token ≡ values.secret_in bytes.now) }
{
    if !is_token(bytes) {
        return Ok(None);
    }
    match str::from_utf8(bytes) {
        Ok(text) => Ok(Some(Text::from_str(alloc, text)?)),
        Err(_) => Ok(None),
    }
}

/// The token that the bytes of a file have.
fn token_in(alloc: Global, bytes: &[u8]) -> Result<Text, Cause>
    ensures ok { IfOk result (λ token. spec.token_in bytes.now ≡ Some token) }
    ensures err { IfErr result (spec.IsNone bytes.now) }
{
    match token_of(alloc, without_line_end(bytes)) {
        Ok(Some(token)) => Ok(token),
        Ok(None) => Err(Cause::NoToken),
        Err(_) => Err(Cause::Memory),
    }
}

/// The token in the file of this name.
pub(crate) fn token_at<F: Files>(alloc: Global, files: &mut F, name: &Text) -> Result<Text, Cause>
    ensures ok { IfOk result (spec.IsTold (F.files files.old) name.now) }
    ensures err { IfErr result (spec.IsUntold (F.files files.old) name.now) }
    ensures kept { F.files files.new ≡ F.files files.old }
    ensures counted { F.faults files.old ≤ F.faults files.new }
    ensures cause { result ≡ Err Cause.NoFile → Rises (F.faults files.old) (F.faults files.new) }
{
    match files.text(name, MOST) {
        Ok(bytes) => token_in(alloc, bytes.as_slice()),
        Err(LinkError::Failed) => Err(Cause::NoFile),
        Err(LinkError::Memory) => Err(Cause::Memory),
    }
}
