//! The secret in a file.
ghost use Rattle.std.specs.Prelude.{◌≡◌, ◌≤◌, IfOk, IfErr};
ghost use Rattle.secret_files.specs.SecretFiles.{IsSecretFile, IsNoSecret};
ghost use Rattle.secret_files.specs.SecretFiles as spec;

use addresses::address::is_visible;
use hub_devices::files::Files;
use hub_devices::link_error::LinkError;
use hub_kit::text::Text;
use std::alloc::Global;
use std::str;

/// How long a file with a secret may be: its last byte may be a line end.
const MOST: usize = 256;

/// Why there is no secret.
#[derive(Clone, Copy, Debug, PartialEq, Eq)]
pub enum SecretError {
    /// The file wasn't read.
    NoFile,
    /// Its text is no secret.
    NoSecret,
    Memory,
}

/// The bytes without a line end behind them.
fn without_end(bytes: &[u8]) -> &[u8]
    ensures { result.now ≡ spec.without_end bytes.now }
{
    match bytes.strip_suffix(b"\n") {
        Some(before) => before,
        None => bytes,
    }
}

fn are_visible(bytes: &[u8]) -> bool
    ensures { result ≡ spec.are_visible bytes.now }
{
    bytes.iter().all(|b| is_visible(*b))
}

/// Whether bytes are a secret's: 8 to 255, each visible ASCII.
fn is_secret(bytes: &[u8]) -> bool
    ensures { result ≡ spec.is_secret bytes.now }
{
    bytes.len() >= 8 && bytes.len() <= 255 && are_visible(bytes)
}

/// The secret that these bytes are.
fn secret_in(alloc: Global, bytes: &[u8]) -> Result<Text, SecretError>
    ensures { spec.IsSecretRead bytes.now result }
{
    let bytes = without_end(bytes);
    if !is_secret(bytes) {
        return Err(SecretError::NoSecret);
    }
    let Ok(text) = str::from_utf8(bytes) else {
        return Err(SecretError::NoSecret);
    };
    match Text::from_str(alloc, text) {
        Ok(secret) => Ok(secret),
        Err(_) => Err(SecretError::Memory),
    }
}

/// The secret in the file of this name.
pub fn read_secret_file<F: Files>(
    alloc: Global,
    files: &mut F,
    name: &Text,
) -> Result<Text, SecretError>
    ensures ok { IfOk result (IsSecretFile (F.files files.old) name.now) }
    ensures err { IfErr result (IsNoSecret (F.files files.old) name.now (F.faults files.old) (F.faults files.new)) }
    ensures kept { F.files files.new ≡ F.files files.old }
    ensures counted { F.faults files.old ≤ F.faults files.new }
{
    match files.text(name, MOST) {
        Ok(bytes) => secret_in(alloc, bytes.as_slice()),
        Err(LinkError::Failed) => Err(SecretError::NoFile),
        Err(LinkError::Memory) => Err(SecretError::Memory),
    }
}
