//! An address `HOST:PORT`, of which `http://HOST:PORT` is a target.
ghost use Rattle.std.specs.Prelude.{◌≡◌, true, false, Some, None, OnOk, IfOk, IfErr};
ghost use Rattle.std.specs.Char.{is_ascii_digit};
ghost use Rattle.std.specs.List.{list_all};
ghost use Rattle.addresses.specs.Addresses as spec;

use hub_kit::targets::{TargetError, read_target};
use hub_kit::text::Text;
use std::alloc::Global;
use std::marker::Model;

/// An address, which contracts see as its bytes.
pub struct Address {
    text: Text,
}

impl Drop for Address {
    fn drop(self) {
        let Address { text: _ } = self;
    }
}

impl Model for Address {
    ghost use Rattle.std.specs.Prelude.{ℕ, List};

    ghost Value = { List ℕ };

    ghost view = { λ a. a.text };
}

impl Address {
    pub fn as_text(&self) -> &Text
        ensures { result.now ≡ self.now }
    {
        &self.text
    }

    pub fn into_text(self) -> Text
        ensures { result ≡ self }
    {
        let Address { text } = self;
        text
    }
}

/// Why a text is no address.
#[derive(Clone, Copy, Debug, PartialEq, Eq)]
pub enum AddressError {
    BadAddress,
    Memory,
}

/// Reads an address. `BadAddress` comes exactly where the text is none.
pub fn read_address(alloc: Global, text: &str) -> Result<Address, AddressError>
    ensures ok { IfOk result (λ address. spec.address_of text.now ≡ Some address) }
    ensures err { IfErr result (λ e. e ≡ AddressError.BadAddress → spec.address_of text.now ≡ None) }
{
    if !has_address_form(text.as_bytes()) {
        return Err(AddressError::BadAddress);
    }
    check_target(alloc, text)?;
    match Text::from_str(alloc, text) {
        Ok(text) => Ok(Address { text }),
        Err(_) => Err(AddressError::Memory),
    }
}

/// Whether a text is a target's behind `http://`.
fn check_target(alloc: Global, text: &str) -> Result<(), AddressError>
    ensures ok { OnOk result (spec.is_at_target text.now ≡ true) }
    ensures err { IfErr result (λ e. e ≡ AddressError.BadAddress → spec.is_at_target text.now ≡ false) }
{
    let Ok(url) = format!(in alloc; "http://{text}") else {
        return Err(AddressError::Memory);
    };
    match read_target(alloc, url.as_bytes()) {
        Ok(_) => Ok(()),
        Err(TargetError::BadTarget) => Err(AddressError::BadAddress),
        Err(TargetError::Memory) => Err(AddressError::Memory),
    }
}

/// Whether the bytes are a host's, a colon and a port's.
fn has_address_form(bytes: &[u8]) -> bool
    ensures { result ≡ spec.has_address_form bytes.now }
{
    are_host_bytes(bytes) && ends_in_port(bytes)
}

fn are_host_bytes(bytes: &[u8]) -> bool
    ensures { result ≡ list_all spec.is_host_byte bytes.now }
{
    bytes.iter().all(|b| is_host_byte(*b))
}

/// Whether a byte is visible ASCII and none of those that end a host in a URL.
fn is_host_byte(b: u8) -> bool
    ensures { result ≡ spec.is_host_byte b }
{
    is_visible(b) && !matches!(b, b'?' | b'#' | b'/' | b'\\' | b'@')
}

/// Whether a byte is visible ASCII.
pub fn is_visible(b: u8) -> bool
    ensures { result ≡ spec.is_visible b }
{
    matches!(b, 33..=126)
}

fn ends_in_port(bytes: &[u8]) -> bool
    ensures { result ≡ spec.ends_in_port bytes.now }
{
    for i in 0..bytes.len() {
        if bytes[i] == b':' && is_port(&bytes[i + 1..]) {
            return true;
        }
    }
    false
}

fn is_port(bytes: &[u8]) -> bool
    ensures { result ≡ spec.is_port bytes.now }
{
    !bytes.is_empty() && are_digits(bytes)
}

fn are_digits(bytes: &[u8]) -> bool
    ensures { result ≡ list_all is_ascii_digit bytes.now }
{
    bytes.iter().all(|b| b.is_ascii_digit())
}
