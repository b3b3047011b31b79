//! Custom scopes: names that a deployment adds of its own.
ghost use Rattle.std.specs.Prelude.{◌≡◌, ℕ, ◌≤◌, ◌<◌, length, IsTrue};
ghost use Rattle.std.specs.List.{list_all};
ghost use Rattle.std.specs.FinMap.{nat_cmp-IsAntisymmetric, slice_cmp-IsAntisymmetric};
ghost use Rattle.hub_kit.specs.Names.{is_letter_or_digit};
ghost use Rattle.scope_names.specs.Custom.{custom_read};
ghost use Rattle.scope_names.specs.Custom.{is_custom_name, is_custom_rest, is_custom_byte, is_last_byte, ends_well};

use hub_kit::key::Key;
use hub_kit::list::List;
use hub_kit::short_text::ShortText;
use std::marker::Model;

/// The name of a custom scope: `custom:` and 1 to 57 bytes more.
#[derive(Clone, Copy, PartialEq, Eq, PartialOrd, Ord)]
pub struct CustomName {
    text: ShortText,
}

impl Model for CustomName {
    ghost use Rattle.std.specs.Prelude.{ℕ, List, IsTrue};
    ghost use Rattle.scope_names.specs.Custom.{is_custom_name};

    ghost Value = { List ℕ };

    ghost view = { λ a. a.text };

    ghost invariant = { λ a. IsTrue (is_custom_name a.text) };

    ghost inverse = { λ v. record { text = v } };
}

/// Names of custom scopes, in the order given.
pub type CustomList = List<CustomName>;

/// A declared custom scope with its direct subscopes.
pub struct CustomRow {
    pub name: CustomName,
    pub subscopes: CustomList,
}

impl Drop for CustomRow {
    fn drop(self) {
        let CustomRow {
            name: _,
            subscopes: _,
        } = self;
    }
}

impl Key for CustomName {
    ghost exact = { slice_cmp-IsAntisymmetric nat_cmp-IsAntisymmetric };
}

impl CustomName {
    pub fn as_bytes(&self) -> &[u8]
        ensures value { result.now ≡ self.now }
        ensures fits { length self.now ≤ 64 }
    {
        self.text.as_bytes()
    }

    pub fn as_str(&self) -> &str
        ensures value { result.now ≡ self.now }
        ensures name { IsTrue (is_custom_name self.now) }
    {
        self.text.as_str()
    }
}

/// Reads the name of a custom scope, and answers `None` where the text is none.
pub fn read_custom(text: &str) -> Option<CustomName>
    ensures { result ≡ custom_read text.now }
{
    let bytes = text.as_bytes();
    if is_custom_name(bytes) {
        Some(CustomName {
            text: ShortText::from_slice(bytes),
        })
    } else {
        None
    }
}

fn is_custom_name(bytes: &[u8]) -> bool
    ensures { result ≡ is_custom_name bytes.now }
{
    if bytes.len() < 8 {
        return false;
    }
    let prefix: &[u8] = b"custom:";
    if &bytes[..7] != prefix {
        return false;
    }
    is_custom_rest(&bytes[7..])
}

/// Whether the bytes may stand behind `custom:`.
fn is_custom_rest(bytes: &[u8]) -> bool
    ensures { result ≡ is_custom_rest bytes.now }
{
    if bytes.is_empty() || bytes.len() > 57 || !ends_well(bytes) {
        return false;
    }
    are_custom_bytes(bytes)
}

fn are_custom_bytes(bytes: &[u8]) -> bool
    ensures { result ≡ list_all is_custom_byte bytes.now }
{
    bytes.iter().all(|b| is_custom_byte(*b))
}

fn ends_well(bytes: &[u8]) -> bool
    requires { 0 < length bytes.now }
    ensures { result ≡ ends_well bytes.now }
{
    is_letter_or_digit(bytes[0]) && is_last_byte(bytes[bytes.len() - 1])
}

fn is_custom_byte(b: u8) -> bool
    ensures { result ≡ is_custom_byte b }
{
    is_letter_or_digit(b) || matches!(b, b'_' | b'-' | b'*' | b':')
}

fn is_letter_or_digit(b: u8) -> bool
    ensures { result ≡ is_letter_or_digit b }
{
    matches!(b, b'a'..=b'z' | b'0'..=b'9')
}

fn is_last_byte(b: u8) -> bool
    ensures { result ≡ is_last_byte b }
{
    !matches!(b, b'-' | b':')
}
