//! The names of users, groups, services, roles and servers, and the keys of servers.
ghost use Rattle.std.specs.Prelude.{◌≡◌, ◌≤◌, ◌<◌, ◌-◌, ◌^◌, ◌==◌, ◌++◌, length, position, codes, Ok, IfOk};
ghost use Rattle.hub_kit.specs.Names.{name_read, server_read};
ghost use Rattle.hub_kit.specs.Names as spec;
ghost use Rattle.hub_kit.specs.ServerKeys.{key_read, cut_read};
ghost use Rattle.hub_kit.specs.ServerKeys as spec_keys;

use crate::short_text::ShortText;
use crate::text::Text;
use std::alloc::{AllocError, Global};
use std::marker::Model;

/// Why bytes are no name. `BadByte` has the place of the first byte that breaks the grammar.
#[derive(Clone, Copy, Debug, PartialEq, Eq)]
pub enum NameError {
    Empty,
    TooLong,
    BadByte(usize),
    Memory,
}

/// A user's name.
#[derive(Clone, Copy, PartialEq, Eq, PartialOrd, Ord)]
pub struct UserName {
    text: ShortText,
}

impl Model for UserName {
    ghost use Rattle.std.specs.Prelude.{ℕ, List};
    ghost use Rattle.hub_kit.specs.Names.{IsName};

    ghost Value = { List ℕ };

    ghost view = { λ a. a.text };

    ghost invariant = { λ a. IsName a.text };

    ghost inverse = { λ v. record { text = v } };
}

impl UserName {
    /// The bytes, of which there are at most 64.
    pub fn as_bytes(&self) -> &[u8]
        ensures value { result.now ≡ self.now }
        ensures fits { length self.now ≤ 64 }
    {
        self.text.as_bytes()
    }

    /// The name as text, which is ASCII.
    pub fn as_str(&self) -> &str
        ensures value { result.now ≡ self.now }
        ensures name { spec.IsName self.now }
    {
        self.text.as_str()
    }
}

/// A group's name.
#[derive(Clone, Copy, PartialEq, Eq, PartialOrd, Ord)]
pub struct GroupName {
    text: ShortText,
}

impl Model for GroupName {
    ghost use Rattle.std.specs.Prelude.{ℕ, List};
    ghost use Rattle.hub_kit.specs.Names.{IsName};

    ghost Value = { List ℕ };

    ghost view = { λ a. a.text };

    ghost invariant = { λ a. IsName a.text };

    ghost inverse = { λ v. record { text = v } };
}

impl GroupName {
    /// The bytes, of which there are at most 64.
    pub fn as_bytes(&self) -> &[u8]
        ensures value { result.now ≡ self.now }
        ensures fits { length self.now ≤ 64 }
    {
        self.text.as_bytes()
    }

    /// The name as text, which is ASCII.
    pub fn as_str(&self) -> &str
        ensures value { result.now ≡ self.now }
        ensures name { spec.IsName self.now }
    {
        self.text.as_str()
    }
}

/// A service's name.
#[derive(Clone, Copy, PartialEq, Eq, PartialOrd, Ord)]
pub struct ServiceName {
    text: ShortText,
}

impl Model for ServiceName {
    ghost use Rattle.std.specs.Prelude.{ℕ, List};
    ghost use Rattle.hub_kit.specs.Names.{IsName};

    ghost Value = { List ℕ };

    ghost view = { λ a. a.text };

    ghost invariant = { λ a. IsName a.text };

    ghost inverse = { λ v. record { text = v } };
}

impl ServiceName {
    /// The bytes, of which there are at most 64.
    pub fn as_bytes(&self) -> &[u8]
        ensures value { result.now ≡ self.now }
        ensures fits { length self.now ≤ 64 }
    {
        self.text.as_bytes()
    }

    /// The name as text, which is ASCII.
    pub fn as_str(&self) -> &str
        ensures value { result.now ≡ self.now }
        ensures name { spec.IsName self.now }
    {
        self.text.as_str()
    }
}

/// A role's name.
#[derive(Clone, Copy, PartialEq, Eq, PartialOrd, Ord)]
pub struct RoleName {
    text: ShortText,
}

impl Model for RoleName {
    ghost use Rattle.std.specs.Prelude.{ℕ, List};
    ghost use Rattle.hub_kit.specs.Names.{IsName};

    ghost Value = { List ℕ };

    ghost view = { λ a. a.text };

    ghost invariant = { λ a. IsName a.text };

    ghost inverse = { λ v. record { text = v } };
}

impl RoleName {
    /// The bytes, of which there are at most 64.
    pub fn as_bytes(&self) -> &[u8]
        ensures value { result.now ≡ self.now }
        ensures fits { length self.now ≤ 64 }
    {
        self.text.as_bytes()
    }

    /// The name as text, which is ASCII.
    pub fn as_str(&self) -> &str
        ensures value { result.now ≡ self.now }
        ensures name { spec.IsName self.now }
    {
        self.text.as_str()
    }
}

/// A server's name. The empty one is the default server.
#[derive(Clone, Copy, PartialEq, Eq, PartialOrd, Ord)]
pub struct ServerName {
    text: ShortText,
}

impl Model for ServerName {
    ghost use Rattle.std.specs.Prelude.{ℕ, List};
    ghost use Rattle.hub_kit.specs.Names.{IsServerName};

    ghost Value = { List ℕ };

    ghost view = { λ a. a.text };

    ghost invariant = { λ a. IsServerName a.text };

    ghost inverse = { λ v. record { text = v } };
}

impl ServerName {
    /// The bytes, of which there are at most 64.
    pub fn as_bytes(&self) -> &[u8]
        ensures value { result.now ≡ self.now }
        ensures fits { length self.now ≤ 64 }
    {
        self.text.as_bytes()
    }

    /// The name as text, which is ASCII.
    pub fn as_str(&self) -> &str
        ensures value { result.now ≡ self.now }
        ensures name { spec.IsServerName self.now }
    {
        self.text.as_str()
    }
}

/// A server of a user.
#[derive(Clone, Copy, PartialEq, Eq, PartialOrd, Ord)]
pub struct ServerKey {
    pub user: UserName,
    pub server: ServerName,
}

/// Reads the name of a user: 1 to 64 bytes of `a-z`, `0-9`, `.`, `_`, `-`, `@`, of which the first is a letter or a digit.
pub fn read_user(bytes: &[u8]) -> Result<UserName, NameError>
    ensures { result ≡ name_read bytes.now }
{
    match read_name(bytes) {
        Ok(text) => Ok(UserName { text }),
        Err(error) => Err(error),
    }
}

/// Reads the name of a group, which has the grammar of a user's.
pub fn read_group(bytes: &[u8]) -> Result<GroupName, NameError>
    ensures { result ≡ name_read bytes.now }
{
    match read_name(bytes) {
        Ok(text) => Ok(GroupName { text }),
        Err(error) => Err(error),
    }
}

/// Reads the name of a service, which has the grammar of a user's.
pub fn read_service(bytes: &[u8]) -> Result<ServiceName, NameError>
    ensures { result ≡ name_read bytes.now }
{
    match read_name(bytes) {
        Ok(text) => Ok(ServiceName { text }),
        Err(error) => Err(error),
    }
}

/// Reads the name of a role, which has the grammar of a user's.
pub fn read_role(bytes: &[u8]) -> Result<RoleName, NameError>
    ensures { result ≡ name_read bytes.now }
{
    match read_name(bytes) {
        Ok(text) => Ok(RoleName { text }),
        Err(error) => Err(error),
    }
}

/// Reads the name of a server, which is empty or has the grammar of a user's.
#[tactic(auto, using(crate::proofs::NameTexts::name_is_text))]
pub fn read_server(bytes: &[u8]) -> Result<ServerName, NameError>
    ensures { result ≡ server_read bytes.now }
{
    if bytes.is_empty() {
        return Ok(ServerName {
            text: ShortText::from_slice(bytes),
        });
    }
    match read_name(bytes) {
        Ok(text) => Ok(ServerName { text }),
        Err(error) => Err(error),
    }
}

/// Reads `USER/SERVER`, cut at the first slash. Without a slash the text's end is a bad byte. Places count in the whole text.
pub fn read_key(bytes: &[u8]) -> Result<ServerKey, NameError>
    ensures { result ≡ key_read bytes.now }
{
    match first_slash(bytes) {
        Some(at) => read_cut(bytes, at),
        None => Err(NameError::BadByte(bytes.len())),
    }
}

fn first_slash(bytes: &[u8]) -> Option<usize>
    ensures { result ≡ position (λ b. b == 47) bytes.now }
{
    bytes.iter().position(|b| *b == b'/')
}

/// Reads `USER/SERVER`, whose slash stands at a place.
fn read_cut(bytes: &[u8], at: usize) -> Result<ServerKey, NameError>
    requires { at < length bytes.now }
    ensures { result ≡ cut_read bytes.now at }
{
    let user = match read_user(&bytes[..at]) {
        Ok(user) => user,
        Err(error) => return Err(error),
    };
    match read_server(&bytes[at + 1..]) {
        Ok(server) => Ok(ServerKey { user, server }),
        Err(error) => Err(later(at + 1, error)),
    }
}

/// The error of the part of a text that begins at a place, with its place in the whole text.
fn later(by: usize, error: NameError) -> NameError
    requires { spec_keys.IsPlaceBelow (2 ^ 64 - by) error }
    ensures { result ≡ spec_keys.later by error }
{
    match error {
        NameError::BadByte(at) => NameError::BadByte(by + at),
        NameError::Empty => NameError::Empty,
        NameError::TooLong => NameError::TooLong,
        NameError::Memory => NameError::Memory,
    }
}

/// A key's text, which reads as the key.
pub fn key_text(alloc: Global, key: &ServerKey) -> Result<Text, AllocError>
    ensures text { IfOk result (λ text. text ≡ key.now.user ++ codes "/" ++ key.now.server) }
    ensures reads { IfOk result (λ text. key_read text ≡ Ok key.now) }
{
    let mut text = Text::from_str(alloc, key.user.as_str())?;
    text.push_str("/")?;
    text.push_str(key.server.as_str())?;
    Ok(text)
}

/// Reads a text of this grammar, which all kinds of names have.
#[tactic(auto, using(crate::proofs::NameTexts::good_is_text))]
fn read_name(bytes: &[u8]) -> Result<ShortText, NameError>
    ensures { result ≡ name_read bytes.now }
{
    if bytes.is_empty() {
        return Err(NameError::Empty);
    }
    if bytes.len() > 64 {
        return Err(NameError::TooLong);
    }
    match first_bad(bytes) {
        Some(at) => Err(NameError::BadByte(at)),
        None => Ok(ShortText::from_slice(bytes)),
    }
}

fn is_letter_or_digit(b: u8) -> bool
    ensures { result ≡ spec.is_letter_or_digit b }
{
    matches!(b, b'a'..=b'z' | b'0'..=b'9')
}

fn is_name_byte(b: u8) -> bool
    ensures { result ≡ spec.is_name_byte b }
{
    is_letter_or_digit(b) || b == b'.' || b == b'_' || b == b'-' || b == b'@'
}

/// The place of the first byte that breaks the grammar.
fn first_bad(bytes: &[u8]) -> Option<usize>
    ensures { result ≡ spec.first_bad bytes.now }
{
    if bytes.is_empty() {
        return None;
    }
    if !is_letter_or_digit(bytes[0]) {
        return Some(0);
    }
    for i in 1..bytes.len() {
        if !is_name_byte(bytes[i]) {
            return Some(i);
        }
    }
    None
}
