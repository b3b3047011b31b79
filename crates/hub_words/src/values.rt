//! The values of arguments, each of its form.
ghost use Rattle.std.specs.Prelude.{◌≡◌, Some};
ghost use Rattle.hub_kit.specs.Targets.{target_of};
ghost use Rattle.hub_words.specs.Values as spec;

use crate::from_word::FromWord;
use crate::word_error::WordError;
use addresses::address::is_visible;
use hub_kit::moment::Moment;
use hub_kit::moments::moment;
use hub_kit::names::{ServerKey, UserName, read_key, read_user};
use hub_kit::target::Target;
use hub_kit::targets::{TargetError, read_target};
use hub_kit::text::Text;
use std::alloc::Global;
use std::marker::Model;
use std::num::ParseIntError;

impl FromWord for Text {
    ghost reads = { Some };

    fn read(alloc: Global, word: &str) -> Result<Text, WordError> {
        match Text::from_str(alloc, word) {
            Ok(text) => Ok(text),
            Err(_) => Err(WordError::Memory),
        }
    }
}

impl FromWord for u64 {
    ghost reads = { spec.number_in };

    fn read(_: Global, word: &str) -> Result<u64, WordError> {
        match number_in(word) {
            Some(number) => Ok(number),
            None => Err(WordError::Refused),
        }
    }
}

impl FromWord for Moment {
    ghost reads = { spec.moment_in };

    fn read(_: Global, word: &str) -> Result<Moment, WordError> {
        let Some(seconds) = number_in(word) else {
            return Err(WordError::Refused);
        };
        match moment(seconds) {
            Some(at) => Ok(at),
            None => Err(WordError::Refused),
        }
    }
}

impl FromWord for UserName {
    ghost reads = { spec.user_in };

    fn read(_: Global, word: &str) -> Result<UserName, WordError> {
        match read_user(word.as_bytes()) {
            Ok(name) => Ok(name),
            Err(_) => Err(WordError::Refused),
        }
    }
}

impl FromWord for ServerKey {
    ghost reads = { spec.key_in };

    fn read(_: Global, word: &str) -> Result<ServerKey, WordError> {
        match read_key(word.as_bytes()) {
            Ok(key) => Ok(key),
            Err(_) => Err(WordError::Refused),
        }
    }
}

impl FromWord for Target {
    ghost reads = { target_of };

    fn read(alloc: Global, word: &str) -> Result<Target, WordError> {
        match read_target(alloc, word.as_bytes()) {
            Ok(target) => Ok(target),
            Err(TargetError::BadTarget) => Err(WordError::Refused),
            Err(TargetError::Memory) => Err(WordError::Memory),
        }
    }
}

/// A secret, which contracts see as its bytes: 8 to 255, each visible ASCII.
pub(crate) struct Secret {
    text: Text,
}

impl Drop for Secret {
    fn drop(self) {
        let Secret { text: _ } = self;
    }
}

impl Model for Secret {
    ghost use Rattle.std.specs.Prelude.{ℕ, List};

    ghost Value = { List ℕ };

    ghost view = { λ s. s.text };
}

impl Secret {
    pub(crate) fn into_text(self) -> Text
        ensures { result ≡ self }
    {
        let Secret { text } = self;
        text
    }
}

impl FromWord for Secret {
    ghost reads = { spec.secret_in };

    fn read(alloc: Global, word: &str) -> Result<Secret, WordError> {
        if !is_secret(word.as_bytes()) {
            return Err(WordError::Refused);
        }
        match Text::from_str(alloc, word) {
            Ok(text) => Ok(Secret { text }),
            Err(_) => Err(WordError::Memory),
        }
    }
}

/// The number, where it is within these bounds.
pub(crate) fn within(number: u64, least: u32, most: u32) -> Option<u32>
    ensures { result ≡ spec.within least most number }
{
    if least as u64 <= number && number <= most as u64 {
        Some(number as u32)
    } else {
        None
    }
}

/// The number that a text is in decimal digits.
fn number_in(text: &str) -> Option<u64>
    ensures { result ≡ spec.number_in text.now }
{
    if !is_number(text.as_bytes()) {
        return None;
    }
    let number: Result<u64, ParseIntError> = text.parse();
    match number {
        Ok(number) => Some(number),
        Err(_) => None,
    }
}

/// Whether bytes are 1 to 20 decimal digits.
fn is_number(bytes: &[u8]) -> bool
    ensures { result ≡ spec.is_number bytes.now }
{
    !bytes.is_empty() && bytes.len() <= 20 && are_digits(bytes)
}

fn are_digits(bytes: &[u8]) -> bool
    ensures { result ≡ spec.are_digits bytes.now }
{
    bytes.iter().all(|b| b.is_ascii_digit())
}

/// Whether bytes are a secret's: 8 to 255, each visible ASCII.
fn is_secret(bytes: &[u8]) -> bool
    ensures { result ≡ spec.is_secret bytes.now }
{
    bytes.len() >= 8 && bytes.len() <= 255 && are_visible(bytes)
}

fn are_visible(bytes: &[u8]) -> bool
    ensures { result ≡ spec.are_visible bytes.now }
{
    bytes.iter().all(|b| is_visible(*b))
}
