//! Tokens as texts, and their hashes.
ghost use Rattle.std.specs.Prelude.{◌≡◌, IfOk};
ghost use Rattle.hub_kit.specs.Hashes.{draw_text, hash_text};

use crate::text::Text;
use sha2::{Digest, Sha256};
use std::alloc::{AllocError, Global};

/// A draw of 16 bytes as 32 lower-case hex digits.
pub fn token_text(alloc: Global, draw: [u8; 16]) -> Result<Text, AllocError>
    ensures { IfOk result (λ text. text ≡ draw_text draw) }
{
    Ok(Text::from_string(hex::encode(alloc, &draw)?))
}

/// The SHA-256 (FIPS 180-4) of a token as 64 lower-case hex digits.
pub fn hash_of(alloc: Global, token: &[u8]) -> Result<Text, AllocError>
    ensures { IfOk result (λ text. text ≡ hash_text token.now) }
{
    let digest = Sha256::digest(token);
    Ok(Text::from_string(hex::encode(alloc, &digest)?))
}
