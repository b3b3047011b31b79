//! The numbers of a job: those that it draws, and those of its users.
ghost use Rattle.std.specs.Prelude.{◌≡◌, ◌<◌, ◌≤◌, IfOk, length};
ghost use Rattle.load_asks.specs.Numbers as spec;

use hub_kit::hashes::token_text;
use hub_kit::text::Text;
use std::alloc::{AllocError, Global};

/// The number behind this one.
pub fn next_number(x: u32) -> u32
    requires { x ≤ 65536 }
    ensures next { result ≡ spec.next_number x }
    ensures small { result ≤ 65536 }
{
    (75 * x + 74) % 65537
}

/// Draw k, which makes a token's text: k as 16 bytes, big-endian.
pub fn draw_of(k: u32) -> [u8; 16]
    ensures { result ≡ spec.draw k }
{
    (k as u128).to_be_bytes()
}

/// The text of the token of user k, which was drawn for it: users are numbered from 0, and draws from 1.
pub fn token_of(alloc: Global, k: u32) -> Result<Text, AllocError>
    requires { k < 1000000 }
    ensures { IfOk result (λ text. text ≡ spec.token k) }
{
    token_text(alloc, draw_of(k + 1))
}
