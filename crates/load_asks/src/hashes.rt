//! The hashes of the tokens of a job, of which no two are to meet.
ghost use Rattle.std.specs.Prelude.{◌≡◌, ◌≤◌, IfOk, OnOk};
ghost use Rattle.std.specs.BTreeSet.{IsEmpty};
ghost use Rattle.load_asks.specs.Hashes as spec;

use crate::numbers::draw_of;
use hub_kit::hashes::{hash_of, token_text};
use hub_kit::text::Text;
use std::alloc::{AllocError, Global};
use std::collections::BTreeSet;

const ROOT_TOKEN: &[u8] = b"load-admin-token";

/// The hash of the token text of draw k.
fn draw_hash(alloc: Global, k: u32) -> Result<Text, AllocError>
    ensures { IfOk result (λ hash. hash ≡ spec.hash_at k) }
{
    let text = token_text(alloc, draw_of(k))?;
    hash_of(alloc, text.as_bytes())
}

/// The least draw up to n whose hash is that of root's token or of an earlier draw, if there is one.
pub fn first_kept(alloc: Global, n: u32) -> Result<Option<u32>, AllocError>
    requires { n ≤ 1000000 }
    ensures { IfOk result (λ found. spec.IsFirstKept n found) }
{
    let mut kept = BTreeSet::new(alloc);
    keep_root(alloc, &mut kept)?;
    let found = find_kept(alloc, &mut kept, n);
    drop(kept);
    found
}

/// Keeps the hash of root's token.
fn keep_root(alloc: Global, kept: &mut BTreeSet<Text>) -> Result<(), AllocError>
    requires { IsEmpty kept.old }
    ensures { OnOk result (spec.Keeps kept.new 0) }
{
    let hash = hash_of(alloc, ROOT_TOKEN)?;
    match kept.insert(hash) {
        Ok(_) => {}
        Err(_) => return Err(AllocError),
    }
    Ok(())
}

/// The same with a set that has the hash of root's token alone.
fn find_kept(alloc: Global, kept: &mut BTreeSet<Text>, n: u32) -> Result<Option<u32>, AllocError>
    requires few { n ≤ 1000000 }
    requires root { spec.Keeps kept.old 0 }
    ensures { IfOk result (λ found. spec.IsFirstKept n found) }
{
    for k in 0..n {
        let hash = draw_hash(alloc, k + 1)?;
        match kept.insert(hash) {
            Ok(true) => {}
            Ok(false) => return Ok(Some(k + 1)),
            Err(_) => return Err(AllocError),
        }
    }
    Ok(None)
}
