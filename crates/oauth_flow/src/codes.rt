//! Codes of the grant.
ghost use Rattle.std.specs.Prelude.{◌≡◌, ◌∷◌, ◌++◌, [], IfOk, OnOk};
ghost use Rattle.oauth_flow.specs.Codes.{expired_among, expired_codes, made_code};

use hub_kit::hashes::hash_of;
use hub_kit::moment::Moment;
use hub_kit::names::UserName;
use hub_kit::text::Text;
use hub_rows::records::{OAuthClient, OAuthCode};
use hub_tables::tables::Tables;
use std::alloc::{AllocError, Global};

/// How long a code lives, in seconds.
const LIFE: u64 = 300;

/// The unused code of a text, for a client at its own URI.
pub fn make_grant_code(
    alloc: Global,
    client: &OAuthClient,
    owner: &UserName,
    text: &Text,
    now: Moment,
) -> Result<OAuthCode, AllocError>
    ensures { IfOk result (λ code. code ≡ made_code client.now owner.now text.now now) }
{
    Ok(OAuthCode {
        hash: hash_of(alloc, text.as_bytes())?,
        client: client.id.as_text().copy(alloc)?,
        expires_at: now.later(LIFE),
        owner: *owner,
        redirect_uri: client.redirect_uri.copy(alloc)?,
        token: None,
    })
}

/// The hashes of all codes that are over, in order.
pub fn expired_codes(alloc: Global, tables: &Tables, now: Moment) -> Result<Vec<Text>, AllocError>
    ensures { IfOk result (λ hashes. hashes.items ≡ expired_codes tables.now now) }
{
    let mut hashes = Vec::new(alloc);
    for code in tables.grant_codes() {
        push_expired(alloc, &mut hashes, code, now)?;
    }
    Ok(hashes)
}

/// Appends the hash of a code, if it is over.
fn push_expired(
    alloc: Global,
    hashes: &mut Vec<Text>,
    code: &OAuthCode,
    now: Moment,
) -> Result<(), AllocError>
    ensures { OnOk result (hashes.new.items ≡ hashes.old.items ++ expired_among now (code.now ∷ [])) }
{
    if code.expires_at <= now {
        hashes.push(code.hash.copy(alloc)?)?;
    }
    Ok(())
}
