//! Whose token a call brings: the kept one of its text, where it is good.
ghost use Rattle.std.specs.Prelude.{◌≡◌, Option, Some, None, false, IfOk, IfSome};
ghost use Rattle.std.specs.Option.{option_copied};
ghost use Rattle.std.specs.FinMap as map;
ghost use Rattle.hub_tables.specs.Ends as ends;
ghost use Rattle.hub_tables.specs.Hashes.{row_with};
ghost use Rattle.hub_core.specs.Answer as spec;

use hub_kit::hashes::hash_of;
use hub_kit::moment::Moment;
use hub_kit::text::Text;
use hub_machine::machine::Machine;
use hub_rows::records::Token;
use hub_tables::tables::Tables;
use std::alloc::{AllocError, Global};

fn is_over(now: Moment, end: Option<Moment>) -> bool
    ensures { result ≡ ends.is_over now end }
{
    match end {
        None => false,
        Some(end) => end <= now,
    }
}

/// The kept token of a text, where it is good.
pub(crate) fn good_token<'a>(
    alloc: Global,
    hub: &'a Machine,
    now: Moment,
    token: &Option<Text>,
) -> Result<Option<&'a Token>, AllocError>
    ensures value { IfOk result (λ k. option_copied k ≡ spec.good_token hub.now.tables now token.now) }
    ensures kept { IfOk result (λ k. IfSome k (λ row. map.get hub.now.tables.tokens row.now.id ≡ Some row.now)) }
{
    let Some(text) = token else {
        return Ok(None);
    };
    let hash = hash_of(alloc, text.as_bytes())?;
    Ok(token_of(hub, now, &hash))
}

/// The kept token of a hash, where it is good.
fn token_of<'a>(hub: &'a Machine, now: Moment, hash: &Text) -> Option<&'a Token>
    ensures value { option_copied result ≡ spec.if_good now (row_with (λ k. k.hash) hash.now hub.now.tables.tokens) }
    ensures kept { IfSome result (λ row. map.get hub.now.tables.tokens row.now.id ≡ Some row.now) }
{
    match token_with(hub.tables(), hash) {
        Some(token) if !is_over(now, token.expires_at) => Some(token),
        _ => None,
    }
}

/// The token of a hash, which stands under its id.
fn token_with<'a>(tables: &'a Tables, hash: &Text) -> Option<&'a Token>
    ensures value { option_copied result ≡ row_with (λ k. k.hash) hash.now tables.now.tokens }
    ensures kept { IfSome result (λ row. map.get tables.now.tokens row.now.id ≡ Some row.now) }
{
    tables.own_keys();
    tables.token_of_hash(hash)
}
