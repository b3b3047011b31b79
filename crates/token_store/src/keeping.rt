//! What a new token meets among the tokens that are kept.
ghost use Rattle.std.specs.Prelude.{◌≡◌, codes, IfOk};
ghost use Rattle.hub_kit.specs.Hashes.{hash_text};
ghost use Rattle.hub_tables.specs.Lookups.{next_of};
ghost use Rattle.token_store.specs.Issuing.{is_hash_kept};

use crate::issuing::is_hash_kept;
use hub_kit::hashes::hash_of;
use hub_kit::text::Text;
use hub_tables::tables::Tables;
use std::alloc::{AllocError, Global};

/// Whether a token of this text is kept, also where it is over.
pub fn is_text_kept(alloc: Global, tables: &Tables, text: &Text) -> Result<bool, AllocError>
    ensures { IfOk result (λ b. b ≡ is_hash_kept tables.now (hash_text text.now)) }
{
    let hash = hash_of(alloc, text.as_bytes())?;
    Ok(is_hash_kept(tables, &hash))
}

/// The id of the next token: ids begin with 1, and none is given out twice.
pub fn next_id(alloc: Global, tables: &Tables) -> Result<u64, AllocError>
    ensures { IfOk result (λ id. id ≡ next_of tables.now (codes "token")) }
{
    let name = Text::from_str(alloc, "token")?;
    match tables.next_of(&name) {
        Some(row) => Ok(row.next),
        None => Ok(1),
    }
}
