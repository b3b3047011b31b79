//! Tokens that are kept: whom a text finds, and which of an owner's are over.
ghost use Rattle.std.specs.Prelude.{◌≡◌, ℕ, false, List, Ok, IfOk, Some};
ghost use Rattle.std.specs.FinMap.{get};
ghost use Rattle.hub_kit.specs.Hashes.{hash_text};
ghost use Rattle.hub_rows.specs.declared.records.Token.{Token};
ghost use Rattle.hub_tables.specs.Ends.{is_over};
ghost use Rattle.hub_tables.specs.Own.{AreOwn};
ghost use Rattle.hub_tables.specs.State.{State};
ghost use Rattle.token_store.specs.Finding.{expired_tokens, find, until, Finds};

use hub_kit::hashes::hash_of;
use hub_kit::moment::Moment;
use hub_tables::tables::Tables;
use scope_filters::holder::Owner;
use std::alloc::{AllocError, Global};

/// Why a text finds no token.
#[derive(Drop)]
pub enum TokenError {
    /// No kept token has its hash.
    Unknown,
    /// The token that has its hash was good until this moment.
    Expired(Moment),
    /// There was no memory.
    Memory,
}

impl From<AllocError> for TokenError {
    ghost use Rattle.std.specs.Prelude.{◌≡◌};
    ghost use Rattle.token_store.specs.declared.finding.TokenError.TheVariants.{Memory};

    ghost from_gives = { λ _ e. e ≡ Memory };

    fn from(_: AllocError) -> TokenError {
        TokenError::Memory
    }
}

/// The id of the token that has the text's hash. `Unknown` comes where none has it, `Expired` where it was good until now or an earlier
/// moment.
pub fn find(alloc: Global, tables: &Tables, token: &[u8], now: Moment) -> Result<u64, TokenError>
    ensures { Finds (find tables.now token.now now) result }
{
    let hash = hash_of(alloc, token)?;
    match tables.token_of_hash(&hash) {
        None => Err(TokenError::Unknown),
        Some(token) => until(now, token.id, token.expires_at),
    }
}

/// The id of a token, unless it is over.
fn until(now: Moment, id: u64, end: Option<Moment>) -> Result<u64, TokenError>
    ensures { result ≡ until now id end }
{
    match end {
        None => Ok(id),
        Some(end) => {
            if end <= now {
                Err(TokenError::Expired(end))
            } else {
                Ok(id)
            }
        }
    }
}

/// The ids of an owner's tokens that are over, in order. It walks over the owner's tokens alone.
pub fn expired_tokens(
    alloc: Global,
    tables: &Tables,
    owner: &Owner,
    now: Moment,
) -> Result<Vec<u64>, AllocError>
    ensures { IfOk result (λ ids. ids.items ≡ expired_tokens tables.now now owner.now) }
{
    tables.tokens_over(alloc, owner, now)
}

/// A text finds a kept token that has its hash and isn't over.
pub fn found_token_has_the_hash()
    ensures { (t : State) (text : List ℕ) (now id : ℕ) → AreOwn t → find t text now ≡ Ok id
        → (token : Token) × (get t.tokens id ≡ Some token) × (token.hash ≡ hash_text text) × (is_over now token.expires_at ≡ false) }
{}
