//! Tokens and share codes, which stand under ids and are found by hashes.
ghost use Rattle.std.specs.Prelude.{◌≡◌, not, ◌||◌, IsTrue, OnOk, OnErr, IfOk, IfSome};
ghost use Rattle.std.specs.Option.{option_copied, is_some};
ghost use Rattle.std.specs.FinMap as map;
ghost use Rattle.std.specs.Map.Iter.{ShowsInOrder, deref};
ghost use Rattle.keyed_rows.specs.Rows.{OwnKeys};
ghost use Rattle.keyed_rows.specs.Puts.{IsAnswerIn};
ghost use Rattle.row_indexes.specs.Hashes.{row_with};
ghost use Rattle.hub_tables.specs.Hashes.{FitsCode, FitsToken};
ghost use Rattle.hub_tables.specs.Lookups.{tokens_of, tokens_over};
ghost use Rattle.hub_tables.specs.Rooms.{room_of};

use crate::boxed::{KeptToken, row_in};
use crate::owned;
use crate::parties::owner_number;
use crate::tables::{Tables, room_of};
use hub_kit::moment::Moment;
use hub_kit::text::Text;
use hub_rows::records::{ShareCode, Token};
use keyed_rows::PutError;
use row_indexes::hashed;
use row_indexes::owned::owned_keys;
use scope_filters::holder::Owner;
use std::alloc::{AllocError, Global};
use std::collections::btree_map::Values;

impl Tables {
    /// The token of an id.
    pub fn token(&self, id: u64) -> Option<&Token>
        ensures value { option_copied result ≡ map.get self.now.tokens id }
        ensures own { IfSome result (λ row. row.now.id ≡ id) }
    {
        row_in(keyed_rows::row_at(&self.trees.tokens, &id))
    }

    /// The token of a hash, which is looked up in an index.
    pub fn token_of_hash(&self, hash: &Text) -> Option<&Token>
        ensures { option_copied result ≡ row_with (λ row. row.hash) hash.now self.now.tokens }
    {
        row_in(hashed::row_of_hash(&self.trees.tokens, &self.trees.token_ids, hash))
    }

    /// Sets the row of a token. No other row has its hash, and a kept row of its id has the same hash and owner.
    pub fn put_token(&mut self, value: Token, leaving: Option<u32>) -> Result<(), PutError>
        requires { FitsToken self.old.tokens value }
        ensures answer { IsAnswerIn (room_of 5 self.old.limits.tokens leaving) self.old.tokens value.id result }
        ensures ok { OnOk result (self.new ≡ record self.old { tokens = map.insert self.old.tokens value.id value }) }
        ensures err { OnErr result (self.new ≡ self.old) }
    {
        let room = room_of(5, self.limits.tokens, leaving);
        owned::put_token(
            self.alloc,
            &mut self.trees.tokens,
            &mut self.trees.token_ids,
            &mut self.trees.token_owners,
            value,
            room,
        )
    }

    /// The number of the rows of tokens.
    pub fn count_of_tokens(&self) -> usize
        ensures { result ≡ map.len self.now.tokens }
    {
        keyed_rows::count(&self.trees.tokens)
    }

    /// Takes the row of a token out, and tells whether it was there. Takes no memory.
    pub fn remove_token(&mut self, id: u64) -> bool
        ensures there { result ≡ map.contains_key self.old.tokens id }
        ensures after { self.new ≡ record self.old { tokens = map.remove self.old.tokens id } }
    {
        owned::remove_token(
            &mut self.trees.tokens,
            &mut self.trees.token_ids,
            &mut self.trees.token_owners,
            id,
        )
    }

    /// Whether neither the id nor the hash of a token is kept, so that a new one may stand under them.
    pub fn token_is_new(&self, id: u64, hash: &Text) -> bool
        ensures value { result ≡ not (map.contains_key self.now.tokens id
            || is_some (row_with (λ row. row.hash) hash.now self.now.tokens)) }
        ensures fits { IsTrue result → (row : Token) → row.id ≡ id → row.hash ≡ hash.now → FitsToken self.now.tokens row }
    {
        neither(self.token(id).is_some(), self.token_of_hash(hash).is_some())
    }

    /// The rows of tokens, in the order of ids.
    pub fn tokens(&self) -> Values<'_, u64, KeptToken>
        ensures rows { result ≡ map.values self.now.tokens }
        ensures own { OwnKeys (λ row. row.id) self.now.tokens }
        ensures runs { ShowsInOrder (deref {X = Token}) }
    {
        self.trees.tokens.values()
    }

    /// The ids of the tokens of an owner, in order, by an index.
    pub fn tokens_of(&self, alloc: Global, owner: &Owner) -> Result<Vec<u64>, AllocError>
        ensures { IfOk result (λ ids. ids.items ≡ tokens_of self.now owner.now) }
    {
        let ids = owned_keys(alloc, &self.trees.token_owners, &owner_number(owner))?;
        owned::own_ids(alloc, &self.trees.tokens, &ids, owner)
    }

    /// The ids of the tokens of an owner that are over, in order, by the same index.
    pub fn tokens_over(
        &self,
        alloc: Global,
        owner: &Owner,
        now: Moment,
    ) -> Result<Vec<u64>, AllocError>
        ensures { IfOk result (λ ids. ids.items ≡ tokens_over self.now owner.now now) }
    {
        let ids = owned_keys(alloc, &self.trees.token_owners, &owner_number(owner))?;
        owned::own_ids_over(alloc, &self.trees.tokens, &ids, owner, now)
    }

    /// The share code of an id.
    pub fn code(&self, id: u64) -> Option<&ShareCode>
        ensures value { option_copied result ≡ map.get self.now.codes id }
        ensures own { IfSome result (λ row. row.now.id ≡ id) }
    {
        keyed_rows::row_at(&self.trees.codes, &id)
    }

    /// The share code of a hash, which is looked up in an index.
    pub fn code_of_hash(&self, hash: &Text) -> Option<&ShareCode>
        ensures { option_copied result ≡ row_with (λ row. row.hash) hash.now self.now.codes }
    {
        hashed::row_of_hash(&self.trees.codes, &self.trees.code_ids, hash)
    }

    /// Sets the row of a share code. No other row has its hash, and a kept row of its id has the same hash and server.
    pub fn put_code(&mut self, value: ShareCode, leaving: Option<u32>) -> Result<(), PutError>
        requires { FitsCode self.old.codes value }
        ensures answer { IsAnswerIn (room_of 9 self.old.limits.codes leaving) self.old.codes value.id result }
        ensures ok { OnOk result (self.new ≡ record self.old { codes = map.insert self.old.codes value.id value }) }
        ensures err { OnErr result (self.new ≡ self.old) }
    {
        let room = room_of(9, self.limits.codes, leaving);
        hashed::put_hashed(
            self.alloc,
            &mut self.trees.codes,
            &mut self.trees.code_ids,
            value,
            room,
        )
    }

    /// Sets the row of a share code, whatever the number of rows. No other row has its hash, and a kept row of its id has the same hash and
    /// Takes the row of a share code out, and tells whether it was there. Takes no memory.
    pub fn remove_code(&mut self, id: u64) -> bool
        ensures there { result ≡ map.contains_key self.old.codes id }
        ensures after { self.new ≡ record self.old { codes = map.remove self.old.codes id } }
    {
        hashed::remove_hashed(&mut self.trees.codes, &mut self.trees.code_ids, id)
    }

    /// The rows of share codes, in the order of ids.
    pub fn codes(&self) -> Values<'_, u64, ShareCode>
        ensures rows { result ≡ map.values self.now.codes }
        ensures own { OwnKeys (λ row. row.id) self.now.codes }
        ensures runs { ShowsInOrder (deref {X = ShareCode}) }
    {
        self.trees.codes.values()
    }
}

fn neither(one: bool, other: bool) -> bool
    ensures { result ≡ not (one || other) }
{
    !one && !other
}
