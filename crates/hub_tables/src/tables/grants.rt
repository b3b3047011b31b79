//! Shares, and the clients and codes of OAuth.
ghost use Rattle.std.specs.Prelude.{◌≡◌, OnOk, OnErr, IfOk, IfSome};
ghost use Rattle.std.specs.Option.{option_copied};
ghost use Rattle.std.specs.List.{filter};
ghost use Rattle.std.specs.FinMap as map;
ghost use Rattle.std.specs.Map.Iter.{ShowsInOrder, deref};
ghost use Rattle.keyed_rows.specs.Rows.{OwnKeys};
ghost use Rattle.keyed_rows.specs.Puts.{IsAnswerIn};
ghost use Rattle.hub_tables.specs.Lookups.{same_recipient, shares_with};
ghost use Rattle.hub_tables.specs.Rooms.{room_of};

use crate::owned;
use crate::parties::of_recipient;
use crate::tables::{Tables, room_of};
use hub_kit::names::ServerKey;
use hub_kit::text::Text;
use hub_rows::keys::{Recipient, ShareKey};
use hub_rows::records::{OAuthClient, OAuthCode, Share};
use keyed_rows::{PutError, keyed};
use row_indexes::owned::owned_keys;
use std::alloc::{AllocError, Global};
use std::collections::btree_map::Values;

/// The greatest number of clients of OAuth.
const CLIENTS: u32 = 2_000;

impl Tables {
    /// The share of a server with a recipient.
    pub fn share(&self, server: &ServerKey, to: &Recipient) -> Option<&Share>
        ensures value { option_copied result ≡ map.get self.now.shares (record { server = server.now; to = to.now }) }
        ensures own { IfSome result (λ row. row.now.key ≡ record { server = server.now; to = to.now }) }
    {
        let key = ShareKey {
            server: *server,
            to: *to,
        };
        keyed_rows::row_at(&self.trees.shares, &key)
    }

    /// Sets the row of a share.
    pub fn put_share(&mut self, value: Share, leaving: Option<u32>) -> Result<(), PutError>
        ensures answer { IsAnswerIn (room_of 8 self.old.limits.shares leaving) self.old.shares value.key result }
        ensures ok { OnOk result (self.new ≡ record self.old { shares = map.insert self.old.shares value.key value }) }
        ensures err { OnErr result (self.new ≡ self.old) }
    {
        let room = room_of(8, self.limits.shares, leaving);
        owned::put_share(
            self.alloc,
            &mut self.trees.shares,
            &mut self.trees.share_parties,
            value,
            room,
        )
    }

    /// Takes the row of a share out, and tells whether it was there. Takes no memory.
    pub fn remove_share(&mut self, server: &ServerKey, to: &Recipient) -> bool
        ensures there { result ≡ map.contains_key self.old.shares (record { server = server.now; to = to.now }) }
        ensures after { self.new ≡ record self.old { shares = map.remove self.old.shares (record { server = server.now; to = to.now }) } }
    {
        let key = ShareKey {
            server: *server,
            to: *to,
        };
        owned::remove_share(&mut self.trees.shares, &mut self.trees.share_parties, &key)
    }

    /// The rows of shares, in the order of servers and then of recipients.
    pub fn shares(&self) -> Values<'_, ShareKey, Share>
        ensures rows { result ≡ map.values self.now.shares }
        ensures own { OwnKeys (λ row. row.key) self.now.shares }
        ensures runs { ShowsInOrder (deref {X = Share}) }
    {
        self.trees.shares.values()
    }

    /// The keys of the shares that a user gave or received, or that a group received, in order, by an index.
    pub fn shares_with(&self, alloc: Global, to: &Recipient) -> Result<Vec<ShareKey>, AllocError>
        ensures { IfOk result (λ keys. keys.items ≡ shares_with self.now to.now) }
    {
        owned_keys(alloc, &self.trees.share_parties, &of_recipient(to))
    }

    /// Those of these that the user or the group received, in order. A key of another share is looked at and not copied.
    pub fn shares_to(&self, alloc: Global, to: &Recipient) -> Result<Vec<ShareKey>, AllocError>
        ensures { IfOk result (λ keys. keys.items ≡ filter (λ key. same_recipient key.to to.now) (shares_with self.now to.now)) }
    {
        owned::share_keys_to(alloc, &self.trees.share_parties, to)
    }

    /// The client of an id, `server:USER/SERVER` or `service:NAME`.
    pub fn client(&self, key: &Text) -> Option<&OAuthClient>
        ensures value { option_copied result ≡ map.get self.now.clients key.now }
        ensures own { IfSome result (λ row. row.now.id ≡ key.now) }
    {
        keyed_rows::row_at(&self.trees.clients, key)
    }

    /// Sets the row of a client.
    pub fn put_client(&mut self, value: OAuthClient, leaving: Option<u32>) -> Result<(), PutError>
        ensures answer { IsAnswerIn (room_of 10 CLIENTS leaving) self.old.clients value.id result }
        ensures ok { OnOk result (self.new ≡ record self.old { clients = map.insert self.old.clients value.id value }) }
        ensures err { OnErr result (self.new ≡ self.old) }
    {
        let room = room_of(10, CLIENTS, leaving);
        keyed::put(self.alloc, &mut self.trees.clients, value, room)
    }

    /// The number of the rows of clients.
    pub fn count_of_clients(&self) -> usize
        ensures { result ≡ map.len self.now.clients }
    {
        keyed_rows::count(&self.trees.clients)
    }

    /// Takes the row of a client out, and tells whether it was there. Takes no memory.
    pub fn remove_client(&mut self, key: &Text) -> bool
        ensures there { result ≡ map.contains_key self.old.clients key.now }
        ensures after { self.new ≡ record self.old { clients = map.remove self.old.clients key.now } }
    {
        keyed_rows::remove_row(&mut self.trees.clients, key)
    }

    /// The rows of clients, in the order of ids.
    pub fn clients(&self) -> Values<'_, Text, OAuthClient>
        ensures rows { result ≡ map.values self.now.clients }
        ensures own { OwnKeys (λ row. row.id) self.now.clients }
        ensures runs { ShowsInOrder (deref {X = OAuthClient}) }
    {
        self.trees.clients.values()
    }

    /// The code of OAuth that stands under a hash.
    pub fn grant_code(&self, key: &Text) -> Option<&OAuthCode>
        ensures value { option_copied result ≡ map.get self.now.grant_codes key.now }
        ensures own { IfSome result (λ row. row.now.hash ≡ key.now) }
    {
        keyed_rows::row_at(&self.trees.grant_codes, key)
    }

    /// Sets the row of a code of OAuth.
    pub fn put_grant_code(&mut self, value: OAuthCode, leaving: Option<u32>) -> Result<(), PutError>
        ensures answer { IsAnswerIn (room_of 11 self.old.limits.codes leaving) self.old.grant_codes value.hash result }
        ensures ok { OnOk result (self.new ≡ record self.old { grant_codes = map.insert self.old.grant_codes value.hash value }) }
        ensures err { OnErr result (self.new ≡ self.old) }
    {
        let room = room_of(11, self.limits.codes, leaving);
        keyed::put(self.alloc, &mut self.trees.grant_codes, value, room)
    }

    /// Takes the row of a code of OAuth out, and tells whether it was there. Takes no memory.
    pub fn remove_grant_code(&mut self, key: &Text) -> bool
        ensures there { result ≡ map.contains_key self.old.grant_codes key.now }
        ensures after { self.new ≡ record self.old { grant_codes = map.remove self.old.grant_codes key.now } }
    {
        keyed_rows::remove_row(&mut self.trees.grant_codes, key)
    }

    /// The rows of the codes of OAuth, in the order of hashes.
    pub fn grant_codes(&self) -> Values<'_, Text, OAuthCode>
        ensures rows { result ≡ map.values self.now.grant_codes }
        ensures own { OwnKeys (λ row. row.hash) self.now.grant_codes }
        ensures runs { ShowsInOrder (deref {X = OAuthCode}) }
    {
        self.trees.grant_codes.values()
    }
}
