//! Servers, leases and the next numbers, which have no limit of rows.
ghost use Rattle.std.specs.Prelude.{◌≡◌, OnOk, OnErr, IfOk, IfSome};
ghost use Rattle.std.specs.Option.{option_copied};
ghost use Rattle.std.specs.FinMap as map;
ghost use Rattle.std.specs.Map.Iter.{ShowsInOrder, deref};
ghost use Rattle.keyed_rows.specs.Rows.{OwnKeys};
ghost use Rattle.keyed_rows.specs.Puts.{IsFreeAnswer};
ghost use Rattle.hub_tables.specs.Lookups.{servers_of};

use crate::tables::Tables;
use hub_kit::moment::Moment;
use hub_kit::names::{ServerKey, UserName};
use hub_kit::target::Target;
use hub_kit::text::Text;
use hub_rows::records::{Lease, Next, ServerRow};
use keyed_rows::{PutError, keyed};
use row_indexes::servers::server_keys_of;
use std::alloc::{AllocError, Global};
use std::collections::btree_map::Values;

impl Tables {
    /// The server of a key.
    pub fn server(&self, key: &ServerKey) -> Option<&ServerRow>
        ensures value { option_copied result ≡ map.get self.now.servers key.now }
        ensures own { IfSome result (λ row. row.now.key ≡ key.now) }
    {
        keyed_rows::row_at(&self.trees.servers, key)
    }

    /// Sets the row of a server. There is no limit of rows, so memory alone may be wanting.
    pub fn put_server(&mut self, value: ServerRow) -> Result<(), PutError>
        ensures answer { IsFreeAnswer self.old.servers value.key result }
        ensures ok { OnOk result (self.new ≡ record self.old { servers = map.insert self.old.servers value.key value }) }
        ensures err { OnErr result (self.new ≡ self.old) }
    {
        // The check proves no call that moves a row of plain fields, unless their types are named beside it.
        let _named: Option<Moment> = value.last_activity;
        keyed::put(self.alloc, &mut self.trees.servers, value, None)
    }

    /// Takes the row of a server out, and tells whether it was there. Takes no memory.
    pub fn remove_server(&mut self, key: &ServerKey) -> bool
        ensures there { result ≡ map.contains_key self.old.servers key.now }
        ensures after { self.new ≡ record self.old { servers = map.remove self.old.servers key.now } }
    {
        keyed_rows::remove_row(&mut self.trees.servers, key)
    }

    /// The rows of servers, in the order of users and then of servers.
    pub fn servers(&self) -> Values<'_, ServerKey, ServerRow>
        ensures rows { result ≡ map.values self.now.servers }
        ensures own { OwnKeys (λ row. row.key) self.now.servers }
        ensures runs { ShowsInOrder (deref {X = ServerRow}) }
    {
        self.trees.servers.values()
    }

    /// The keys of the servers of a user, in order: a walk over these alone.
    pub fn servers_of(&self, alloc: Global, user: &UserName) -> Result<Vec<ServerKey>, AllocError>
        ensures { IfOk result (λ keys. keys.items ≡ servers_of self.now user.now) }
    {
        server_keys_of(alloc, &self.trees.servers, user)
    }

    /// The lease of a target.
    pub fn lease(&self, key: &Target) -> Option<&Lease>
        ensures value { option_copied result ≡ map.get self.now.leases key.now }
        ensures own { IfSome result (λ row. row.now.target ≡ key.now) }
    {
        keyed_rows::row_at(&self.trees.leases, key)
    }

    /// Sets the row of a lease. There is no limit of rows, so memory alone may be wanting.
    pub fn put_lease(&mut self, value: Lease) -> Result<(), PutError>
        ensures answer { IsFreeAnswer self.old.leases value.target result }
        ensures ok { OnOk result (self.new ≡ record self.old { leases = map.insert self.old.leases value.target value }) }
        ensures err { OnErr result (self.new ≡ self.old) }
    {
        keyed::put(self.alloc, &mut self.trees.leases, value, None)
    }

    /// Takes the row of a lease out, and tells whether it was there. Takes no memory.
    pub fn remove_lease(&mut self, key: &Target) -> bool
        ensures there { result ≡ map.contains_key self.old.leases key.now }
        ensures after { self.new ≡ record self.old { leases = map.remove self.old.leases key.now } }
    {
        keyed_rows::remove_row(&mut self.trees.leases, key)
    }

    /// The rows of leases, in the order of targets.
    pub fn leases(&self) -> Values<'_, Target, Lease>
        ensures rows { result ≡ map.values self.now.leases }
        ensures own { OwnKeys (λ row. row.target) self.now.leases }
        ensures runs { ShowsInOrder (deref {X = Lease}) }
    {
        self.trees.leases.values()
    }

    /// The next number of a kind of numbers: `code`, `generation` or `token`.
    pub fn next_of(&self, key: &Text) -> Option<&Next>
        ensures value { option_copied result ≡ map.get self.now.nexts key.now }
        ensures own { IfSome result (λ row. row.now.name ≡ key.now) }
    {
        keyed_rows::row_at(&self.trees.nexts, key)
    }

    /// Sets the row of the next number of a kind of numbers. There is no limit of rows, so memory alone may be wanting.
    pub fn put_next(&mut self, value: Next) -> Result<(), PutError>
        ensures answer { IsFreeAnswer self.old.nexts value.name result }
        ensures ok { OnOk result (self.new ≡ record self.old { nexts = map.insert self.old.nexts value.name value }) }
        ensures err { OnErr result (self.new ≡ self.old) }
    {
        keyed::put(self.alloc, &mut self.trees.nexts, value, None)
    }

    /// Takes the row of the next number of a kind out, and tells whether it was there. Takes no memory.
    pub fn remove_next(&mut self, key: &Text) -> bool
        ensures there { result ≡ map.contains_key self.old.nexts key.now }
        ensures after { self.new ≡ record self.old { nexts = map.remove self.old.nexts key.now } }
    {
        keyed_rows::remove_row(&mut self.trees.nexts, key)
    }

    /// The rows of next numbers, in the order of names.
    pub fn nexts(&self) -> Values<'_, Text, Next>
        ensures rows { result ≡ map.values self.now.nexts }
        ensures own { OwnKeys (λ row. row.name) self.now.nexts }
        ensures runs { ShowsInOrder (deref {X = Next}) }
    {
        self.trees.nexts.values()
    }
}
