//! What a book tells of its live servers.
ghost use Rattle.std.specs.Prelude.{◌≡◌, ◌<◌, ◌^◌, All, IfOk};
ghost use Rattle.std.specs.Option.{option_copied};
ghost use Rattle.hub_core.specs.Live.{AreAdopting, AreReady};
ghost use Rattle.hub_core.specs.Live as spec;

use crate::book::Book;
use crate::live::{LiveServer, adopting_servers, ready_servers};
use hub_kit::names::ServerKey;
use hub_kit::target::Target;
use hub_machine::change::Change;
use keeper::keeper::Keeper;
use keeper::trail::Trail;
use std::alloc::{AllocError, Global};

impl<K: Keeper, T: Trail<Entry = Change>> Book<K, T> {
    /// The target of the hub itself.
    pub fn hub_url(&self) -> Option<&Target>
        ensures { option_copied result ≡ self.now.hub.hub_url }
    {
        let _ = &self.trail;
        self.machine.hub_url()
    }

    /// Whether the server has a lease of this generation.
    pub fn is_live(&self, server: &ServerKey, generation: u64) -> bool
        ensures { result ≡ spec.is_live self.now.hub.lives server.now generation }
    {
        let _ = &self.trail;
        match self.machine.lives().get(generation) {
            Some(lease) => lease.server == *server,
            None => false,
        }
    }

    /// The server that has a lease of this generation.
    pub fn server_of(&self, generation: u64) -> Option<&ServerKey>
        ensures { option_copied result ≡ spec.server_of self.now.hub.lives generation }
    {
        let _ = &self.trail;
        match self.machine.lives().get(generation) {
            Some(lease) => Some(&lease.server),
            None => None,
        }
    }

    /// The servers that are ready, in the order of their keys.
    pub fn ready(&self, alloc: Global) -> Result<Vec<LiveServer>, AllocError>
        ensures listed { IfOk result (λ servers. AreReady self.now.hub.lives servers.items) }
        // their generations have serials for their routes
        ensures small { IfOk result (λ servers. All (λ s. s.generation < 2 ^ 63) servers.items) }
    {
        let _ = &self.trail;
        // that a live generation is below the next one
        self.machine.are_leased();
        let _generation = self.machine.next_generation();
        let mut servers = ready_servers(alloc, self.machine.lives())?;
        servers.sort_unstable_by_key(|live| live.server);
        Ok(servers)
    }

    /// The servers that are being adopted, in the order of their targets.
    pub fn adopting(&self, alloc: Global) -> Result<Vec<LiveServer>, AllocError>
        ensures listed { IfOk result (λ servers. AreAdopting self.now.hub.lives servers.items) }
        // their generations have serials for their routes
        ensures small { IfOk result (λ servers. All (λ s. s.generation < 2 ^ 63) servers.items) }
    {
        let _ = &self.trail;
        // that a live generation is below the next one
        self.machine.are_leased();
        let _generation = self.machine.next_generation();
        let mut servers = adopting_servers(alloc, self.machine.lives())?;
        servers.sort_unstable_by(|a, b| a.target.cmp(&b.target));
        Ok(servers)
    }
}
