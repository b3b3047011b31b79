//! A proxy's interface as a route link.
ghost use Rattle.std.specs.Prelude.{◌≡◌, ◌≤◌, ℕ, List, [], ◌∷◌, IfOk, IfErr, OnErr};
ghost use Rattle.std.specs.Prelude as prelude;
ghost use Rattle.hub_devices.specs.Calls.{Grows, told_unit, told_error, is_fault};
ghost use Rattle.hub_devices.specs.Faults.{Rises};
ghost use Rattle.hub_devices.specs.declared.calls.Routing.{Routing};
ghost use Rattle.hub_devices.specs.declared.calls.Routing.TheVariants as Route;
ghost use Rattle.hub_devices.specs.declared.calls.Told.{Told};
ghost use Rattle.hub_devices.specs.declared.calls.Told.TheVariants.{Listed};
ghost use Rattle.hub_devices.specs.declared.link_error.LinkError.TheVariants as Link;
ghost use Rattle.hub_link.specs.Links.{Exchange, Asks};
ghost use Rattle.proxy_link.specs.Asks as spec;
ghost use Rattle.proxy_link.specs.Requests as requests;

use crate::asks::{add_route, delete_route, list_routes};
use hub_devices::calls::ListedRoute;
use hub_devices::link_error::LinkError;
use hub_devices::route_link::RouteLink;
use hub_devices::source::Failed;
use hub_kit::target::Target;
use hub_kit::text::Text;
use hub_link::link::HubLink;
use std::alloc::Global;

/// Changes the routes of the proxy behind a link, by its secret. It tells no calls, and counts each call that fails.
#[derive(Drop)]
pub struct ProxyLink<L: HubLink> {
    alloc: Global,
    secret: Text,
    link: L,
    faults: u64,
}

impl<L: HubLink> ProxyLink<L> {
    /// Asks nothing yet.
    pub fn new(alloc: Global, secret: Text, link: L) -> ProxyLink<L>
        ensures { result ≡ record { alloc = alloc; secret = secret; link = link; faults = 0 } }
    {
        ProxyLink {
            alloc,
            secret,
            link,
            faults: 0,
        }
    }

    /// Counts a call that failed.
    fn fail(&mut self)
        ensures exact { self.new ≡ record self.old { faults = spec.counted prelude.true self.old.faults } }
        ensures counted { self.old.faults ≤ self.new.faults }
        ensures rises { Rises self.old.faults self.new.faults }
    {
        self.faults = self.faults.saturating_add(1);
    }

    /// What is told of a change that is done or not, or that couldn't be asked.
    fn tell(&mut self, done: Result<bool, LinkError>) -> Result<(), Failed>
        ensures ok { prelude.is_ok result ≡ spec.is_told_done done }
        ensures exact { self.new ≡ record self.old { faults = spec.counted (prelude.is_err result) self.old.faults } }
        ensures counted { self.old.faults ≤ self.new.faults }
        ensures cause { OnErr result (Rises self.old.faults self.new.faults) }
    {
        match done {
            Ok(true) => Ok(()),
            Ok(false) => {
                self.fail();
                Err(Failed)
            }
            Err(_) => {
                self.fail();
                Err(Failed)
            }
        }
    }
}

impl<L: HubLink> RouteLink for ProxyLink<L> {
    ghost calls = { λ _. prelude.None };

    ghost faults = { λ l. l.faults };

    fn add(&mut self, path: &Text, target: &Target, serial: Option<u64>) -> Result<(), Failed>
        ensures calls { Grows {A = Routing × Told} prelude.None ((Route.Add path.now target.now serial, told_unit result) ∷ [])
            prelude.None }
        ensures asked { (asks : List Exchange) × Asks L.asked L.does self.old.link asks self.new.link
            × spec.ChangeTold (requests.is_path path.now) spec.is_added (requests.add_request self.old.secret path.now target.now serial)
            asks result }
        ensures secret { self.new.secret ≡ self.old.secret }
        ensures exact { self.new.faults ≡ spec.counted (prelude.is_err result) self.old.faults }
        ensures counted { self.old.faults ≤ self.new.faults }
        ensures cause { OnErr result (Rises self.old.faults self.new.faults) }
    {
        let done = add_route(
            self.alloc,
            &mut self.link,
            &self.secret,
            path,
            target,
            serial,
        );
        self.tell(done)
    }

    fn delete(&mut self, path: &Text, serial: u64) -> Result<(), Failed>
        ensures calls { Grows {A = Routing × Told} prelude.None ((Route.Delete path.now serial, told_unit result) ∷ []) prelude.None }
        ensures asked { (asks : List Exchange) × Asks L.asked L.does self.old.link asks self.new.link
            × spec.ChangeTold (requests.is_path path.now) spec.is_deleted (requests.delete_request self.old.secret path.now serial) asks
            result }
        ensures secret { self.new.secret ≡ self.old.secret }
        ensures exact { self.new.faults ≡ spec.counted (prelude.is_err result) self.old.faults }
        ensures counted { self.old.faults ≤ self.new.faults }
        ensures cause { OnErr result (Rises self.old.faults self.new.faults) }
    {
        let done = delete_route(self.alloc, &mut self.link, &self.secret, path, serial);
        self.tell(done)
    }

    fn list(&mut self) -> Result<Vec<ListedRoute>, LinkError>
        ensures calls { IfOk result (λ routes. Grows {A = Routing × Told} prelude.None ((Route.List, Listed routes.items) ∷ [])
            prelude.None) }
        ensures failed { IfErr result (λ e. Grows {A = Routing × Told} prelude.None ((Route.List, told_error e) ∷ []) prelude.None) }
        ensures ok { IfOk result (λ routes. (asks : List Exchange) × Asks L.asked L.does self.old.link asks self.new.link
            × spec.Lists (requests.list_request self.old.secret) asks (prelude.Some routes.items)) }
        ensures err { IfErr result (λ e. (asks : List Exchange) × Asks L.asked L.does self.old.link asks self.new.link
            × spec.ListFails (requests.list_request self.old.secret) asks e) }
        ensures secret { self.new.secret ≡ self.old.secret }
        ensures exact { self.new.faults ≡ spec.counted (is_fault result) self.old.faults }
        ensures counted { self.old.faults ≤ self.new.faults }
        ensures cause { IfErr result (λ e. e ≡ Link.Failed → Rises self.old.faults self.new.faults) }
    {
        match list_routes(self.alloc, &mut self.link, &self.secret) {
            Ok(Some(routes)) => Ok(routes.into_vec()),
            Ok(None) => {
                self.fail();
                Err(LinkError::Failed)
            }
            Err(LinkError::Failed) => {
                self.fail();
                Err(LinkError::Failed)
            }
            Err(LinkError::Memory) => Err(LinkError::Memory),
        }
    }
}
