//! A route link in memory.
ghost use Rattle.std.specs.Prelude.{◌≡◌, ◌≤◌, List, [], ◌∷◌, not, filter, Option, Some, None, true, false, is_err, IsErr, IsSome, IfOk};
ghost use Rattle.std.specs.Prelude.{IfErr, OnOk, OnErr};
ghost use Rattle.std.specs.Option.{option_map};
ghost use Rattle.hub_devices.specs.Calls.{Grows, told_unit, told_error, is_fault};
ghost use Rattle.hub_devices.specs.FailingCalls.{is_failing, after_call, new_script};
ghost use Rattle.hub_devices.specs.Faults.{Rises};
ghost use Rattle.hub_devices.specs.NamedFiles.{same_text};
ghost use Rattle.hub_devices.specs.Routes.{Puts, Lists};
ghost use Rattle.hub_devices.specs.declared.calls.Routing.{Routing};
ghost use Rattle.hub_devices.specs.declared.calls.Routing.TheVariants as Route;
ghost use Rattle.hub_devices.specs.declared.calls.Told.{Told};
ghost use Rattle.hub_devices.specs.declared.calls.Told.TheVariants.{Listed};
ghost use Rattle.hub_devices.specs.declared.link_error.LinkError.TheVariants as Link;

use crate::call_log::CallLog;
use crate::calls::{ListedRoute, Routing, Told};
use crate::link_error::LinkError;
use crate::listing::listed_routes;
use crate::route_link::RouteLink;
use crate::source::Failed;
use hub_kit::list::List;
use hub_kit::target::Target;
use hub_kit::text::Text;
use std::alloc::{AllocError, Global};

/// Keeps the routes that its calls leave, and all calls with what they told. It fails at the calls that `failing` numbers,
/// the first call being 0, and `add` and `delete` where they find no memory; a call that failed is never applied. A call
/// that finds no memory to be kept is not told, and no other is from then on.
pub struct MemRouteLink {
    alloc: Global,
    routes: Vec<ListedRoute>,
    log: CallLog<Routing, Told>,
}

impl Drop for MemRouteLink {
    fn drop(self) {
        let MemRouteLink {
            alloc: _,
            routes: _,
            log: _,
        } = self;
    }
}

impl MemRouteLink {
    /// There are no routes.
    pub fn new(alloc: Global, failing: Vec<u64>) -> MemRouteLink
        ensures routes { result.routes.items ≡ [] }
        ensures calls { ⟦<MemRouteLink as RouteLink>⟧.calls result ≡ Some [] }
        ensures script { result.log.script ≡ new_script failing.items }
    {
        MemRouteLink::beginning(alloc, Vec::new(alloc), failing)
    }

    /// There are these routes. Of equal paths the first counts.
    pub fn beginning(alloc: Global, list: Vec<ListedRoute>, failing: Vec<u64>) -> MemRouteLink
        ensures routes { result.routes.items ≡ list.items }
        ensures calls { ⟦<MemRouteLink as RouteLink>⟧.calls result ≡ Some [] }
        ensures script { result.log.script ≡ new_script failing.items }
    {
        MemRouteLink {
            alloc,
            routes: list,
            log: CallLog::new(alloc, failing),
        }
    }

    /// The calls with what they told, unless one of them found no memory to be kept.
    pub fn calls(&self) -> Option<&[(Routing, Told)]>
        ensures { ⟦<MemRouteLink as RouteLink>⟧.calls self.now ≡ option_map (λ calls. calls.now) result }
    {
        match &self.log.calls {
            Some(calls) => Some(calls.as_slice()),
            None => None,
        }
    }
}

fn add_call(
    alloc: Global,
    path: &Text,
    target: &Target,
    serial: Option<u64>,
) -> Result<Routing, AllocError>
    ensures { IfOk result (λ call. call ≡ Route.Add path.now target.now serial) }
{
    Ok(Routing::Add(path.copy(alloc)?, target.copy(alloc)?, serial))
}

fn delete_call(alloc: Global, path: &Text, serial: u64) -> Result<Routing, AllocError>
    ensures { IfOk result (λ call. call ≡ Route.Delete path.now serial) }
{
    Ok(Routing::Delete(path.copy(alloc)?, serial))
}

/// Puts a route in front, where it counts before an older one of its path.
fn put_front(
    routes: &mut Vec<ListedRoute>,
    alloc: Global,
    path: &Text,
    target: &Target,
    serial: Option<u64>,
) -> Result<(), AllocError>
    ensures ok { OnOk result (routes.new.items ≡ record { path = path.now; target = target.now; serial = serial } ∷ routes.old.items) }
    ensures err { OnErr result (routes.new.items ≡ routes.old.items) }
{
    let route = ListedRoute {
        path: path.copy(alloc)?,
        target: target.as_text().copy(alloc)?,
        serial,
    };
    routes.insert(0, route)?;
    Ok(())
}

/// Takes out the routes of a path.
fn take_out(routes: &mut Vec<ListedRoute>, path: &Text)
    ensures { routes.new.items ≡ filter (λ route. not (same_text route.path path.now)) routes.old.items }
{
    routes.retain(|route| route.path != *path);
}

fn copy_routes(alloc: Global, routes: &[ListedRoute]) -> Result<Vec<ListedRoute>, AllocError>
    ensures { IfOk result (λ copies. copies.items ≡ routes.now) }
{
    let mut copies = Vec::new(alloc);
    for route in routes {
        copies.push(ListedRoute {
            path: route.path.copy(alloc)?,
            target: route.target.copy(alloc)?,
            serial: route.serial,
        })?;
    }
    Ok(copies)
}

/// The list of the routes, twice: to be given and to be kept.
fn list_twice(
    alloc: Global,
    routes: &[ListedRoute],
) -> Result<(Vec<ListedRoute>, Vec<ListedRoute>), AllocError>
    ensures listed { IfOk result (λ lists. Lists routes.now lists.0.items) }
    ensures same { IfOk result (λ lists. lists.1.items ≡ lists.0.items) }
{
    let listed = listed_routes(alloc, routes)?;
    let copies = copy_routes(alloc, listed.as_slice())?;
    Ok((listed, copies))
}

#[tactic(auto, using(crate::proofs::CallLemmas::Grows_lost, crate::proofs::RouteLemmas::Puts_front, crate::proofs::RouteLemmas::Puts_none))]
impl RouteLink for MemRouteLink {
    ghost calls = { λ l. l.log.calls };

    ghost faults = { λ l. l.log.script.faults };

    fn add(&mut self, path: &Text, target: &Target, serial: Option<u64>) -> Result<(), Failed>
        ensures calls { Grows self.old.log.calls ((Route.Add path.now target.now serial, told_unit result) ∷ []) self.new.log.calls }
        ensures counted { self.old.log.script.faults ≤ self.new.log.script.faults }
        ensures cause { OnErr result (Rises self.old.log.script.faults self.new.log.script.faults) }
        ensures added { OnOk result (Puts self.old.routes.items path.now (Some (target.now, serial)) self.new.routes.items) }
        ensures failed { OnErr result (self.new.routes.items ≡ self.old.routes.items) }
        ensures kept { OnOk result (IsSome self.old.log.calls → IsSome self.new.log.calls) }
        ensures fails { is_failing self.old.log.script ≡ true → IsErr result }
        ensures script { self.new.log.script ≡ after_call self.old.log.script (is_err result) }
    {
        let call = add_call(self.alloc, path, target, serial);
        if put_front(&mut self.routes, self.alloc, path, target, serial).is_err() {
            self.log.refuse(call, Told::Failed);
            return Err(Failed);
        }
        match self.log.tell(call, Told::Done, Told::Failed) {
            Ok(()) => Ok(()),
            Err(failed) => {
                self.routes.remove(0);
                Err(failed)
            }
        }
    }

    fn delete(&mut self, path: &Text, serial: u64) -> Result<(), Failed>
        ensures calls { Grows self.old.log.calls ((Route.Delete path.now serial, told_unit result) ∷ []) self.new.log.calls }
        ensures counted { self.old.log.script.faults ≤ self.new.log.script.faults }
        ensures cause { OnErr result (Rises self.old.log.script.faults self.new.log.script.faults) }
        ensures deleted { OnOk result (Puts self.old.routes.items path.now None self.new.routes.items) }
        ensures failed { OnErr result (self.new.routes.items ≡ self.old.routes.items) }
        ensures kept { OnOk result (IsSome self.old.log.calls → IsSome self.new.log.calls) }
        ensures fails { is_failing self.old.log.script ≡ true → IsErr result }
        ensures script { self.new.log.script ≡ after_call self.old.log.script (is_err result) }
    {
        let call = delete_call(self.alloc, path, serial);
        match self.log.tell(call, Told::Done, Told::Failed) {
            Ok(()) => {
                take_out(&mut self.routes, path);
                Ok(())
            }
            Err(failed) => Err(failed),
        }
    }

    /// Lists the routes that the additions and deletions that were Ok leave, whatever their serials, in the order of paths.
    fn list(&mut self) -> Result<Vec<ListedRoute>, LinkError>
        ensures calls { IfOk result (λ routes. Grows self.old.log.calls ((Route.List, Listed routes.items) ∷ []) self.new.log.calls) }
        ensures failed { IfErr result (λ e. Grows self.old.log.calls ((Route.List, told_error e) ∷ []) self.new.log.calls) }
        ensures counted { self.old.log.script.faults ≤ self.new.log.script.faults }
        ensures cause { IfErr result (λ e. e ≡ Link.Failed → Rises self.old.log.script.faults self.new.log.script.faults) }
        ensures listed { IfOk result (λ routes. Lists self.old.routes.items routes.items) }
        ensures unchanged { self.new.routes.items ≡ self.old.routes.items }
        ensures kept { OnOk result (IsSome self.old.log.calls → IsSome self.new.log.calls) }
        ensures fails { is_fault result ≡ is_failing self.old.log.script }
        ensures script { self.new.log.script ≡ after_call self.old.log.script (is_fault result) }
    {
        if self.log.script.next() {
            self.log.keep(Ok(Routing::List), Told::Failed);
            return Err(LinkError::Failed);
        }
        match list_twice(self.alloc, self.routes.as_slice()) {
            Ok((routes, copies)) => {
                if self
                    .log
                    .keep(Ok(Routing::List), Told::Listed(List::from_vec(copies)))
                {
                    Ok(routes)
                } else {
                    Err(LinkError::Memory)
                }
            }
            Err(_) => {
                self.log.keep(Ok(Routing::List), Told::NoMemory);
                Err(LinkError::Memory)
            }
        }
    }
}
