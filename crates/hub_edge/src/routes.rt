//! The routes of a hub without a proxy.
ghost use Rattle.std.specs.Prelude.{◌≡◌, ℕ, None};

use hub_devices::calls::ListedRoute;
use hub_devices::link_error::LinkError;
use hub_devices::route_link::RouteLink;
use hub_devices::source::Failed;
use hub_kit::target::Target;
use hub_kit::text::Text;
use std::alloc::{AllocError, Global};
use std::sync::{Arc, Mutex, Wait};

/// The routes, which all workers share.
pub type AllRoutes = Arc<Mutex<Vec<ListedRoute>>, Global>;

/// Keeps the routes that were added and not deleted since, and none of its calls: it takes no more memory than there are routes. Each
/// worker has its own of these, over one list.
#[derive(Drop)]
pub struct KeptRoutes<H: Wait + Copy> {
    alloc: Global,
    handle: H,
    routes: AllRoutes,
    faults: u64,
}

/// The place of the route of a path.
fn place_of(routes: &[ListedRoute], path: &Text) -> Option<usize> {
    for at in 0..routes.len() {
        if routes[at].path.as_str() == path.as_str() {
            return Some(at);
        }
    }
    None
}

fn copy_of(alloc: Global, route: &ListedRoute) -> Result<ListedRoute, AllocError> {
    let path = route.path.copy(alloc)?;
    let target = route.target.copy(alloc)?;
    Ok(ListedRoute {
        path,
        target,
        serial: route.serial,
    })
}

impl<H: Wait + Copy> KeptRoutes<H> {
    pub fn new(alloc: Global, handle: H, routes: AllRoutes) -> KeptRoutes<H>
        ensures { result.faults ≡ 0 }
    {
        KeptRoutes {
            alloc,
            handle,
            routes,
            faults: 0,
        }
    }

    /// Puts a route in the place of the one of its path, or behind all.
    fn put(&self, path: &Text, target: &Target, serial: Option<u64>) -> Result<(), AllocError> {
        let route = ListedRoute {
            path: path.copy(self.alloc)?,
            target: target.as_text().copy(self.alloc)?,
            serial,
        };
        let mut kept = self.routes.lock(&self.handle);
        let routes = &mut *kept;
        if let Some(at) = place_of(routes.as_slice(), path) {
            if at < routes.len() {
                routes[at] = route;
                return Ok(());
            }
        }
        routes.push(route)?;
        Ok(())
    }

    /// Takes the route of a path away, unless it was added later than this serial.
    fn take(&self, path: &Text, serial: u64) {
        let mut kept = self.routes.lock(&self.handle);
        let routes = &mut *kept;
        if let Some(at) = place_of(routes.as_slice(), path) {
            if at < routes.len() && routes[at].serial.unwrap_or(0) <= serial {
                drop(routes.swap_remove(at));
            }
        }
    }

    fn copies(&self) -> Result<Vec<ListedRoute>, AllocError> {
        let kept = self.routes.lock(&self.handle);
        let mut copies = Vec::new(self.alloc);
        for route in kept.iter() {
            copies.push(copy_of(self.alloc, route)?)?;
        }
        Ok(copies)
    }
}

impl<H: Wait + Copy> RouteLink for KeptRoutes<H> {
    ghost calls = { λ _. None };

    ghost faults = { λ l. l.faults };

    fn add(&mut self, path: &Text, target: &Target, serial: Option<u64>) -> Result<(), Failed> {
        match self.put(path, target, serial) {
            Ok(()) => Ok(()),
            Err(_) => {
                self.faults = self.faults.saturating_add(1);
                Err(Failed)
            }
        }
    }

    fn delete(&mut self, path: &Text, serial: u64) -> Result<(), Failed> {
        self.take(path, serial);
        Ok(())
    }

    fn list(&mut self) -> Result<Vec<ListedRoute>, LinkError> {
        match self.copies() {
            Ok(routes) => Ok(routes),
            Err(_) => Err(LinkError::Memory),
        }
    }
}
