//! Where the routes of a hub stand: at its proxy where one is configured, else in memory.
ghost use Rattle.std.specs.Prelude.{◌≤◌, ℕ, None};
ghost use Rattle.hub_devices.specs.Faults.{Rises};

use hub_devices::calls::ListedRoute;
use hub_devices::link_error::LinkError;
use hub_devices::route_link::RouteLink;
use hub_devices::source::Failed;
use hub_edge::routes::{AllRoutes, KeptRoutes};
use hub_kit::target::Target;
use hub_kit::text::Text;
use link_edge::limits::PROXY_REPLY_SECONDS;
use link_edge::proxy::SocketProxy;
use proxy_link::proxy_link::ProxyLink;
use std::alloc::AllocError;
use std::sync::{Arc, Wait};
use std::time::Duration;

/// The routes of a hub that serves.
#[derive(Drop)]
pub(crate) struct HubRoutes<H: Wait + Copy> {
    kept: KeptRoutes<H>,
    /// The link to the proxy, whose routes count in place of the kept ones.
    proxy: Option<ProxyLink<SocketProxy>>,
    faults: u64,
}

/// The link to the proxy of a plan.
fn proxy_link(
    rt: HostRuntime,
    proxy: &Option<(Target, Text)>,
) -> Result<Option<ProxyLink<SocketProxy>>, AllocError> {
    let alloc = rt.alloc();
    match proxy {
        Some((target, secret)) => {
            let secret = secret.copy(alloc)?;
            let limit = Duration::from_secs(PROXY_REPLY_SECONDS);
            let hub = SocketProxy::new(rt, target.copy(alloc)?, limit);
            Ok(Some(ProxyLink::new(alloc, secret, hub)))
        }
        None => Ok(None),
    }
}

impl<H: Wait + Copy> HubRoutes<H> {
    /// Asks nobody yet. What is kept in memory is shared with the other workers.
    pub(crate) fn new(
        rt: HostRuntime,
        handle: H,
        proxy: &Option<(Target, Text)>,
        routes: &AllRoutes,
    ) -> Result<HubRoutes<H>, AllocError> {
        Ok(HubRoutes {
            proxy: proxy_link(rt, proxy)?,
            kept: KeptRoutes::new(rt.alloc(), handle, Arc::try_clone(routes)?),
            faults: 0,
        })
    }

    /// Counts a call that failed.
    fn fail(&mut self)
        ensures counted { self.old.faults ≤ self.new.faults }
        ensures rises { Rises self.old.faults self.new.faults }
    {
        self.faults = self.faults.saturating_add(1);
    }
}

impl<H: Wait + Copy> RouteLink for HubRoutes<H> {
    ghost calls = { λ _. None };

    ghost faults = { λ l. l.faults };

    fn add(&mut self, path: &Text, target: &Target, serial: Option<u64>) -> Result<(), Failed> {
        let told = match &mut self.proxy {
            Some(proxy) => proxy.add(path, target, serial),
            None => self.kept.add(path, target, serial),
        };
        match told {
            Ok(()) => Ok(()),
            Err(_) => {
                self.fail();
                Err(Failed)
            }
        }
    }

    fn delete(&mut self, path: &Text, serial: u64) -> Result<(), Failed> {
        let told = match &mut self.proxy {
            Some(proxy) => proxy.delete(path, serial),
            None => self.kept.delete(path, serial),
        };
        match told {
            Ok(()) => Ok(()),
            Err(_) => {
                self.fail();
                Err(Failed)
            }
        }
    }

    fn list(&mut self) -> Result<Vec<ListedRoute>, LinkError> {
        let told = match &mut self.proxy {
            Some(proxy) => proxy.list(),
            None => self.kept.list(),
        };
        match told {
            Ok(routes) => Ok(routes),
            Err(LinkError::Failed) => {
                self.fail();
                Err(LinkError::Failed)
            }
            Err(LinkError::Memory) => Err(LinkError::Memory),
        }
    }
}
