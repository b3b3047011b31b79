//! The programs and routes of services.
use crate::paths::HubRoutes;
use hub_edge::clock::SystemClock;
use hub_edge::routes::AllRoutes;
use hub_serving::plan::Plan;
use service_doors::kit::ServiceKit;
use service_edge::programs::ServicePrograms;
use std::alloc::AllocError;
use std::sync::Wait;
use std::thread::Threads;

/// By what services are tended.
type Services<H> = ServiceKit<ServicePrograms<H>, HubRoutes<H>, SystemClock>;

/// The devices by which the services of a plan are started, each by its own command, and routed where the servers are.
pub(crate) fn service_kit<H: Threads + Wait + Copy>(
    rt: HostRuntime,
    handle: H,
    plan: &Plan,
    routes: &AllRoutes,
) -> Result<Services<H>, AllocError> {
    let mut running = ServicePrograms::new(rt, handle)?;
    for service in plan.managed.as_slice() {
        running.command(&service.name, service.command.as_slice())?;
    }
    Ok(ServiceKit {
        running,
        paths: HubRoutes::new(rt, handle, &plan.proxy, routes)?,
        clock: SystemClock::new(rt),
    })
}
