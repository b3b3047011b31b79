//! The calls on services.
ghost use Rattle.hub_api.specs.Refusals.{Gives};
ghost use Rattle.hub_api.specs.Readings as spec;
ghost use Rattle.hub_api.specs.Calls as paths;

use crate::method::Method;
use crate::parts::{name_at, page_of};
use crate::refusal::ApiRefusal;
use http_wire::request::Request;
use hub_kit::names::ServiceName;
use hub_machine::call::Call;
use hub_paths::Path;
use std::alloc::Global;

/// `/services`, by its methods.
pub(crate) fn services(alloc: Global, method: Method, request: &Request) -> Result<Call, ApiRefusal>
    ensures { Gives result (paths.services method request.now) }
{
    match method {
        Method::Get => get_services(alloc, request),
        _ => Err(ApiRefusal::NoMethod),
    }
}

/// The service that the path names.
fn service_at(alloc: Global, request: &Request) -> Result<ServiceName, ApiRefusal>
    ensures { Gives result (spec.service_at request.now) }
{
    name_at(alloc, request, Path::Service, "{service}")
}

/// `/services/{service}`, by its methods.
pub(crate) fn service(alloc: Global, method: Method, request: &Request) -> Result<Call, ApiRefusal>
    ensures { Gives result (paths.service method request.now) }
{
    match method {
        Method::Get => Ok(Call::GetService {
            service: service_at(alloc, request)?,
        }),
        Method::Post => Ok(Call::PostService {
            service: service_at(alloc, request)?,
        }),
        Method::Delete => Ok(Call::DeleteService {
            service: service_at(alloc, request)?,
        }),
        _ => Err(ApiRefusal::NoMethod),
    }
}

#[tactic(auto, unfolding(crate::specs::Readings::get_services))]
fn get_services(alloc: Global, request: &Request) -> Result<Call, ApiRefusal>
    ensures { Gives result (spec.get_services request.now) }
{
    Ok(Call::GetServices {
        page: page_of(alloc, request)?,
    })
}
