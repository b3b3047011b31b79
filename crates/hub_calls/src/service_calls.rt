//! The calls on services.
ghost use Rattle.std.specs.Prelude.{◌≡◌, IfOk};
ghost use Rattle.std.specs.FinMap as map;
ghost use Rattle.hub_machine.specs.Answers.{answer_view};
ghost use Rattle.hub_calls.specs.Rights.{may_of};
ghost use Rattle.hub_calls.specs.ServiceCalls as spec;

use crate::bodies::service_body;
use crate::lists::list_of;
use crate::ruled::{answered, carried, refused};
use admin_rules::services;
use hub_kit::names::ServiceName;
use hub_machine::answer::{Answer, gives};
use hub_machine::machine::Machine;
use hub_view::Page;
use scope_filters::grant::Grant;
use scope_names::action::Action;
use std::alloc::{AllocError, Global};

/// `GET /services`: those that the caller may list.
pub fn get_services(
    alloc: Global,
    hub: &Machine,
    rights: &Grant,
    page: Page,
) -> Result<Answer, AllocError>
    ensures { IfOk result (λ answer. answer_view answer ≡ spec.get_services hub.now (may_of hub.now rights.now) page) }
{
    let tables = hub.tables();
    tables.own_keys();
    let rows = tables.services_by_name();
    list_of(
        alloc,
        hub,
        rights,
        Action::ListServices,
        rows,
        page,
        "/services",
    )
}

/// `GET /services/{service}`
pub fn get_service(
    alloc: Global,
    hub: &Machine,
    rights: &Grant,
    service: &ServiceName,
) -> Result<Answer, AllocError>
    ensures { IfOk result (λ answer. answer_view answer ≡ spec.get_service hub.now (may_of hub.now rights.now) service.now) }
{
    Ok(gives(200, service_body(alloc, hub, rights, service)?))
}

/// `POST /services/{service}`
pub fn post_service(
    alloc: Global,
    hub: &Machine,
    rights: &Grant,
    service: &ServiceName,
) -> Result<Answer, AllocError>
    ensures { IfOk result (λ answer. answer_view answer ≡ spec.post_service hub.now (may_of hub.now rights.now) service.now) }
{
    match services::add_service(alloc, hub.tables(), service) {
        Ok(rows) => answered(rows, 201, service_body(alloc, hub, rights, service)),
        Err(refusal) => refused(alloc, refusal),
    }
}

/// `DELETE /services/{service}`
pub fn delete_service(
    alloc: Global,
    hub: &Machine,
    service: &ServiceName,
) -> Result<Answer, AllocError>
    ensures { IfOk result (λ answer. answer_view answer ≡ spec.delete_service hub.now service.now) }
{
    carried(
        alloc,
        services::delete_service(alloc, hub.tables(), service),
    )
}
