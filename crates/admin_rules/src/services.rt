//! The calls that add and delete services.
ghost use Rattle.std.specs.Prelude.{IfOk};
ghost use Rattle.admin_rules.specs.Rules.{ArePlain, Says};
ghost use Rattle.admin_rules.specs.Services.{add_service, delete_service};

use crate::of_services::service_rows;
use crate::refusals::{RuleRefusal, check_absent, check_room};
use crate::rows::one;
use hub_kit::names::ServiceName;
use hub_rows::changes::RowChange;
use hub_rows::records::Service;
use hub_rows::rows::Row;
use hub_tables::tables::Tables;
use std::alloc::Global;

/// Adds a service, as `POST /services/{name}` does. The refusals in their order: `Exists`, `Full`.
pub fn add_service(
    alloc: Global,
    tables: &Tables,
    service: &ServiceName,
) -> Result<Vec<RowChange>, RuleRefusal>
    ensures answer { Says (add_service tables.now service.now) result }
    ensures plain { IfOk result (λ rows. ArePlain rows.items) }
{
    check_absent(alloc, tables.service(service).is_some(), service.as_str())?;
    check_room(
        3,
        tables.limits().services,
        tables.count_of_services() as u64,
        1,
    )?;
    let change = RowChange::Put(Row::Service(Service { name: *service }));
    one(alloc, change)
}

/// Deletes a service with its tokens and its client of OAuth, and takes its name from roles. Without such a service nothing
/// changes.
pub fn delete_service(
    alloc: Global,
    tables: &Tables,
    service: &ServiceName,
) -> Result<Vec<RowChange>, RuleRefusal>
    ensures answer { Says (delete_service tables.now service.now) result }
    ensures plain { IfOk result (λ rows. ArePlain rows.items) }
{
    if tables.service(service).is_none() {
        return Ok(Vec::new(alloc));
    }
    Ok(service_rows(alloc, tables, service)?)
}
