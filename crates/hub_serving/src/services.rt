//! The services of a configuration.
ghost use Rattle.std.specs.Prelude.{◌≡◌, ◌<◌, ◌^◌, ℕ, true, map, length, IfOk};
ghost use Rattle.hub_config.specs.Managed.{are_distinct};
ghost use Rattle.services_run.specs.New.{ArePlaced};
ghost use Rattle.hub_serving.specs.Services.{service_of};

use hub_config::config::ConfigManaged;
use services_run::place::Managed;
use services_run::services::{Services, ServicesError};
use std::alloc::{AllocError, Global};

fn copy_of(alloc: Global, service: &ConfigManaged) -> Result<Managed, AllocError>
    ensures { IfOk result (λ m. m ≡ service_of service.now) }
{
    Ok(Managed {
        name: service.name,
        target: service.target.copy(alloc)?,
        secret: service.secret.copy(alloc)?,
    })
}

fn copies_of(alloc: Global, services: &[ConfigManaged]) -> Result<Vec<Managed>, AllocError>
    ensures { IfOk result (λ copies. copies.items ≡ map service_of services.now) }
{
    let mut copies = Vec::new(alloc);
    for service in services {
        copies.push(copy_of(alloc, service)?)?;
    }
    Ok(copies)
}

/// The services, all down. Four thousand million of them find no memory.
pub(crate) fn services_of(alloc: Global, services: &[ConfigManaged]) -> Result<Services, AllocError>
    requires apart { are_distinct services.now ≡ true }
    ensures placed { IfOk result (λ s. ArePlaced (map service_of services.now) s.places × (s.last ≡ 0)) }
    ensures few { IfOk result (λ _. length services.now < 2 ^ 32) }
{
    if services.len() >= 1 << 32 {
        return Err(AllocError);
    }
    let list = copies_of(alloc, services)?;
    match Services::new(alloc, list) {
        Ok(services) => Ok(services),
        Err(ServicesError::Memory) => Err(AllocError),
        Err(ServicesError::Repeated(_)) => unreachable!(),
    }
}
