//! What the programs of services were asked.
use hub_kit::names::ServiceName;
use hub_kit::target::Target;
use hub_kit::text::Text;

/// A call on the program of a service: its number, the service, its target and its secret.
#[derive(Drop)]
pub enum ServiceCall {
    Start(u64, ServiceName, Target, Text),
    Stop(u64, Target),
    Poll(u64, Target),
}
