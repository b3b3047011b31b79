//! What the query of a listing and of a deletion says.
ghost use Rattle.std.specs.Prelude.{◌≡◌, ◌≢◌, Ok, Err, IfOk, IfErr};
ghost use Rattle.proxy_api.specs.Queries as spec;

use crate::calls::ApiRefusal;
use http_wire::decimal::{Decimal, number_in};
use hub_kit::moment::Moment;
use hub_kit::moments::read_moment;
use hub_kit::text::Text;
use request_parts::query::query_value;
use std::alloc::Global;

fn since_of(text: &Text) -> Result<Option<Moment>, ApiRefusal>
    ensures { result ≡ spec.since_of text.now }
{
    match read_moment(text) {
        Ok(since) => Ok(Some(since)),
        Err(_) => Err(ApiRefusal::BadQuery),
    }
}

/// Before which moment the listed routes were last used, where that is asked.
pub fn since_asked(alloc: Global, query: &str) -> Result<Option<Moment>, ApiRefusal>
    ensures ok { IfOk result (λ since. spec.since_asked query.now ≡ Ok since) }
    ensures err { IfErr result (λ e. e ≢ ApiRefusal.Memory → spec.since_asked query.now ≡ Err e) }
{
    match query_value(alloc, query, "inactiveSince") {
        Ok(None) => Ok(None),
        Ok(Some(text)) => since_of(&text),
        Err(_) => Err(ApiRefusal::Memory),
    }
}

fn serial_of(text: &Text) -> Result<Option<u64>, ApiRefusal>
    ensures { result ≡ spec.serial_of text.now }
{
    match number_in(text.as_bytes()) {
        Decimal::Number(n) => Ok(Some(n)),
        Decimal::Past => Err(ApiRefusal::BadQuery),
        Decimal::Other => Err(ApiRefusal::BadQuery),
    }
}

/// The serial of a deletion, where one is given.
pub fn serial_given(alloc: Global, query: &str) -> Result<Option<u64>, ApiRefusal>
    ensures ok { IfOk result (λ serial. spec.serial_given query.now ≡ Ok serial) }
    ensures err { IfErr result (λ e. e ≢ ApiRefusal.Memory → spec.serial_given query.now ≡ Err e) }
{
    match query_value(alloc, query, "serial") {
        Ok(None) => Ok(None),
        Ok(Some(text)) => serial_of(&text),
        Err(_) => Err(ApiRefusal::Memory),
    }
}
