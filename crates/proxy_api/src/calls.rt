//! Which call of the API a request is.
ghost use Rattle.std.specs.Prelude.{◌≡◌, ◌≤◌, length, IfSome};
ghost use Rattle.std.specs.Option.{option_copied};
ghost use Rattle.proxy_api.specs.Calls as spec;

use route_table::route::RouteRefusal;

/// The path of the table.
const ROOT: &[u8] = b"/api/routes";

const GET: &[u8] = b"GET";

const POST: &[u8] = b"POST";

const DELETE: &[u8] = b"DELETE";

/// A call of the API.
#[derive(Clone, Copy, Debug, PartialEq, Eq)]
pub enum Call {
    List,
    Add,
    Delete,
}

/// Why a request of the API is refused.
#[derive(Clone, Copy, Debug, PartialEq, Eq)]
pub enum ApiRefusal {
    BadHead,
    TooLarge,
    Coding,
    NoToken,
    NoPlace,
    BadMethod,
    BadQuery,
    BadBody,
    BadTarget,
    Table(RouteRefusal),
    Memory,
}

/// What stands behind the table's path: `/` where it is nothing, and nothing where it isn't of the table.
fn behind_root(rest: &[u8]) -> Option<&[u8]>
    ensures { option_copied result ≡ spec.behind_root rest.now }
{
    if rest.is_empty() {
        return Some(b"/");
    }
    if rest[0] == b'/' { Some(rest) } else { None }
}

/// The path of the route that a path of the API names.
pub fn route_path(path: &[u8]) -> Option<&[u8]>
    ensures { option_copied result ≡ spec.route_path path.now }
{
    let rest = path.strip_prefix(ROOT)?;
    behind_root(rest)
}

/// The call of a method on the route of a path.
fn call_on(method: &[u8], path: &[u8]) -> Result<Call, ApiRefusal>
    ensures { result ≡ spec.call_on method.now path.now }
{
    if method == GET {
        if path.len() > 1 {
            Err(ApiRefusal::BadMethod)
        } else {
            Ok(Call::List)
        }
    } else if method == POST {
        Ok(Call::Add)
    } else if method == DELETE {
        Ok(Call::Delete)
    } else {
        Err(ApiRefusal::BadMethod)
    }
}

/// The call of a method on the route of a path, where there is one.
pub fn call_of(method: &[u8], path: Option<&[u8]>) -> Result<Call, ApiRefusal>
    ensures { result ≡ spec.call_of method.now (option_copied path.entry) }
{
    match path {
        Some(path) => call_on(method, path),
        None => Err(ApiRefusal::NoPlace),
    }
}
