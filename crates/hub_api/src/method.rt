//! Methods of requests.
ghost use Rattle.std.specs.Prelude.{◌≡◌};
ghost use Rattle.hub_api.specs.Calls as spec;

/// The methods that a call can have, and any other.
#[derive(Clone, Copy)]
pub(crate) enum Method {
    Get,
    Post,
    Put,
    Patch,
    Delete,
    Other,
}

/// The method of a text. Methods are told from each other by case (RFC 9110, 9.1).
#[tactic(auto, unfolding(crate::specs::Calls::method_of))]
pub(crate) fn method_of(text: &str) -> Method
    ensures { result ≡ spec.method_of text.now }
{
    match text {
        "GET" => Method::Get,
        "POST" => Method::Post,
        "PUT" => Method::Put,
        "PATCH" => Method::Patch,
        "DELETE" => Method::Delete,
        _ => Method::Other,
    }
}
