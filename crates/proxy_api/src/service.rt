//! What answers the API.
ghost use Rattle.std.specs.Prelude.{ℕ, List};
ghost use Rattle.http_wire.specs.declared.request.Request as requests;
ghost use Rattle.proxy_api.specs.declared.texts.ApiReply as replies;

use crate::texts::ApiReply;
use http_wire::request::Request;
use hub_kit::moment::Moment;
use hub_kit::text::Text;
use std::alloc::Global;

/// Routes that are listed, added to and deleted from by requests.
pub trait RouteService {
    /// Of a secret, a moment and a request, what it is answered, and what that leaves.
    ghost gave: { Self → List ℕ → ℕ → requests.Request → replies.ApiReply → Self → Type 0 };

    /// Makes the call of a request.
    fn answer(&mut self, alloc: Global, secret: &Text, now: Moment, request: &Request) -> ApiReply
        ensures { gave self.old secret.now now request.now result self.new };
}
