//! A step on the table.
use http_wire::request::Request;
use hub_kit::bytes::Bytes;
use hub_kit::moment::Moment;
use hub_kit::target::Target;
use hub_kit::text::Text;
use proxy_api::texts::ApiReply;
use route_table::route::RouteRefusal;

/// A look-up, or a request of the API, with its answer. No value of it is made: it exists for the proofs alone.
pub enum Step {
    Looked {
        path: Bytes,
        now: Moment,
        answer: Result<Target, RouteRefusal>,
    },
    Asked {
        secret: Text,
        now: Moment,
        request: Request,
        reply: ApiReply,
    },
}
