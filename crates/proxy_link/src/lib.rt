//! A proxy's routes over its interface: what a hub asks of the proxy that it is configured with, and what it makes of the replies.
//! The contracts of `add_route`, `delete_route` and `list_routes` carry it: each asks a link exactly one request, and takes the proxy's 201
//! of an addition, its 204, 404 and 409 of a deletion, and a 200 with a list. `ProxyLink` is these as the route link of `serve`.
#![tactic(auto)]

pub mod asks;
pub mod proxy_link;
pub mod readings;
pub mod requests;
