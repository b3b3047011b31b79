//! A row of the table: a path that has a route or a seen serial.
use crate::route::Route;
use hub_kit::bytes::Bytes;

/// A path's decoded bytes, its route, and the greatest serial seen for it. No segment has a slash, so the bytes are the segments, each
/// behind one.
#[derive(Drop)]
pub(crate) struct Row {
    pub(crate) key: Bytes,
    pub(crate) route: Option<Route>,
    pub(crate) seen: Option<u64>,
}
