//! What the tests share.
use hub_kit::bytes::Bytes;
use hub_kit::text::Text;
use std::alloc::Global;
use std::process::Abort;

/// Stops the test unless what its row says holds.
pub fn check(rt: &impl Abort, holds: bool, row: &str) {
    assert!(rt; holds, "{row}");
}

pub fn text(rt: &impl Abort, alloc: Global, text: &str) -> Text {
    Text::from_str(alloc, text).expect(rt, "there is memory")
}

pub fn bytes(rt: &impl Abort, alloc: Global, bytes: &[u8]) -> Bytes {
    Bytes::from_slice(alloc, bytes).expect(rt, "there is memory")
}

/// The numbers of the calls that fail: this one.
pub fn failing(rt: &impl Abort, alloc: Global, call: u64) -> Vec<u64> {
    Vec::from_slice(alloc, &[call]).expect(rt, "there is memory")
}
