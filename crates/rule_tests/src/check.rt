//! What the tests share.
use hub_kit::text::Text;
use std::alloc::Global;
use std::process::Abort;

/// Stops the test unless what its row says holds.
pub fn check(rt: &impl Abort, holds: bool, row: &str) {
    assert!(rt; holds, "{row}");
}

/// A text that is made.
pub fn text(rt: &impl Abort, alloc: Global, text: &str) -> Text {
    Text::from_str(alloc, text).expect(rt, "there is memory")
}
