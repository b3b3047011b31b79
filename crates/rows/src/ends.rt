//! What a request meets: the bytes that come, where those that are written go, and an upstream.
use crate::given::{failing, joined};
use hub_devices::mem_bytes::{MemSink, MemSource};
use row_texts::compare::{Report, compare_messages};
use row_texts::item::Item;
use row_texts::trouble::Trouble;
use std::alloc::Global;
use upstreams::mem_upstream::MemUpstream;

/// What a request that is passed on meets.
pub struct Ends {
    pub source: MemSource,
    pub sink: MemSink,
    pub up: MemUpstream,
}

impl Drop for Ends {
    fn drop(self) {
        let Ends {
            source: _,
            sink: _,
            up: _,
        } = self;
    }
}

/// The bytes that come, at most so many at a time.
pub fn source_of(alloc: Global, items: &[Item<'_>], cut: usize) -> Result<MemSource, Trouble> {
    let failing = failing(alloc, items, "read")?;
    let input = joined(alloc, items, ">", 1)?;
    Ok(MemSource::new(input, cut, failing))
}

/// Where what is written goes.
pub fn sink_of(alloc: Global, items: &[Item<'_>]) -> Result<MemSink, Trouble> {
    Ok(MemSink::new(alloc, failing(alloc, items, "write")?))
}

/// An upstream that gives what the items say, at most so many bytes at a time.
fn upstream_of(alloc: Global, items: &[Item<'_>], cut: usize) -> Result<MemUpstream, Trouble> {
    let failing = failing(alloc, items, "up")?;
    let given = joined(alloc, items, "up<", 1)?;
    Ok(MemUpstream::new(alloc, given, cut, failing))
}

/// What a request that is passed on meets, by these items.
pub fn ends_of(alloc: Global, items: &[Item<'_>], cut: usize) -> Result<Ends, Trouble> {
    let sink = sink_of(alloc, items)?;
    let source = source_of(alloc, items, cut)?;
    let up = upstream_of(alloc, items, cut)?;
    Ok(Ends { source, sink, up })
}

/// Compares what was passed on and written with what the items say.
pub fn compare_ends(
    report: &mut Report<'_>,
    items: &[Item<'_>],
    ends: &Ends,
) -> Result<(), Trouble> {
    compare_messages(report, items, "up>", 1, ends.up.sent())?;
    compare_messages(report, items, "<", 1, ends.sink.as_slice())
}
