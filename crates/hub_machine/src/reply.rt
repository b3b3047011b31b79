//! What the hub answers.
use crate::work::Work;
use hub_kit::text::Text;
use hub_view::Body;

/// A reply. `revision` is the length of the history with the call's own entry, if it made one.
pub struct Reply {
    pub status: u16,
    pub body: Body,
    pub location: Option<Text>,
    /// Whether caches may not keep it.
    pub no_store: bool,
    pub revision: Option<u64>,
}

impl Drop for Reply {
    fn drop(self) {
        let Reply {
            status: _,
            body: _,
            location: _,
            no_store: _,
            revision: _,
        } = self;
    }
}

/// What a visit gives: a reply, or the call that is owed now, of which the reply is made once all is done.
#[derive(Drop)]
pub enum Outcome {
    Answer(Reply),
    Work(Work),
}
