//! What a reply says.
use crate::word::{MemberKey, Word};
use hub_kit::moment::Moment;
use hub_kit::text::Text;

/// A JSON value, or nothing for a reply without body. A `Record` is an object whose keys are the hub's own words, and `Pairs` is one of
/// any keys; both have them in the order of their bytes. Words and moments lie in the value itself: their text is made when it is written.
#[derive(Drop)]
pub enum Body {
    Nothing,
    Null,
    Truth(bool),
    Number(u64),
    Fixed(Word),
    At(Moment),
    Line(Text),
    Items(Vec<Body>),
    Pairs(Vec<(Text, Body)>),
    Record(Vec<(MemberKey, Body)>),
}
