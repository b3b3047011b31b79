//! What a store is called by from another thread: one parcel at a time lies in a queue, a call or its answer.
//! Each end of it knows what was asked and answered so far, and a rule ties both to each other and to what lies there (`specs/Mailbox`).
ghost use Rattle.std.specs.Prelude.{Bool, false};
ghost use Rattle.store_thread.specs.Mailbox.{Mailed, Put, Gave, Took, Heard, first_view};

use crate::calls::{Answer, Call};
use crossbeam_queue::RuledArrayQueue;
use crossbeam_queue::protocol::{Outcome, Protocol, Split};
use keeper::keeper::{KeeperError, Row};
use std::collections::LinkedList;
use std::marker::{Brand, PhantomData};

/// What lies in the mailbox.
#[derive(Drop)]
pub enum Parcel {
    Question(Call),
    Reply(Answer),
}

/// A call, its answer, and whether the store told its rows then. No value of it is made: it exists for the proofs alone.
pub struct Exchange {
    pub call: Call,
    pub done: Result<(), KeeperError>,
    pub rows: Option<Result<Vec<Row>, KeeperError>>,
    pub told: bool,
}

/// What was asked and answered, and the call that isn't answered yet. No value of it is made.
pub struct Talk {
    pub seen: LinkedList<Exchange>,
    pub asked: Option<Call>,
}

/// What an end of the mailbox knows: whether it asks, whether it answers, and what was said. No value of it is made.
pub struct View {
    pub asks: bool,
    pub answers: bool,
    pub talk: Talk,
}

/// What holds at any moment.
pub struct Post;

impl Protocol<Parcel, View> for Post {
    ghost holds = { Mailed };

    ghost first = { first_view };
}

pub(crate) type Mailbox = RuledArrayQueue<Parcel, View, Post>;

/// One end asks, and the other answers.
pub(crate) struct TwoEnds;

impl Split<View> for TwoEnds {
    ghost left = { λ v. record v { answers = false } };

    ghost right = { λ v. record v { asks = false } };
}

/// A call is put into the mailbox.
pub(crate) struct Putting;

impl Outcome<Parcel, View> for Putting {
    ghost then = { Put };
}

/// An answer is taken out of it.
pub(crate) struct Hearing;

impl Outcome<Parcel, View> for Hearing {
    ghost then = { Heard };
}

/// A call is taken out of it.
pub(crate) struct Taking;

impl Outcome<Parcel, View> for Taking {
    ghost then = { Took };
}

/// Whether a store tells its rows.
pub(crate) trait Telling {
    ghost told: { Bool };
}

// The caller of a brand picks what it stands for.
impl Telling for Brand {
    ghost told = { false };
}

/// An answer is put into it, of a store that tells its rows or not.
pub(crate) struct Giving<N: Telling> {
    of: PhantomData<N>,
}

impl<N: Telling> Outcome<Parcel, View> for Giving<N> {
    ghost then = { Gave N.told };
}
