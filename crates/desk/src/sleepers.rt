//! Waiting for the turn. It lies outside the rule, and no proof rests on it.
ghost use Rattle.std.specs.Prelude.{◌<◌};

use crate::booked::Booked;
use crate::turn::DeskTable;
use std::sync::Wait;
use std::sync::atomic::{AtomicU64, Ordering};

/// How many threads sleep or are about to, so that giving the turn back makes no call to the system where none does.
pub(crate) struct Sleepers {
    count: AtomicU64,
}

impl Drop for Sleepers {
    fn drop(self) {
        let Sleepers { count: _ } = self;
    }
}

impl Sleepers {
    pub(crate) fn none() -> Sleepers {
        Sleepers {
            count: AtomicU64::new(0),
        }
    }

    // Sleeps while the word is as it was found. A thread is counted before the word is looked at again, and the turn is given
    // back before the count is: so either the sleeper sees the new word, or the giver sees the sleeper.
    pub(crate) fn sleep<B: Booked, R: Wait>(
        &self,
        rt: &R,
        table: &DeskTable<B, B::Entry, B::Base>,
        found: u64,
    )
        requires { 0 < table.now.table_id.words }
    {
        self.count.fetch_add(1, Ordering::SeqCst);
        table.park(rt, 0, (found % (1 << 32)) as u32);
        self.count.fetch_sub(1, Ordering::SeqCst);
    }

    // Wakes one thread, after the turn was given back.
    pub(crate) fn wake<B: Booked>(&self, table: &DeskTable<B, B::Entry, B::Base>)
        requires { 0 < table.now.table_id.words }
    {
        if self.count.load(Ordering::SeqCst) > 0 {
            table.wake_one(0);
        }
    }
}
