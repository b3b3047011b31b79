//! The desk and its passes.
ghost use Rattle.std.specs.Prelude.{◌≡◌, Some, IfOk, IfErr, IsOkAnd, IsSome};
ghost use Rattle.std.specs.Prelude.{◌+◌, ◌≤◌, max, true, false};
ghost use mathlib.Core.List.{IsPrefix};
ghost use Rattle.desk.specs.Passes.{opening, fresh};
ghost use Rattle.desk.specs.Seats.{one_more, one_less, only};
ghost use Rattle.desk.specs.OwnEntries.{placed, longer, merged, Agree, Apart, StandIn, RisesFrom};
ghost use Rattle.desk.specs.Visits.{Visited};

use crate::booked::{Booked, Job};
use crate::sleepers::Sleepers;
use crate::steps;
use crate::turn::{DeskSeat, SeatView, TurnRule};
use atomic_table::Table;
use std::alloc::{AllocError, Global};
use std::marker::Model;
use std::snapshot::Snapshot;
use std::sync::Wait;

/// A book that many passes share. Contracts see which table it is, so that a pass can say of which desk it is.
#[derive(Drop)]
pub struct Desk<B: Booked> {
    table: Table<Option<B>, SeatView<B, B::Entry, B::Base>, Snapshot<B>, TurnRule, Global>,
    sleepers: Sleepers,
}

impl<B: Booked> Model for Desk<B> {
    ghost use Rattle.std.specs.Prelude.{◌≡◌};
    ghost use Rattle.atomic_table.specs.Seated.{TableId, table_id_coded};

    ghost Value = { TableId };

    ghost coded = { table_id_coded };

    ghost view = { λ d. d.table.shared.table_id };

    ghost invariant = { λ d. (d.table.shared.table_id.words ≡ 1) × (d.table.shared.table_id.slots ≡ 1) };
}

/// What one caller knows of the history of a desk's book. A pass that is dropped takes its own entries with it.
#[derive(Drop)]
pub struct Pass<B: Booked> {
    seat: DeskSeat<B, B::Entry, B::Base>,
}

impl<B: Booked> Model for Pass<B> {
    ghost use Rattle.std.specs.Prelude.{◌≡◌, List, []};
    ghost use Rattle.desk.specs.Passes.{PassState};

    ghost Value = { PassState B.Entry B.Base };

    ghost use Rattle.desk.specs.Passes.{pass_state};
    ghost use Rattle.desk.specs.declared.turn.Stage.TheVariants.{Idle};
    ghost use Rattle.desk.specs.Seats.{IsOrdered};

    ghost view = { λ p. pass_state p.seat.table_id p.seat.me.0 };

    ghost invariant = { λ p. (p.seat.me.1 ≡ []) × (p.seat.me.0.stage ≡ Idle) × IsOrdered p.seat.me.0 };
}

impl<B: Booked> Pass<B> {
    /// What is true of every pass: its own entries stand in what it has seen at their places, each once, in order.
    pub fn stands(&self)
        ensures stand { StandIn self.now.seen self.now.mine }
        ensures rises { RisesFrom 0 self.now.mine }
        ensures alone { self.now.alone ≡ only self.now.others }
    {
        let _ = &self.seat;
    }
}

impl<B: Booked> Desk<B> {
    /// A desk that keeps the book, and its first pass, which is alone. The book comes back where there is no memory.
    pub fn open(alloc: Global, book: B) -> Result<(Desk<B>, Pass<B>), (B, AllocError)>
        ensures opened { IfOk result (λ r. r.1 ≡ opening r.0 (B.base book) (B.entries book) (B.faults book)) }
        ensures back { IfErr result (λ r. r.0 ≡ book) }
    {
        let mut slots = Vec::new(alloc);
        let origin = Snapshot::of(&book);
        let word = 2 * book.length();
        if let Err(failed) = slots.push(Some(book)) {
            return Err((failed.value.unwrap(), AllocError));
        }
        match Table::new(alloc, &[word], slots, &origin) {
            Ok((table, seat)) => Ok((
                Desk {
                    table,
                    sleepers: Sleepers::none(),
                },
                Pass { seat },
            )),
            Err(refused) => {
                let mut slots = refused.slots;
                let back = slots.pop().unwrap().unwrap();
                Err((back, AllocError))
            }
        }
    }

    /// Waits for the turn, and lets the job act once on the book as it is then. It takes no memory of its own.
    pub fn visit<J: Job<B>, R: Wait>(&self, rt: &R, pass: &mut Pass<B>, job: &mut J) -> J::Answer
        requires of { pass.old.of ≡ self.now }
        requires job { J.acted job.old ≡ false }
        ensures job { J.acted job.new ≡ true }
        ensures visit { (before : B) × (after : B) × J.does job.old before result job.new after
            × Visited B.entries B.base B.faults pass.old pass.new before after }
    {
        let shared = &self.table.shared;
        let mut book = steps::take(rt, shared, &self.sleepers, &mut pass.seat);
        let answer = job.act(&mut book);
        steps::give(shared, &self.sleepers, &mut pass.seat, book);
        answer
    }

    /// A new pass that has seen as much, and has made nothing. The first pass alone may split one off, and counts it. It waits for
    /// nobody, and always finds memory, since a pass takes none.
    pub fn split(&self, pass: &mut Pass<B>) -> Result<Pass<B>, AllocError>
        requires of { pass.old.of ≡ self.now }
        requires first { IsSome pass.old.others }
        ensures kept { pass.new ≡ record pass.old { others = one_more pass.old.others; alone = false } }
        ensures new { IsOkAnd result (λ r. r ≡ fresh pass.old.of pass.old.base pass.old.seen pass.old.faults) }
    {
        let seat = steps::split(&self.table.shared, &mut pass.seat);
        Ok(Pass { seat })
    }

    /// Takes in what another pass has seen and made. The first pass is alone again once it has taken in all that it split off.
    /// It waits for nobody.
    pub fn join(&self, pass: &mut Pass<B>, other: Pass<B>)
        requires { (pass.old.of ≡ self.now) × (other.of ≡ self.now) }
        ensures both { pass.new ≡ record pass.old {
          seen = longer pass.old.seen other.seen;
          mine = merged pass.old.mine other.mine;
          failed = pass.old.failed + other.failed;
          faults = max pass.old.faults other.faults;
          others = one_less pass.old.others;
          alone = only (one_less pass.old.others);
        } }
        ensures agree { Agree pass.old.seen other.seen }
        ensures apart { Apart pass.old.mine other.mine }
        ensures begins { IsPrefix pass.old.seen pass.new.seen }
        ensures other_begins { IsPrefix other.seen pass.new.seen }
    {
        let Pass { seat } = other;
        steps::join(&self.table.shared, &mut pass.seat, seat);
    }

    /// Waits for the turn, and takes the book out. To a pass that is alone all entries of the book are its own.
    pub fn close<R: Wait>(self, rt: &R, pass: Pass<B>) -> B
        requires { pass.of ≡ self }
        ensures begins { IsPrefix pass.seen (B.entries result) }
        ensures whole { pass.alone ≡ true → B.entries result ≡ pass.seen }
        ensures own { pass.alone ≡ true → pass.mine ≡ placed 0 pass.seen }
        ensures base { pass.base ≡ Some (B.base result) }
        ensures counted { pass.faults ≤ B.faults result }
        ensures exact { pass.alone ≡ true → B.faults result ≡ pass.faults }
    {
        let Desk { table, sleepers } = self;
        let Pass { mut seat } = pass;
        steps::take(rt, &table.shared, &sleepers, &mut seat)
    }
}
