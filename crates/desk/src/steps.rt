// The steps of a pass on the table.
ghost use Rattle.std.specs.Prelude.{◌≡◌, ◌+◌, ◌*◌, ◌≤◌, [], ◌∷◌, Some, None, true, false, length, IsSome};
ghost use mathlib.Core.List.{IsPrefix};
ghost use Rattle.atomic_table.specs.Seated.{TableId};
ghost use Rattle.desk.specs.declared.turn.Stage.TheVariants.{Idle, Held, Met};
ghost use Rattle.desk.specs.Seats.{after, IsOrdered, shared, split_off, met, settled_as};
ghost use Rattle.desk.specs.Plays.{Finds};
ghost use Rattle.desk.specs.OwnEntries.{Agree, Apart};
ghost use Rattle.desk.specs.Steps.{IsSized, IsSame, IsIdle};

use crate::booked::Booked;
use crate::plays::{Give, Meet, Settle, SplitOff, Take};
use crate::sleepers::Sleepers;
use crate::turn::{DeskSeat, DeskTable};
use std::sync::Wait;

// Waits for the turn, and takes the book.
pub(crate) fn take<B: Booked, R: Wait>(
    rt: &R,
    table: &DeskTable<B, B::Entry, B::Base>,
    sleepers: &Sleepers,
    seat: &mut DeskSeat<B, B::Entry, B::Base>,
) -> B
    requires sized { (seat.old.table_id ≡ table.now.table_id) × IsSized table.now.table_id }
    requires idle { IsIdle seat.old }
    ensures same { IsSame seat.old seat.new }
    ensures held { seat.new.me ≡ (record seat.old.me.0 { stage = Held result }, (0, None) ∷ []) }
    ensures found { Finds B.entries B.base B.faults seat.old.me.0 result }
{
    for _ in rt.forever() {
        let found = table.fetch_or::<Take>(seat, 0, 1);
        if found % 2 == 0 {
            return table.exchange(seat, 0, None).unwrap();
        }
        sleepers.sleep(rt, table, found);
    }
    unreachable!()
}

// Puts the book back, and gives up the turn.
pub(crate) fn give<B: Booked>(
    table: &DeskTable<B, B::Entry, B::Base>,
    sleepers: &Sleepers,
    seat: &mut DeskSeat<B, B::Entry, B::Base>,
    book: B,
)
    requires sized { (seat.old.table_id ≡ table.now.table_id) × IsSized table.now.table_id }
    requires held { seat.old.me.1 ≡ (0, None) ∷ [] }
    requires appended { (before : B) × (seat.old.me.0.stage ≡ Held before) × IsPrefix (B.entries before) (B.entries book)
        × (B.base book ≡ B.base before) × (B.faults before ≤ B.faults book) }
    ensures same { IsSame seat.old seat.new }
    ensures after { (before : B) → seat.old.me.0.stage ≡ Held before
        → seat.new.me ≡ (after B.entries B.faults before book seat.old.me.0, []) }
    ensures ordered { IsOrdered seat.new.me.0 }
{
    let word = 2 * book.length();
    table.exchange(seat, 0, Some(book));
    table.store::<Give>(seat, 0, word);
    sleepers.wake(table);
}

// Makes a new seat, which the first one counts.
pub(crate) fn split<B: Booked>(
    table: &DeskTable<B, B::Entry, B::Base>,
    seat: &mut DeskSeat<B, B::Entry, B::Base>,
) -> DeskSeat<B, B::Entry, B::Base>
    requires sized { (seat.old.table_id ≡ table.now.table_id) × IsSized table.now.table_id }
    requires idle { IsIdle seat.old }
    requires first { IsSome seat.old.me.0.others }
    ensures same { IsSame seat.old seat.new × (result.table_id ≡ seat.old.table_id) }
    ensures kept { seat.new.me ≡ (shared seat.old.me.0, []) }
    ensures new { result.me ≡ (split_off seat.old.me.0, []) }
{
    table.split_seat::<SplitOff>(seat)
}

// Takes in another seat.
pub(crate) fn join<B: Booked>(
    table: &DeskTable<B, B::Entry, B::Base>,
    seat: &mut DeskSeat<B, B::Entry, B::Base>,
    other: DeskSeat<B, B::Entry, B::Base>,
)
    requires sized { (seat.old.table_id ≡ table.now.table_id) × (other.table_id ≡ table.now.table_id) × IsSized table.now.table_id }
    requires idle { IsIdle seat.old × IsIdle other }
    ensures same { IsSame seat.old seat.new }
    ensures both { seat.new.me ≡ (settled_as other.me.0.seen other.me.0.mine (met seat.old.me.0 other.me.0), []) }
    ensures agree { Agree seat.old.me.0.seen other.me.0.seen }
    ensures apart { Apart seat.old.me.0.mine other.me.0.mine }
    ensures ordered { IsOrdered seat.new.me.0 }
{
    table.join_seat::<Meet>(seat, other);
    table.load::<Settle>(seat, 0);
}
