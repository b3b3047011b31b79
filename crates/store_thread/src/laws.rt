//! What the rule of the mailbox comes to.
ghost use Rattle.std.specs.Prelude.{◌≡◌, ℕ, List, true, Some, None};
ghost use mathlib.Core.Option.{some};
ghost use lib.ListN.{get_elem?};
ghost use Rattle.keeper.specs.Rows.{Rows, AreSame};
ghost use Rattle.store_thread.specs.Mailbox.{Mailed};
ghost use Rattle.store_thread.specs.Runs.{WentAt};
ghost use Rattle.store_thread.specs.Told.{told_in, known_of, Unread};
ghost use Rattle.store_thread.specs.declared.mailbox.Parcel.{Parcel};
ghost use Rattle.store_thread.specs.declared.mailbox.View.{View};

use keeper::keeper::Keeper;

/// At any moment the rows that the end tells which asks are those of the store, which tells them then: of a store that went through what
/// the end knows which answers (`answer_all`).
pub fn rows_are_the_stores<K: Keeper>()
    ensures { (parcels : List Parcel) (views : List View) (i j : ℕ) (far near : View) (began k : K) (rows : Rows)
        → Mailed parcels views → get_elem? views i ≡ some far → get_elem? views j ≡ some near → far.asks ≡ true → near.answers ≡ true
        → WentAt K.Tells K.rows K.is_told K.faults K.Chooses began near.talk k → told_in far.talk ≡ Some rows
        → K.Tells k × AreSame rows (K.rows k) }
{}

/// And it tells rows wherever the store does, once a place was taken and its rows were read, unless it waits for an answer.
pub fn what_was_read_is_told<K: Keeper>()
    ensures { (parcels : List Parcel) (views : List View) (i j : ℕ) (far near : View) (began k : K)
        → Mailed parcels views → get_elem? views i ≡ some far → get_elem? views j ≡ some near → far.asks ≡ true → near.answers ≡ true
        → WentAt K.Tells K.rows K.is_told K.faults K.Chooses began near.talk k → K.Tells k → far.talk.asked ≡ None → told_in far.talk ≡ None
        → known_of far.talk.seen ≡ Unread }
{}

/// At any moment the store went through what the end that asks knows too: each call of which it heard an answer was made once and answered
/// so, in this order, and one that isn't answered was made once or not at all.
pub fn what_was_heard_was_made<K: Keeper>()
    ensures { (parcels : List Parcel) (views : List View) (i j : ℕ) (far near : View) (began k : K)
        → Mailed parcels views → get_elem? views i ≡ some far → get_elem? views j ≡ some near → far.asks ≡ true → near.answers ≡ true
        → WentAt K.Tells K.rows K.is_told K.faults K.Chooses began near.talk k
        → WentAt K.Tells K.rows K.is_told K.faults K.Chooses began far.talk k }
{}
