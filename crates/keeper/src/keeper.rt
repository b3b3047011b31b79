//! What keeps rows.
ghost use Rattle.std.specs.Prelude.{◌≡◌, ◌≤◌, ℕ, Bool, IsTrue, List, Option, None, IfOk, IfErr, OnOk, OnErr};
ghost use Rattle.hub_devices.specs.Faults.{Rises};
ghost use Rattle.keeper.specs.Rows.{Rows, AreSame, Lists, after_items, place_of};

use hub_kit::list::List;
use hub_kit::text::Text;

/// A row: the text that is kept under a kind and a key.
#[derive(Drop)]
pub struct Row {
    pub kind: u8,
    pub key: Text,
    pub text: Text,
}

/// One item of a batch: a row that is put in place of the one of its kind and key, or the kind and the key of one that goes.
/// To delete what isn't kept changes nothing.
#[derive(Drop)]
pub enum Item {
    Put(Row),
    Delete { kind: u8, key: Text },
}

/// Items that are done in order, all or none.
pub type Batch = List<Item>;

/// Why a call of a keeper was refused. `Failed` is a fault of the keeper, which its count tells.
#[derive(Clone, Copy, Debug, PartialEq, Eq)]
pub enum KeeperError {
    Failed,
    Memory,
}

/// Keeps rows. What a call says of them holds where the rows are told after the call; then they were told before it too.
pub trait Keeper: Drop {
    /// Whether the rows are told. A keeper over a file may find at any call that they aren't.
    ghost Tells: { Self → Type 0 };

    /// The same as a truth value, for who keeps what was so once (`decides`).
    ghost is_told: { Self → Bool };

    /// The rows, where they are told.
    ghost rows: { Self → Rows };

    /// How often it has failed.
    ghost faults: { Self → ℕ };

    /// What a keeper may be after the choice of a place.
    ghost Chooses: { Self → Option (List ℕ) → Self → Type 0 };

    /// Takes the store at a place, or stays with its own where no place is given.
    fn choose(&mut self, place: Option<&Text>) -> Result<(), KeeperError>
        ensures chosen { OnOk result (Chooses self.old (place_of place.entry) self.new) }
        ensures own { place_of place.entry ≡ None → Tells self.new → Tells self.old × AreSame (rows self.new) (rows self.old) }
        ensures err { OnErr result (Tells self.new → Tells self.old × AreSame (rows self.new) (rows self.old)) }
        ensures counted { faults self.old ≤ faults self.new }
        ensures cause { IfErr result (λ e. e ≡ KeeperError.Failed → Rises (faults self.old) (faults self.new)) };

    /// All rows, in the order of kind and key.
    fn load(&mut self) -> Result<Vec<Row>, KeeperError>
        ensures listed { Tells self.new → IfOk result (λ all. Lists (rows self.old) all.items) }
        ensures kept { Tells self.new → Tells self.old × AreSame (rows self.new) (rows self.old) }
        ensures counted { faults self.old ≤ faults self.new }
        ensures cause { IfErr result (λ e. e ≡ KeeperError.Failed → Rises (faults self.old) (faults self.new)) };

    /// Does all items in order, or none.
    fn commit(&mut self, batch: &Batch) -> Result<(), KeeperError>
        ensures told { Tells self.new → Tells self.old }
        ensures ok { Tells self.new → OnOk result (AreSame (rows self.new) (after_items batch.now (rows self.old))) }
        ensures err { Tells self.new → OnErr result (AreSame (rows self.new) (rows self.old)) }
        ensures counted { faults self.old ≤ faults self.new }
        ensures cause { IfErr result (λ e. e ≡ KeeperError.Failed → Rises (faults self.old) (faults self.new)) };

    ghost decides: { (k : Self) → (Tells k → IsTrue (is_told k)) × (IsTrue (is_told k) → Tells k) };
}
