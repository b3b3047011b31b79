//! The book of a command: the store that is chosen for it, and what it is opened with.
ghost use Rattle.std.specs.Prelude.{◌≡◌, ◌≤◌, ◌^◌, ℕ, [], IfOk, IfErr, OnOk, OnErr};
ghost use Rattle.hub_opening.specs.Kept.{MakeTable};
ghost use Rattle.hub_opening.specs.declared.config.HubConfig.{HubConfig};
ghost use Rattle.keeper.specs.Rows.{Lists};
ghost use Rattle.hub_main.specs.Known.{are_known};
ghost use Rattle.hub_main.specs.Opened as spec;

use crate::cause::Cause;
use crate::known_names::unknown_name;
use hub_core::book::Book;
use hub_kit::moment::Moment;
use hub_kit::text::Text;
use hub_machine::change::Change;
use hub_opening::config::HubConfig;
use hub_opening::open_error::OpenError;
use keeper::keeper::{Keeper, KeeperError, Row};
use keeper::trail::Trail;
use std::alloc::Global;

/// Has the store take the one at a place, or stay as it is.
pub fn choose<K: Keeper>(store: &mut K, place: &Option<Text>) -> Result<(), Cause>
    ensures ok { OnOk result (spec.IsChosen K.Tells K.rows K.faults K.Chooses place.now store.old store.new) }
    ensures err { IfErr result (spec.IsUnchosen (K.faults store.old) (K.faults store.new)) }
    ensures stays { OnErr result (spec.Stays K.Tells K.rows store.old store.new) }
    ensures counted { K.faults store.old ≤ K.faults store.new }
{
    match store.choose(place.as_ref()) {
        Ok(()) => Ok(()),
        Err(KeeperError::Failed) => Err(Cause::NoStore),
        Err(KeeperError::Memory) => Err(Cause::Memory),
    }
}

fn load<K: Keeper>(store: &mut K) -> Result<Vec<Row>, Cause>
    ensures ok { IfOk result (λ kept. K.Tells store.new → Lists (K.rows store.old) kept.items) }
    ensures err { (config : HubConfig) (now : ℕ) → IfErr result (spec.IsUnopened K.Tells K.rows K.faults config now store.old store.new) }
    ensures stays { spec.Stays K.Tells K.rows store.old store.new }
    ensures counted { K.faults store.old ≤ K.faults store.new }
{
    match store.load() {
        Ok(kept) => Ok(kept),
        Err(KeeperError::Failed) => Err(Cause::NotOpened(OpenError::KeeperFault)),
        Err(KeeperError::Memory) => Err(Cause::Memory),
    }
}

/// Whether each name in a list of the configuration is configured itself.
fn are_configured(alloc: Global, config: &HubConfig) -> Result<bool, Cause>
    ensures ok { IfOk result (λ all. all ≡ are_known config.now []) }
    ensures err { IfErr result (λ cause. cause ≡ Cause.Memory) }
{
    match unknown_name(alloc, config, &[]) {
        Ok(unknown) => Ok(unknown.is_none()),
        Err(_) => Err(Cause::Memory),
    }
}

/// Refuses a configuration with a name in a list that is neither configured nor that of a row of the store.
fn refuse_unkept<K: Keeper>(alloc: Global, store: &mut K, config: &HubConfig) -> Result<(), Cause>
    ensures ok { OnOk result (spec.AreNames config.now (K.Tells store.new) (K.rows store.old)) }
    ensures err { (now : ℕ) → IfErr result (spec.IsUnopened K.Tells K.rows K.faults config.now now store.old store.new) }
    ensures stays { spec.Stays K.Tells K.rows store.old store.new }
    ensures counted { K.faults store.old ≤ K.faults store.new }
{
    let kept = match load(store) {
        Ok(kept) => kept,
        Err(cause) => return Err(cause),
    };
    let unknown = unknown_name(alloc, config, kept.as_slice());
    drop(kept);
    match unknown {
        Ok(None) => Ok(()),
        Ok(Some(name)) => Err(Cause::UnknownName(name)),
        Err(_) => Err(Cause::Memory),
    }
}

/// The same. The rows, of which there may be many, are read where a name isn't configured alone.
fn refuse_unknown<K: Keeper>(alloc: Global, store: &mut K, config: &HubConfig) -> Result<(), Cause>
    ensures ok { OnOk result (spec.AreNames config.now (K.Tells store.new) (K.rows store.old)) }
    ensures err { (now : ℕ) → IfErr result (spec.IsUnopened K.Tells K.rows K.faults config.now now store.old store.new) }
    ensures stays { spec.Stays K.Tells K.rows store.old store.new }
    ensures counted { K.faults store.old ≤ K.faults store.new }
{
    match are_configured(alloc, config) {
        Ok(true) => Ok(()),
        Ok(false) => refuse_unkept(alloc, store, config),
        Err(cause) => Err(cause),
    }
}

/// A book over the store with the configuration. A refusal hands the store back, with the rows that it had.
pub fn open_book<K: Keeper, T: Trail<Entry = Change>>(
    alloc: Global,
    store: K,
    trail: T,
    config: &HubConfig,
    now: Moment,
) -> Result<Book<K, T>, (K, Cause)>
    requires empty { T.told trail ≡ [] }
    requires limits { config.now.limits.trail_bytes ≤ 2 ^ 62 }
    requires scopes { MakeTable config.now.custom_scopes }
    ensures ok { IfOk result (spec.Opens config.now now (K.rows store) (K.faults store)) }
    ensures err { IfErr result (λ e. spec.IsUnopened K.Tells K.rows K.faults config.now now store e.0 e.1) }
    ensures stays { IfErr result (λ e. spec.Stays K.Tells K.rows store e.0) }
    ensures counted { IfErr result (λ e. K.faults store ≤ K.faults e.0) }
{
    let mut store = store;
    if let Err(cause) = refuse_unknown(alloc, &mut store, config) {
        return Err((store, cause));
    }
    match Book::open(alloc, store, trail, config, now) {
        Ok(book) => Ok(book),
        Err((store, error)) => Err((store, Cause::NotOpened(error))),
    }
}
