//! Whether a book opens as the configuration and the rows say.
ghost use Rattle.std.specs.Prelude.{◌≡◌, ◌≤◌, ◌^◌, IsSome};
ghost use Rattle.hub_main.specs.Told.{files_told};
ghost use Rattle.hub_opening.specs.Kept.{MakeTable};
ghost use Rattle.check_command.specs.Checks as spec;

use hub_config::config::FileConfig;
use hub_devices::files::Files;
use hub_kit::moment::Moment;
use hub_kit::text::Text;
use hub_main::configured::found_file;
use hub_main::opening::{choose, open_book};
use hub_opening::config::HubConfig;
use hub_serving::end::NotServed;
use hub_words::check::CheckWords;
use keeper::keeper::Keeper;
use keeper::trail::CountTrail;
use std::alloc::Global;

/// How a check ends: a hub would begin, or why it wouldn't.
pub type Checked = Result<(), NotServed>;

/// The exit status: that of a `serve` which begins, or which ends for this cause.
pub fn status_of(end: &Checked) -> u8
    ensures { result ≡ spec.status_of end.now }
{
    match end {
        Ok(()) => 0,
        Err(why) => why.status(),
    }
}

/// Whether a book opens over a chosen store. The store comes back.
fn over_chosen<K: Keeper>(alloc: Global, hub: &HubConfig, store: K, now: Moment) -> (Checked, K)
    requires limits { hub.now.limits.trail_bytes ≤ 2 ^ 62 }
    requires scopes { MakeTable hub.now.custom_scopes }
    ensures { spec.EndsChosen K.Tells K.rows K.faults hub.now now store result.1 result.0 }
{
    match open_book(alloc, store, CountTrail::new(), hub, now) {
        Ok(book) => {
            let (store, trail) = book.into_parts();
            drop(trail);
            (Ok(()), store)
        }
        Err((store, cause)) => (Err(NotServed::Because(cause)), store),
    }
}

/// The same once the store took its place, if it does.
fn over_place<K: Keeper>(
    alloc: Global,
    place: &Option<Text>,
    hub: &HubConfig,
    store: K,
    now: Moment,
) -> (Checked, K)
    requires limits { hub.now.limits.trail_bytes ≤ 2 ^ 62 }
    requires scopes { MakeTable hub.now.custom_scopes }
    ensures { spec.EndsAt K.Tells K.rows K.faults K.Chooses place.now hub.now now store result.1 result.0 }
{
    let mut store = store;
    if let Err(cause) = choose(&mut store, place) {
        return (Err(NotServed::Because(cause)), store);
    }
    over_chosen(alloc, hub, store, now)
}

/// The same for what a file of configuration says, where that names an address.
fn with_file<K: Keeper>(
    alloc: Global,
    place: &Option<Text>,
    file: &FileConfig,
    store: K,
    now: Moment,
) -> (Checked, K)
    requires limits { file.now.hub.limits.trail_bytes ≤ 2 ^ 62 }
    requires scopes { MakeTable file.now.hub.custom_scopes }
    ensures { spec.EndsWith K.Tells K.rows K.faults K.Chooses place.now file.now now store result.1 result.0 }
{
    if file.listen.is_none() {
        return (Err(NotServed::NoAddress), store);
    }
    over_place(alloc, place, &file.hub, store, now)
}

/// Reads the file of configuration that the words name, and opens a book with it over the store that they name, as `serve` does. The status
/// is 0 where the book opens; 3 where the file can't be read, is no configuration, names no address, or has a name in a list that is
/// neither kept nor configured, where a running server has a target that the pool hasn't, or a table would pass its limit; 4 where the
/// store doesn't take its place, fails, or has a row that doesn't read; and 7 where memory is wanting. The first cause is told.
pub fn check_over<K: Keeper, F: Files>(
    alloc: Global,
    words: &CheckWords,
    files: &mut F,
    store: K,
    now: Moment,
) -> (Checked, K)
    ensures ends { spec.Ends K.Tells K.rows K.faults K.Chooses words.now now
        (files_told F.files F.faults files.old) (files_told F.files F.faults files.new) store result.1 result.0 }
    ensures kept { F.files files.new ≡ F.files files.old }
{
    match found_file(alloc, files, &words.config) {
        Ok(file) => {
            let ended = with_file(alloc, &words.db, &file, store, now);
            // in one call, since it has many parts
            drop(file);
            ended
        }
        Err(cause) => (Err(NotServed::Because(cause)), store),
    }
}
