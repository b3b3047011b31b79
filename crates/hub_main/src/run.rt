//! The hub's commands, over the outside that the program makes.
ghost use Rattle.std.specs.Prelude.{◌≡◌, ◌≤◌, ◌^◌, [], Some, IsSome};
ghost use Rattle.hub_main.specs.Sessions as spec;
ghost use Rattle.hub_main.specs.Told.{sides, kit_told, files_told};
ghost use Rattle.hub_opening.specs.Kept.{MakeTable};
ghost use Rattle.hub_words.specs.Session.{session_read};

use crate::cause::Cause;
use crate::configured::config_of;
use crate::end::{End, status_of};
use crate::opening::{choose, open_book};
use crate::serving::serve_book;
use crate::world::{Outside, World};
use hub_kit::moment::Moment;
use hub_kit::text::Text;
use hub_machine::change::Change;
use hub_opening::config::HubConfig;
use hub_words::session::{SessionWords, read_session};
use hub_words::word_error::WordError;
use keeper::trail::{CountTrail, ListTrail, Trail};
use std::alloc::Global;
use std::sync::Wait;

/// A session over a chosen store, with this trail.
fn run_over<W: World, T: Trail<Entry = Change>, R: Wait>(
    rt: &R,
    alloc: Global,
    config: &HubConfig,
    now: Moment,
    trail: T,
    store: W::Store,
    outside: &mut Outside<W>,
) -> (End, W::Store)
    requires empty { T.told trail ≡ [] }
    requires limits { config.now.limits.trail_bytes ≤ 2 ^ 62 }
    requires scopes { MakeTable config.now.custom_scopes }
    ensures ends { spec.EndsChosen W.Store.Tells W.Store.rows W.Store.faults config.now now
        (sides W.In.left W.In.faults W.Out.held W.Out.faults outside.old.input outside.old.output
        (kit_told W.Draws.left W.Starts.calls W.Paths.calls W.Draws.faults W.Starts.faults W.Paths.faults outside.old.kit))
        (sides W.In.left W.In.faults W.Out.held W.Out.faults outside.new.input outside.new.output
        (kit_told W.Draws.left W.Starts.calls W.Paths.calls W.Draws.faults W.Starts.faults W.Paths.faults outside.new.kit)) store
        result.1 result.0 }
    ensures files { outside.new.files ≡ outside.old.files }
    ensures reads { W.In.faults outside.old.input ≤ W.In.faults outside.new.input }
    ensures writes { W.Out.faults outside.old.output ≤ W.Out.faults outside.new.output }
    ensures counted { W.Store.faults store ≤ W.Store.faults result.1 }
{
    match open_book(alloc, store, trail, config, now) {
        Ok(book) => serve_book(rt, alloc, book, now, outside),
        Err((store, cause)) => (Err(cause), store),
    }
}

/// A session with this configuration.
fn run_configured<W: World, R: Wait>(
    rt: &R,
    alloc: Global,
    words: &SessionWords,
    config: &HubConfig,
    store: W::Store,
    outside: &mut Outside<W>,
) -> (End, W::Store)
    requires limits { config.now.limits.trail_bytes ≤ 2 ^ 62 }
    requires scopes { MakeTable config.now.custom_scopes }
    ensures ends { spec.EndsConfigured W.Store.Tells W.Store.rows W.Store.faults W.Store.Chooses words.entry.now.db config.now
        words.entry.now.now
        (sides W.In.left W.In.faults W.Out.held W.Out.faults outside.old.input outside.old.output
        (kit_told W.Draws.left W.Starts.calls W.Paths.calls W.Draws.faults W.Starts.faults W.Paths.faults outside.old.kit))
        (sides W.In.left W.In.faults W.Out.held W.Out.faults outside.new.input outside.new.output
        (kit_told W.Draws.left W.Starts.calls W.Paths.calls W.Draws.faults W.Starts.faults W.Paths.faults outside.new.kit)) store
        result.1 result.0 }
    ensures files { outside.new.files ≡ outside.old.files }
    ensures reads { W.In.faults outside.old.input ≤ W.In.faults outside.new.input }
    ensures writes { W.Out.faults outside.old.output ≤ W.Out.faults outside.new.output }
    ensures counted { W.Store.faults store ≤ W.Store.faults result.1 }
{
    let mut store = store;
    if let Err(cause) = choose(&mut store, &words.db) {
        return (Err(cause), store);
    }
    if config.no_trail {
        run_over(
            rt,
            alloc,
            config,
            words.now,
            CountTrail::new(),
            store,
            outside,
        )
    } else {
        run_over(
            rt,
            alloc,
            config,
            words.now,
            ListTrail::new(alloc),
            store,
            outside,
        )
    }
}

/// The session that these words say.
fn run_session<W: World, R: Wait>(
    rt: &R,
    alloc: Global,
    words: &SessionWords,
    store: W::Store,
    outside: &mut Outside<W>,
) -> (End, W::Store)
    ensures ends { spec.SessionEnds W.Store.Tells W.Store.rows W.Store.faults W.Store.Chooses words.entry.now
        (files_told W.Reads.files W.Reads.faults outside.old.files) (files_told W.Reads.files W.Reads.faults outside.new.files)
        (sides W.In.left W.In.faults W.Out.held W.Out.faults outside.old.input outside.old.output
        (kit_told W.Draws.left W.Starts.calls W.Paths.calls W.Draws.faults W.Starts.faults W.Paths.faults outside.old.kit))
        (sides W.In.left W.In.faults W.Out.held W.Out.faults outside.new.input outside.new.output
        (kit_told W.Draws.left W.Starts.calls W.Paths.calls W.Draws.faults W.Starts.faults W.Paths.faults outside.new.kit)) store
        result.1 result.0 }
    ensures files { W.Reads.files outside.new.files ≡ W.Reads.files outside.old.files }
    ensures reads { W.In.faults outside.old.input ≤ W.In.faults outside.new.input }
    ensures writes { W.Out.faults outside.old.output ≤ W.Out.faults outside.new.output }
    ensures looked { W.Reads.faults outside.old.files ≤ W.Reads.faults outside.new.files }
    ensures counted { W.Store.faults store ≤ W.Store.faults result.1 }
{
    match config_of(alloc, &mut outside.files, words) {
        Ok(config) => {
            let ended = run_configured(rt, alloc, words, &config, store, outside);
            // in one call, since it has many parts
            drop(config);
            ended
        }
        Err(cause) => (Err(cause), store),
    }
}

/// The command that the words name. Words that are refused do nothing.
fn run_words<W: World, R: Wait>(
    rt: &R,
    alloc: Global,
    words: &[Text],
    store: W::Store,
    outside: &mut Outside<W>,
) -> (End, W::Store)
    ensures ends { spec.CommandEnds W.Store.Tells W.Store.rows W.Store.faults W.Store.Chooses (session_read words.now)
        (files_told W.Reads.files W.Reads.faults outside.old.files) (files_told W.Reads.files W.Reads.faults outside.new.files)
        (sides W.In.left W.In.faults W.Out.held W.Out.faults outside.old.input outside.old.output
        (kit_told W.Draws.left W.Starts.calls W.Paths.calls W.Draws.faults W.Starts.faults W.Paths.faults outside.old.kit))
        (sides W.In.left W.In.faults W.Out.held W.Out.faults outside.new.input outside.new.output
        (kit_told W.Draws.left W.Starts.calls W.Paths.calls W.Draws.faults W.Starts.faults W.Paths.faults outside.new.kit)) store
        result.1 result.0 }
    ensures files { W.Reads.files outside.new.files ≡ W.Reads.files outside.old.files }
    ensures reads { W.In.faults outside.old.input ≤ W.In.faults outside.new.input }
    ensures writes { W.Out.faults outside.old.output ≤ W.Out.faults outside.new.output }
    ensures looked { W.Reads.faults outside.old.files ≤ W.Reads.faults outside.new.files }
    ensures counted { W.Store.faults store ≤ W.Store.faults result.1 }
{
    match read_session(alloc, words) {
        Ok(session) => {
            let ended = run_session(rt, alloc, &session, store, outside);
            drop(session);
            ended
        }
        Err(WordError::Refused) => (Err(Cause::Words), store),
        Err(WordError::Memory) => (Err(Cause::Memory), store),
    }
}

/// Runs the command that the words name, over the store that the outside has, which is put back at the end, whatever the status.
///
/// The status is 2 where the words are refused; 3 where the file of configuration can't be read, is none, or has a name in a list that is
/// neither kept nor configured, where a running server has a target that the pool hasn't, or a table would pass its limit; 4 where the
/// store doesn't take its place, fails at opening, or has a row that doesn't read; 7 where memory is wanting before the session. Nothing
/// is read or written then, and the rows are as they were, or with 7 those that the opening leaves. Otherwise running servers are taken
/// back and the status is that of the session, and the rows are those of the last state of its history.
pub fn run<W: World, R: Wait>(rt: &R, alloc: Global, words: &[Text], outside: &mut Outside<W>) -> u8
    requires store { IsSome outside.old.store }
    ensures store { IsSome outside.new.store }
    ensures ends { (k k' : W.Store) → outside.old.store ≡ Some k → outside.new.store ≡ Some k'
        → spec.RunEnds W.Store.Tells W.Store.rows W.Store.faults W.Store.Chooses (session_read words.now)
        (files_told W.Reads.files W.Reads.faults outside.old.files) (files_told W.Reads.files W.Reads.faults outside.new.files)
        (sides W.In.left W.In.faults W.Out.held W.Out.faults outside.old.input outside.old.output
        (kit_told W.Draws.left W.Starts.calls W.Paths.calls W.Draws.faults W.Starts.faults W.Paths.faults outside.old.kit))
        (sides W.In.left W.In.faults W.Out.held W.Out.faults outside.new.input outside.new.output
        (kit_told W.Draws.left W.Starts.calls W.Paths.calls W.Draws.faults W.Starts.faults W.Paths.faults outside.new.kit)) k k'
        outside.new.end result }
    ensures files { W.Reads.files outside.new.files ≡ W.Reads.files outside.old.files }
    ensures reads { W.In.faults outside.old.input ≤ W.In.faults outside.new.input }
    ensures writes { W.Out.faults outside.old.output ≤ W.Out.faults outside.new.output }
    ensures looked { W.Reads.faults outside.old.files ≤ W.Reads.faults outside.new.files }
    ensures counted { (k k' : W.Store) → outside.old.store ≡ Some k → outside.new.store ≡ Some k' → W.Store.faults k ≤ W.Store.faults k' }
{
    let Some(store) = outside.store.take() else {
        unreachable!()
    };
    let (end, store) = run_words(rt, alloc, words, store, outside);
    let status = status_of(&end);
    outside.store = Some(store);
    outside.end = Some(end);
    status
}
