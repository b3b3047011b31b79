//! The command `serve`: a hub on a socket, which starts programs.
ghost use Rattle.std.specs.Prelude.{◌≡◌, ◌<◌, length, IfOk, IsSome, IfSome};
ghost use Rattle.hub_main.specs.Told.{files_told};
ghost use Rattle.hub_serving.specs.Ends.{forgiven_status, status_of};
ghost use Rattle.hub_serving.specs.Plans.{IsPlanOf};
ghost use Rattle.hub_words.specs.Serve.{serve_read};

use crate::announced::Announced;
use crate::paths::HubRoutes;
use crate::services::service_kit;
use crate::system::ServeSystem;
use crate::telling::{tell_left, tell_refused, tell_served, tell_unheard};
use crate::watched::{Said, Watched};
use hub_devices::files::Files;
use hub_edge::clock::SystemClock;
use hub_edge::ending::{close_at_end_of_input, close_at_signal};
use hub_edge::files::SystemFiles;
use hub_edge::listener::{Closer, SocketListener};
use hub_edge::output::{Output, say};
use hub_edge::programs::{AllStarted, Programs};
use hub_edge::random::SystemRandom;
use hub_edge::routes::AllRoutes;
use hub_kit::list::List;
use hub_kit::text::Text;
use hub_run::HubKit;
use hub_serving::end::{End, NotServed, forgiven_status};
use hub_serving::plan::{Plan, read_plan};
use hub_serving::run::run;
use hub_serving::world::ServeOutside;
use hub_store::command::{ProgramStore, run_over_file};
use keeper::mem_keeper::MemKeeper;
use sqlite::Start;
use std::alloc::{AllocError, Global};
use std::io;
use std::process::ExitCode;
use std::sync::{Arc, Mutex, Wait};
use std::thread::{Builder, Threads};
use store_thread::store_thread::{StoreThread, far_store};

/// The status where the listener fails.
const NO_LISTENER: u8 = 8;

/// What the workers share.
#[derive(Drop)]
struct Shared {
    started: AllStarted,
    routes: AllRoutes,
    command: Arc<List<Text>, Global>,
}

impl Shared {
    fn new(alloc: Global, command: &[Text]) -> Result<Shared, AllocError> {
        let mut words = Vec::new(alloc);
        for word in command {
            words.push(word.copy(alloc)?)?;
        }
        Ok(Shared {
            started: Arc::new(alloc, Mutex::new(Vec::new(alloc)))?,
            routes: Arc::new(alloc, Mutex::new(Vec::new(alloc)))?,
            command: Arc::new(alloc, List::from_vec(words))?,
        })
    }
}

/// The devices of a worker.
type Kit<H> = HubKit<Programs<H>, HubRoutes<H>, SystemClock, SystemRandom<HostRuntime>>;

fn new_kit<H: Threads + Wait + Copy + Send + Sync>(
    rt: HostRuntime,
    handle: H,
    plan: &Plan,
    shared: &Shared,
) -> Result<Kit<H>, AllocError> {
    let routes = HubRoutes::new(rt, handle, &plan.proxy, &shared.routes)?;
    let started = Arc::try_clone(&shared.started)?;
    let command = Arc::try_clone(&shared.command)?;
    Ok(HubKit {
        spawner: Programs::new(rt, handle, started, command),
        routes,
        clock: SystemClock::new(rt),
        random: SystemRandom::new(rt),
    })
}

/// A kit for each worker, at least one.
fn new_kits<H: Threads + Wait + Copy + Send + Sync>(
    rt: HostRuntime,
    handle: H,
    plan: &Plan,
    shared: &Shared,
) -> Result<Vec<Kit<H>>, AllocError>
    ensures { IfOk result (λ kits. 0 < length kits.items) }
{
    let mut kits = Vec::new(rt.alloc());
    for _ in 1..plan.workers {
        kits.push(new_kit(rt, handle, plan, shared)?)?;
    }
    kits.push(new_kit(rt, handle, plan, shared)?)?;
    Ok(kits)
}

/// The listener, and what closes it. It is closed where standard input ends, if somebody holds it, and where a signal asks for the end.
fn open_listener<H: Threads + Wait>(
    rt: HostRuntime,
    handle: &H,
    address: &Text,
) -> io::Result<(SocketListener, Closer)> {
    let listener = SocketListener::bind(rt, address.as_str())?;
    let closer = listener.closer()?;
    close_at_end_of_input(rt, handle, listener.closer()?)?;
    close_at_signal(rt, handle, listener.closer()?)?;
    Ok((listener, closer))
}

/// The outside, but for what keeps the rows.
fn outside<K: ProgramStore + Send, H: Threads + Wait + Copy + Send + Sync>(
    rt: HostRuntime,
    handle: H,
    plan: &Plan,
    listener: SocketListener,
) -> Result<ServeOutside<ServeSystem<K, H>>, AllocError>
    ensures { IfOk result (λ o. 0 < length o.kits.items) }
{
    let shared = Shared::new(rt.alloc(), plan.command.as_slice())?;
    let kit = new_kit(rt, handle, plan, &shared)?;
    let kits = new_kits(rt, handle, plan, &shared)?;
    let services = service_kit(rt, handle, plan, &shared.routes)?;
    let doors = Announced::new(rt, plan, listener)?;
    Ok(ServeOutside {
        output: Output::new(rt),
        store: None,
        kit,
        kits,
        doors,
        services,
        stopped: None,
        end: None,
    })
}

/// The status. A listener that was closed on purpose hasn't failed.
fn status_at_end(status: u8, end: &Option<End>, closed: bool) -> u8
    ensures { IfSome end.now (λ e. result ≡ forgiven_status closed e) }
{
    match end {
        Some(end) => forgiven_status(end, closed),
        None => status,
    }
}

/// Runs the command by its plan over these devices and this store, and says which services couldn't be stopped, and why it didn't do its
/// work if it didn't.
fn run_over<K: ProgramStore + Send, H: Threads + Wait + Copy + Send + Sync>(
    rt: &HostRuntime,
    handle: &H,
    words: &[Text],
    files: &SystemFiles,
    plan: &Plan,
    outside: &mut ServeOutside<ServeSystem<K, H>>,
    closer: &Closer,
) -> u8
    requires read { IsPlanOf (serve_read words.now) (files_told ⟦<SystemFiles as Files>⟧.files ⟦<SystemFiles as Files>⟧.faults files.now)
        plan.now }
    requires store { IsSome outside.old.store }
    requires kits { 0 < length outside.old.kits.items }
{
    let status = run(handle, rt.alloc(), words, files, plan, outside);
    tell_left(rt, plan, outside);
    let status = status_at_end(status, &outside.end, closer.is_closed());
    if status != 0 {
        tell_served(rt, words, plan, outside);
    }
    status
}

/// Serves what the plan says.
fn serve_plan<K: ProgramStore + Send, H: Threads + Wait + Copy + Send + Sync>(
    rt: HostRuntime,
    handle: H,
    words: &[Text],
    files: &SystemFiles,
    plan: &Plan,
    store: K,
) -> ExitCode
    requires read { IsPlanOf (serve_read words.now) (files_told ⟦<SystemFiles as Files>⟧.files ⟦<SystemFiles as Files>⟧.faults files.now)
        plan.now }
{
    let Ok(said) = Said::of(rt.alloc(), words, plan) else {
        drop(store);
        return say(&rt, 7, "there is no memory");
    };
    let (listener, closer) = match open_listener(rt, &handle, &plan.listen) {
        Ok(opened) => opened,
        Err(error) => {
            drop(store);
            tell_unheard(&rt, plan, &error);
            return ExitCode::from(NO_LISTENER);
        }
    };
    let Ok(mut outside) = outside(rt, handle, plan, listener) else {
        drop(store);
        return say(&rt, 7, "there is no memory");
    };
    outside.store = Some(Watched::new(rt, store, said));
    let status = run_over(&rt, &handle, words, files, plan, &mut outside, &closer);
    if let Some(store) = outside.store.take() {
        store.close();
    }
    drop(outside);
    ExitCode::from(status)
}

/// Serves over a store in memory.
fn serve_in_memory<H: Threads + Wait + Copy + Send + Sync>(
    rt: HostRuntime,
    handle: H,
    words: &[Text],
    files: &SystemFiles,
    plan: &Plan,
) -> ExitCode
    requires read { IsPlanOf (serve_read words.now) (files_told ⟦<SystemFiles as Files>⟧.files ⟦<SystemFiles as Files>⟧.faults files.now)
        plan.now }
{
    let alloc = rt.alloc();
    match MemKeeper::new(alloc, Vec::new(alloc), Vec::new(alloc)) {
        Ok(store) => serve_plan(rt, handle, words, files, plan, store),
        Err(_) => say(&rt, 7, "there is no memory"),
    }
}

/// What the thread does that has the store.
fn keep<S: Start, H: Wait + Copy>(rt: HostRuntime, start: S, thread: StoreThread<H>) {
    let _ = run_over_file(rt, start, &thread);
    // a call that is still made is refused
    drop(thread);
}

/// Serves over a store in a file. A thread of its own has it.
fn serve_in_file<S: Start + Send + 'static, H: Threads + Wait + Copy + Send + Sync + 'static>(
    rt: HostRuntime,
    handle: H,
    words: &[Text],
    files: &SystemFiles,
    plan: &Plan,
    start: S,
) -> ExitCode
    requires read { IsPlanOf (serve_read words.now) (files_told ⟦<SystemFiles as Files>⟧.files ⟦<SystemFiles as Files>⟧.faults files.now)
        plan.now }
{
    let Ok((store, thread)) = far_store(rt.alloc(), handle) else {
        drop(start);
        return say(&rt, 7, "there is no memory");
    };
    let Ok(keeping) = Builder::new().spawn(&handle, move || keep(rt, start, thread)) else {
        drop(store);
        return say(&rt, 7, "there is no memory for a thread");
    };
    let code = serve_plan(rt, handle, words, files, plan, store);
    // the file is closed by then
    keeping.join(&handle);
    code
}

/// The plan of these words and their file, which is read here and nowhere else.
fn planned(alloc: Global, files: &mut SystemFiles, words: &[Text]) -> Result<Plan, NotServed>
    ensures { IfOk result (IsPlanOf (serve_read words.now)
        (files_told ⟦<SystemFiles as Files>⟧.files ⟦<SystemFiles as Files>⟧.faults files.new)) }
{
    read_plan(alloc, files, words)
}

/// Runs the command `serve` with these words over the system's devices. The file of configuration that they name is read once, and the hub
/// is set up, listens and runs by the one plan that this gives. `S` names what is supposed of the first contents of the file of SQLite,
/// where the words name one.
pub fn serve<S: Start + Send + 'static, H: Threads + Wait + Copy + Send + Sync + 'static>(
    rt: HostRuntime,
    handle: H,
    words: &[Text],
    start: S,
) -> ExitCode {
    let mut files = SystemFiles::new(rt);
    match planned(rt.alloc(), &mut files, words) {
        Ok(plan) => {
            let code = if plan.db.is_some() {
                serve_in_file(rt, handle, words, &files, &plan, start)
            } else {
                drop(start);
                serve_in_memory(rt, handle, words, &files, &plan)
            };
            drop(plan);
            code
        }
        Err(why) => {
            drop(start);
            tell_refused(&rt, words, &files, why)
        }
    }
}
