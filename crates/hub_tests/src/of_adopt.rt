//! Adoptions of a server that an earlier hub started, over a book of that server's life alone.
ghost use Rattle.std.specs.Prelude.{◌≡◌, ◌≤◌, ◌<◌, ◌+◌, ◌^◌, All, IfOk, Some, None, true, nat_eq, if◌then◌else◌};
ghost use Rattle.std.proofs.Math.ListN.{replicate};
ghost use Rattle.server_life.specs.LifeTable.{generation_of, life_after};
ghost use Rattle.server_life.specs.Lives as lives;
ghost use Rattle.server_life.specs.Owed.{owed};
ghost use Rattle.server_work.specs.LifeSteps.{left_of};
ghost use Rattle.server_work.specs.Outcomes.{KeptAs, is_end, noted};

use crate::called::{Routed, Spawned, are_called};
use crate::check::{check, failing, text};
use crate::hubs::{NEVER, open_desk};
use desk::{Booked, Desk, Pass};
use hub_devices::calls::ListedRoute;
use hub_devices::mem_routes::MemRouteLink;
use hub_devices::mem_spawner::MemSpawner;
use hub_devices::route_link::RouteLink;
use hub_kit::names::read_key;
use hub_kit::targets::read_target;
use server_life::{Life, LifeEvent, LifeRefusal, ParkedAt, Phase, Todo, life_laws, life_step};
use server_work::adopt::{Adopted, adopt};
use server_work::book::{LifeBook, Lived};
use server_work::work::{Kept, Work};
use std::alloc::Global;
use std::process::Abort;
use std::sync::Wait;

/// The adoption of ann's default server, whose lease has the generation 5, and what comes of it.
struct Adoption {
    name: &'static str,
    /// The generation that the adoption is of.
    generation: u32,
    /// Whether the program of the generation 5 runs.
    runs: bool,
    /// Whether the proxy lists the server's route, with the serial 10.
    listed: bool,
    /// Whether somebody has asked for a stop since the adopting servers were told.
    stop_asked: bool,
    /// The number of the spawner's call that fails.
    failing_spawn: u64,
    /// The number of the route link's call that fails.
    failing_route: u64,
    adopted: Adopted,
    /// Where the server's life stands then.
    phase: Phase,
    /// How many entries the history has then.
    entries: u64,
    /// Whether the proxy lists the server's route then, with the serial 10.
    stays: bool,
    spawned: &'static [Spawned],
    routed: &'static [Routed],
}

const READY: Adopted = Adopted {
    ready: 1,
    stopped: 0,
    parked: 0,
};

const STOPPED: Adopted = Adopted {
    ready: 0,
    stopped: 1,
    parked: 0,
};

const PARKED: Adopted = Adopted {
    ready: 0,
    stopped: 0,
    parked: 1,
};

const BROKEN: Adopted = Adopted {
    ready: 0,
    stopped: 0,
    parked: 0,
};

const ADOPTIONS: [Adoption; 10] = [
    Adoption {
        name: "it runs",
        generation: 5,
        runs: true,
        listed: false,
        stop_asked: false,
        failing_spawn: NEVER,
        failing_route: NEVER,
        adopted: READY,
        phase: Phase::Ready(5),
        entries: 2,
        stays: true,
        spawned: &[Spawned::Poll(5)],
        routed: &[Routed::Add("/user/ann", 10)],
    },
    Adoption {
        name: "it runs, and its route is listed already",
        generation: 5,
        runs: true,
        listed: true,
        stop_asked: false,
        failing_spawn: NEVER,
        failing_route: NEVER,
        adopted: READY,
        phase: Phase::Ready(5),
        entries: 2,
        stays: true,
        spawned: &[Spawned::Poll(5)],
        routed: &[Routed::Add("/user/ann", 10)],
    },
    Adoption {
        name: "it doesn't run",
        generation: 5,
        runs: false,
        listed: false,
        stop_asked: false,
        failing_spawn: NEVER,
        failing_route: NEVER,
        adopted: STOPPED,
        phase: Phase::Stopped,
        entries: 3,
        stays: false,
        spawned: &[Spawned::Poll(5), Spawned::Stop(5)],
        routed: &[Routed::Delete("/user/ann", 11)],
    },
    Adoption {
        name: "it doesn't run, and its route is listed still",
        generation: 5,
        runs: false,
        listed: true,
        stop_asked: false,
        failing_spawn: NEVER,
        failing_route: NEVER,
        adopted: STOPPED,
        phase: Phase::Stopped,
        entries: 3,
        stays: false,
        spawned: &[Spawned::Poll(5), Spawned::Stop(5)],
        routed: &[Routed::Delete("/user/ann", 11)],
    },
    Adoption {
        name: "the poll fails",
        generation: 5,
        runs: true,
        listed: true,
        stop_asked: false,
        failing_spawn: 0,
        failing_route: NEVER,
        adopted: PARKED,
        phase: Phase::Parked(5, ParkedAt::Unroute),
        entries: 1,
        stays: true,
        spawned: &[Spawned::Poll(5)],
        routed: &[],
    },
    Adoption {
        name: "the addition of its route fails",
        generation: 5,
        runs: true,
        listed: false,
        stop_asked: false,
        failing_spawn: NEVER,
        failing_route: 0,
        adopted: STOPPED,
        phase: Phase::Stopped,
        entries: 4,
        stays: false,
        spawned: &[Spawned::Poll(5), Spawned::Stop(5)],
        routed: &[
            Routed::Add("/user/ann", 10),
            Routed::Delete("/user/ann", 11),
        ],
    },
    Adoption {
        name: "the deletion of its route fails",
        generation: 5,
        runs: false,
        listed: true,
        stop_asked: false,
        failing_spawn: NEVER,
        failing_route: 0,
        adopted: PARKED,
        phase: Phase::Parked(5, ParkedAt::Unroute),
        entries: 2,
        stays: true,
        spawned: &[Spawned::Poll(5)],
        routed: &[Routed::Delete("/user/ann", 11)],
    },
    Adoption {
        name: "its stop fails",
        generation: 5,
        runs: false,
        listed: false,
        stop_asked: false,
        failing_spawn: 1,
        failing_route: NEVER,
        adopted: PARKED,
        phase: Phase::Parked(5, ParkedAt::Stop),
        entries: 3,
        stays: false,
        spawned: &[Spawned::Poll(5), Spawned::Stop(5)],
        routed: &[Routed::Delete("/user/ann", 11)],
    },
    Adoption {
        name: "it runs, and a stop is asked",
        generation: 5,
        runs: true,
        listed: true,
        stop_asked: true,
        failing_spawn: NEVER,
        failing_route: NEVER,
        adopted: STOPPED,
        phase: Phase::Stopped,
        entries: 3,
        stays: false,
        spawned: &[Spawned::Poll(5), Spawned::Stop(5)],
        routed: &[Routed::Delete("/user/ann", 11)],
    },
    Adoption {
        name: "another generation than that of the lease",
        generation: 4,
        runs: true,
        listed: true,
        stop_asked: false,
        failing_spawn: NEVER,
        failing_route: NEVER,
        adopted: BROKEN,
        phase: Phase::Adopting(5),
        entries: 0,
        stays: true,
        spawned: &[Spawned::Poll(4)],
        routed: &[],
    },
];

/// The life of one server that an earlier hub started, and how many events it has had since.
#[derive(Drop)]
struct OneLife {
    generation: u64,
    life: Life,
    events: u64,
    ghost room: { events + owed life.phase ≤ 4 },
}

impl Booked for OneLife {
    type Entry = ();

    type Base = ();

    ghost entries = { λ b. replicate b.events tt };

    ghost base = { λ _. tt };

    ghost faults = { λ _. 0 };

    fn length(&self) -> u64 {
        self.events
    }
}

/// Whether the event came of a call.
fn is_outcome(event: LifeEvent) -> bool
    ensures { result ≡ lives.is_outcome event }
{
    !matches!(&event, LifeEvent::Begin | LifeEvent::AskStop)
}

/// Whether the event ends a life, and so asks a keeper.
fn kept_of(event: LifeEvent) -> Kept
    ensures kept { KeptAs (is_end event) 0 0 result }
    ensures noted { noted event result ≡ event }
{
    match event {
        LifeEvent::Ended | LifeEvent::SpawnFailed => Kept::Kept,
        _ => Kept::NotAsked,
    }
}

/// A step of a life by an outcome, which leaves less to come.
fn step(life: Life, generation: u64, outcome: LifeEvent) -> Result<(Life, Todo), LifeRefusal>
    requires { lives.is_outcome outcome ≡ true }
    ensures table { result ≡ life_after life generation outcome }
    ensures of { IfOk result (λ made. generation_of life.phase ≡ Some generation) }
    ensures falls { IfOk result (λ made. owed made.0.phase < owed life.phase) }
{
    life_laws();
    life_step(life, generation, outcome)
}

impl LifeBook for OneLife {
    ghost lives = { λ b. λ g. if nat_eq g b.generation then left_of b.life else None };

    ghost reached = { λ _ _ _. Unit {0} };

    ghost notes = { λ _ _ _. Unit {0} };

    fn life(&mut self, generation: u64, outcome: LifeEvent) -> Result<Lived, LifeRefusal> {
        if !is_outcome(outcome) {
            return Err(LifeRefusal::NotNow);
        }
        if generation != self.generation {
            return Err(LifeRefusal::OldGeneration(generation));
        }
        let (life, todo) = match step(self.life, generation, outcome) {
            Ok(made) => made,
            Err(refusal) => return Err(refusal),
        };
        self.life = life;
        self.events += 1;
        Ok(Lived {
            todo,
            kept: kept_of(outcome),
            length: self.events,
        })
    }
}

/// The book of a hub that is opened again over the lease of the generation 5.
fn book(adoption: &Adoption) -> OneLife {
    OneLife {
        generation: 5,
        life: Life {
            phase: Phase::Adopting(5),
            stop_asked: adoption.stop_asked,
        },
        events: 0,
    }
}

/// What the adoption of a generation of ann's default server asks.
fn work(rt: &impl Abort, alloc: Global, generation: u64) -> Work
    ensures { result.generation ≡ generation }
{
    Work {
        generation,
        server: read_key(b"ann/").expect(rt, "it is a key"),
        path: text(rt, alloc, "/user/ann"),
        target: read_target(alloc, b"http://127.0.0.1:9001").expect(rt, "it is a target"),
        secret: None,
    }
}

/// The adoptions of a hub: this one.
fn works(rt: &impl Abort, alloc: Global, generation: u64) -> Vec<Work>
    requires { generation < 2 ^ 63 }
    ensures { All (λ w. w.generation < 2 ^ 63) result.items }
{
    let works = vec![in alloc; work(rt, alloc, generation)];
    works.expect(rt, "there is memory")
}

fn spawner(rt: &impl Abort, alloc: Global, adoption: &Adoption) -> MemSpawner {
    let mut running = Vec::new(alloc);
    if adoption.runs {
        running.push(5).expect(rt, "there is memory");
    }
    MemSpawner::beginning(alloc, running, failing(rt, alloc, adoption.failing_spawn))
}

fn routes(rt: &impl Abort, alloc: Global, adoption: &Adoption) -> MemRouteLink {
    let mut listed = Vec::new(alloc);
    if adoption.listed {
        let route = ListedRoute {
            path: text(rt, alloc, "/user/ann"),
            target: text(rt, alloc, "http://127.0.0.1:9001"),
            serial: Some(10),
        };
        listed.push(route).expect(rt, "there is memory");
    }
    MemRouteLink::beginning(alloc, listed, failing(rt, alloc, adoption.failing_route))
}

fn is_adopted(adopted: Adopted, adoption: &Adoption) -> bool {
    (adopted.ready == adoption.adopted.ready)
        & (adopted.stopped == adoption.adopted.stopped)
        & (adopted.parked == adoption.adopted.parked)
}

/// Whether the proxy lists the server's route, or none, as it should.
fn is_listed(routes: &mut MemRouteLink, adoption: &Adoption) -> bool {
    let listed = match routes.list() {
        Ok(listed) => listed,
        Err(_) => return false,
    };
    match listed.first() {
        Some(route) => {
            adoption.stays
                & (listed.len() == 1)
                & (route.path.as_str() == "/user/ann")
                & (route.target.as_str() == "http://127.0.0.1:9001")
                & (route.serial == Some(10))
        }
        None => !adoption.stays,
    }
}

/// Whether the adoption ends as it should, and has made these calls.
fn adopts_so<R: Abort + Wait>(rt: &R, alloc: Global, adoption: &Adoption) -> bool {
    let (desk, mut pass) = open_desk(rt, alloc, book(adoption));
    let mut spawner = spawner(rt, alloc, adoption);
    let mut routes = routes(rt, alloc, adoption);
    let works = works(rt, alloc, u64::from(adoption.generation));
    let adopted = adopt(
        rt,
        &desk,
        &mut pass,
        &mut spawner,
        &mut routes,
        works.as_slice(),
    );
    drop(works);
    let book = desk.close(rt, pass);
    let stands = (book.life.phase == adoption.phase) & (book.events == adoption.entries);
    drop(book);
    let called = are_called(&spawner, &routes, adoption.spawned, adoption.routed);
    let listed = is_listed(&mut routes, adoption);
    drop(spawner);
    drop(routes);
    is_adopted(adopted, adoption) & stands & called & listed
}

#[test]
fn adoptions(rt: HostRuntime) {
    let alloc = rt.alloc();
    for adoption in &ADOPTIONS {
        check(&rt, adopts_so(&rt, alloc, adoption), adoption.name);
    }
}
