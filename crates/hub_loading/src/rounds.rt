//! What each user of a job asks.
ghost use Rattle.std.specs.Prelude.{◌≡◌, ◌≤◌, ◌<◌, ◌+◌, ◌^◌, List, [], length, IfOk};
ghost use Rattle.access_laws.specs.Asks.{IsWord};
ghost use Rattle.hub_kit.specs.Names.{IsName, IsServerName};
ghost use Rattle.load_asks.specs.Numbers.{name, token};
ghost use Rattle.load_asks.specs.Posts.{Reached};
ghost use Rattle.hub_loading.specs.Rounds as spec;
ghost use Rattle.hub_loading.specs.Setting.{job_view};
ghost use Rattle.hub_loading.specs.declared.rounds.Round.{Round};

use crate::job::JobFailed;
use crate::setting::{JobBook, JobKit};
use direct_link::direct::DirectLink;
use direct_link::guarding::guard_direct;
use http_wire::error::SessionFault;
use hub_devices::mem_bytes::{MemSink, MemSource};
use hub_devices::mem_clock::FixedClock;
use hub_devices::mem_random::ListRandom;
use hub_devices::mem_routes::MemRouteLink;
use hub_devices::mem_spawner::MemSpawner;
use hub_kit::bytes::Bytes;
use hub_kit::names::{ServerKey, UserName, read_server, read_user};
use hub_kit::target::Target;
use hub_kit::text::Text;
use hub_link::link::HubLink;
use hub_machine::change::Change;
use keeper::mem_keeper::MemKeeper;
use keeper::trail::ListTrail;
use load_asks::asks::ask_status;
use load_asks::numbers::{next_number, token_of};
use load_asks::requests::{get_request, guarded_request};
use proxy_core::refusals::Forwarded;
use std::alloc::Global;
use std::sync::Wait;
use upstreams::mem_upstream::MemUpstream;

/// A link to the hub of a job.
pub type JobLink<'a, W> = DirectLink<
    'a,
    MemKeeper,
    ListTrail<Change>,
    MemSpawner,
    MemRouteLink,
    FixedClock,
    ListRandom,
    W,
>;

/// What a user got: the other user was found, and the guard of that one's server let it in.
#[derive(Clone, Copy)]
pub struct Round {
    pub found: bool,
    pub admitted: bool,
}

/// How many of the rounds came to what.
#[derive(Clone, Copy)]
pub struct Counts {
    pub ok: u64,
    pub missing: u64,
    pub admitted: u64,
    pub refused: u64,
}

/// What the server behind the guard replies.
const NO_CONTENT: &[u8] = b"HTTP/1.1 204 No Content\r\n\r\n";

/// How many bytes are read at once.
const PIECE: usize = 16384;

/// Whether a user is found by the owner of a token.
fn ask_found<H: HubLink>(
    alloc: Global,
    link: &mut H,
    token: &Text,
    user: u32,
) -> Result<bool, JobFailed>
    ensures reached { Reached H.asked H.does link.old link.new }
    ensures found { IfOk result (λ found. spec.Finds H.asked H.does link.old token.now user found link.new) }
{
    let Ok(request) = get_request(alloc, token, user) else {
        return Err(JobFailed);
    };
    match ask_status(link, &request) {
        Some(status) => found_by(status),
        None => Err(JobFailed),
    }
}

/// Whether a reply with this status shows the user.
fn found_by(status: u16) -> Result<bool, JobFailed>
    ensures { IfOk result (λ found. status ≡ spec.found_status found) }
{
    match status {
        200 => Ok(true),
        404 => Ok(false),
        _ => Err(JobFailed),
    }
}

/// The name of a user.
fn name_of(alloc: Global, user: u32) -> Result<UserName, JobFailed>
    ensures value { IfOk result (λ made. made ≡ name user) }
    ensures name { IfOk result (λ _. IsName (name user)) }
{
    let Ok(text) = format!(in alloc; "u{user}") else {
        return Err(JobFailed);
    };
    match read_user(text.as_bytes()) {
        Ok(name) => Ok(name),
        Err(_) => Err(JobFailed),
    }
}

/// The key of a user's default server.
fn key_of(alloc: Global, user: u32) -> Result<ServerKey, JobFailed>
    ensures key { IfOk result (λ key. key ≡ record { user = name user; server = [] }) }
    ensures name { IfOk result (λ _. IsName (name user)) }
{
    let user = name_of(alloc, user)?;
    match read_server(b"") {
        Ok(server) => Ok(ServerKey { user, server }),
        Err(_) => Err(JobFailed),
    }
}

/// Whether the guard of a server passes on a request with a token.
fn ask_guard<'a, W: Wait>(
    alloc: Global,
    link: &mut JobLink<'a, W>,
    key: &ServerKey,
    target: &Target,
    token: &Text,
) -> Result<bool, JobFailed>
    requires user { IsName key.now.user }
    requires server { IsServerName key.now.server }
    requires word { IsWord token.now }
    requires short { length token.now ≤ 1000 }
    ensures same_pass { link.new.pass.ghost_name ≡ link.old.pass.ghost_name }
    ensures same_kit { link.new.kit.ghost_name ≡ link.old.kit.ghost_name }
    ensures guarded { IfOk result (λ admitted. spec.Guarded (job_view link.old.pass.now link.old.kit.now) token.now key.now target.now
        admitted
        (job_view link.new.pass.now link.new.kit.now)) }
{
    let Ok(request) = guarded_request(alloc, token) else {
        return Err(JobFailed);
    };
    let Ok(given) = Bytes::from_slice(alloc, NO_CONTENT) else {
        return Err(JobFailed);
    };
    let mut input = MemSource::new(request, PIECE, Vec::new(alloc));
    let mut output = MemSink::new(alloc, Vec::new(alloc));
    let mut up = MemUpstream::new(alloc, given, PIECE, Vec::new(alloc));
    let ended = guard_direct(alloc, key, target, link, &mut input, &mut output, &mut up);
    drop(input);
    drop(output);
    drop(up);
    admitted_by(ended)
}

/// Whether a request that ended so at a guard was let in.
fn admitted_by(ended: Result<Forwarded, SessionFault>) -> Result<bool, JobFailed>
    ensures { IfOk result (λ admitted. ended ≡ spec.guard_end admitted) }
{
    match ended {
        Ok(Forwarded::Passed) => Ok(true),
        Ok(Forwarded::Refused(403)) => Ok(false),
        _ => Err(JobFailed),
    }
}

/// One user asks for the other, and comes to the guard of the other's server.
fn ask_one<'a, W: Wait>(
    alloc: Global,
    link: &mut JobLink<'a, W>,
    target: &Target,
    user: u32,
    other: u32,
) -> Result<Round, JobFailed>
    requires { user < 1000000 }
    ensures same_pass { link.new.pass.ghost_name ≡ link.old.pass.ghost_name }
    ensures same_kit { link.new.kit.ghost_name ≡ link.old.kit.ghost_name }
    ensures asked { IfOk result (λ round. spec.AskedBy (job_view link.old.pass.now link.old.kit.now) (token user) other target.now round
        (job_view link.new.pass.now link.new.kit.now)) }
{
    let Ok(token) = token_of(alloc, user) else {
        return Err(JobFailed);
    };
    let key = key_of(alloc, other)?;
    let found = ask_found(alloc, link, &token, other)?;
    let admitted = ask_guard(alloc, link, &key, target, &token)?;
    Ok(Round { found, admitted })
}

impl Counts {
    fn none() -> Counts
        ensures { result ≡ record { ok = 0; missing = 0; admitted = 0; refused = 0 } }
    {
        Counts {
            ok: 0,
            missing: 0,
            admitted: 0,
            refused: 0,
        }
    }

    /// With one round more.
    fn with(self, round: Round) -> Counts
        requires found { self.ok + self.missing < 2 ^ 32 }
        requires admitted { self.admitted + self.refused < 2 ^ 32 }
        ensures { result ≡ spec.counted self round }
    {
        Counts {
            ok: self.ok + round.found as u64,
            missing: self.missing + !round.found as u64,
            admitted: self.admitted + round.admitted as u64,
            refused: self.refused + !round.admitted as u64,
        }
    }
}

/// Each of the users asks in turn.
pub(crate) fn ask_all<'a, W: Wait>(
    alloc: Global,
    link: &mut JobLink<'a, W>,
    target: &Target,
    seed: u32,
    users: u32,
) -> Result<Counts, JobFailed>
    requires seed { seed ≤ 65536 }
    requires users { (1 ≤ users) × (users ≤ 1000000) }
    ensures same_pass { link.new.pass.ghost_name ≡ link.old.pass.ghost_name }
    ensures same_kit { link.new.kit.ghost_name ≡ link.old.kit.ghost_name }
    ensures asked { IfOk result (λ counts. (rounds : List Round)
        × spec.Rounds seed users users target.now (job_view link.old.pass.now link.old.kit.now) rounds
        (job_view link.new.pass.now link.new.kit.now)
        × (counts ≡ spec.counts_of rounds)) }
{
    let mut counts = Counts::none();
    let mut number = seed;
    for user in 0..users {
        number = next_number(number);
        let round = ask_one(alloc, link, target, user, number % users)?;
        counts = counts.with(round);
    }
    Ok(counts)
}
