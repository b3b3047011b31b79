//! The job.
ghost use Rattle.std.specs.Prelude.{◌≡◌, ◌≤◌, None, IfOk, IfErr, OnOk};
ghost use Rattle.hub_core.specs.Visits.{entries_of};
ghost use Rattle.load_asks.specs.Hashes.{IsFirstKept};
ghost use Rattle.hub_loading.specs.Jobs as spec;
ghost use Rattle.hub_loading.specs.Setting.{IsJobHub, job_view};

use crate::rounds::{Counts, JobLink, ask_all};
use crate::setting::{JobBook, JobKit, new_book, new_kit};
use desk::{Desk, Pass};
use direct_link::direct::DirectLink;
use hub_kit::targets::read_target;
use load_asks::hashes::first_kept;
use load_asks::posts::post_all;
use std::alloc::Global;
use std::sync::Wait;

/// What came of the asks of a job, and the last revision of its hub.
#[derive(Clone, Copy)]
pub struct Loaded {
    /// How many found the other user.
    pub ok: u64,
    pub missing: u64,
    /// How many the guard of the other's server let in.
    pub admitted: u64,
    pub refused: u64,
    pub revision: u64,
}

/// Why there is no job.
#[derive(Clone, Copy)]
pub enum LoadFault {
    /// The token of this draw has the hash of root's token or of an earlier draw.
    HashKept(u32),
    Memory,
}

/// A part of a job found no memory.
#[derive(Clone, Copy)]
pub(crate) struct JobFailed;

/// Makes a hub of as many users, of whom each asks about another one that the seed picks.
pub fn load_job<W: Wait>(
    rt: &W,
    alloc: Global,
    seed: u32,
    users: u32,
) -> Result<(JobBook, Loaded), LoadFault>
    requires seed { seed ≤ 65536 }
    requires users { (1 ≤ users) × (users ≤ 20000) }
    ensures apart { IfOk result (λ _. IsFirstKept users None) }
    ensures hub { IfOk result (λ done. IsJobHub done.0.start) }
    ensures job { IfOk result (λ done. spec.IsJob seed users done.0.start (entries_of done.0) done.1) }
    ensures fault { IfErr result (λ fault. spec.IsFault users fault) }
{
    match first_kept(alloc, users) {
        Ok(None) => {}
        Ok(Some(draw)) => return Err(LoadFault::HashKept(draw)),
        Err(_) => return Err(LoadFault::Memory),
    }
    match run_job(rt, alloc, seed, users) {
        Ok(done) => Ok(done),
        Err(_) => Err(LoadFault::Memory),
    }
}

/// The same where the hashes of all tokens are apart.
fn run_job<W: Wait>(
    rt: &W,
    alloc: Global,
    seed: u32,
    users: u32,
) -> Result<(JobBook, Loaded), JobFailed>
    requires seed { seed ≤ 65536 }
    requires users { (1 ≤ users) × (users ≤ 20000) }
    ensures hub { IfOk result (λ done. IsJobHub done.0.start) }
    ensures job { IfOk result (λ done. spec.IsJob seed users done.0.start (entries_of done.0) done.1) }
{
    let Ok(mut kit) = new_kit(alloc, users) else {
        return Err(JobFailed);
    };
    let book = new_book(alloc)?;
    let (desk, mut pass) = match Desk::open(alloc, book) {
        Ok(opened) => opened,
        Err((book, _)) => {
            drop(book);
            return Err(JobFailed);
        }
    };
    let counts = ask_hub(rt, alloc, &desk, &mut pass, &mut kit, seed, users);
    drop(kit);
    match counts {
        Ok(counts) => {
            let book = desk.close(rt, pass);
            let loaded = loaded_of(counts, book.length());
            Ok((book, loaded))
        }
        Err(failed) => {
            drop(pass);
            drop(desk);
            Err(failed)
        }
    }
}

fn loaded_of(counts: Counts, revision: u64) -> Loaded
    ensures { result ≡ spec.loaded_of counts revision }
{
    Loaded {
        ok: counts.ok,
        missing: counts.missing,
        admitted: counts.admitted,
        refused: counts.refused,
        revision,
    }
}

/// Posts all users and their tokens, and lets each ask, by one pass.
fn ask_hub<W: Wait>(
    rt: &W,
    alloc: Global,
    desk: &Desk<JobBook>,
    pass: &mut Pass<JobBook>,
    kit: &mut JobKit,
    seed: u32,
    users: u32,
) -> Result<Counts, JobFailed>
    requires of { pass.old.of ≡ desk.now }
    requires seed { seed ≤ 65536 }
    requires users { (1 ≤ users) × (users ≤ 20000) }
    ensures { IfOk result (λ counts. spec.Runs seed users (job_view pass.old kit.old) counts (job_view pass.new kit.new)) }
{
    let Ok(target) = read_target(alloc, b"http://127.0.0.1:9000") else {
        return Err(JobFailed);
    };
    let mut link = DirectLink::new(rt, alloc, desk, pass, kit);
    post_users(alloc, &mut link, users)?;
    ask_all(alloc, &mut link, &target, seed, users)
}

/// Posts as many users, each with a token.
fn post_users<'a, W: Wait>(
    alloc: Global,
    link: &mut JobLink<'a, W>,
    users: u32,
) -> Result<(), JobFailed>
    ensures same_pass { link.new.pass.ghost_name ≡ link.old.pass.ghost_name }
    ensures same_kit { link.new.kit.ghost_name ≡ link.old.kit.ghost_name }
    ensures posted { OnOk result (spec.PostsAll users (job_view link.old.pass.now link.old.kit.now)
        (job_view link.new.pass.now link.new.kit.now)) }
{
    match post_all(alloc, link, users) {
        Ok(()) => Ok(()),
        Err(_) => Err(JobFailed),
    }
}
