//! The hub of a job, and its devices.
ghost use Rattle.std.specs.Prelude.{◌≡◌, ◌≤◌, ◌^◌, [], codes, Some, IfOk};
ghost use Rattle.hub_core.specs.Visits.{entries_of};
ghost use Rattle.hub_opening.specs.Kept.{MakeTable};
ghost use Rattle.hub_loading.specs.Setting as spec;

use crate::job::JobFailed;
use hub_core::book::Book;
use hub_devices::clock::Clock;
use hub_devices::mem_clock::FixedClock;
use hub_devices::mem_random::ListRandom;
use hub_devices::mem_routes::MemRouteLink;
use hub_devices::mem_spawner::MemSpawner;
use hub_devices::random::Random;
use hub_kit::list::List;
use hub_kit::moment::Moment;
use hub_kit::names::{UserName, read_user};
use hub_kit::text::Text;
use hub_machine::change::Change;
use hub_opening::config::{ConfigToken, ConfigUser, HubConfig, greatest_limits};
use hub_run::HubKit;
use keeper::mem_keeper::MemKeeper;
use keeper::trail::ListTrail;
use load_asks::numbers::draw_of;
use scope_filters::holder::Owner;
use scope_filters::scope::RawScope;
use scope_names::custom::CustomRow;
use server_life::Pool;
use std::alloc::{AllocError, Global};

pub type JobBook = Book<MemKeeper, ListTrail<Change>>;

pub type JobKit = HubKit<MemSpawner, MemRouteLink, FixedClock, ListRandom>;

/// When the job is: 2023-11-14T22:13:20Z.
pub const NOW: u64 = 1_700_000_000;

/// Root's token.
fn root_token(alloc: Global, root: UserName) -> Result<ConfigToken, AllocError>
    ensures { IfOk result (λ token. token ≡ spec.token_of root) }
{
    let scopes = vec![in alloc; RawScope::Inherit]?;
    let text = Text::from_str(alloc, "load-admin-token")?;
    Ok(ConfigToken {
        text,
        owner: Owner::User(root),
        scopes: List::from_vec(scopes),
    })
}

/// No custom scopes, which make a table.
fn no_scopes(alloc: Global) -> List<CustomRow>
    ensures none { result ≡ [] }
    ensures table { MakeTable result }
{
    List::new(alloc)
}

/// A hub whose one user, the admin, is root.
fn config(alloc: Global, root: UserName) -> Result<HubConfig, AllocError>
    ensures config { IfOk result (λ config. config ≡ spec.config_of root) }
    ensures trail { IfOk result (λ config. config.limits.trail_bytes ≤ 2 ^ 62) }
    ensures scopes { IfOk result (λ config. MakeTable config.custom_scopes) }
{
    let token = root_token(alloc, root)?;
    let tokens = vec![in alloc; token]?;
    let user = ConfigUser {
        name: root,
        admin: true,
    };
    let users = vec![in alloc; user]?;
    Ok(HubConfig {
        pool: Pool::empty(alloc),
        hub_url: None,
        limits: greatest_limits(),
        no_trail: false,
        users: List::from_vec(users),
        groups: List::new(alloc),
        services: List::new(alloc),
        roles: List::new(alloc),
        tokens: List::from_vec(tokens),
        custom_scopes: no_scopes(alloc),
    })
}

/// The book of a hub that was set up so, in memory.
pub(crate) fn new_book(alloc: Global) -> Result<JobBook, JobFailed>
    ensures hub { IfOk result (λ book. spec.IsJobHub book.start) }
    ensures entries { IfOk result (λ book. entries_of book ≡ []) }
{
    let Ok(root) = read_user(b"root") else {
        return Err(JobFailed);
    };
    let Ok(keeper) = MemKeeper::new(alloc, Vec::new(alloc), Vec::new(alloc)) else {
        return Err(JobFailed);
    };
    let Ok(config) = config(alloc, root) else {
        drop(keeper);
        return Err(JobFailed);
    };
    let now = Moment::up_to(NOW);
    let book = Book::open(alloc, keeper, ListTrail::new(alloc), &config, now);
    drop(config);
    match book {
        Ok(book) => Ok(book),
        Err(refused) => {
            drop(refused);
            Err(JobFailed)
        }
    }
}

/// Draws 1 to n.
fn draws(alloc: Global, n: u32) -> Result<Vec<[u8; 16]>, AllocError>
    requires { n ≤ 1000000 }
    ensures { IfOk result (λ draws. draws.items ≡ spec.draws n) }
{
    let mut draws = Vec::new(alloc);
    for k in 0..n {
        draws.push(draw_of(k + 1))?;
    }
    Ok(draws)
}

/// The devices of a job with so many draws.
pub(crate) fn new_kit(alloc: Global, n: u32) -> Result<JobKit, AllocError>
    requires { n ≤ 1000000 }
    ensures draws { IfOk result (λ kit. ⟦<ListRandom as Random>⟧.left kit.random ≡ Some (spec.draws n)) }
    ensures clock { IfOk result (λ kit. ⟦<FixedClock as Clock>⟧.to_come kit.clock ≡ Some (λ k. 1700000000)) }
{
    let draws = draws(alloc, n)?;
    Ok(HubKit {
        spawner: MemSpawner::new(alloc, Vec::new(alloc)),
        routes: MemRouteLink::new(alloc, Vec::new(alloc)),
        clock: FixedClock(Moment::up_to(NOW)),
        random: ListRandom::new(draws, Vec::new(alloc)),
    })
}
