//! One round of the culler.
ghost use Rattle.std.specs.Prelude.{◌≡◌, ◌≤◌, ◌++◌, [], length, IfOk, IfErr, OnOk, Err};
ghost use Rattle.std.specs.Prelude as prelude;
ghost use Rattle.hub_devices.specs.Faults.{Rises};
ghost use Rattle.hub_link.specs.Links.{Exchange, Asks};
ghost use Rattle.idle_culler.specs.Culled.{culled};
ghost use Rattle.idle_culler.specs.Rounds.{ReadsUsers, IsRound, IsBroken, IsReadingBroken};
ghost use Rattle.idle_culler.specs.declared.views.UserView.{UserView};

use crate::deletions::delete_all;
use crate::pages::{CullFault, PAGE, Page, ask_page};
use crate::rules::{Cull, CullOptions, push_culled};
use hub_kit::list::List;
use hub_kit::moment::Moment;
use hub_kit::text::Text;
use hub_link::link::HubLink;
use std::alloc::{AllocError, Global};

/// How many users a round has read, how many entries of its list the hub has accepted, and how many it refused.
#[derive(Clone, Copy, Debug, PartialEq, Eq)]
pub struct Round {
    pub users: u64,
    pub culled: u64,
    pub refused: u64,
}

/// What is left of a page once its entries stand in the list.
#[derive(Clone, Copy)]
struct Taken {
    users: u64,
    more: bool,
}

/// Adds what is culled of a page.
fn take_page(
    page: Page,
    list: &mut List<Cull>,
    options: &CullOptions,
    now: Moment,
) -> Result<Taken, AllocError>
    ensures list { OnOk result (list.new ≡ list.old ++ culled options.now now page.users) }
    ensures taken { IfOk result (λ taken. taken ≡ record { users = length page.users; more = page.more }) }
{
    let taken = Taken {
        users: page.users.len() as u64,
        more: page.more,
    };
    let pushed = push_culled(list, page.users.as_slice(), options, now);
    drop(page);
    pushed?;
    Ok(taken)
}

/// Reads the pages from the first to the one without a next page, and adds what is culled of them to an empty list. Gives the
/// number of users.
fn read_pages<H: HubLink>(
    alloc: Global,
    link: &mut H,
    token: &Text,
    options: &CullOptions,
    now: Moment,
    list: &mut List<Cull>,
) -> Result<u64, CullFault>
    requires { list.old ≡ [] }
    ensures ok { IfOk result (λ count. (asks : prelude.List Exchange) × (users : prelude.List UserView)
        × Asks H.asked H.does link.old asks link.new × ReadsUsers token.now asks users
        × (list.new ≡ culled options.now now users) × (count ≡ length users)) }
    ensures err { IfErr result (λ e. (asks : prelude.List Exchange) × Asks H.asked H.does link.old asks link.new
        × IsReadingBroken token.now asks e) }
    ensures counted { H.faults link.old ≤ H.faults link.new }
    ensures cause { result ≡ Err CullFault.LinkFault → Rises (H.faults link.old) (H.faults link.new) }
{
    let mut offset = 0;
    let mut users = 0;
    'pages: loop {
        let page = match ask_page(alloc, link, token, offset) {
            Ok(page) => page,
            Err(fault) => return Err(fault),
        };
        let Ok(taken) = take_page(page, list, options, now) else {
            return Err(CullFault::Memory);
        };
        users += taken.users;
        if !taken.more {
            return Ok(users);
        }
        offset += PAGE;
    }
}

/// A round whose list is kept in an empty list at hand.
fn run_round<H: HubLink>(
    alloc: Global,
    link: &mut H,
    token: &Text,
    options: &CullOptions,
    now: Moment,
    list: &mut List<Cull>,
) -> Result<Round, CullFault>
    requires { list.old ≡ [] }
    ensures ok { IfOk result (λ round. (asks : prelude.List Exchange) × Asks H.asked H.does link.old asks link.new
        × IsRound token.now options.now now asks round) }
    ensures err { IfErr result (λ e. (asks : prelude.List Exchange) × Asks H.asked H.does link.old asks link.new
        × IsBroken token.now options.now now asks e) }
    ensures counted { H.faults link.old ≤ H.faults link.new }
    ensures cause { result ≡ Err CullFault.LinkFault → Rises (H.faults link.old) (H.faults link.new) }
{
    let users = match read_pages(alloc, link, token, options, now, list) {
        Ok(users) => users,
        Err(fault) => return Err(fault),
    };
    match delete_all(alloc, link, token, options.remove_named, list.as_slice()) {
        Ok(counts) => Ok(Round {
            users,
            culled: counts.culled,
            refused: counts.refused,
        }),
        Err(fault) => Err(fault),
    }
}

/// One round: reads the pages of users from the first to the one without a next page, and then asks exactly the deletions of
/// the list of what is culled, in its order, with a second one for each named server that is to be removed and whose stop is
/// done. Its numbers are those of the users read and of the entries that the hub accepted (202 or 204) and refused. An error has
/// asked the beginning of such a round: `BadReply` exactly where a page isn't one, `LinkFault` only where the link failed.
pub fn cull_round<H: HubLink>(
    alloc: Global,
    link: &mut H,
    token: &Text,
    options: &CullOptions,
    now: Moment,
) -> Result<Round, CullFault>
    ensures ok { IfOk result (λ round. (asks : prelude.List Exchange) × Asks H.asked H.does link.old asks link.new
        × IsRound token.now options.now now asks round) }
    ensures err { IfErr result (λ e. (asks : prelude.List Exchange) × Asks H.asked H.does link.old asks link.new
        × IsBroken token.now options.now now asks e) }
    ensures counted { H.faults link.old ≤ H.faults link.new }
    ensures cause { result ≡ Err CullFault.LinkFault → Rises (H.faults link.old) (H.faults link.new) }
{
    let mut list = List::new(alloc);
    let outcome = run_round(alloc, link, token, options, now, &mut list);
    drop(list);
    outcome
}
