//! The answer to an asked call: the first refusal of its revision, its token, its rights and what has to be there, else what its own
//! rules answer.
ghost use Rattle.std.specs.Prelude.{◌≡◌, ◌↔◌, Some, None, true, false, IfOk};
ghost use Rattle.std.specs.FinMap as map;
ghost use Rattle.hub_core.specs.Answer as spec;
ghost use Rattle.hub_machine.specs.Answers.{answer_view};
ghost use Rattle.hub_machine.specs.Trails.{in_trail};
ghost use Rattle.hub_core.specs.History.{Answers};
ghost use Rattle.hub_core.specs.Judged.{ByRights, decider};
ghost use Rattle.hub_core.specs.Current.{IsCurrent, AreNumbered, Looked};
ghost use Rattle.roles.specs.Rights.{context, IsAllowed, Holds, IsGrantOf};
ghost use Rattle.scope_meet.specs.Named.{AdmitsSomething};
ghost use Rattle.scope_names.specs.declared.action.Action.{Action};
ghost use Rattle.hub_core.specs.Needs as need;
ghost use Rattle.hub_calls.specs.Rights.{may_of};

use crate::caller::good_token;
use crate::dispatch::{by_nobody, row};
use crate::holding::inside_of;
use crate::needs::{first_refusal, is_held, is_there, needs, needs_token};
use crate::stamps::Stamps;
use hub_kit::list::List;
use hub_kit::moment::Moment;
use hub_machine::answer::Answer;
use hub_machine::call::{Asked, Call};
use hub_machine::machine::Machine;
use hub_machine::refusal::Refusal;
use hub_rows::records::Token;
use roles::cache::RightsCache;
use scope_filters::grant::Grant;
use scope_meet::inside::Inside;
use scope_names::action::Action;
use std::alloc::{AllocError, Global};

/// Whether the caller has seen more than there is.
fn is_past(length: u64, seen: Option<u64>) -> bool
    ensures { result ≡ spec.is_past length seen }
{
    match seen {
        None => false,
        Some(seen) => length < seen,
    }
}

/// The length of the history that a caller names.
fn named(seen: Option<u64>) -> u64
    ensures { result ≡ spec.named seen }
{
    match seen {
        None => 0,
        Some(seen) => seen,
    }
}

/// The answer for the token that a call brings, with what it may do.
fn by_token(
    alloc: Global,
    hub: &Machine,
    now: Moment,
    draw: Option<[u8; 16]>,
    token: &Token,
    rights: &Grant,
    is_held: bool,
    inside: Inside,
    call: &Call,
) -> Result<Answer, AllocError>
    ensures { IfOk result (λ answer. answer_view answer ≡ spec.by_token hub.now
        (record { may = may_of hub.now rights.now; is_held = is_held; inside = inside }) now draw call.now (Some token.now)) }
{
    match first_refusal(alloc, hub, rights, is_held, call)? {
        Some(refusal) => Ok(Answer::Refuses(refusal)),
        None => if_there(alloc, hub, now, draw, token, rights, inside, call),
    }
}

fn if_there(
    alloc: Global,
    hub: &Machine,
    now: Moment,
    draw: Option<[u8; 16]>,
    token: &Token,
    rights: &Grant,
    inside: Inside,
    call: &Call,
) -> Result<Answer, AllocError>
    ensures { IfOk result (λ answer. answer_view answer ≡ spec.if_there hub.now (may_of hub.now rights.now) inside now draw token.now
        call.now) }
{
    if is_there(hub, call) {
        row(alloc, hub, now, draw, token, rights, inside, call)
    } else {
        Ok(Answer::Refuses(Refusal::NotFound))
    }
}

/// The answer to an asked call at a moment, for which the token whose rights decide is looked for in the cache. A call that draws has its
/// draw.
pub fn decide(
    alloc: Global,
    hub: &Machine,
    rights: &mut RightsCache,
    stamps: Stamps,
    now: Moment,
    draw: Option<[u8; 16]>,
    asked: &Asked,
) -> Result<Answer, AllocError>
    requires current { IsCurrent rights.old hub.now.tables stamps.since stamps.stamp }
    requires numbered { AreNumbered hub.now.tables }
    ensures answers { IfOk result (λ a. Answers hub.now now draw asked.now (answer_view a)) }
    ensures looked { Looked rights.old stamps.stamp (decider hub.now now asked.now) result rights.new }
    ensures current { IsCurrent rights.new hub.now.tables stamps.since stamps.stamp }
{
    let revision = hub.length();
    let past = is_past(revision, asked.seen);
    if past {
        let seen = named(asked.seen);
        return Ok(Answer::Refuses(Refusal::SeenPast {
            seen,
            length: revision,
        }));
    }
    after_seen(alloc, hub, rights, stamps, now, draw, asked)
}

/// The answer to a call whose caller hasn't seen more than there is.
fn after_seen(
    alloc: Global,
    hub: &Machine,
    rights: &mut RightsCache,
    stamps: Stamps,
    now: Moment,
    draw: Option<[u8; 16]>,
    asked: &Asked,
) -> Result<Answer, AllocError>
    requires current { IsCurrent rights.old hub.now.tables stamps.since stamps.stamp }
    requires numbered { AreNumbered hub.now.tables }
    requires past { spec.is_past hub.now.length asked.now.seen ≡ false }
    ensures answers { IfOk result (λ a. Answers hub.now now draw asked.now (answer_view a)) }
    ensures looked { Looked rights.old stamps.stamp (decider hub.now now asked.now) result rights.new }
    ensures current { IsCurrent rights.new hub.now.tables stamps.since stamps.stamp }
{
    let needed = needs_token(&asked.call);
    if needed {
        return with_token(alloc, hub, rights, stamps, now, draw, asked);
    }
    without_token(alloc, hub, now, draw, &asked.call)
}

/// The answer to a call that needs no token, where the history has room for its change.
fn without_token(
    alloc: Global,
    hub: &Machine,
    now: Moment,
    draw: Option<[u8; 16]>,
    call: &Call,
) -> Result<Answer, AllocError>
    ensures { IfOk result (λ a. answer_view a ≡ in_trail hub.now (spec.by_nobody hub.now now draw call.now)) }
{
    let answer = by_nobody(alloc, hub, now, draw, call)?;
    hub.in_trail(alloc, answer)
}

/// The answer to such a call that needs a token.
fn with_token(
    alloc: Global,
    hub: &Machine,
    rights: &mut RightsCache,
    stamps: Stamps,
    now: Moment,
    draw: Option<[u8; 16]>,
    asked: &Asked,
) -> Result<Answer, AllocError>
    requires current { IsCurrent rights.old hub.now.tables stamps.since stamps.stamp }
    requires numbered { AreNumbered hub.now.tables }
    requires past { spec.is_past hub.now.length asked.now.seen ≡ false }
    requires needed { need.needs_token asked.now.call ≡ true }
    ensures answers { IfOk result (λ a. Answers hub.now now draw asked.now (answer_view a)) }
    ensures looked { Looked rights.old stamps.stamp (decider hub.now now asked.now) result rights.new }
    ensures current { IsCurrent rights.new hub.now.tables stamps.since stamps.stamp }
{
    let caller = good_token(alloc, hub, now, &asked.token)?;
    match caller {
        None => Ok(Answer::Refuses(Refusal::NoValidToken)),
        Some(token) => by_rights(alloc, hub, rights, stamps, now, draw, token, &asked.call),
    }
}

/// The answer to a call that brings a good token, whose rights are looked for in the cache.
fn by_rights(
    alloc: Global,
    hub: &Machine,
    rights: &mut RightsCache,
    stamps: Stamps,
    now: Moment,
    draw: Option<[u8; 16]>,
    token: &Token,
    call: &Call,
) -> Result<Answer, AllocError>
    requires current { IsCurrent rights.old hub.now.tables stamps.since stamps.stamp }
    requires numbered { AreNumbered hub.now.tables }
    requires kept { map.get hub.now.tables.tokens token.now.id ≡ Some token.now }
    ensures answers { IfOk result (λ a. ByRights hub.now now draw token.now call.now (answer_view a)) }
    ensures looked { Looked rights.old stamps.stamp (Some token.now) result rights.new }
    ensures current { IsCurrent rights.new hub.now.tables stamps.since stamps.stamp }
{
    let grant = rights.look_since(alloc, hub.tables(), token, stamps.since, stamps.stamp)?;
    judged(alloc, hub, now, draw, token, grant, call)
}

/// The answer to a call that brings a good token, of which this is the grant.
fn judged(
    alloc: Global,
    hub: &Machine,
    now: Moment,
    draw: Option<[u8; 16]>,
    token: &Token,
    grant: &Grant,
    call: &Call,
) -> Result<Answer, AllocError>
    requires admits { IsGrantOf hub.now.tables (IsAllowed hub.now.tables token.now) grant.now }
    requires holds { (a : Action) → AdmitsSomething (context hub.now.tables) grant.now a ↔ Holds hub.now.tables token.now a }
    ensures { IfOk result (λ a. ByRights hub.now now draw token.now call.now (answer_view a)) }
{
    let is_held = is_held(grant, needs(call));
    match inside_of(alloc, hub.tables(), call) {
        Ok(inside) => with_room(alloc, hub, now, draw, token, grant, is_held, inside, call),
        Err(error) => Err(error),
    }
}

/// The answer for the token that a call brings, where the history has room for its change.
fn with_room(
    alloc: Global,
    hub: &Machine,
    now: Moment,
    draw: Option<[u8; 16]>,
    token: &Token,
    rights: &Grant,
    is_held: bool,
    inside: Inside,
    call: &Call,
) -> Result<Answer, AllocError>
    ensures { IfOk result (λ a. answer_view a ≡ in_trail hub.now
        (spec.by_token hub.now (record { may = may_of hub.now rights.now; is_held = is_held; inside = inside }) now draw call.now
        (Some token.now))) }
{
    let answer = by_token(alloc, hub, now, draw, token, rights, is_held, inside, call)?;
    hub.in_trail(alloc, answer)
}
