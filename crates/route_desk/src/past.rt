//! What has been done, for contracts alone. It takes one word of memory, however long it is.
ghost use Rattle.std.specs.Prelude.{◌≡◌, ◌++◌, ◌∷◌, [], List, IfOk, ⊤};
ghost use Rattle.route_desk.specs.declared.step.Step as steps;
ghost use Rattle.route_desk.specs.declared.step.Step.TheVariants.{Looked, Asked};

use crate::step::Step;
use atomic_table::{Play, Seat, Table, TableRule};
use http_wire::request::Request;
use hub_kit::moment::Moment;
use hub_kit::target::Target;
use hub_kit::text::Text;
use proxy_api::texts::ApiReply;
use route_table::route::RouteRefusal;
use std::alloc::{AllocError, Global};
use std::collections::LinkedList;
use std::marker::{Brand, Model, PhantomData};

/// Nothing is asked of what a seat knows.
pub(crate) struct Free;

impl TableRule<(), LinkedList<Step>, ()> for Free {
    ghost holds = { λ _ _. ⊤ };

    ghost first = { λ _. [] };
}

/// Steps that are noted.
pub(crate) trait Noted {
    ghost more: { List steps.Step };
}

// The caller of a brand picks what it stands for.
impl Noted for Brand {
    ghost more = { [] };
}

/// The steps stand behind those that the seat knew.
struct Notes<N: Noted> {
    of: PhantomData<N>,
}

impl<N: Noted> Play<(), LinkedList<Step>> for Notes<N> {
    ghost then = { λ _ m _ m'. m' ≡ (m.0 ++ N.more, m.1) };
}

/// The steps so far, as a seat of a table that nobody else has.
pub(crate) struct Past {
    table: Table<(), LinkedList<Step>, (), Free, Global>,
    seat: Seat<(), LinkedList<Step>>,
}

impl Drop for Past {
    fn drop(self) {
        let Past { table: _, seat: _ } = self;
    }
}

impl Model for Past {
    ghost use Rattle.std.specs.Prelude.{◌≡◌, List};
    ghost use Rattle.route_desk.specs.declared.step.Step as steps;

    ghost Value = { List steps.Step };

    ghost view = { λ p. p.seat.me.0 };

    ghost invariant = { λ p. (p.seat.table_id ≡ p.table.shared.table_id) × (p.table.shared.table_id.words ≡ 1) };
}

impl Past {
    /// Nothing has been done.
    pub(crate) fn new(alloc: Global) -> Result<Past, AllocError>
        ensures { IfOk result (λ past. past ≡ []) }
    {
        match Table::new(alloc, &[0], Vec::new(alloc), &()) {
            Ok((table, seat)) => Ok(Past { table, seat }),
            Err(_) => Err(AllocError),
        }
    }

    fn note<N: Noted>(&mut self)
        ensures { self.new ≡ self.old ++ N.more }
    {
        let table = &self.table;
        table.shared.store::<Notes<N>>(&mut self.seat, 0, 0);
    }

    fn note_as<N: Noted>(&mut self, path: &[u8], now: Moment, answer: &Result<Target, RouteRefusal>)
        ensures { self.new ≡ self.old ++ N.more }
    {
        // the caller picks from these what is noted
        let _ = path;
        let _ = now;
        let _ = answer;
        self.note::<N>();
    }

    /// A look-up has been answered.
    pub(crate) fn note_look(
        &mut self,
        path: &[u8],
        now: Moment,
        answer: &Result<Target, RouteRefusal>,
    )
        ensures { self.new ≡ self.old ++ Looked path.now now answer.now ∷ [] }
    {
        self.note_as::<Brand>(path, now, answer);
    }

    fn note_reply<N: Noted>(
        &mut self,
        secret: &Text,
        now: Moment,
        request: &Request,
        reply: &ApiReply,
    )
        ensures { self.new ≡ self.old ++ N.more }
    {
        // the caller picks from these what is noted
        let _ = secret;
        let _ = now;
        let _ = request;
        let _ = reply;
        self.note::<N>();
    }

    /// A request has been answered.
    pub(crate) fn note_asked(
        &mut self,
        secret: &Text,
        now: Moment,
        request: &Request,
        reply: &ApiReply,
    )
        ensures { self.new ≡ self.old ++ Asked secret.now now request.now reply.now ∷ [] }
    {
        self.note_reply::<Brand>(secret, now, request, reply);
    }
}
