//! The table of routes with the steps that led to it.
ghost use Rattle.std.specs.Prelude.{◌≡◌, ◌≤◌, ◌^◌, ℕ, [], length, Some, Err, IfOk, IfErr, is_err};
ghost use Rattle.route_desk.specs.declared.step.Step.TheVariants.{Looked, Asked};
ghost use Rattle.route_desk.specs.History.{Steps, first_book, IsLookAnswer, IsUnmade};

use crate::past::Past;
use crate::step::Step;
use desk::Booked;
use http_wire::request::Request;
use hub_kit::moment::Moment;
use hub_kit::target::Target;
use hub_kit::text::Text;
use proxy_api::calls::ApiRefusal;
use proxy_api::service::RouteService;
use proxy_api::texts::ApiReply;
use route_table::lookup::Lookup;
use route_table::route::RouteRefusal;
use route_table::routes::Routes;
use std::alloc::{AllocError, Global};
use std::marker::Model;
use std::snapshot::Snapshot;

/// How many steps are noted at most. No table lives to see them.
const MOST: u64 = 1 << 62;

/// A table of routes, and the steps that led to it.
pub struct RouteBook {
    routes: Routes,
    past: Past,
    count: u64,
    /// The table as it was at first, for contracts alone.
    first: Snapshot<Routes>,
}

impl Drop for RouteBook {
    fn drop(self) {
        let RouteBook {
            routes: _,
            past: _,
            count: _,
            first: _,
        } = self;
    }
}

impl Model for RouteBook {
    ghost use Rattle.std.specs.Prelude.{◌≡◌, ◌≤◌, ◌^◌, length};
    ghost use Rattle.std.specs.Coded.{codes};
    ghost use Rattle.std.specs.FinMap.{code};
    ghost use Rattle.route_desk.specs.History.{Standing, Leads};

    ghost Value = { Standing };

    ghost coded = { Prim.hlevel (codes, code) };

    ghost view = { λ b. record { first = b.first.value; past = b.past; table = b.routes } };

    ghost invariant = { λ b. Leads b.first.value b.past b.routes × (length b.past ≡ b.count) × (b.count ≤ 2 ^ 62) };
}

impl RouteBook {
    /// No step was made.
    pub(crate) fn new(alloc: Global, routes: Routes) -> Result<RouteBook, AllocError>
        ensures { IfOk result (λ b. b ≡ first_book routes) }
    {
        let Ok(past) = Past::new(alloc) else {
            drop(routes);
            return Err(AllocError);
        };
        let first = Snapshot::of(&routes);
        Ok(RouteBook {
            routes,
            past,
            count: 0,
            first,
        })
    }

    /// What a look-up that can't be noted is answered: the target that is found isn't told.
    fn look_untold(&self, path: &[u8]) -> Result<Target, RouteRefusal>
        ensures unmade { (now : ℕ) → IsUnmade self.now.table (Looked path.now now result) }
        ensures answer { IsLookAnswer path.now result }
    {
        match self.routes.find(path) {
            Ok(_) => Err(RouteRefusal::Memory),
            Err(refusal) => Err(refusal),
        }
    }

    /// One look-up.
    pub(crate) fn look(
        &mut self,
        alloc: Global,
        path: &[u8],
        now: Moment,
    ) -> Result<Target, RouteRefusal>
        ensures steps { Steps self.old (Looked path.now now result) self.new }
        ensures answer { IsLookAnswer path.now result }
    {
        if self.count >= MOST {
            return self.look_untold(path);
        }
        let answer = self.routes.look(alloc, path, now);
        self.past.note_look(path, now, &answer);
        self.count += 1;
        answer
    }

    /// One call of the API.
    pub(crate) fn ask(
        &mut self,
        alloc: Global,
        secret: &Text,
        now: Moment,
        request: &Request,
    ) -> ApiReply
        ensures { Steps self.old (Asked secret.now now request.now result) self.new }
    {
        if self.count >= MOST {
            return ApiReply::Refused(ApiRefusal::Memory);
        }
        let reply = self.routes.answer(alloc, secret, now, request);
        self.past.note_asked(secret, now, request, &reply);
        self.count += 1;
        reply
    }
}

impl Booked for RouteBook {
    type Entry = Step;

    type Base = Routes;

    ghost entries = { λ b. b.past };

    ghost base = { λ b. b.first };

    ghost faults = { λ _. 0 };

    fn length(&self) -> u64 {
        let _ = &self.past;
        self.count
    }
}
