//! What one thread asks the table by.
ghost use Rattle.std.specs.Prelude.{◌≡◌, [], false, IfOk};
ghost use Rattle.desk.specs.Passes.{opening};
ghost use Rattle.route_desk.specs.declared.step.Step.TheVariants.{Looked, Asked};
ghost use Rattle.route_desk.specs.History.{Stepped};

use crate::jobs::{AskJob, LookJob};
use crate::route_book::RouteBook;
use desk::{Desk, Pass};
use http_wire::request::Request;
use hub_kit::moment::Moment;
use hub_kit::target::Target;
use hub_kit::text::Text;
use proxy_api::service::RouteService;
use proxy_api::texts::ApiReply;
use route_table::lookup::Lookup;
use route_table::route::RouteRefusal;
use route_table::routes::Routes;
use std::alloc::{AllocError, Global};
use std::sync::Wait;

/// A desk with the table, and its first pass.
pub fn open(alloc: Global, routes: Routes) -> Result<(Desk<RouteBook>, Pass<RouteBook>), AllocError>
    ensures { IfOk result (λ r. r.1 ≡ opening r.0 routes [] 0) }
{
    let book = RouteBook::new(alloc, routes)?;
    match Desk::open(alloc, book) {
        Ok(opened) => Ok(opened),
        Err((book, error)) => {
            drop(book);
            Err(error)
        }
    }
}

/// A pass with its desk.
#[derive(Drop)]
pub struct Router<'a, W: Wait> {
    pub wait: &'a W,
    pub desk: &'a Desk<RouteBook>,
    pub pass: Pass<RouteBook>,
    pub ghost of: { pass.of ≡ desk.now },
}

/// Each answer is that of the table which the steps before it left.
impl<'a, W: Wait> Lookup for Router<'a, W> {
    ghost found = { λ r path now answer r'. Stepped r.pass (Looked path now answer) r'.pass };

    fn look(&mut self, alloc: Global, path: &[u8], now: Moment) -> Result<Target, RouteRefusal> {
        let mut job = LookJob {
            alloc,
            path,
            now,
            acted: false,
        };
        self.desk.visit(self.wait, &mut self.pass, &mut job)
    }
}

impl<'a, W: Wait> RouteService for Router<'a, W> {
    ghost gave = { λ r secret now request reply r'. Stepped r.pass (Asked secret now request reply) r'.pass };

    fn answer(&mut self, alloc: Global, secret: &Text, now: Moment, request: &Request) -> ApiReply {
        let mut job = AskJob {
            alloc,
            secret,
            now,
            request,
            acted: false,
        };
        self.desk.visit(self.wait, &mut self.pass, &mut job)
    }
}
